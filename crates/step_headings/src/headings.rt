//! The headings of an exchange structure's data sections, and their comparison.

ghost use Rattle.std.specs.Prelude.{◌≡◌, ◌↔◌, IsTrue, map};
ghost use Rattle.step_exchange.specs.Exchanges.{structure};
ghost use Rattle.step_exchange.specs.Sections.{heading_of};
ghost use Rattle.step_headings.specs.Headings.{SameHeadings, heading_items};
ghost use Rattle.step_headings.specs.steps.Views.{AreHeadingsOf, heading_seen};

use step_exchange::section::Section;
use step_exchange::structure::Exchange;

/// The headings of the data sections of an exchange structure, in order: for each section its name
/// and the name of its schema, if it has them. They borrow the text of the structure.
#[derive(Drop)]
pub struct Headings<'a> {
    sections: Vec<Section<'a>>,
}

/// Whether the headings of two sections are equal.
fn is_same<'a, 'b>(section: &Section<'a>, other: &Section<'b>) -> bool
    ensures { IsTrue result ↔ (heading_items (heading_of section.now.heading)
        ≡ heading_items (heading_of other.now.heading)) }
{
    match (section.heading, other.heading) {
        (None, None) => true,
        (Some((name, schema)), Some((other_name, other_schema))) => {
            name == other_name && schema == other_schema
        }
        _ => false,
    }
}

/// Whether two lists have equally many sections, with equal headings in turn.
fn are_alike<'a, 'b>(sections: &[Section<'a>], others: &[Section<'b>]) -> bool
    ensures { IsTrue result ↔ (map heading_seen sections.now ≡ map heading_seen others.now) }
{
    if sections.len() != others.len() {
        return false;
    }
    for index in 0..sections.len() {
        if !is_same(&sections[index], &others[index]) {
            return false;
        }
    }
    true
}

impl<'a> Headings<'a> {
    /// Returns the headings of a structure, and drops its header and instances. It allocates no
    /// memory.
    pub fn of(exchange: Exchange<'a>) -> Headings<'a>
        ensures { AreHeadingsOf result (structure exchange.entry) }
    {
        let Exchange { sections, .. } = exchange;
        Headings { sections }
    }

    /// Whether a structure has equally many data sections, with these headings in turn. Two
    /// headings are equal if both are absent, or if their names and schemas have the same
    /// characters, however they are spelt. Sections without instances count like all others.
    pub fn are_those_of<'b>(&self, other: &Exchange<'b>) -> bool
        ensures { IsTrue result ↔ AreHeadingsOf self.now (structure other.now) }
    {
        are_alike(&self.sections, &other.sections)
    }
}

/// Whether two exchange structures have equally many data sections, with equal headings in turn.
/// Two headings are equal if both are absent, or if their names and schemas have the same
/// characters, however they are spelt. Sections without instances count like all others.
pub fn same_headings<'a, 'b>(exchange: &Exchange<'a>, other: &Exchange<'b>) -> bool
    ensures { IsTrue result ↔ SameHeadings (structure exchange.now) (structure other.now) }
{
    are_alike(&exchange.sections, &other.sections)
}
