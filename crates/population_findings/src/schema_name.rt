//! The schema names in an exchange structure.

ghost use Rattle.std.specs.Prelude.{◌≡◌, ◌==◌, ◌||◌, map, drop, string_bytes};
ghost use Rattle.std.specs.Char.{to_ascii_uppercase};
ghost use Rattle.step_literals.specs.Words.{upper};
ghost use Rattle.step_literals.specs.Items.{string_items};
ghost use Rattle.express_syntax.specs.SchemaViews.{schema_of};
ghost use Rattle.step_exchange.specs.Views.{record_in};
ghost use Rattle.step_exchange.specs.Sections.{heading_of};
ghost use Rattle.step_exchange.specs.Exchanges.{structure};
ghost use Rattle.conformance.specs.OtherNames.{other_names};
ghost use Rattle.conformance.specs.Findings.{
  code_of,
  or_zero,
  names_schema,
  names_one,
  heading_names,
  is_of_schema,
};
ghost use Rattle.population_findings.specs.steps.SchemaNames.{
  IsAlone,
  IsSchemaText,
  headings_name,
  is_next,
  names_in_files,
  names_so,
};

use express_syntax::tree::SchemaTree;
use step_exchange::section::Section;
use step_exchange::structure::Exchange;
use step_literals::literal::{Item, Text};
use step_records::param::{Node, Param, Params};

/// Returns the code of a character of ISO 10646, and 0 for any other item.
fn character(item: Item) -> u32
    ensures { result ≡ or_zero (code_of item) }
{
    match item {
        Item::Code(code) => code,
        _ => 0,
    }
}

/// Whether the name of a schema ends before `character`: a space, or the brace that opens an object
/// identifier (ISO 10303-21, 8.2.4).
fn ends_name(character: u32) -> bool
    ensures { result ≡ (character == 32 || character == 123) }
{
    character == 32 || character == 123
}

/// Returns `character` in upper case if it is an ASCII letter, otherwise unchanged.
fn raised(character: u32) -> u32
    ensures { result ≡ to_ascii_uppercase character }
{
    if character < 97 || 122 < character {
        return character;
    }
    character - 32
}

/// Whether `item` belongs to a schema name and is the letter `byte`, in either case.
fn is_next(item: Item, byte: u8) -> bool
    ensures { result ≡ is_next item byte }
{
    let character = character(item);
    !ends_name(character) && raised(character) == raised(u32::from(byte))
}

/// Whether `text` spells `name`. Case is ignored, and an object identifier may follow.
fn spells(name: &[u8], text: Text<'_>) -> bool
    ensures { result ≡ names_so name.now (string_items text.entry.text.now) }
{
    let mut items = text.items();
    for byte in name {
        let Some(item) = items.next() else {
            return false;
        };
        if !is_next(item, *byte) {
            return false;
        }
    }
    match items.next() {
        Some(item) => ends_name(character(item)),
        None => true,
    }
}

/// Whether `text` names the schema called `name`. Case is ignored, and an object identifier may
/// follow. An empty name is no schema's.
fn names_schema(name: &[u8], text: Text<'_>) -> bool
    ensures { result ≡ names_schema (upper name.now) text.entry.text.now }
{
    !name.is_empty() && spells(name, text)
}

/// Whether `text` calls a schema by one of these `names`.
fn names_other(names: &[String], text: Text<'_>) -> bool
    ensures { result ≡ names_one (map upper (map string_bytes names.now)) text.entry.text.now }
{
    names.iter().any(|name| names_schema(name.as_bytes(), text))
}

/// Whether `text` calls `schema` by its own name or by one of its other names.
fn names_one(schema: &SchemaTree<'_>, text: Text<'_>) -> bool
    ensures { result ≡ names_one (names_in_files schema.now) text.entry.text.now }
{
    names_schema(schema.name.spelling(), text) || names_other(&schema.other_names, text)
}

/// Returns the only element of `params`; `None` if there isn't exactly one.
fn only<'a, 't>(params: &Params<'a, 't>) -> Option<Param<'a, 't>>
    ensures { IsAlone params.now result }
{
    if params.len() == 1 {
        return Some(params.at(0));
    }
    None
}

/// Returns the string with the schema's name in FILE_SCHEMA, the third record of the header. It has
/// to be the only element of a list that is the only parameter; otherwise returns `None`.
fn schema_text<'a>(header: &Params<'a, '_>) -> Option<Text<'a>>
    ensures { IsSchemaText (map record_in header.now) result }
{
    let Some(record) = header.item(2) else {
        return None;
    };
    let (_, values) = record.parts().split(1);
    let Some(list) = only(&values) else {
        return None;
    };
    let Some(name) = only(&list.parts()) else {
        return None;
    };
    match name.node() {
        Node::Text(text) => Some(text),
        _ => None,
    }
}

/// Whether a data section calls `schema` by one of its names, or names none (ISO 10303-21, 11.1).
fn heading_names(schema: &SchemaTree<'_>, heading: Option<(Text<'_>, Text<'_>)>) -> bool
    ensures { result ≡ heading_names (names_in_files schema.now) (heading_of heading.entry) }
{
    match heading {
        Some((_, text)) => names_one(schema, text),
        None => true,
    }
}

/// Whether each data section calls `schema` by one of its names, or names none.
fn headings_name(schema: &SchemaTree<'_>, sections: &[Section<'_>]) -> bool
    ensures { result ≡ headings_name (names_in_files schema.now) sections.now }
{
    for section in sections {
        if !heading_names(schema, section.heading) {
            return false;
        }
    }
    true
}

/// Whether the header calls `schema` by its own name or by one of its other names, and each data
/// section that names a schema does so too.
pub fn is_of_schema(schema: &SchemaTree<'_>, exchange: &Exchange<'_>) -> bool
    ensures { result ≡ is_of_schema (schema_of schema.now) (other_names schema.now)
        (structure exchange.now) }
{
    let (header, _) = exchange.trees.trees().split(exchange.header_len);
    let Some(text) = schema_text(&header) else {
        return false;
    };
    names_one(schema, text) && headings_name(schema, &exchange.sections)
}
