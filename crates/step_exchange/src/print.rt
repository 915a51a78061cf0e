//! The normal text of an exchange structure, with its references replaced.

ghost use Rattle.std.specs.Prelude.{
  ◌≡◌,
  ◌++◌,
  ◌==◌,
  [],
  ◌∷◌,
  false,
  take,
  drop,
  map,
  codes,
  is_err,
  IsTrue,
  IfSome,
  get_or,
};
ghost use Rattle.devices.specs.steps.Prints.{Prints};
ghost use Rattle.devices.specs.Emits.{Emits};
ghost use Rattle.step_records.specs.Cells.{all_of};
ghost use Rattle.step_records.specs.Params.{node_value};
ghost use Rattle.step_exchange.specs.Views.{
  record_of,
  record_in,
  begins_with_keyword,
  form_of,
  form_in,
  rows_with,
};
ghost use Rattle.step_literals.specs.Words.{upper};
ghost use Rattle.step_structures.specs.Normal.{
  plain_name,
  plain_tree,
  plain_trees,
  plain_record,
  plain_partial_records,
  plain_form,
  plain_rows,
  plain_heading,
  plain_section,
  plain_sections,
};
ghost use Rattle.step_structures.specs.MergedTexts.{
  led_tree,
  led_trees,
  led_record,
  led_form,
  merged_rows,
  merged_section,
  merged_sections,
  merged_text,
};
ghost use Rattle.step_exchange.specs.Sections.{heading_of, sections_of};
ghost use Rattle.step_exchange.specs.Exchanges.{structure};

use crate::reference_targets::Leads;
use crate::section::Section;
use crate::structure::Exchange;
use devices::device::{Sink, WriteFault};
use devices::printer::Printer;
use step_literals::literal::Text;
use step_records::param::{Node, Param, Params, cut};

// Whether no byte of the word is `a` or greater. It has no early exit, so that several bytes can be
// tested at a time.
fn stands_raised(word: &[u8]) -> bool
    ensures { IsTrue result → upper word.now ≡ word.now }
{
    let mut most = 0;
    for byte in word {
        most = most.max(*byte);
    }
    most < b'a'
}

// Prints a word in upper case, byte by byte.
fn print_raised<S: Sink>(printer: &mut Printer, out: &mut S, word: &[u8])
    ensures { Prints S.held S.has_failed out.old out.new printer.old printer.new (upper word.now) }
{
    for byte in word {
        printer.print_byte(out, byte.to_ascii_uppercase());
    }
}

// Prints a word in upper case. Most words are in upper case already, and are printed whole.
fn print_upper<S: Sink>(printer: &mut Printer, out: &mut S, word: &[u8])
    ensures { Prints S.held S.has_failed out.old out.new printer.old printer.new (upper word.now) }
{
    if stands_raised(word) {
        printer.print(out, word);
    } else {
        print_raised(printer, out, word);
    }
}

// Prints an enumeration element.
fn print_element<S: Sink>(printer: &mut Printer, out: &mut S, word: &[u8])
    ensures { Prints S.held S.has_failed out.old out.new printer.old printer.new
        (codes "." ++ upper word.now ++ codes ".") }
{
    printer.print_byte(out, b'.');
    print_upper(printer, out, word);
    printer.print_byte(out, b'.');
}

// Prints the name of an instance, or a reference to it.
fn print_name<S: Sink>(printer: &mut Printer, out: &mut S, name: u64)
    ensures { Prints S.held S.has_failed out.old out.new printer.old printer.new (plain_name name) }
{
    let mut digits = itoa::Buffer::new();
    printer.print_byte(out, b'#');
    printer.print(out, digits.format(name).as_bytes());
}

// Whether the bytes begin like a reference.
fn is_reference(spelling: &[u8]) -> bool
    ensures { result ≡ (get_or spelling.now 0 0 == 35) }
{
    match spelling.first() {
        Some(byte) => *byte == b'#',
        None => false,
    }
}

// Returns the spelling of a parameter, if it is printed unchanged.
fn literal<'a, L: Leads>(leads: &L, param: &Param<'a, '_>) -> Option<&'a [u8]>
    ensures { IfSome result (λ s. plain_tree (led_tree (L.led leads.now) param.now) ≡ s.now) }
{
    let spelling = param.literal()?;
    if leads.is_itself() || !is_reference(spelling) {
        Some(spelling)
    } else {
        None
    }
}

// Prints a parameter; a literal keeps its spelling.
#[cycle(params)]
fn print_param<S: Sink, L: Leads>(
    printer: &mut Printer,
    out: &mut S,
    leads: &L,
    param: &Param<'_, '_>,
)
    ensures { Prints S.held S.has_failed out.old out.new printer.old printer.new
        (plain_tree (led_tree (L.led leads.now) param.now)) }
{
    match literal(leads, param) {
        Some(spelling) => printer.print(out, spelling),
        None => print_node(printer, out, leads, &param.node()),
    }
}

// Prints the outermost part of a parameter, and what is inside it.
#[cycle(params)]
#[inline(never)]
fn print_node<S: Sink, L: Leads>(printer: &mut Printer, out: &mut S, leads: &L, node: &Node<'_, '_>)
    ensures { Prints S.held S.has_failed out.old out.new printer.old printer.new
        (plain_tree (led_tree (L.led leads.now) (node_value node.now))) }
{
    match node {
        Node::Unset => printer.print_byte(out, b'$'),
        Node::Star => printer.print_byte(out, b'*'),
        Node::Number(number) => printer.print(out, number.spelling()),
        Node::Text(text) => printer.print(out, text.spelling()),
        Node::Bits(bits) => printer.print(out, bits.spelling()),
        Node::Element(word) => print_element(printer, out, word.spelling()),
        Node::Reference(name, _) => print_name(printer, out, leads.lead(*name)),
        Node::Keyword(word) => print_upper(printer, out, word.spelling()),
        Node::Typed(keyword, inner) => {
            print_upper(printer, out, keyword.spelling());
            printer.print_byte(out, b'(');
            print_param(printer, out, leads, inner);
            printer.print_byte(out, b')');
        }
        Node::List(params) => {
            printer.print_byte(out, b'(');
            print_params(printer, out, leads, params);
            printer.print_byte(out, b')');
        }
    }
}

// Prints parameters, separated by commas.
#[cycle(params)]
fn print_params<S: Sink, L: Leads>(
    printer: &mut Printer,
    out: &mut S,
    leads: &L,
    params: &Params<'_, '_>,
)
    ensures { Prints S.held S.has_failed out.old out.new printer.old printer.new
        (plain_trees (led_trees (L.led leads.now) (all_of params.now))) }
{
    match params.spelling() {
        Some(spelling) => printer.print(out, spelling),
        None => print_each(printer, out, leads, params),
    }
}

// Prints parameters one by one, separated by commas.
#[cycle(params)]
fn print_each<S: Sink, L: Leads>(
    printer: &mut Printer,
    out: &mut S,
    leads: &L,
    params: &Params<'_, '_>,
)
    ensures { Prints S.held S.has_failed out.old out.new printer.old printer.new
        (plain_trees (led_trees (L.led leads.now) (all_of params.now))) }
{
    let Some(first) = params.item(0) else {
        return;
    };
    let (_, further) = params.split(1);
    print_param(printer, out, leads, &first);
    for i in 0..further.len() {
        printer.print_byte(out, b',');
        print_param(printer, out, leads, &further.at(i));
    }
}

// Returns the keyword that comes first, if any, otherwise no bytes.
fn first_keyword<'a>(parts: &Params<'a, '_>) -> &'a [u8]
    ensures { result.now ≡ (record_of parts.now).keyword }
{
    match parts.item(0) {
        Some(first) => first.keyword(),
        None => &[],
    }
}

// Prints a keyword and its parameters.
fn print_parts<S: Sink, L: Leads>(
    printer: &mut Printer,
    out: &mut S,
    leads: &L,
    parts: &Params<'_, '_>,
)
    ensures { Prints S.held S.has_failed out.old out.new printer.old printer.new
        (plain_record (led_record (L.led leads.now) (record_of parts.now))) }
{
    print_upper(printer, out, first_keyword(parts));
    printer.print_byte(out, b'(');
    let (_, values) = parts.split(1);
    print_params(printer, out, leads, &values);
    printer.print_byte(out, b')');
}

// Prints partial records, one after another.
fn print_partial_records<S: Sink, L: Leads>(
    printer: &mut Printer,
    out: &mut S,
    leads: &L,
    partials: &Params<'_, '_>,
)
    ensures { Prints S.held S.has_failed out.old out.new printer.old printer.new
        (plain_partial_records (map (led_record (L.led leads.now)) (map record_in partials.now))) }
{
    for i in 0..partials.len() {
        print_parts(printer, out, leads, &partials.at(i).parts());
    }
}

// Whether an instance is mapped internally, so that a keyword comes first.
fn is_internal(parts: &Params<'_, '_>) -> bool
    ensures { result ≡ begins_with_keyword parts.now }
{
    match parts.item(0) {
        Some(first) => matches!(first.node(), Node::Keyword(_)),
        None => false,
    }
}

// Prints the form of an instance, which follows its `=`.
fn print_form<S: Sink, L: Leads>(
    printer: &mut Printer,
    out: &mut S,
    leads: &L,
    parts: &Params<'_, '_>,
)
    ensures { Prints S.held S.has_failed out.old out.new printer.old printer.new
        (plain_form (led_form (L.led leads.now) (form_of parts.now))) }
{
    if is_internal(parts) {
        print_parts(printer, out, leads, parts);
    } else {
        printer.print_byte(out, b'(');
        print_partial_records(printer, out, leads, parts);
        printer.print_byte(out, b')');
    }
}

// Prints the line of an instance, if its name is mapped to itself.
fn print_row<S: Sink, L: Leads>(
    printer: &mut Printer,
    out: &mut S,
    leads: &L,
    name: u64,
    form: &Param<'_, '_>,
)
    ensures { Prints S.held S.has_failed out.old out.new printer.old printer.new
        (plain_rows (merged_rows (L.led leads.now)
        (record { name = name; form = form_in form.now } ∷ []))) }
{
    if leads.lead(name) != name {
        return;
    }
    print_name(printer, out, name);
    printer.print_byte(out, b'=');
    print_form(printer, out, leads, &form.parts());
    printer.print(out, b";\n");
}

// Prints a line for each instance whose name is mapped to itself, in order.
fn print_rows<S: Sink, L: Leads>(
    printer: &mut Printer,
    out: &mut S,
    leads: &L,
    names: &[u64],
    forms: &Params<'_, '_>,
)
    ensures { Prints S.held S.has_failed out.old out.new printer.old printer.new
        (plain_rows (merged_rows (L.led leads.now) (rows_with names.now forms.now))) }
{
    for i in 0..names.len() {
        let Some(form) = forms.item(i) else {
            return;
        };
        print_row(printer, out, leads, names[i], &form);
    }
}

// Prints the name of a section and the name of its schema, if it has them.
fn print_heading<S: Sink>(printer: &mut Printer, out: &mut S, heading: Option<(Text<'_>, Text<'_>)>)
    ensures { Prints S.held S.has_failed out.old out.new printer.old printer.new
        (plain_heading (heading_of heading.entry)) }
{
    if let Some((name, schema)) = heading {
        printer.print(out, b"(");
        printer.print(out, name.spelling());
        printer.print(out, b",(");
        printer.print(out, schema.spelling());
        printer.print(out, b"))");
    }
}

// Prints a data section with these instances.
fn print_section<S: Sink, L: Leads>(
    printer: &mut Printer,
    out: &mut S,
    leads: &L,
    section: Section<'_>,
    names: &[u64],
    forms: &Params<'_, '_>,
)
    ensures { Prints S.held S.has_failed out.old out.new printer.old printer.new
        (plain_section (merged_section (L.led leads.now) (record {
          heading = heading_of section.entry.heading;
          rows = rows_with names.now forms.now;
        }))) }
{
    printer.print(out, b"DATA");
    print_heading(printer, out, section.heading);
    printer.print(out, b";\n");
    print_rows(printer, out, leads, names, forms);
    printer.print(out, b"ENDSEC;\n");
}

// Prints data sections one after another. `names` and `forms` are those of all their instances.
fn print_sections<S: Sink, L: Leads>(
    printer: &mut Printer,
    out: &mut S,
    leads: &L,
    sections: &[Section<'_>],
    names: &[u64],
    forms: Params<'_, '_>,
)
    ensures { Prints S.held S.has_failed out.old out.new printer.old printer.new
        (plain_sections (merged_sections (L.led leads.now)
        (sections_of 0 sections.now (rows_with names.now forms.entry)))) }
{
    let mut from: u32 = 0;
    let mut names = names;
    let mut forms = forms;
    for section in sections {
        let count = section.past.saturating_sub(from) as usize;
        let (own_names, names_behind) = cut(names, count);
        let (own_forms, forms_behind) = forms.split(count);
        print_section(printer, out, leads, *section, own_names, &own_forms);
        names = names_behind;
        forms = forms_behind;
        from = section.past;
    }
}

/// Writes the normal text of a merged exchange structure: its header bytes unchanged, then its data
/// sections. These have a line for each instance whose name is mapped to itself. The names in
/// references are mapped too.
///
/// # Errors
///
/// - `WriteFault` if the sink fails; a prefix of the text was written, and the fault has its length
pub fn write_led<S: Sink, L: Leads>(
    exchange: &Exchange<'_>,
    leads: &L,
    out: &mut S,
) -> Result<(), WriteFault>
    ensures emits { Emits (S.held out.old) (S.held out.new)
        (merged_text (L.led leads.now) exchange.now.header_bytes.now
        (structure exchange.now).sections)
        result }
    ensures failed { S.has_failed out.old ≡ false → S.has_failed out.new ≡ is_err result }
{
    let mut printer = Printer::new();
    printer.print(out, exchange.header_bytes);
    printer.print(out, b"\n");
    let (_, forms) = exchange.trees.trees().split(exchange.header_len);
    print_sections(
        &mut printer,
        out,
        leads,
        &exchange.sections,
        exchange.names.as_slice(),
        forms,
    );
    printer.print(out, b"END-ISO-10303-21;\n");
    printer.finish(out)
}
