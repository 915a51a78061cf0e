//! Writing certificates.

ghost use Rattle.std.specs.Prelude.{
  ◌≡◌,
  ◌+◌,
  ◌<◌,
  ◌≤◌,
  ◌++◌,
  ◌∷◌,
  [],
  map,
  drop,
  length,
  is_err,
  false,
  decimal,
};
ghost use Rattle.devices.specs.Emits.{Emits};
ghost use Rattle.devices.specs.steps.Prints.{Prints};
ghost use Rattle.value_equality.specs.TableViews.{table_of, origin_of, member_of};
ghost use Rattle.certificate_text.specs.Texts.{
  certificate_text,
  class_line,
  class_lines,
  member_line,
  origin_text,
  table_lines,
  text_of,
};

use devices::device::{Sink, WriteFault};
use devices::printer::Printer;
use itoa::write_digits;
use value_equality::table::{Origin, Table};

/// At least the length of every line of a class or of a member.
const ROOM: usize = 80;

/// Writes the certificate of two tables, version 2: `STEPCERT 2`, `table 1`, the lines of the
/// first, `table 2`, the lines of the second, `end`, each ended by a line feed. The lines of a
/// table are its last round, its classes by number and its members in order, as `rounds 2`, `C1`,
/// `C3=C1@2` and `#17=C3`. It allocates nothing.
///
/// If both tables are well formed, as those of `read_certificate`, and have at most 2^32 - 1
/// classes, `read_certificate` reads them back.
///
/// # Errors
///
/// If the sink fails, a prefix of the text was written, whose length the fault has.
pub fn write_certificate<S: Sink>(
    first: &Table,
    second: &Table,
    out: &mut S,
) -> Result<(), WriteFault>
    ensures emits { Emits (S.held out.old) (S.held out.new)
        (certificate_text (table_of first.now) (table_of second.now)) result }
    ensures failed { S.has_failed out.old ≡ false → S.has_failed out.new ≡ is_err result }
{
    let mut printer = Printer::new();
    printer.print(out, b"STEPCERT 2\ntable 1\n");
    print_table(&mut printer, out, first);
    printer.print(out, b"table 2\n");
    print_table(&mut printer, out, second);
    printer.print(out, b"end\n");
    printer.finish(out)
}

/// Prints the lines of a table.
fn print_table<S: Sink>(printer: &mut Printer, out: &mut S, table: &Table)
    ensures { Prints S.held S.has_failed out.old out.new printer.old printer.new
        (text_of (table_lines (table_of table.now))) }
{
    printer.print(out, b"rounds ");
    print_number(printer, out, u64::from(table.rounds));
    printer.print_byte(out, b'\n');
    print_classes(printer, out, &table.classes);
    print_members(printer, out, &table.members);
}

/// Prints one line for each class.
fn print_classes<S: Sink>(printer: &mut Printer, out: &mut S, classes: &[Origin])
    ensures { Prints S.held S.has_failed out.old out.new printer.old printer.new
        (text_of (class_lines 0 (map origin_of classes.now))) }
{
    for number in 0..classes.len() {
        print_class(printer, out, number as u64, &classes[number]);
    }
}

/// Writes a byte into a line before index `at`, and returns the index of that byte.
fn put_before(line: &mut [u8], at: usize, byte: u8) -> usize
    requires first { 0 < at }
    requires within { at ≤ length line.old }
    ensures start { result + 1 ≡ at }
    ensures written { drop result line.new ≡ byte ∷ drop at line.old }
{
    line[at - 1] = byte;
    at - 1
}

/// Writes the origin of a class into a line before index `at`, and returns the index where it
/// begins.
fn put_origin(line: &mut [u8], at: usize, origin: &Origin) -> usize
    requires room { 43 ≤ at }
    requires within { at ≤ length line.old }
    ensures start { (at ≤ result + 43) × (result ≤ at) }
    ensures written { drop result line.new ≡ origin_text (origin_of origin.now)
        ++ drop at line.old }
{
    let Origin::Split { parent, round } = *origin else {
        return at;
    };
    let at = write_digits(u64::from(round), line, at);
    let at = put_before(line, at, b'@');
    let at = write_digits(u64::from(parent), line, at);
    let at = put_before(line, at, b'C');
    put_before(line, at, b'=')
}

/// Prints the line of a class. The line is built from its end.
fn print_class<S: Sink>(printer: &mut Printer, out: &mut S, number: u64, origin: &Origin)
    ensures { Prints S.held S.has_failed out.old out.new printer.old printer.new
        (class_line number (origin_of origin.now) ++ (10 ∷ [])) }
{
    let mut line = [0; ROOM];
    let at = put_before(&mut line, ROOM, b'\n');
    let at = put_origin(&mut line, at, origin);
    let at = write_digits(number, &mut line, at);
    let at = put_before(&mut line, at, b'C');
    printer.print(out, &line[at..]);
}

/// Prints one line for each member.
fn print_members<S: Sink>(printer: &mut Printer, out: &mut S, members: &[(u64, u32)])
    ensures { Prints S.held S.has_failed out.old out.new printer.old printer.new
        (text_of (map member_line (map member_of members.now))) }
{
    for at in 0..members.len() {
        print_member(printer, out, members[at]);
    }
}

/// Prints the line of a member. The line is built from its end.
fn print_member<S: Sink>(printer: &mut Printer, out: &mut S, member: (u64, u32))
    ensures { Prints S.held S.has_failed out.old out.new printer.old printer.new
        (member_line (member_of member) ++ (10 ∷ [])) }
{
    let mut line = [0; ROOM];
    let at = put_before(&mut line, ROOM, b'\n');
    let at = write_digits(u64::from(member.1), &mut line, at);
    let at = put_before(&mut line, at, b'C');
    let at = put_before(&mut line, at, b'=');
    let at = write_digits(member.0, &mut line, at);
    let at = put_before(&mut line, at, b'#');
    printer.print(out, &line[at..]);
}

/// Prints a number, without leading zeros.
fn print_number<S: Sink>(printer: &mut Printer, out: &mut S, number: u64)
    ensures { Prints S.held S.has_failed out.old out.new printer.old printer.new (decimal number) }
{
    let mut digits = itoa::Buffer::new();
    printer.print(out, digits.format(number).as_bytes());
}
