//! Printing numbers and the labels of rules.

ghost use Rattle.std.specs.Prelude.{decimal};
ghost use Rattle.devices.specs.steps.Prints.{Prints};
ghost use Rattle.express_syntax.specs.ExpressionViews.{capitals};
ghost use Rattle.schema_unchecked_declarations.specs.UncheckedLists.{label_name};

use devices::device::Sink;
use devices::printer::Printer;
use schema_unchecked_declarations::list::Label;
use step_literals::literal::Word;

/// Prints a number in decimal.
pub fn print_number<S: Sink>(printer: &mut Printer, out: &mut S, number: u64)
    ensures { Prints S.held S.has_failed out.old out.new printer.old printer.new (decimal number) }
{
    let mut digits = itoa::Buffer::new();
    printer.print(out, digits.format(number).as_bytes());
}

// Prints a name in capitals.
fn print_capitals<S: Sink>(printer: &mut Printer, out: &mut S, name: Word<'_>)
    ensures { Prints S.held S.has_failed out.old out.new printer.old printer.new
        (capitals name.entry) }
{
    for byte in name.spelling() {
        printer.print_byte(out, byte.to_ascii_uppercase());
    }
}

/// Prints the label of a rule, in capitals.
pub fn print_label<S: Sink>(printer: &mut Printer, out: &mut S, label: Label<'_>)
    ensures { Prints S.held S.has_failed out.old out.new printer.old printer.new
        (label_name label.entry) }
{
    match label {
        Label::Of(name) => print_capitals(printer, out, name),
        Label::Dotted(holder, name) => {
            print_capitals(printer, out, holder);
            printer.print_byte(out, b'.');
            print_capitals(printer, out, name);
        }
        Label::Numbered(holder, number) => {
            print_capitals(printer, out, holder);
            printer.print(out, b".?");
            print_number(printer, out, number);
        }
        Label::Constants => printer.print(out, b"CONSTANT"),
    }
}
