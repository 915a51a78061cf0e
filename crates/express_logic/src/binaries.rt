//! Binaries, compared by their bits (ISO 10303-11, 12.2.1.2).

ghost use Rattle.std.specs.Prelude.{◌≡◌};
ghost use Rattle.step_literals.specs.Bits.{bits_of};
ghost use Rattle.express_logic.specs.Comparison.{same_bits};
ghost use Rattle.express_logic.specs.Literals.{binary_bits};
ghost use Rattle.express_logic.specs.Views.{bits_of_any};

use express_lexer::literal::Binary;
use step_literals::literal::Bits;

/// A binary, of an exchange structure or of a schema.
#[derive(Clone, Copy)]
pub enum AnyBinary<'a> {
    Exchange(Bits<'a>),
    Schema(Binary<'a>),
}

/// Whether two binaries have equal bits.
pub(crate) fn same_binary(a: &AnyBinary<'_>, b: &AnyBinary<'_>) -> bool
    ensures { result ≡ same_bits (bits_of_any a.now) (bits_of_any b.now) }
{
    match (a, b) {
        (AnyBinary::Exchange(bits), AnyBinary::Exchange(other)) => *bits == *other,
        (AnyBinary::Exchange(bits), AnyBinary::Schema(binary)) => has_bits_of(bits, binary),
        (AnyBinary::Schema(binary), AnyBinary::Exchange(bits)) => has_bits_of(bits, binary),
        (AnyBinary::Schema(binary), AnyBinary::Schema(other)) => same_digits(binary, other),
    }
}

/// Whether a binary of an exchange structure and a binary of a schema have equal bits.
fn has_bits_of(bits: &Bits<'_>, binary: &Binary<'_>) -> bool
    ensures { result ≡ same_bits (bits_of bits.now.text.now) (binary_bits binary.now.text.now) }
{
    let (_, digits) = binary.spelling().split_at(1);
    for index in 0..digits.len() {
        let Some(bit) = bits.bit(index) else {
            return false;
        };
        if bit != (digits[index] == b'1') {
            return false;
        }
    }
    bits.bit(digits.len()).is_none()
}

/// Whether two binaries of a schema have equal bits.
fn same_digits(a: &Binary<'_>, b: &Binary<'_>) -> bool
    ensures { result ≡ same_bits (binary_bits a.now.text.now) (binary_bits b.now.text.now) }
{
    a.bits().eq(b.bits())
}
