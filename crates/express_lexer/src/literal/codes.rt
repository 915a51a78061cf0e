//! The characters of an encoded string.

ghost use Rattle.std.specs.Prelude.{◌≡◌, ◌≤◌, true, length};
ghost use Rattle.std.specs.List.{list_all};
ghost use Rattle.std.specs.Str.Parse.{digits_value};
ghost use Rattle.std.specs.Iterator.{YieldsFirst, item_count};
ghost use Rattle.step_literals.specs.Bytes.{is_hex};

use step_literals::bytes::hex_value;
use step_literals::literal::Item;

/// The number of hexadecimal digits of a character (ISO 10303-11, 7.5.5).
const WIDTH: usize = 8;

/// An iterator over the characters of an encoded string.
#[derive(Drop)]
pub struct Codes<'a> {
    pub(super) digits: &'a [u8],
    pub ghost hex: { list_all is_hex digits.now ≡ true },
}

/// Returns the number that the hexadecimal digits represent.
fn number_of(digits: &[u8]) -> u32
    requires hex { list_all is_hex digits.now ≡ true }
    requires short { length digits.now ≤ 8 }
    ensures { result ≡ digits_value 16 digits.now }
{
    let mut number = 0;
    for digit in digits {
        number = number * 16 + u32::from(hex_value(*digit));
    }
    number
}

impl<'a> Iterator for Codes<'a> {
    ghost use Rattle.express_lexer.specs.steps.Left.{codes_left};

    type Item = Item;

    ghost next_gives = { YieldsFirst codes_left };

    ghost remaining = { item_count codes_left };

    fn next(&mut self) -> Option<Item> {
        if self.digits.is_empty() {
            return None;
        }
        let (group, digits) = self.digits.split_at(WIDTH.min(self.digits.len()));
        *self = Codes { digits };
        Some(Item::Code(number_of(group)))
    }
}
