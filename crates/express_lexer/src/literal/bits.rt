//! The bits of a binary.

ghost use Rattle.std.specs.Iterator.{YieldsFirst, item_count};

/// An iterator over the bits of a binary.
#[derive(Drop)]
pub struct Bits<'a> {
    pub(super) digits: &'a [u8],
}

impl<'a> Iterator for Bits<'a> {
    ghost use Rattle.express_lexer.specs.steps.Left.{bits_left};

    type Item = bool;

    ghost next_gives = { YieldsFirst bits_left };

    ghost remaining = { item_count bits_left };

    fn next(&mut self) -> Option<bool> {
        let (digit, rest) = self.digits.split_first()?;
        self.digits = rest;
        Some(*digit == b'1')
    }
}
