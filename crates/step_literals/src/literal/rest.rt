// The rest of a string's content, read one character at a time.
ghost use Rattle.std.specs.Prelude.{
  ◌≡◌,
  ◌≤◌,
  ◌<◌,
  ◌∷◌,
  [],
  true,
  length,
  take,
  Some,
  MatchOption,
  MatchBool,
};
ghost use Rattle.std.specs.List.{prefix_len};
ghost use Rattle.step_literals.specs.Bytes.{Stops, is_hex};
ghost use Rattle.step_literals.specs.Strings.{clean, is_high, shift_at, code_at, groups_at};
ghost use Rattle.step_literals.specs.steps.Inside.{is_sound, run_inside};

use super::items::Item;
use crate::bytes::is_hex;
use crate::characters::{character_at, is_utf8_run, number_at};
use crate::clean::{skip, strip, take_clean};
use crate::directives::{after_code, after_groups, after_shift, page_at};

const APOSTROPHE: Item = Item::Code(39);

const BACKSLASH: Item = Item::Code(92);

/// A piece with several characters, some of which are already read.
#[derive(Clone, Copy)]
pub enum Inside {
    Nothing,
    /// After `\X2\` or `\X4\`, before a group of this many digits or `\X0\`
    Groups(usize),
    /// In a run of bytes from 128 up that is UTF-8
    Characters,
    /// In a run of bytes from 128 up that isn't UTF-8
    Bytes,
}

/// The rest of a string's content, the current page, and the piece that the rest begins inside of.
#[derive(Clone, Copy)]
pub struct Rest<'a> {
    bytes: &'a [u8],
    page: u8,
    inside: Inside,
    pub ghost sound: { is_sound inside (clean bytes.now) ≡ true },
}

/// A character, or `None` if what was read has no character, and the rest.
type Step<'a> = (Option<Item>, Rest<'a>);

impl<'a> Rest<'a> {
    ghost use Rattle.step_literals.specs.steps.Rests.{
      rest_items,
      bytes_left,
      page_items,
      clean_items,
      IsOver,
      Goes,
      GoesOn,
      Steps,
      RowSteps,
    };

    /// Returns the rest that begins at the start of a piece.
    pub fn new(bytes: &'a [u8], page: u8) -> Rest<'a>
        ensures bytes { result.bytes.now ≡ bytes.now }
        ensures page { result.page ≡ page }
        ensures left { rest_items result ≡ clean_items page (clean bytes.now) }
    {
        Rest {
            bytes,
            page,
            inside: Inside::Nothing,
        }
    }

    /// Returns the next character, or no character for a piece without one, and the rest.
    pub fn step(self) -> Option<Step<'a>>
        ensures { Steps (rest_items self.entry) (bytes_left self.entry) result }
    {
        match self.inner() {
            Some((item, rest)) => Some((Some(item), rest)),
            None => self.outer().piece(),
        }
    }

    /// Returns the next character of the piece that the rest begins inside of, and what follows it.
    fn inner(self) -> Option<(Item, Rest<'a>)>
        ensures { MatchOption result (IsOver self.entry.inside (bytes_left self.entry))
            (λ step. Goes (rest_items self.entry) (bytes_left self.entry) (Some step.0) step.1) }
    {
        let (item, bytes) = self.character()?;
        let Rest { page, inside, .. } = self;
        Some((
            item,
            Rest {
                bytes,
                page,
                inside,
            },
        ))
    }

    /// Returns the next character of the piece that the rest begins inside of, and the bytes after
    /// it.
    fn character(self) -> Option<(Item, &'a [u8])>
        ensures { MatchOption result (IsOver self.entry.inside (bytes_left self.entry))
            (λ next. GoesOn self.entry.inside self.entry.page
            (bytes_left self.entry) next.0 (clean next.1.now)) }
    {
        match self.inside {
            Inside::Nothing => None,
            Inside::Groups(width) => {
                if !begins_hex(self.bytes) {
                    return None;
                }
                let (code, after) = number_at(self.bytes, width);
                Some((Item::Code(code), after))
            }
            Inside::Characters => {
                let (code, after) = character_at(self.bytes)?;
                Some((Item::Code(code), after))
            }
            Inside::Bytes => {
                let (byte, after) = take_clean(self.bytes)?;
                if byte < 128 {
                    return None;
                }
                Some((Item::Raw(byte), after))
            }
        }
    }

    /// Returns what follows the piece that the rest begins inside of, once that has no more
    /// characters.
    fn outer(self) -> Rest<'a>
        requires { IsOver self.inside (clean self.bytes.now) }
        ensures left { clean_items result.page (clean result.bytes.now) ≡ rest_items self.entry }
        ensures shorter { length (clean result.bytes.now) ≤ length (bytes_left self.entry) }
    {
        match self.inside {
            Inside::Groups(_) => Rest::new(skip(self.bytes, 4), self.page),
            _ => self,
        }
    }

    /// Returns the first character of the piece at the start, or no character for a piece without
    /// one, and the rest.
    fn piece(self) -> Option<Step<'a>>
        ensures { Steps (page_items self.entry) (bytes_left self.entry) result }
    {
        let (first, after) = take_clean(self.bytes)?;
        match first {
            b'\\' => self.directive(),
            b'\'' => match strip(after, b"'") {
                Some(rest) => Some((Some(APOSTROPHE), Rest::new(rest, self.page))),
                None => Some((Some(APOSTROPHE), Rest::new(after, self.page))),
            },
            128.. => self.run(),
            _ => Some((
                Some(Item::Code(u32::from(first))),
                Rest::new(after, self.page),
            )),
        }
    }

    /// Returns the first character of a run of bytes from 128 up, and the rest.
    fn run(self) -> Option<Step<'a>>
        requires { Stops is_high (clean self.bytes.now) → ⊥ }
        ensures { Steps (page_items self.entry) (bytes_left self.entry) result }
    {
        let inside = inside_run(self.bytes);
        let Rest { bytes, page, .. } = self;
        let run = Rest {
            bytes,
            page,
            inside,
        };
        let (item, rest) = run.inner()?;
        Some((Some(item), rest))
    }

    /// Returns the first character of the directive at the start, or no character for one without,
    /// and the rest.
    fn directive(self) -> Option<Step<'a>>
        requires { take 1 (clean self.bytes.now) ≡ 92 ∷ [] }
        ensures { Steps (page_items self.entry) (bytes_left self.entry) result }
    {
        let bytes = self.bytes;
        if let Some(after) = strip(bytes, b"\\\\") {
            return Some((Some(BACKSLASH), Rest::new(after, self.page)));
        }
        if let Some(rest) = strip(bytes, b"\\S\\") {
            return Rest::shifted(rest, self.page);
        }
        if let Some((page, after)) = page_at(bytes) {
            return Some((None, Rest::new(after, page)));
        }
        if let Some(rest) = strip(bytes, b"\\X\\") {
            return Rest::coded(rest, self.page);
        }
        if let Some(rest) = strip(bytes, b"\\X2\\") {
            return Rest::grouped(rest, self.page, 4);
        }
        if let Some(rest) = strip(bytes, b"\\X4\\") {
            return Rest::grouped(rest, self.page, 8);
        }
        Some((Some(BACKSLASH), Rest::new(skip(bytes, 1), self.page)))
    }

    /// Returns the character after `\S\`, and the rest.
    fn shifted(bytes: &'a [u8], page: u8) -> Option<Step<'a>>
        ensures { RowSteps (shift_at (clean bytes.now)) 3 page (clean bytes.now) result }
    {
        let after = after_shift(bytes)?;
        let (byte, _) = take_clean(bytes)?;
        let item = if page == 1 {
            Item::Code(u32::from(byte) + 128)
        } else {
            Item::Page(page, byte + 128)
        };
        Some((Some(item), Rest::new(after, page)))
    }

    /// Returns the character after `\X\`, and the rest.
    fn coded(bytes: &'a [u8], page: u8) -> Option<Step<'a>>
        ensures { RowSteps (code_at (clean bytes.now)) 3 page (clean bytes.now) result }
    {
        let after = after_code(bytes)?;
        let (code, _) = number_at(bytes, 2);
        Some((Some(Item::Code(code)), Rest::new(after, page)))
    }

    /// Returns the rest after `\X2\` or `\X4\`.
    fn grouped(bytes: &'a [u8], page: u8, width: usize) -> Option<Step<'a>>
        requires some { 0 < width }
        requires few { width ≤ 8 }
        ensures { RowSteps (groups_at width (clean bytes.now)) 4 page (clean bytes.now) result }
    {
        after_groups(bytes, width)?;
        let inside = Inside::Groups(width);
        Some((
            None,
            Rest {
                bytes,
                page,
                inside,
            },
        ))
    }
}

/// Whether the bytes begin with a hexadecimal digit.
fn begins_hex(bytes: &[u8]) -> bool
    ensures { MatchBool result (0 < prefix_len is_hex (clean bytes.now))
        (Stops is_hex (clean bytes.now)) }
{
    match take_clean(bytes) {
        Some((byte, _)) => is_hex(byte),
        None => false,
    }
}

/// Returns how the run of bytes from 128 up at the start is read: as UTF-8 or as single bytes.
fn inside_run(bytes: &[u8]) -> Inside
    ensures { result ≡ run_inside (clean bytes.now) }
{
    if is_utf8_run(bytes) {
        Inside::Characters
    } else {
        Inside::Bytes
    }
}
