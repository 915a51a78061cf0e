// Where a string ends.
ghost use Rattle.std.specs.Prelude.{◌≡◌, ◌≤◌, ◌∷◌, [], length, take, MatchOption};
ghost use Rattle.step_literals.specs.Tokens.{string, IsNextLength, NoneAt};
ghost use Rattle.step_literals.specs.Strings.{content_of};

use memchr::memchr;

const QUOTE: u8 = b'\'';

/// Returns the content between the apostrophes of a string.
pub fn content_of(text: &[u8]) -> &[u8]
    requires { 2 ≤ length text.now }
    ensures { result.now ≡ content_of text.now }
{
    &text[1..text.len() - 1]
}

/// Returns the length of the string that begins with the apostrophe at the start of `bytes`, or
/// `None` if it doesn't end (ISO 10303-21, 6.4.3). It ends at the first later apostrophe that isn't
/// doubled.
pub fn string_len(bytes: &[u8]) -> Option<usize>
    requires { take 1 bytes.now ≡ 39 ∷ [] }
    ensures { MatchOption result (NoneAt bytes.now) (λ n. IsNextLength string bytes.now n) }
{
    let (_, mut rest) = bytes.split_at(1);
    let mut len = 1;
    while let Some(at) = memchr(QUOTE, rest) {
        let (_, after) = rest.split_at(at + 1);
        len += at + 1;
        if after.is_empty() || after[0] != QUOTE {
            return Some(len);
        }
        let (_, next) = after.split_at(1);
        rest = next;
        len += 1;
    }
    None
}
