// The directives of a string (ISO 10303-21, 6.4.3).
ghost use Rattle.std.specs.Prelude.{◌≡◌, ◌<◌, ◌∷◌, [], None, false, take, MatchOption};
ghost use Rattle.step_literals.specs.Strings.{
  clean,
  piece_at,
  shift_at,
  names_page,
  code_at,
  groups_at,
  IsReadable,
  IsBrokenAt,
};
ghost use Rattle.step_literals.specs.steps.Directives.{StripsPage, Completes};

use crate::clean::{hex_count, skip, strip, take_clean};
use memchr::memchr;

const BACKSLASH: u8 = b'\\';

/// Returns the index of the first directive in the content of a string that is begun but not
/// completed (ISO 10303-21, 6.4.3), if any.
pub fn broken_directive(content: &[u8]) -> Option<usize>
    ensures { MatchOption result (IsReadable content.now) (λ index. IsBrokenAt content.now index) }
{
    let mut rest = content;
    while let Some(at) = memchr(BACKSLASH, rest) {
        let (_, directive) = rest.split_at(at);
        match after_directive(directive) {
            Some(after) => rest = after,
            None => return Some(content.len() - directive.len()),
        }
    }
    None
}

/// Returns what follows the piece at the start, which begins with a backslash. `None` means that a
/// directive isn't completed.
fn after_directive(bytes: &[u8]) -> Option<&[u8]>
    requires { take 1 bytes.now ≡ 92 ∷ [] }
    ensures { MatchOption result (piece_at (clean bytes.now) ≡ None)
        (λ after. Completes (piece_at (clean bytes.now)) 0 bytes.now after.now) }
{
    if let Some(after) = strip(bytes, b"\\\\") {
        return Some(after);
    }
    if let Some(rest) = strip(bytes, b"\\S\\") {
        return after_shift(rest);
    }
    if let Some((_, after)) = page_at(bytes) {
        return Some(after);
    }
    if let Some(rest) = strip(bytes, b"\\X\\") {
        return after_code(rest);
    }
    if let Some(rest) = strip(bytes, b"\\X2\\") {
        return after_groups(rest, 4);
    }
    if let Some(rest) = strip(bytes, b"\\X4\\") {
        return after_groups(rest, 8);
    }
    Some(skip(bytes, 1))
}

/// Returns what follows the byte after `\S\`, if the directive is completed.
pub fn after_shift(bytes: &[u8]) -> Option<&[u8]>
    ensures { MatchOption result (shift_at (clean bytes.now) ≡ None)
        (λ after. Completes (shift_at (clean bytes.now)) 3 bytes.now after.now) }
{
    let (byte, after) = take_clean(bytes)?;
    match byte {
        b'\'' => strip(after, b"'"),
        b' '..=b'~' => Some(after),
        _ => None,
    }
}

/// Returns the page that `\PA\` to `\PI\` names, 1 for A, and what follows, if the bytes begin with
/// such a directive.
pub fn page_at(bytes: &[u8]) -> Option<(u8, &[u8])>
    ensures { MatchOption result (names_page (clean bytes.now) ≡ false)
        (λ found. StripsPage bytes.now found.0 found.1.now) }
{
    let rest = strip(bytes, b"\\P")?;
    let (letter, rest) = take_clean(rest)?;
    if !matches!(letter, b'A'..=b'I') {
        return None;
    }
    let after = strip(rest, b"\\")?;
    Some((letter - b'@', after))
}

/// Returns what follows the two digits after `\X\`, if the directive is completed.
pub fn after_code(bytes: &[u8]) -> Option<&[u8]>
    ensures { MatchOption result (code_at (clean bytes.now) ≡ None)
        (λ after. Completes (code_at (clean bytes.now)) 3 bytes.now after.now) }
{
    if hex_count(bytes) < 2 {
        return None;
    }
    Some(skip(bytes, 2))
}

/// Returns what follows the digits after `\X2\` or `\X4\`, in groups of `width`, and the closing
/// `\X0\`, if the directive is completed.
pub fn after_groups(bytes: &[u8], width: usize) -> Option<&[u8]>
    requires { 0 < width }
    ensures { MatchOption result (groups_at width (clean bytes.now) ≡ None)
        (λ after. Completes (groups_at width (clean bytes.now)) 4 bytes.now after.now) }
{
    let len = hex_count(bytes);
    if len % width != 0 {
        return None;
    }
    strip(skip(bytes, len), b"\\X0\\")
}
