// The bytes of a string from 32 up. Bytes below 32 are ignored anywhere.
ghost use Rattle.std.specs.Prelude.{◌≡◌, ◌∷◌, [], false, MatchOption, IfSome};
ghost use Rattle.std.specs.List.{prefix_len};
ghost use Rattle.step_literals.specs.Bytes.{is_hex};
ghost use Rattle.step_literals.specs.Strings.{clean, begins_with};
ghost use Rattle.step_literals.specs.steps.Directives.{Skips, Strips};

use crate::bytes::is_hex;

/// Returns the first byte from 32 up, if any, and what follows it.
pub fn take_clean(bytes: &[u8]) -> Option<(u8, &[u8])>
    ensures first { MatchOption result (clean bytes.now ≡ [])
        (λ taken. clean bytes.now ≡ taken.0 ∷ clean taken.1.now) }
    ensures rest { IfSome result (λ taken. Skips 1 bytes.now taken.1.now) }
{
    let mut rest = bytes;
    while let Some((first, after)) = rest.split_first() {
        if *first >= 32 {
            return Some((*first, after));
        }
        rest = after;
    }
    None
}

/// Returns what follows `text`, if the bytes begin with it.
pub fn strip<'a>(bytes: &'a [u8], text: &[u8]) -> Option<&'a [u8]>
    ensures { MatchOption result (begins_with text.now (clean bytes.now) ≡ false)
        (λ rest. Strips text.now bytes.now rest.now) }
{
    let mut rest = bytes;
    for byte in text {
        let (first, after) = take_clean(rest)?;
        if first != *byte {
            return None;
        }
        rest = after;
    }
    Some(rest)
}

/// Returns what follows the first `count` bytes from 32 up. If there are fewer, the result is
/// empty.
pub fn skip(bytes: &[u8], count: usize) -> &[u8]
    ensures { Skips count bytes.now result.now }
{
    let mut rest = bytes;
    for _ in 0..count {
        match take_clean(rest) {
            Some((_, after)) => rest = after,
            None => return rest,
        }
    }
    rest
}

/// Returns the number of hexadecimal digits at the start.
pub fn hex_count(bytes: &[u8]) -> usize
    ensures { result ≡ prefix_len is_hex (clean bytes.now) }
{
    let mut rest = bytes;
    let mut len = 0;
    while let Some((first, after)) = take_clean(rest) {
        if !is_hex(first) {
            break;
        }
        rest = after;
        len += 1;
    }
    len
}
