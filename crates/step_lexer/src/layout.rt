// Layout between tokens.
ghost use Rattle.std.specs.Prelude.{◌≡◌, ◌≤◌, ◌<◌, ◌++◌, ℕ, List, length, take, drop, MatchOption};
ghost use Rattle.step_lexer.specs.Layout.{HasBlank, NoBlank, SkipsLayout};

use crate::words::says;
use memchr::memmem;

/// Returns the length of the blank or comment that the bytes begin with, if any.
fn blank_len(bytes: &[u8]) -> Option<usize>
    ensures { MatchOption result (NoBlank bytes.now) (HasBlank bytes.now) }
{
    if bytes.is_empty() {
        return None;
    }
    let first = bytes[0];
    if first <= 32 {
        return Some(1);
    }
    if first != b'\\' && first != b'/' {
        return None;
    }
    if says(bytes, b"\\N\\") {
        return Some(3);
    }
    if says(bytes, b"\\F\\") {
        return Some(3);
    }
    if bytes.len() < 2 || bytes[0] != b'/' || bytes[1] != b'*' {
        return None;
    }
    let (_, rest) = bytes.split_at(2);
    match memmem::find(rest, b"*/") {
        Some(at) => Some(at + 4),
        None => None,
    }
}

/// Returns the length of the layout that the bytes begin with.
pub fn layout_len(bytes: &[u8]) -> usize
    ensures within { result ≤ length bytes.now }
    ensures layout { SkipsLayout bytes.now (drop result bytes.now) }
{
    let mut rest = bytes;
    let mut len = 0;
    while let Some(n) = blank_len(rest) {
        let (_, next) = rest.split_at(n);
        rest = next;
        len += n;
    }
    len
}
