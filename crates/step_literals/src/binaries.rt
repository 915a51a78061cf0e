//! Where a binary ends.
ghost use Rattle.std.specs.Prelude.{◌≡◌, ◌∷◌, [], take, MatchOption};
ghost use Rattle.step_literals.specs.Tokens.{binary, IsNextLength, NoneAt};

use crate::bytes::hex_len;

/// Returns the length of the binary that begins with the quote at the start of `bytes`, or `None`
/// if there is no binary.
pub fn binary_len(bytes: &[u8]) -> Option<usize>
    requires { take 1 bytes.now ≡ 34 ∷ [] }
    ensures { MatchOption result (NoneAt bytes.now) (λ n. IsNextLength binary bytes.now n) }
{
    let (_, rest) = bytes.split_at(1);
    if rest.is_empty() {
        return None;
    }
    let unused = rest[0];
    if unused < b'0' || unused > b'3' {
        return None;
    }
    let (_, digits) = rest.split_at(1);
    let len = hex_len(digits);
    if len == 0 && unused != b'0' {
        return None;
    }
    let (_, after) = digits.split_at(len);
    if after.is_empty() || after[0] != b'"' {
        return None;
    }
    Some(len + 3)
}
