// Layout between tokens.
ghost use Rattle.std.specs.Prelude.{
  ◌≡◌,
  ◌≤◌,
  ◌<◌,
  ◌++◌,
  ◌∷◌,
  [],
  ℕ,
  List,
  length,
  take,
  drop,
  MatchOption,
};
ghost use Rattle.std.specs.List.{prefix_len};
ghost use Rattle.express_lexer.specs.Layout.{
  HasBlank,
  HasRemark,
  NoBlank,
  NoRemark,
  SkipsLayout,
  in_line,
};

/// Returns the length of the embedded remark that the bytes begin with, if it is complete.
fn remark_len(bytes: &[u8]) -> Option<usize>
    requires { take 2 bytes.now ≡ 40 ∷ 42 ∷ [] }
    ensures { MatchOption result (NoRemark bytes.now) (HasRemark bytes.now) }
{
    let (_, mut rest) = bytes.split_at(2);
    let mut open = 1usize;
    while open > 0 {
        if let Some(after) = rest.strip_prefix(b"(*") {
            open += 1;
            rest = after;
        } else if let Some(after) = rest.strip_prefix(b"*)") {
            open -= 1;
            rest = after;
        } else {
            let (_, after) = rest.split_first()?;
            rest = after;
        }
    }
    Some(bytes.len() - rest.len())
}

/// Returns the number of bytes before the end of the line.
fn line_len(bytes: &[u8]) -> usize
    ensures within { result ≤ length bytes.now }
    ensures len { result ≡ prefix_len in_line bytes.now }
{
    bytes.iter().take_while(|b| **b != b'\n').count()
}

/// Returns the length of the blank or remark that the bytes begin with, if any.
fn blank_len(bytes: &[u8]) -> Option<usize>
    ensures { MatchOption result (NoBlank bytes.now) (HasBlank bytes.now) }
{
    if *bytes.first()? <= 32 {
        return Some(1);
    }
    if let Some(line) = bytes.strip_prefix(b"--") {
        return Some(2 + line_len(line));
    }
    if bytes.starts_with(b"(*") {
        return remark_len(bytes);
    }
    None
}

/// Returns the length of the layout that the bytes begin with.
pub(crate) fn layout_len(bytes: &[u8]) -> usize
    ensures within { result ≤ length bytes.now }
    ensures layout { SkipsLayout bytes.now (drop result bytes.now) }
{
    let mut rest = bytes;
    while let Some(n) = blank_len(rest) {
        let (_, next) = rest.split_at(n);
        rest = next;
    }
    bytes.len() - rest.len()
}
