//! The marks of EXPRESS (ISO 10303-11, 7.3).
ghost use Rattle.std.specs.Prelude.{◌≡◌, MatchOption};
ghost use Rattle.express_lexer.specs.Marks.{mark_text, IsLongestMark, NoMark};

/// A mark between words and literals.
#[derive(Clone, Copy, Debug, PartialEq, Eq)]
pub enum Mark {
    /// `;`
    Semicolon,
    /// `,`
    Comma,
    /// `:`
    Colon,
    /// `.`
    Dot,
    /// `(`
    Open,
    /// `)`
    Close,
    /// `[`
    OpenBracket,
    /// `]`
    CloseBracket,
    /// `{`
    OpenBrace,
    /// `}`
    CloseBrace,
    /// `=`
    Equal,
    /// `<>`
    NotEqual,
    /// `<`
    Less,
    /// `>`
    Greater,
    /// `<=`
    LessOrEqual,
    /// `>=`
    GreaterOrEqual,
    /// `:=`
    Assign,
    /// `:=:`
    InstanceEqual,
    /// `:<>:`
    InstanceNotEqual,
    /// `+`
    Plus,
    /// `-`
    Minus,
    /// `*`
    Times,
    /// `/`
    Divide,
    /// `**`
    Power,
    /// `||`
    Combine,
    /// `|`
    Bar,
    /// `<*`
    QuerySource,
    /// `?`
    Unknown,
    /// `\`
    Backslash,
}

// From the longest to the shortest, so that the first that matches is the longest that matches.
const MARKS: [Mark; 29] = [
    Mark::InstanceNotEqual,
    Mark::InstanceEqual,
    Mark::NotEqual,
    Mark::LessOrEqual,
    Mark::GreaterOrEqual,
    Mark::Assign,
    Mark::Power,
    Mark::Combine,
    Mark::QuerySource,
    Mark::Semicolon,
    Mark::Comma,
    Mark::Colon,
    Mark::Dot,
    Mark::Open,
    Mark::Close,
    Mark::OpenBracket,
    Mark::CloseBracket,
    Mark::OpenBrace,
    Mark::CloseBrace,
    Mark::Equal,
    Mark::Less,
    Mark::Greater,
    Mark::Plus,
    Mark::Minus,
    Mark::Times,
    Mark::Divide,
    Mark::Bar,
    Mark::Unknown,
    Mark::Backslash,
];

impl Mark {
    /// Returns the spelling of the mark.
    pub fn text(self) -> &'static [u8]
        ensures { result.now ≡ mark_text self }
    {
        match self {
            Mark::Semicolon => b";",
            Mark::Comma => b",",
            Mark::Colon => b":",
            Mark::Dot => b".",
            Mark::Open => b"(",
            Mark::Close => b")",
            Mark::OpenBracket => b"[",
            Mark::CloseBracket => b"]",
            Mark::OpenBrace => b"{",
            Mark::CloseBrace => b"}",
            Mark::Equal => b"=",
            Mark::NotEqual => b"<>",
            Mark::Less => b"<",
            Mark::Greater => b">",
            Mark::LessOrEqual => b"<=",
            Mark::GreaterOrEqual => b">=",
            Mark::Assign => b":=",
            Mark::InstanceEqual => b":=:",
            Mark::InstanceNotEqual => b":<>:",
            Mark::Plus => b"+",
            Mark::Minus => b"-",
            Mark::Times => b"*",
            Mark::Divide => b"/",
            Mark::Power => b"**",
            Mark::Combine => b"||",
            Mark::Bar => b"|",
            Mark::QuerySource => b"<*",
            Mark::Unknown => b"?",
            Mark::Backslash => b"\\",
        }
    }
}

/// Returns the longest mark that is a prefix of the bytes, if any.
pub(crate) fn mark_of(bytes: &[u8]) -> Option<Mark>
    ensures { MatchOption result (NoMark bytes.now) (λ mark. IsLongestMark bytes.now mark) }
{
    for mark in &MARKS {
        if bytes.starts_with(mark.text()) {
            return Some(*mark);
        }
    }
    None
}
