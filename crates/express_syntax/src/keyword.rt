//! The reserved words of EXPRESS.

ghost use Rattle.std.specs.Prelude.{◌≡◌};
ghost use Rattle.step_literals.specs.Words.{upper};
ghost use Rattle.express_syntax.specs.Keywords.{keyword_text, keyword_among, keyword_at};
ghost use Rattle.express_syntax.specs.steps.Letters.{keywords_from};

use step_literals::literal::Word;

/// A word that is never a name (ISO 10303-11, 7.2.1): the words of the declarations and expressions
/// that are read, and the words that begin what isn't read (USE, REFERENCE, RENAMED, EXTENSIBLE,
/// BASED_ON, GENERIC_ENTITY).
#[derive(Clone, Copy, Debug, PartialEq, Eq)]
pub enum Keyword {
    Abstract,
    And,
    Array,
    Bag,
    BasedOn,
    Binary,
    Boolean,
    Derive,
    EndEntity,
    EndSchema,
    EndType,
    Entity,
    Enumeration,
    Exists,
    Extensible,
    False,
    Fixed,
    For,
    GenericEntity,
    Hiindex,
    In,
    Integer,
    Inverse,
    List,
    Logical,
    Loindex,
    Not,
    Number,
    Nvl,
    Of,
    Optional,
    Or,
    Query,
    Real,
    Reference,
    Renamed,
    Schema,
    Select,
    /// SELF
    SelfWord,
    Set,
    Sizeof,
    String,
    Subtype,
    Supertype,
    True,
    Type,
    Typeof,
    Unique,
    Unknown,
    Use,
    Where,
    Xor,
}

impl Keyword {
    /// Returns the spelling of the keyword in capitals.
    pub fn text(self) -> &'static [u8]
        ensures { result.now ≡ keyword_text self }
    {
        match self {
            Keyword::Abstract => b"ABSTRACT",
            Keyword::And => b"AND",
            Keyword::Array => b"ARRAY",
            Keyword::Bag => b"BAG",
            Keyword::BasedOn => b"BASED_ON",
            Keyword::Binary => b"BINARY",
            Keyword::Boolean => b"BOOLEAN",
            Keyword::Derive => b"DERIVE",
            Keyword::EndEntity => b"END_ENTITY",
            Keyword::EndSchema => b"END_SCHEMA",
            Keyword::EndType => b"END_TYPE",
            Keyword::Entity => b"ENTITY",
            Keyword::Enumeration => b"ENUMERATION",
            Keyword::Exists => b"EXISTS",
            Keyword::Extensible => b"EXTENSIBLE",
            Keyword::False => b"FALSE",
            Keyword::Fixed => b"FIXED",
            Keyword::For => b"FOR",
            Keyword::GenericEntity => b"GENERIC_ENTITY",
            Keyword::Hiindex => b"HIINDEX",
            Keyword::In => b"IN",
            Keyword::Integer => b"INTEGER",
            Keyword::Inverse => b"INVERSE",
            Keyword::List => b"LIST",
            Keyword::Logical => b"LOGICAL",
            Keyword::Loindex => b"LOINDEX",
            Keyword::Not => b"NOT",
            Keyword::Number => b"NUMBER",
            Keyword::Nvl => b"NVL",
            Keyword::Of => b"OF",
            Keyword::Optional => b"OPTIONAL",
            Keyword::Or => b"OR",
            Keyword::Query => b"QUERY",
            Keyword::Real => b"REAL",
            Keyword::Reference => b"REFERENCE",
            Keyword::Renamed => b"RENAMED",
            Keyword::Schema => b"SCHEMA",
            Keyword::Select => b"SELECT",
            Keyword::SelfWord => b"SELF",
            Keyword::Set => b"SET",
            Keyword::Sizeof => b"SIZEOF",
            Keyword::String => b"STRING",
            Keyword::Subtype => b"SUBTYPE",
            Keyword::Supertype => b"SUPERTYPE",
            Keyword::True => b"TRUE",
            Keyword::Type => b"TYPE",
            Keyword::Typeof => b"TYPEOF",
            Keyword::Unique => b"UNIQUE",
            Keyword::Unknown => b"UNKNOWN",
            Keyword::Use => b"USE",
            Keyword::Where => b"WHERE",
            Keyword::Xor => b"XOR",
        }
    }

    /// Returns the keyword with this spelling, regardless of case, if any.
    pub fn of(word: &Word<'_>) -> Option<Keyword>
        ensures { result ≡ keyword_at (upper word.now.text.now) }
    {
        let text = word.spelling();
        match text.first() {
            Some(first) => among(beginning_with(first.to_ascii_uppercase()), text),
            None => None,
        }
    }
}

/// Returns the keywords that begin with this letter, a capital.
fn beginning_with(letter: u8) -> &'static [Keyword]
    ensures { result.now ≡ keywords_from letter }
{
    match letter {
        b'A' => &[Keyword::Abstract, Keyword::And, Keyword::Array],
        b'B' => &[
            Keyword::Bag,
            Keyword::BasedOn,
            Keyword::Binary,
            Keyword::Boolean,
        ],
        b'D' => &[Keyword::Derive],
        b'E' => &[
            Keyword::EndEntity,
            Keyword::EndSchema,
            Keyword::EndType,
            Keyword::Entity,
            Keyword::Enumeration,
            Keyword::Exists,
            Keyword::Extensible,
        ],
        b'F' => &[Keyword::False, Keyword::Fixed, Keyword::For],
        b'G' => &[Keyword::GenericEntity],
        b'H' => &[Keyword::Hiindex],
        b'I' => &[Keyword::In, Keyword::Integer, Keyword::Inverse],
        b'L' => &[Keyword::List, Keyword::Logical, Keyword::Loindex],
        b'N' => &[Keyword::Not, Keyword::Number, Keyword::Nvl],
        b'O' => &[Keyword::Of, Keyword::Optional, Keyword::Or],
        b'Q' => &[Keyword::Query],
        b'R' => &[Keyword::Real, Keyword::Reference, Keyword::Renamed],
        b'S' => &[
            Keyword::Schema,
            Keyword::Select,
            Keyword::SelfWord,
            Keyword::Set,
            Keyword::Sizeof,
            Keyword::String,
            Keyword::Subtype,
            Keyword::Supertype,
        ],
        b'T' => &[Keyword::True, Keyword::Type, Keyword::Typeof],
        b'U' => &[Keyword::Unique, Keyword::Unknown, Keyword::Use],
        b'W' => &[Keyword::Where],
        b'X' => &[Keyword::Xor],
        _ => &[],
    }
}

/// Returns the first of these keywords with this spelling, regardless of case, if any.
fn among(keywords: &[Keyword], text: &[u8]) -> Option<Keyword>
    ensures { result ≡ keyword_among keywords.now (upper text.now) }
{
    for keyword in keywords {
        if text.eq_ignore_ascii_case(keyword.text()) {
            return Some(*keyword);
        }
    }
    None
}
