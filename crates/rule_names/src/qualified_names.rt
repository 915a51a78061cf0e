//! Strings that name a declaration as TYPEOF does: the name of the schema and that of the
//! declaration in capitals, with a point between them (ISO 10303-11, 15.25).

ghost use Rattle.std.specs.Prelude.{◌≡◌, ◌≤◌, ◌∷◌, ◌++◌, length, bytes_eq};
ghost use Rattle.step_literals.specs.Words.{upper};
ghost use Rattle.step_literals.specs.Strings.{content_of};
ghost use Rattle.express_syntax.specs.ExpressionViews.{capitals};
ghost use Rattle.express_logic.specs.Literals.{simple_characters};
ghost use Rattle.express_logic.specs.Comparison.{same_text};
ghost use Rattle.express_logic.specs.steps.Taking.{of_codes};
ghost use Rattle.express_logic.specs.Views.{text_of};
ghost use Rattle.conformance.specs.Meanings.{says_type};
ghost use Rattle.schema_names.specs.Schemas.{the_schema};

use express_lexer::literal::SimpleString;
use express_logic::strings::AnyString;
use schema_names::names::Names;
use step_literals::literal::Word;

/// Whether `bytes` are the letters of `name` in capitals.
fn are_capitals(bytes: &[u8], name: Word<'_>) -> bool
    ensures { result ≡ bytes_eq bytes.now (upper name.entry.text.now) }
{
    let letters = name.spelling();
    if bytes.len() != letters.len() {
        return false;
    }
    for index in 0..letters.len() {
        if bytes[index] != letters[index].to_ascii_uppercase() {
            return false;
        }
    }
    true
}

/// Whether `bytes` are a point and the letters of `name` in capitals.
fn are_pointed(bytes: &[u8], name: Word<'_>) -> bool
    ensures { result ≡ bytes_eq bytes.now (46 ∷ upper name.entry.text.now) }
{
    match bytes.split_first() {
        Some((point, letters)) => *point == b'.' && are_capitals(letters, name),
        None => false,
    }
}

/// Whether `bytes` are the letters of both names in capitals, with a point between them.
///
/// Most strings name declarations of one schema, so the part after the point is compared first.
fn are_dotted(bytes: &[u8], first: Word<'_>, second: Word<'_>) -> bool
    ensures { result ≡ bytes_eq bytes.now
        (upper first.entry.text.now ++ 46 ∷ upper second.entry.text.now) }
{
    match bytes.split_at_checked(first.spelling().len()) {
        Some((front, behind)) => are_pointed(behind, second) && are_capitals(front, first),
        None => false,
    }
}

/// Returns `text` without its first and its last byte.
fn content(text: &[u8]) -> &[u8]
    requires { 2 ≤ length text.now }
    ensures { result.now ≡ content_of text.now }
{
    &text[1..text.len() - 1]
}

/// Whether a simple string consists of the letters of both names in capitals, with a point between
/// them.
///
/// Such a string has no doubled apostrophe and only ASCII characters, so its bytes are its
/// characters and nothing is decoded.
fn is_dotted(string: &SimpleString<'_>, first: Word<'_>, second: Word<'_>) -> bool
    ensures { result ≡ same_text (simple_characters string.now.text.now)
        (of_codes (upper first.entry.text.now ++ 46 ∷ upper second.entry.text.now)) }
{
    are_dotted(content(string.spelling()), first, second)
}

/// Whether `text` names the declaration called `name`, as TYPEOF does.
pub(crate) fn says_name(names: &Names<'_, '_>, name: Word<'_>, text: &AnyString<'_>) -> bool
    ensures { result ≡ says_type (the_schema names.now) (text_of text.now) (capitals name.entry) }
{
    match text {
        AnyString::Simple(string) => is_dotted(string, names.schema.name, name),
        _ => text.is_dotted(names.schema.name, name),
    }
}
