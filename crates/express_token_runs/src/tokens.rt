//! The tokens of a text, one at a time.

ghost use Rattle.std.specs.Prelude.{◌≡◌, [], ◌∷◌, MatchResult};
ghost use Rattle.express_syntax.specs.Words.{keyword, mark, name};
ghost use Rattle.express_syntax.specs.ExpressionViews.{capitals};
ghost use Rattle.express_syntax.specs.declared.fault.SyntaxFault.TheVariants.{Fault};
ghost use Rattle.express_syntax.specs.Texts.{Shows, token};
ghost use Rattle.express_syntax.specs.steps.Predict;
ghost use Rattle.express_syntax.specs.steps.Predict.{Symbol, Just, Say, Id, EndOfText, refused};
ghost use Rattle.express_syntax.specs.steps.Steps.{Passes, StopsIn};
ghost use Rattle.express_token_runs.specs.steps.Items.{located_of};

use express_lexer::lexer::Lexer;
use express_lexer::marks::Mark;
use express_syntax::fault::{FaultKind, LeftOut, SyntaxFault};
use express_syntax::keyword::Keyword;
use express_syntax::lexeme::Lexeme;
use step_literals::literal::Word;

/// A token as the grammar sees it, and the number of bytes before it.
#[derive(Clone, Copy)]
pub struct Item<'a> {
    pub lexeme: Lexeme<'a>,
    pub place: u64,
}

/// Returns the next token. It is a fault if the text ends.
pub fn next_item<'a>(lexer: &mut Lexer<'a>) -> Result<Item<'a>, SyntaxFault>
    ensures { MatchResult result
        (λ i. Shows lexer.old (located_of i) lexer.new)
        (λ e. (y : Symbol) → (y ≡ EndOfText → ⊥) → StopsIn e (y ∷ []) [] lexer.old) }
{
    match lexer.next_token() {
        Ok(Some(token)) => Ok(Item {
            lexeme: Lexeme::of(&token),
            place: token.place,
        }),
        Ok(None) => Err(SyntaxFault::Fault {
            kind: FaultKind::Expected,
            place: lexer.place(),
        }),
        Err(fault) => Err(SyntaxFault::Fault {
            kind: FaultKind::BadToken,
            place: fault.place,
        }),
    }
}

/// Returns a fault of this kind at a token.
pub fn fault_at(kind: FaultKind, at: Item<'_>) -> SyntaxFault
    ensures { result ≡ Fault kind at.entry.place }
{
    SyntaxFault::Fault {
        kind,
        place: at.place,
    }
}

/// Returns the kind of fault of a keyword that isn't allowed where it is.
fn refused_keyword(found: Keyword) -> FaultKind
    ensures { result ≡ refused (token (keyword found)) }
{
    match found {
        Keyword::Use => FaultKind::LeftOut(LeftOut::Use),
        Keyword::Reference => FaultKind::LeftOut(LeftOut::Reference),
        Keyword::Renamed => FaultKind::LeftOut(LeftOut::Renamed),
        Keyword::Extensible => FaultKind::LeftOut(LeftOut::Extensible),
        Keyword::BasedOn => FaultKind::LeftOut(LeftOut::BasedOn),
        Keyword::GenericEntity => FaultKind::LeftOut(LeftOut::GenericEntity),
        Keyword::Schema => FaultKind::LeftOut(LeftOut::SecondSchema),
        _ => FaultKind::Expected,
    }
}

/// Returns the fault of a token that isn't allowed where it is.
pub fn refuse(item: Item<'_>) -> SyntaxFault
    ensures { result ≡ Fault (refused (located_of item.entry).lookahead) item.entry.place }
{
    match item.lexeme {
        Lexeme::Keyword(found) => fault_at(refused_keyword(found), item),
        _ => fault_at(FaultKind::Expected, item),
    }
}

/// Whether a token is this mark.
pub fn is_mark(item: Item<'_>, wanted: Mark) -> bool
    ensures { result ≡ Predict.is_mark wanted (located_of item.entry).lookahead }
{
    match item.lexeme {
        Lexeme::Mark(found) => wanted.text() == found.text(),
        _ => false,
    }
}

/// Whether a token is this keyword.
pub fn is_keyword(item: Item<'_>, wanted: Keyword) -> bool
    ensures { result ≡ Predict.is_keyword wanted (located_of item.entry).lookahead }
{
    match item.lexeme {
        Lexeme::Keyword(found) => wanted.text() == found.text(),
        _ => false,
    }
}
