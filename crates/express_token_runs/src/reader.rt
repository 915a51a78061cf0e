//! The reader of schemas.

ghost use Rattle.std.specs.Prelude.{◌≡◌, [], ◌∷◌, MatchResult};
ghost use Rattle.express_lexer.specs.Reading.{start};
ghost use Rattle.express_syntax.specs.Words.{keyword, mark, name};
ghost use Rattle.express_syntax.specs.ExpressionViews.{capitals};
ghost use Rattle.express_syntax.specs.Texts.{Shows};
ghost use Rattle.express_syntax.specs.steps.Predict.{Symbol, Just, Say, Id, EndOfText};
ghost use Rattle.express_syntax.specs.steps.Steps.{Parses, StopsIn};
ghost use Rattle.express_token_runs.specs.steps.Items.{located_of};

use crate::runs::Buffer;
use crate::tokens::{Item, is_keyword, is_mark, next_item, refuse};
use express_lexer::lexer::Lexer;
use express_lexer::marks::Mark;
use express_syntax::fault::SyntaxFault;
use express_syntax::keyword::Keyword;
use express_syntax::lexeme::Lexeme;
use std::alloc::Global;
use std::marker::Model;
use step_literals::literal::Word;

/// Reads a text token by token. It holds the allocator for the trees and a buffer that is reused
/// for each run.
#[derive(Drop)]
pub struct Reader<'a> {
    pub alloc: Global,
    pub lexer: Lexer<'a>,
    pub buffer: Buffer<'a>,
}

impl<'a> Model for Reader<'a> {
    ghost use Rattle.express_lexer.specs.Reading.{Reading};

    ghost Value = { Reading };

    ghost view = { λ r. r.lexer };
}

impl<'a> Reader<'a> {
    /// Returns a reader at the start of the text.
    pub fn new(alloc: Global, text: &'a [u8]) -> Self
        ensures { result ≡ start text.now }
    {
        Reader {
            alloc,
            lexer: Lexer::new(text),
            buffer: Buffer::new(alloc),
        }
    }

    /// Returns the allocator for the trees.
    pub fn alloc(&self) -> Global {
        self.alloc
    }

    /// Returns the whole text.
    pub fn text(&self) -> &'a [u8]
        ensures { result.now ≡ self.now.text }
    {
        self.lexer.text()
    }

    /// Returns the number of bytes that are read.
    pub fn place(&self) -> u64
        ensures { result ≡ self.now.place }
    {
        self.lexer.place()
    }

    /// Returns the next token. It is a fault if the text ends.
    pub fn take(&mut self) -> Result<Item<'a>, SyntaxFault>
        ensures { MatchResult result
            (λ i. Shows self.old (located_of i) self.new)
            (λ e. (y : Symbol) → (y ≡ EndOfText → ⊥) → StopsIn e (y ∷ []) [] self.old) }
    {
        next_item(&mut self.lexer)
    }

    /// Reads this mark.
    pub fn expect(&mut self, wanted: Mark) -> Result<(), SyntaxFault>
        ensures { Parses result (Just wanted ∷ []) (λ _. mark wanted ∷ []) self.old self.new }
    {
        let item = self.take()?;
        if !is_mark(item, wanted) {
            return Err(refuse(item));
        }
        Ok(())
    }

    /// Reads this keyword.
    pub fn expect_keyword(&mut self, wanted: Keyword) -> Result<(), SyntaxFault>
        ensures { Parses result (Say wanted ∷ []) (λ _. keyword wanted ∷ []) self.old self.new }
    {
        let item = self.take()?;
        if !is_keyword(item, wanted) {
            return Err(refuse(item));
        }
        Ok(())
    }

    /// Reads a name.
    pub fn expect_name(&mut self) -> Result<Word<'a>, SyntaxFault>
        ensures { Parses result (Id ∷ []) (λ w. name (capitals w) ∷ []) self.old self.new }
    {
        let item = self.take()?;
        match item.lexeme {
            Lexeme::Name(word) => Ok(word),
            _ => Err(refuse(item)),
        }
    }
}
