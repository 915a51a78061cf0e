//! A text that is read token by token, and the trees that are built from it.

ghost use Rattle.std.specs.Prelude.{◌≡◌, ◌≤◌, ◌+◌, ◌++◌, [], ◌∷◌, Some, length, take, drop, IfOk, IfSome, IsTrue};
ghost use Rattle.step_records.specs.declared.cell.Leaf.TheVariants.{Keyword};
ghost use Rattle.step_lexer.specs.Front.{IsFront};
ghost use Rattle.step_lexer.specs.Reading.{Answers, SkipsMark, left, start_of};
ghost use Rattle.step_records.specs.steps.Building.{list_of};
ghost use Rattle.step_records.specs.Cells.{typed_of};
ghost use Rattle.step_records.specs.steps.Tokens.{StandsIn, leaf_of, leaf_tree};
ghost use Rattle.step_records.specs.steps.Readers.{reading};
ghost use Rattle.step_records.specs.steps.Steps.{IsParameter, PushesNext, PushesWord};

use crate::builder::Builder;
use crate::cell::Leaf;
use crate::forest::Forest;
use crate::param::Params;
use std::alloc::{AllocError, Global};
use std::marker::Model;
use step_lexer::lexer::Lexer;
use step_lexer::token::{Mark, Sort, Token};
use step_literals::fault::TextFault;

/// The lexer of a text, and the trees that are built from its tokens.
#[derive(Drop)]
pub struct Reader<'a> {
    lexer: Lexer<'a>,
    builder: Builder<'a>,
}

impl<'a> Model for Reader<'a> {
    ghost use Rattle.std.specs.Prelude.{◌≡◌};
    ghost use Rattle.step_records.specs.steps.Readers.{Progress, coded_progress};

    ghost Value = { Progress };

    ghost coded = { coded_progress };

    ghost view = { λ r. record { place = r.lexer.place; built = r.builder } };

    ghost invariant = { λ r. r.lexer.text ≡ r.builder.text };
}

// Whether a token of this sort is a keyword.
fn is_keyword(sort: Sort<'_>) -> bool
    ensures { IsTrue result → leaf_of sort.entry ≡ Some Keyword }
{
    matches!(sort, Sort::Keyword(_))
}

// Returns the kind of leaf that a token of this sort is, if it is a parameter by itself.
fn parameter(sort: Sort<'_>) -> Option<Leaf>
    ensures { IfSome result (λ leaf. IsParameter leaf sort.entry) }
{
    let leaf = Leaf::of(sort)?;
    match leaf {
        Leaf::Keyword => None,
        _ => Some(leaf),
    }
}

impl<'a> Reader<'a> {
    /// Returns a reader that has read nothing of `text`.
    pub fn new(alloc: Global, text: &'a [u8]) -> Self
        ensures { result ≡ record {
          place = start_of text.now;
          built = record { text = text.now; kept = []; pending = [] };
        } }
    {
        Reader {
            lexer: Lexer::new(text),
            builder: Builder::new(alloc, text),
        }
    }

    /// Returns the number of bytes of the text that are read.
    pub fn place(&self) -> u64
        ensures { result ≡ self.now.place }
    {
        self.lexer.place()
    }

    /// Reserves room for more cells and trees.
    ///
    /// `AllocError` means that there isn't that much memory. Nothing else changes either way, and
    /// later calls still allocate what they need.
    pub fn reserve(&mut self, cells: usize, trees: usize) -> Result<(), AllocError>
        ensures { self.new ≡ self.old }
    {
        self.builder.reserve(cells, trees)
    }

    /// Reads the mark `wanted` if it comes next, without layout before it. Returns whether it did;
    /// otherwise nothing is read.
    #[inline(always)]
    pub fn skip_mark(&mut self, wanted: Mark) -> bool
        ensures skips { SkipsMark wanted result (reading self.old) (reading self.new) }
        ensures built { self.new.built ≡ self.old.built }
    {
        self.lexer.skip_mark(wanted)
    }

    /// Reads the next token, which has this sort and length, as a pending leaf, if it is a
    /// parameter by itself. Returns whether it did; otherwise nothing is read.
    #[inline(always)]
    fn push_front(&mut self, sort: Sort<'a>, len: usize) -> Result<bool, AllocError>
        requires { IsFront (left (reading self.old)) sort len }
        ensures { IfOk result (λ is. PushesNext is self.old self.new) }
    {
        let Some(leaf) = parameter(sort) else {
            return Ok(false);
        };
        self.builder.push_leaf_at(leaf, self.lexer.place(), len)?;
        self.lexer.skip(sort, len);
        Ok(true)
    }

    /// Reads the next token as a pending leaf, if it has no layout before it and is a parameter by
    /// itself. Returns whether it did; otherwise nothing is read. `false` doesn't mean that there
    /// is no such token.
    #[inline(always)]
    pub fn push_next(&mut self) -> Result<bool, AllocError>
        ensures { IfOk result (λ is. PushesNext is self.old self.new) }
    {
        // Numbers are tested first, since most parameters are numbers.
        if let Some((sort, len)) = self.lexer.peek_number() {
            return self.push_front(sort, len);
        }
        let Some((sort, len)) = self.lexer.peek() else {
            return Ok(false);
        };
        self.push_front(sort, len)
    }

    /// Reads the next token as a pending leaf, if it is a keyword without layout before it. Returns
    /// whether it did; otherwise nothing is read.
    #[inline(always)]
    pub fn push_keyword(&mut self) -> Result<bool, AllocError>
        ensures { IfOk result (λ is. PushesWord is self.old self.new) }
    {
        let Some((sort, len)) = self.lexer.peek_word() else {
            return Ok(false);
        };
        if !is_keyword(sort) {
            return Ok(false);
        }
        self.builder
            .push_leaf_at(Leaf::Keyword, self.lexer.place(), len)?;
        self.lexer.skip(sort, len);
        Ok(true)
    }

    /// Returns the next token as the lexer does.
    pub fn next_token(&mut self) -> Result<Option<Token<'a>>, TextFault>
        ensures answers { Answers (reading self.old) result (reading self.new) }
        ensures built { self.new.built ≡ self.old.built }
    {
        self.lexer.next_token()
    }

    /// Returns the number of pending trees.
    pub fn pending_len(&self) -> usize
        ensures { result ≡ length self.now.built.pending }
    {
        self.builder.pending_len()
    }

    /// Adds a token as a pending leaf of this kind.
    pub fn push_leaf(&mut self, leaf: Leaf, token: Token<'a>) -> Result<(), AllocError>
        requires kind { leaf_of token.sort ≡ Some leaf }
        requires stands { StandsIn self.old.built.text token }
        ensures { IfOk result (λ _. self.new ≡ record self.old {
          built = record self.old.built {
            pending = self.old.built.pending ++ leaf_tree token.entry ∷ [];
          };
        }) }
    {
        self.builder.push_leaf(leaf, token)?;
        Ok(())
    }

    /// Turns the pending trees after `mark` into one list, which is pending in their place.
    pub fn close_list(&mut self, mark: usize) -> Result<(), AllocError>
        requires { mark ≤ length self.old.built.pending }
        ensures { IfOk result (λ _. self.new ≡ record self.old {
          built = record self.old.built {
            pending = take mark self.old.built.pending
                ++ list_of (drop mark self.old.built.pending) ∷ [];
          };
        }) }
    {
        self.builder.close_list(mark)?;
        Ok(())
    }

    /// Turns the two pending trees after `mark`, a keyword and a parameter, into a typed parameter,
    /// which is pending in their place.
    pub fn close_typed(&mut self, mark: usize) -> Result<(), AllocError>
        requires { mark + 2 ≡ length self.old.built.pending }
        ensures { IfOk result (λ _. self.new ≡ record self.old {
          built = record self.old.built {
            pending = take mark self.old.built.pending
                ++ typed_of (drop mark self.old.built.pending) ∷ [];
          };
        }) }
    {
        self.builder.close_typed(mark)?;
        Ok(())
    }

    /// Turns the pending trees after `mark` into one list, which is kept.
    pub fn keep_list(&mut self, mark: usize) -> Result<(), AllocError>
        requires { mark ≤ length self.old.built.pending }
        ensures { IfOk result (λ _. self.new ≡ record self.old {
          built = record self.old.built {
            kept = self.old.built.kept ++ list_of (drop mark self.old.built.pending) ∷ [];
            pending = take mark self.old.built.pending;
          };
        }) }
    {
        self.builder.keep_list(mark)?;
        Ok(())
    }

    /// Returns the number of kept trees.
    pub fn kept_len(&self) -> usize
        ensures { result ≡ length self.now.built.kept }
    {
        self.builder.kept_len()
    }

    /// Returns the kept trees.
    pub fn kept(&self) -> Params<'a, '_>
        ensures { result ≡ self.now.built.kept }
    {
        self.builder.kept()
    }

    /// Returns the kept trees, and drops the pending ones.
    pub fn finish(self) -> Forest<'a>
        ensures { result ≡ self.entry.built.kept }
    {
        self.builder.finish()
    }
}
