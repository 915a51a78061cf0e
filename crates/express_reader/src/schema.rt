//! A schema, read from bytes (ISO 10303-11, 9.3).

ghost use Rattle.std.specs.Prelude.{
  ◌≡◌,
  ℕ,
  [],
  ◌∷◌,
  ◌++◌,
  List,
  false,
  map,
  Err,
  IfOk,
  IfErr,
  MatchOption,
  MatchResult,
};
ghost use Rattle.parsing.specs.Tables.{lookaheads};
ghost use Rattle.express_lexer.specs.declared.marks.Mark.TheVariants as marks;
ghost use Rattle.express_lexer.specs.Reading.{start, IsAtEnd};
ghost use Rattle.express_syntax.specs.declared.keyword.Keyword.TheVariants as keywords;
ghost use Rattle.express_syntax.specs.Words.{keyword, mark};
ghost use Rattle.express_syntax.specs.Grammar.{depth_limit};
ghost use Rattle.express_syntax.specs.Schemas.{Schema};
ghost use Rattle.express_syntax.specs.Views.{if_some, version_of, declaration_of};
ghost use Rattle.express_syntax.specs.SchemaViews.{schema_of};
ghost use Rattle.express_syntax.specs.WrittenSchemas.{concatenated, words_of_declaration, words_of_version};
ghost use Rattle.express_syntax.specs.Profile.{
  Every,
  Maybe,
  IsVersion,
  FitsDeclaration,
  FitsSchema,
};
ghost use Rattle.express_syntax.specs.Texts.{
  token,
  LocatedToken,
  ShowsAll,
  lookaheads_of,
  ReadsAs,
  IsFaultOf,
  IsMemory,
};
ghost use Rattle.express_syntax.specs.Sources.{IsDeclarationOf, IsSchemaOf};
ghost use Rattle.express_syntax.specs.Places.{IsDeclarationAt, AreDeclarationsAt, IsSchemaAt};
ghost use Rattle.express_syntax.specs.steps.Predict;
ghost use Rattle.express_syntax.specs.steps.Predict.{
  Declarations,
  EndOfText,
  refused,
  next_version,
  schema_symbols,
};
ghost use Rattle.express_token_runs.specs.steps.Items.{located_of};
ghost use Rattle.express_syntax.specs.steps.Steps.{Passes, ParsesWhere, StopsIn};

use crate::types::type_declaration;
use express_entities::entities::entity;
use express_lexer::lexer::Lexer;
use express_lexer::marks::Mark;
use express_syntax::fault::{FaultKind, SchemaFault, SyntaxFault};
use express_syntax::keyword::Keyword;
use express_syntax::lexeme::Lexeme;
use express_syntax::tree::{Declaration, SchemaTree, Version};
use express_token_runs::reader::Reader;
use express_token_runs::skipped_declarations::skipped;
use express_token_runs::tokens::{Item, is_keyword, is_mark, refuse};
use std::alloc::Global;

/// Returns the version that the token is, if any.
fn version_at(item: Item<'_>) -> Option<Version<'_>>
    ensures { MatchOption result (Predict.is_mark marks.Semicolon (located_of item.entry).lookahead
        ≡ false → next_version (located_of item.entry).lookahead
        ≡ Err (refused (located_of item.entry).lookahead))
        (λ v. (located_of item.entry).lookahead ≡ token (version_of v)) }
{
    match item.lexeme {
        Lexeme::String(text) => Some(Version::String(text)),
        Lexeme::Encoded(text) => Some(Version::Encoded(text)),
        _ => None,
    }
}

/// Reads the version of a schema, if any, and the semicolon.
fn some_version<'a>(reader: &mut Reader<'a>) -> Result<Option<Version<'a>>, SyntaxFault>
    ensures { ParsesWhere result (Predict.Version ∷ [])
        (λ v. words_of_version (if_some version_of v) ++ mark marks.Semicolon ∷ [])
        (λ v. Maybe IsVersion (if_some version_of v)) reader.old reader.new }
{
    let item = reader.take()?;
    if is_mark(item, Mark::Semicolon) {
        return Ok(None);
    }
    let Some(version) = version_at(item) else {
        return Err(refuse(item));
    };
    reader.expect(Mark::Semicolon)?;
    Ok(Some(version))
}

/// Reads the declaration that begins with this token.
fn declaration<'a>(reader: &mut Reader<'a>, first: Item<'a>) -> Result<Declaration<'a>, SyntaxFault>
    requires { Predict.is_keyword keywords.EndSchema (located_of first).lookahead ≡ false }
    ensures read { MatchResult result
        (λ d. FitsDeclaration depth_limit (declaration_of d)
        × Passes (Declarations ∷ []) (Declarations ∷ []) (located_of first.entry ∷ [])
        (words_of_declaration (declaration_of d)) reader.old reader.new)
        (λ e. StopsIn e (Declarations ∷ []) (located_of first.entry ∷ []) reader.old) }
    ensures text { IfOk result (λ d. IsDeclarationOf reader.old.text d) }
    ensures place { IfOk result (λ d. IsDeclarationAt reader.old.text reader.old.place d) }
{
    if is_keyword(first, Keyword::Type) {
        let declared = type_declaration(reader)?;
        return Ok(Declaration::Type(declared));
    }
    if is_keyword(first, Keyword::Entity) {
        let declared = entity(reader)?;
        return Ok(Declaration::Entity(declared));
    }
    let Lexeme::Name(word) = first.lexeme else {
        return Err(refuse(first));
    };
    let kept = skipped(reader, word, first.place)?;
    Ok(Declaration::Skipped(kept))
}

/// Reads the declarations of a schema, and the end of the schema.
fn all_declarations<'a>(reader: &mut Reader<'a>) -> Result<Vec<Declaration<'a>>, SyntaxFault>
    ensures read { ParsesWhere result (Declarations ∷ [])
        (λ v. concatenated (map words_of_declaration (map declaration_of v.items))
        ++ keyword keywords.EndSchema ∷ mark marks.Semicolon ∷ [])
        (λ v. Every (FitsDeclaration depth_limit) (map declaration_of v.items)) reader.old
        reader.new }
    ensures text { IfOk result
        (λ v. Every (IsDeclarationOf reader.old.text) v.items) }
    ensures place { IfOk result
        (λ v. (to : ℕ) × AreDeclarationsAt reader.old.text reader.old.place v.items to) }
{
    let mut declarations = Vec::new(reader.alloc());
    loop {
        let first = reader.take()?;
        if is_keyword(first, Keyword::EndSchema) {
            reader.expect(Mark::Semicolon)?;
            declarations.shrink_to_fit();
            return Ok(declarations);
        }
        let next = declaration(reader, first)?;
        declarations.push(next)?;
    }
}

/// Reads the end of the text from a lexer.
fn expect_end(lexer: &mut Lexer<'_>) -> Result<(), SyntaxFault>
    ensures { MatchResult result
        (λ _. IsAtEnd lexer.old lexer.new)
        (λ e. StopsIn e (EndOfText ∷ []) [] lexer.old) }
{
    match lexer.next_token() {
        Ok(None) => Ok(()),
        Ok(Some(token)) => Err(refuse(Item {
            lexeme: Lexeme::of(&token),
            place: token.place,
        })),
        Err(fault) => Err(SyntaxFault::Fault {
            kind: FaultKind::BadToken,
            place: fault.place,
        }),
    }
}

/// Reads the end of the text.
fn end_of_text(reader: &mut Reader<'_>) -> Result<(), SyntaxFault>
    ensures { MatchResult result
        (λ _. IsAtEnd reader.old reader.new)
        (λ e. StopsIn e (EndOfText ∷ []) [] reader.old) }
{
    expect_end(&mut reader.lexer)
}

/// Reads a schema, and the end of the text.
fn whole_schema<'a>(reader: &mut Reader<'a>) -> Result<SchemaTree<'a>, SyntaxFault>
    requires { (text : List ℕ) × (reader.old ≡ start text) }
    ensures read { MatchResult result
        (λ x. FitsSchema depth_limit (schema_of x) × (shown : List LocatedToken)
        × ShowsAll reader.old shown reader.new × (lookaheads shown ≡ lookaheads_of (schema_of x)))
        (λ e. StopsIn e schema_symbols [] reader.old) }
    ensures text { IfOk result (λ x. IsSchemaOf reader.old.text x) }
    ensures place { IfOk result (λ x. IsSchemaAt reader.old.text reader.old.place x) }
{
    reader.expect_keyword(Keyword::Schema)?;
    let name = reader.expect_name()?;
    let version = some_version(reader)?;
    let declarations = all_declarations(reader)?;
    end_of_text(reader)?;
    let other_names = Vec::new(reader.alloc());
    Ok(SchemaTree {
        name,
        version,
        declarations,
        other_names,
    })
}

/// Reads the text of a schema.
///
/// # Errors
///
/// - `Text` with the first fault of the text,
/// - `Memory` if memory runs out.
pub fn read_schema<'a>(alloc: Global, text: &'a [u8]) -> Result<SchemaTree<'a>, SchemaFault>
    // The schema that is read is the one that the text reads as.
    ensures found { IfOk result (λ x. ReadsAs text.now (schema_of x)) }
    // If the text reads as a schema, that schema is read, unless memory runs out.
    ensures all { (x : Schema) → ReadsAs text.now x → MatchResult result
        (λ t. schema_of t ≡ x) IsMemory }
    // The passages in the schema belong to the text.
    ensures text { IfOk result (λ x. IsSchemaOf text.now x) }
    // The passages of skipped declarations have the byte offsets of these declarations.
    ensures place { IfOk result (λ x. IsSchemaAt text.now (start text.now).place x) }
    // A fault is the first one of the text.
    ensures fault { IfErr result (λ e. IsFaultOf text.now e) }
{
    let mut reader = Reader::new(alloc, text);
    let schema = whole_schema(&mut reader)?;
    Ok(schema)
}
