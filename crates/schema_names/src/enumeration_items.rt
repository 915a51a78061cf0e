//! The items of enumerations, sorted by name.

ghost use Rattle.std.specs.Prelude.{◌≡◌, IfOk};
ghost use Rattle.std.specs.List.{AllZip};
ghost use Rattle.std.specs.List.Sorted.{IsSorted};
ghost use Rattle.express_syntax.specs.ExpressionViews.{capitals};
ghost use Rattle.express_syntax.specs.Views.{
  names_of,
  underlying_of,
  declaration_of as declaration_seen,
};
ghost use Rattle.schema_semantics.specs.Names.{Name};
ghost use Rattle.schema_semantics.specs.Faults.{enumerated_items};
ghost use Rattle.schema_names.specs.steps.Enumerated.{includes, items_in, by_name, IsItemRow};

use express_syntax::tree::{Declaration, Underlying};
use std::alloc::{AllocError, Global};
use step_literals::literal::Word;

/// Returns the items of an enumeration. Empty for other types.
fn items_of<'d, 'a>(underlying: &'d Underlying<'a>) -> &'d [Word<'a>]
    ensures { names_of result.now ≡ enumerated_items (underlying_of underlying.now) }
{
    match underlying {
        Underlying::Enumeration(items) => items,
        Underlying::Select(_) | Underlying::DataType(_) => &[],
    }
}

/// Returns the items of a declared enumeration. Empty for other declarations.
fn items_in<'d, 'a>(declaration: &'d Declaration<'a>) -> &'d [Word<'a>]
    ensures { names_of result.now ≡ items_in (declaration_seen declaration.now) }
{
    match declaration {
        Declaration::Type(declared) => items_of(&declared.underlying),
        _ => &[],
    }
}

/// Returns `words`, sorted by name.
pub(crate) fn in_order<'a>(alloc: Global, words: &[Word<'a>]) -> Result<Vec<Word<'a>>, AllocError>
    ensures sorted { IfOk result (λ row. IsSorted by_name row.items) }
    ensures same { IfOk result (λ row. (n : Name)
        → includes (names_of row.items) n ≡ includes (names_of words.now) n) }
{
    let mut row = Vec::from_slice(alloc, words)?;
    row.sort_unstable();
    Ok(row)
}

/// Returns the items of a declared enumeration, sorted by name. Empty for other declarations.
fn item_row<'a>(alloc: Global, declaration: &Declaration<'a>) -> Result<Vec<Word<'a>>, AllocError>
    ensures { IfOk result (λ row. IsItemRow (declaration_seen declaration.now) row.items) }
{
    in_order(alloc, items_in(declaration))
}

/// Returns a row for each declaration: the items of an enumeration, sorted by name.
pub(crate) fn item_rows<'a>(
    alloc: Global,
    declarations: &[Declaration<'a>],
) -> Result<Vec<Vec<Word<'a>>>, AllocError>
    ensures { IfOk result (λ rows. AllZip (λ d v. IsItemRow (declaration_seen d) v.items)
        declarations.now rows.items) }
{
    let mut rows = Vec::new(alloc);
    for declaration in declarations {
        rows.push(item_row(alloc, declaration)?)?;
    }
    Ok(rows)
}

/// Whether `word` is among `words`, which are sorted by name.
pub(crate) fn has_word<'a>(words: &[Word<'a>], word: Word<'a>) -> bool
    requires { IsSorted by_name words.now }
    ensures { result ≡ includes (names_of words.now) (capitals word.entry) }
{
    words.binary_search(&word).is_ok()
}
