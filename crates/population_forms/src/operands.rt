//! The operands of ONEOFs, by number.

ghost use Rattle.std.specs.Prelude.{◌≡◌, [], ◌++◌, map, filter_map, IfOk, OnOk};
ghost use Rattle.std.specs.List.{cons_option};
ghost use Rattle.graphs.specs.Graphs.{graph_of};
ghost use Rattle.express_syntax.specs.Views.{names_of, declaration_of as declaration_seen};
ghost use Rattle.schema_names.specs.Numbers.{number_of};
ghost use Rattle.schema_names.specs.Schemas.{the_schema};
ghost use Rattle.population_forms.specs.steps.Knowing.{AreOperands, one_ofs_in};

use express_syntax::tree::{Declaration, Supertype};
use schema_names::names::Names;
use std::alloc::{AllocError, Global};
use step_literals::literal::Word;

/// Adds `number` to `row`, if it is some number.
fn add_number(row: &mut Vec<u32>, number: Option<u32>) -> Result<(), AllocError>
    ensures { OnOk result (row.new.items ≡ row.old.items ++ cons_option number []) }
{
    if let Some(number) = number {
        row.push(number)?;
    }
    Ok(())
}

/// Returns the numbers of the declarations that `words` name, in order. Undeclared names are left
/// out.
fn numbers_of<'a>(
    alloc: Global,
    names: &Names<'a, '_>,
    words: &[Word<'a>],
) -> Result<Vec<u32>, AllocError>
    ensures { IfOk result (λ row. row.items
        ≡ filter_map (number_of (the_schema names.now)) (names_of words.now)) }
{
    let mut row = Vec::new(alloc);
    for word in words {
        add_number(&mut row, names.find(*word))?;
    }
    Ok(row)
}

/// Adds the operands of the ONEOF of `declaration`, if it is an entity with a ONEOF that is
/// checked.
fn add_operands<'a>(
    alloc: Global,
    names: &Names<'a, '_>,
    declaration: &Declaration<'a>,
    rows: &mut Vec<Vec<u32>>,
) -> Result<(), AllocError>
    ensures { OnOk result (graph_of rows.new.items ≡ graph_of rows.old.items
        ++ map (filter_map (number_of (the_schema names.now)))
        (one_ofs_in (declaration_seen declaration.now))) }
{
    let Declaration::Entity(entity) = declaration else {
        return Ok(());
    };
    if let Supertype::OfOneOf(words) = &entity.supertype {
        rows.push(numbers_of(alloc, names, words)?)?;
    }
    Ok(())
}

/// Returns the numbers of the operands of each ONEOF that is checked, in the order of the text
/// (ISO 10303-11, 9.2.5).
pub fn one_ofs(alloc: Global, names: &Names<'_, '_>) -> Result<Vec<Vec<u32>>, AllocError>
    ensures { IfOk result (λ rows. AreOperands (the_schema names.now) (graph_of rows.items)) }
{
    let mut rows = Vec::new(alloc);
    for declaration in names.declarations() {
        add_operands(alloc, names, declaration, &mut rows)?;
    }
    Ok(rows)
}
