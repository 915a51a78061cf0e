//! Names in parentheses.

ghost use Rattle.std.specs.Prelude.{[]};
ghost use Rattle.express_syntax.specs.Views.{names_of};
ghost use Rattle.express_syntax.specs.WrittenSchemas.{words_of_names};
ghost use Rattle.express_syntax.specs.Profile.{IsFilled};
ghost use Rattle.express_syntax.specs.steps.Predict.{names_symbols};
ghost use Rattle.express_syntax.specs.steps.Steps.{ParsesWhere};

use crate::reader::Reader;
use crate::tokens::{is_mark, refuse};
use express_lexer::marks::Mark;
use express_syntax::fault::SyntaxFault;
use step_literals::literal::Word;

/// Reads names in parentheses, of which there is at least one.
pub fn names<'a>(reader: &mut Reader<'a>) -> Result<Vec<Word<'a>>, SyntaxFault>
    ensures { ParsesWhere result names_symbols
        (λ ns. words_of_names (names_of ns.items)) (λ ns. IsFilled (names_of ns.items))
        reader.old reader.new }
{
    reader.expect(Mark::Open)?;
    let first = reader.expect_name()?;
    let mut names = Vec::new(reader.alloc());
    names.push(first)?;
    loop {
        let behind = reader.take()?;
        if is_mark(behind, Mark::Close) {
            names.shrink_to_fit();
            return Ok(names);
        }
        if !is_mark(behind, Mark::Comma) {
            return Err(refuse(behind));
        }
        let further = reader.expect_name()?;
        names.push(further)?;
    }
}
