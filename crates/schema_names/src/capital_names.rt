//! Names in capitals.

ghost use Rattle.std.specs.Prelude.{◌≡◌, IfOk};
ghost use Rattle.std.specs.String.{string_bytes};
ghost use Rattle.express_syntax.specs.ExpressionViews.{capitals};

use std::alloc::{AllocError, Global};
use step_literals::literal::Word;

/// Returns `name` in capitals: letters have no case (ISO 10303-11, 7.4).
pub fn in_capitals(alloc: Global, name: Word<'_>) -> Result<String, AllocError>
    ensures { IfOk result (λ text. string_bytes text ≡ capitals name.entry) }
{
    let mut text = String::from_utf8_lossy(alloc, name.spelling())?;
    text.make_ascii_uppercase();
    Ok(text)
}
