//! Lists of unchecked parts, and the names of such parts.

ghost use Rattle.std.specs.Prelude.{◌≡◌, ◌++◌, ◌∷◌, [], IfOk, OnOk};
ghost use Rattle.std.specs.String.{string_bytes};
ghost use Rattle.express_syntax.specs.ExpressionViews.{capitals};
ghost use Rattle.express_syntax.specs.Views.{attribute_of};
ghost use Rattle.schema_semantics.specs.Parts.{dotted, attribute_label};
ghost use Rattle.schema_unchecked_declarations.specs.UncheckedLists.{label_name, unchecked_in};

use express_syntax::tree::Attribute;
use schema_names::capital_names::in_capitals;
use schema_semantics::unchecked::{PartKind, Reason};
use std::alloc::{AllocError, Global};
use step_literals::literal::Word;

/// An unchecked part.
#[derive(Drop, Debug, PartialEq, Eq)]
pub struct Unchecked {
    pub kind: PartKind,
    /// The name of its declaration, followed by a dot and its own label, if any, in capitals.
    pub name: String,
    pub reason: Reason,
}

/// The name of a part.
#[derive(Clone, Copy)]
pub enum Label<'a> {
    /// The name of its declaration.
    Of(Word<'a>),
    /// The name of its declaration and, after a dot, its own.
    Dotted(Word<'a>, Word<'a>),
    /// The name of its declaration and, after a dot, `?` and its number in its clause, counted from
    /// 1: a rule without a label.
    Numbered(Word<'a>, u64),
    /// The word CONSTANT: constants, whose declaration has no name.
    Constants,
}

/// Returns `holder` in capitals, a dot and `label`.
fn dotted(alloc: Global, holder: Word<'_>, label: &str) -> Result<String, AllocError>
    ensures { IfOk result (λ text. string_bytes text ≡ dotted (capitals holder.entry) label.now) }
{
    let mut text = in_capitals(alloc, holder)?;
    text.push('.')?;
    text.push_str(label)?;
    Ok(text)
}

/// Returns the text of `label`, in capitals.
fn label_text(alloc: Global, label: Label<'_>) -> Result<String, AllocError>
    ensures { IfOk result (λ text. string_bytes text ≡ label_name label.entry) }
{
    match label {
        Label::Of(name) => in_capitals(alloc, name),
        Label::Dotted(holder, name) => {
            let own = in_capitals(alloc, name)?;
            dotted(alloc, holder, &own)
        }
        Label::Numbered(holder, number) => {
            let own = format!(in alloc; "?{number}")?;
            dotted(alloc, holder, &own)
        }
        Label::Constants => String::from_str(alloc, "CONSTANT"),
    }
}

/// Returns the name of an attribute: HOLDER.ATTRIBUTE (ISO 10303-11, 9.2.1).
pub fn attribute_label<'a>(holder: Word<'a>, attribute: &Attribute<'a>) -> Label<'a>
    ensures { label_name result ≡ attribute_label (capitals holder.entry)
        (attribute_of attribute.now) }
{
    Label::Dotted(holder, attribute.name())
}

/// Adds an unchecked part.
pub fn add_part(
    alloc: Global,
    list: &mut Vec<Unchecked>,
    kind: PartKind,
    label: Label<'_>,
    reason: Reason,
) -> Result<(), AllocError>
    ensures { OnOk result (unchecked_in list.new.items ≡ unchecked_in list.old.items
        ++ record { kind = kind; name = label_name label.entry; reason = reason } ∷ []) }
{
    let name = label_text(alloc, label)?;
    list.push(Unchecked { kind, name, reason })?;
    Ok(())
}
