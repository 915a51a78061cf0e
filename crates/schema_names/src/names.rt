//! Names, and the numbers of their declarations.

ghost use Rattle.std.specs.Prelude.{
  ◌≡◌,
  ℕ,
  ◌<◌,
  ◌^◌,
  Some,
  None,
  cond,
  length,
  map,
  option_copied,
  nat_eq,
  slice_get,
  IfOk,
  IfSome,
  OnOk,
};
ghost use Rattle.std.specs.List.Sorted.{IsSorted};
ghost use Rattle.std.specs.Vec.{vec_len};
ghost use Rattle.std.proofs.Props.{props};
ghost use Rattle.indexmap.specs.IndexMap.{get};
ghost use Rattle.step_literals.specs.declared.literal.Word.{Word};
ghost use Rattle.express_syntax.specs.ExpressionViews.{capitals};
ghost use Rattle.express_syntax.specs.Views.{if_some, names_of, declaration_of as declaration_seen};
ghost use Rattle.express_syntax.specs.Schemas.{Declaration as DeclarationTree};
ghost use Rattle.express_syntax.specs.SchemaViews.{schema_of};
ghost use Rattle.schema_semantics.specs.Names.{Name, declared_name, is_named};
ghost use Rattle.schema_names.specs.Words.{same_word};
ghost use Rattle.schema_names.specs.Numbers.{number_from, number_of, IsAt};
ghost use Rattle.schema_names.specs.steps.Enumerated.{includes, items_at, by_name, words_at};
ghost use Rattle.schema_names.specs.declared.attribute_names.Class.TheVariants.{Explicit, Other};
ghost use Rattle.schema_names.specs.steps.OwnNames.{names_at, AreOwnRows};

use crate::attribute_names::{Class, OwnRows, has_in, own_rows};
use crate::enumeration_items::{has_word, item_rows};
use express_syntax::tree::{Declaration, SchemaTree};
use indexmap::IndexMap;
use std::alloc::{AllocError, Global};
use std::hash::RandomState;
use step_literals::literal::Word;

/// The most declarations that a schema may have: they, and the scopes that they make, get 32-bit
/// numbers.
const MOST_DECLARATIONS: usize = 4_294_967_295;

/// Numbers by name. The hash keys are random, so no schema can be crafted to collide.
type Numbers<'a> = IndexMap<Word<'a>, u32, RandomState>;

/// The names of the types and entities of a schema. A name refers to the first declaration that has
/// it. The number of that declaration is its position in the text, counted from 0
/// (ISO 10303-11, 10.3).
#[derive(Drop)]
pub struct Names<'a, 't> {
    pub schema: &'t SchemaTree<'a>,
    numbers: Numbers<'a>,
    /// By declaration, the items of an enumeration, sorted by name.
    items: Vec<Vec<Word<'a>>>,
    explicits: OwnRows<'a>,
    others: OwnRows<'a>,
    pub ghost few: { length (schema_of schema.now).declarations < 2 ^ 32 },
    pub ghost numbered: { (w : Word)
        → get same_word numbers w ≡ number_of (schema_of schema.now) (capitals w) },
    pub ghost sorted: { (i : ℕ) → IsSorted by_name (words_at items.items i) },
    pub ghost enumerated: { (i : ℕ) (n : Name) → includes (names_of (words_at items.items i)) n
        ≡ includes (items_at (schema_of schema.now) i) n },
    pub ghost explicit: { AreOwnRows (schema_of schema.now).declarations Explicit
        (get nat_eq explicits) } by { Prim.hlevel props },
    pub ghost other: { AreOwnRows (schema_of schema.now).declarations Other
        (get nat_eq others) } by { Prim.hlevel props },
}

/// Returns the name of a type or an entity, otherwise `None`.
fn declared_word<'a>(declaration: &Declaration<'a>) -> Option<Word<'a>>
    ensures { if_some capitals result ≡ declared_name (declaration_seen declaration.now) }
{
    match declaration {
        Declaration::Type(declared) => Some(declared.name),
        Declaration::Entity(entity) => Some(entity.name),
        Declaration::Skipped(_) => None,
    }
}

/// Maps the name of `declaration`, if any, to `number`, replacing an earlier entry.
fn number<'a>(
    numbers: &mut Numbers<'a>,
    declaration: &Declaration<'a>,
    number: u32,
) -> Result<(), AllocError>
    ensures { OnOk result ((w : Word) → get same_word numbers.new w
        ≡ cond (is_named (capitals w) (declared_name (declaration_seen declaration.now)))
        (Some number) (get same_word numbers.old w)) }
{
    let Some(name) = declared_word(declaration) else {
        return Ok(());
    };
    numbers.insert(name, number)?;
    Ok(())
}

/// Maps each name to the number of the first declaration that has it.
fn numbers_of<'a>(
    alloc: Global,
    keys: RandomState,
    declarations: &[Declaration<'a>],
) -> Result<Numbers<'a>, AllocError>
    requires { length declarations.now < 2 ^ 32 }
    ensures { IfOk result (λ m. (w : Word) → get same_word m w
        ≡ number_from 0 (map declaration_seen declarations.now) (capitals w)) }
{
    let mut numbers = IndexMap::with_hasher(alloc, keys);
    for i in (0..declarations.len()).rev() {
        number(&mut numbers, &declarations[i], i as u32)?;
    }
    Ok(numbers)
}

impl<'a, 't> Names<'a, 't> {
    ghost use Rattle.schema_names.specs.Schemas.{the_schema};

    /// Returns the names of `schema`, hashed with `keys`.
    ///
    /// # Errors
    /// `AllocError` if memory runs out or the schema has more than 2^32 - 1 declarations.
    pub fn of(
        alloc: Global,
        keys: RandomState,
        schema: &'t SchemaTree<'a>,
    ) -> Result<Names<'a, 't>, AllocError>
        ensures { IfOk result (λ names. names.schema.now ≡ schema.entry.now) }
    {
        if schema.declarations.len() > MOST_DECLARATIONS {
            return Err(AllocError);
        }
        let numbers = numbers_of(alloc, keys, &schema.declarations)?;
        let items = item_rows(alloc, &schema.declarations)?;
        let explicits = own_rows(alloc, keys, &schema.declarations, Class::Explicit)?;
        let others = own_rows(alloc, keys, &schema.declarations, Class::Other)?;
        Ok(Names {
            schema,
            numbers,
            items,
            explicits,
            others,
        })
    }

    /// Returns the number of the first type or entity of this name, if any.
    pub fn find(&self, name: Word<'_>) -> Option<u32>
        ensures { result ≡ number_of (the_schema self.now) (capitals name.entry) }
    {
        self.numbers.get(&name).copied()
    }

    /// Returns the name of the type or entity with this number, or `None` for other declarations.
    pub fn name(&self, number: u32) -> Option<Word<'a>>
        requires { number < length self.now.schema.now.declarations.items }
        ensures { (d : DeclarationTree) → IsAt (the_schema self.now) number d
            → if_some capitals result ≡ declared_name d }
    {
        declared_word(self.declaration(number))
    }

    /// Returns the declaration with this number.
    pub fn declaration(&self, number: u32) -> &Declaration<'a>
        requires { number < length self.now.schema.now.declarations.items }
        ensures { slice_get self.now.schema.now.declarations.items number ≡ Some result.now }
    {
        &self.schema.declarations[number as usize]
    }

    /// Returns the declaration with this number, if any.
    pub fn at(&self, number: u32) -> Option<&Declaration<'a>>
        ensures { option_copied result
            ≡ slice_get self.now.schema.now.declarations.items number }
    {
        self.schema.declarations.get(number as usize)
    }

    /// Whether the declaration with this number is an enumeration with an item `name`
    /// (ISO 10303-11, 8.4.1).
    ///
    /// Takes time logarithmic in the count of its items.
    pub fn has_item(&self, number: u32, name: Word<'_>) -> bool
        ensures { result ≡ includes (items_at (the_schema self.now) number) (capitals name.entry) }
    {
        match self.items.get(number as usize) {
            Some(row) => has_word(row, name),
            None => false,
        }
    }

    /// Whether the entity with this number declares an attribute `name` of `class` itself
    /// (ISO 10303-11, 9.2.1). `None` if the entity has no row of names, because it declares few
    /// attributes of `class`.
    ///
    /// Takes time logarithmic in the count of these attributes.
    pub fn has_own(&self, number: u32, class: Class, name: Word<'_>) -> Option<bool>
        ensures { IfSome result (λ b. b ≡ includes
            (names_at (the_schema self.now) class number) (capitals name.entry)) }
    {
        match class {
            Class::Explicit => has_in(&self.explicits, number, name),
            Class::Other => has_in(&self.others, number, name),
        }
    }

    /// Returns the count of declarations.
    pub fn len(&self) -> usize
        ensures { result ≡ vec_len self.now.schema.now.declarations }
    {
        self.schema.declarations.len()
    }

    /// Returns all declarations, indexed by number.
    pub fn declarations(&self) -> &[Declaration<'a>]
        ensures { result.now ≡ self.now.schema.now.declarations.items }
    {
        &self.schema.declarations
    }
}
