//! Schemas as trees (ISO 10303-11, 8 and 9).

ghost use Rattle.std.specs.Prelude.{◌≡◌};
ghost use Rattle.express_syntax.specs.Texts.{IsRead};
ghost use Rattle.express_syntax.specs.Views.{schema_from};

use crate::expression::{Expr, Sign};
use crate::passage::{Passage, Routine, Run};
use express_lexer::literal::{EncodedString, SimpleString};
use step_literals::literal::{Decimal, Word};

/// The expression of a rule or a derived attribute.
#[derive(Drop)]
pub enum Body<'a> {
    Expression(Expr<'a>),
    /// Tokens that aren't an expression that is read.
    SetAside(Run<'a>),
}

/// A domain rule, with its label if it has one (ISO 10303-11, 9.2.2.2).
#[derive(Drop)]
pub struct Rule<'a> {
    pub label: Option<Word<'a>>,
    pub body: Body<'a>,
}

/// A bound of an aggregate type (ISO 10303-11, 8.2).
#[derive(Drop)]
pub enum Bound<'a> {
    /// An integer, with its sign, if any.
    Value(Option<Sign>, Decimal<'a>),
    /// `?`
    Unlimited,
    /// Any other tokens.
    Other(Box<Run<'a>>),
}

/// The bounds of an aggregate type, or the indices of an array (ISO 10303-11, 8.2).
#[derive(Drop)]
pub struct Bounds<'a> {
    pub lower: Bound<'a>,
    pub upper: Bound<'a>,
}

/// The precision of a REAL, or the width of a STRING or BINARY (ISO 10303-11, 8.1).
#[derive(Clone, Copy)]
pub enum Width<'a> {
    Value(Decimal<'a>),
    /// Tokens other than a single integer.
    Other(Run<'a>),
}

/// The width of a STRING or BINARY, and whether it is FIXED (ISO 10303-11, 8.1.6 and 8.1.7).
#[derive(Clone, Copy)]
pub struct FixedWidth<'a> {
    pub width: Width<'a>,
    pub is_fixed: bool,
}

/// The data type of an attribute's values, or of a defined type (ISO 10303-11, 8). Parts that few
/// data types have are boxed, so that the other data types are small.
#[derive(Drop)]
pub enum DataType<'a> {
    Integer,
    Number,
    Boolean,
    Logical,
    Real(Option<Box<Width<'a>>>),
    String(Option<Box<FixedWidth<'a>>>),
    Binary(Option<Box<FixedWidth<'a>>>),
    /// A defined type or an entity.
    Named(Word<'a>),
    /// An array (ISO 10303-11, 8.2.1).
    Array {
        is_optional: bool,
        is_unique: bool,
        bounds: Box<Bounds<'a>>,
        element: Box<DataType<'a>>,
    },
    /// A list (ISO 10303-11, 8.2.2).
    List {
        is_unique: bool,
        bounds: Box<Option<Bounds<'a>>>,
        element: Box<DataType<'a>>,
    },
    /// A bag (ISO 10303-11, 8.2.3).
    Bag {
        bounds: Box<Option<Bounds<'a>>>,
        element: Box<DataType<'a>>,
    },
    /// A set (ISO 10303-11, 8.2.4).
    Set {
        bounds: Box<Option<Bounds<'a>>>,
        element: Box<DataType<'a>>,
    },
}

/// The underlying type of a defined type: an enumeration, a select or a data type (ISO 10303-11, 8.3
/// and 8.4).
#[derive(Drop)]
pub enum Underlying<'a> {
    /// An enumeration of these items, of which there is at least one.
    Enumeration(Vec<Word<'a>>),
    /// A select of these types, of which there is at least one.
    Select(Vec<Word<'a>>),
    DataType(DataType<'a>),
}

/// A defined type (ISO 10303-11, 9.1).
#[derive(Drop)]
pub struct TypeDeclaration<'a> {
    pub name: Word<'a>,
    pub underlying: Underlying<'a>,
    /// The rules after WHERE, or `None` if there is no WHERE.
    pub rules: Option<Vec<Rule<'a>>>,
}

/// The SUPERTYPE clause of an entity (ISO 10303-11, 9.2.5).
#[derive(Drop)]
pub enum Supertype<'a> {
    /// No clause.
    Unsaid,
    /// SUPERTYPE without an expression.
    Bare,
    /// SUPERTYPE OF one entity.
    OfOne(Word<'a>),
    /// SUPERTYPE OF ONEOF these entities, of which there is at least one.
    OfOneOf(Vec<Word<'a>>),
    /// SUPERTYPE OF any other expression.
    OfOther(Run<'a>),
}

/// An attribute, as it is declared (ISO 10303-11, 9.2.1 and 9.2.3.4).
#[derive(Clone, Copy)]
pub enum Attribute<'a> {
    Unqualified(Word<'a>),
    /// `SELF\entity.attribute`
    Redeclared(Word<'a>, Word<'a>),
}

/// Attributes that are declared together: mostly one, which allocates nothing.
#[derive(Drop)]
pub enum AttributeList<'a> {
    One(Attribute<'a>),
    Several(Vec<Attribute<'a>>),
}

/// Explicit attributes of one data type (ISO 10303-11, 9.2.1.1).
#[derive(Drop)]
pub struct Explicit<'a> {
    /// At least one.
    pub attributes: AttributeList<'a>,
    pub is_optional: bool,
    pub data_type: DataType<'a>,
}

/// A derived attribute (ISO 10303-11, 9.2.1.2).
#[derive(Drop)]
pub struct Derived<'a> {
    pub attribute: Attribute<'a>,
    pub data_type: DataType<'a>,
    pub body: Body<'a>,
}

/// The collection of an inverse attribute: one entity, or a SET or BAG of them (ISO 10303-11,
/// 9.2.1.3).
#[derive(Drop)]
pub enum Collection<'a> {
    One,
    Set(Option<Bounds<'a>>),
    Bag(Option<Bounds<'a>>),
}

/// An inverse attribute (ISO 10303-11, 9.2.1.3).
#[derive(Drop)]
pub struct Inverse<'a> {
    pub attribute: Attribute<'a>,
    pub collection: Collection<'a>,
    pub entity: Word<'a>,
    /// The entity that declares the inverted attribute, if it is named.
    pub holder: Option<Word<'a>>,
    pub inverted: Word<'a>,
}

/// A uniqueness rule, with its label if it has one (ISO 10303-11, 9.2.2.1).
#[derive(Drop)]
pub struct Unique<'a> {
    pub label: Option<Word<'a>>,
    /// At least one.
    pub attributes: Vec<Attribute<'a>>,
}

/// An entity (ISO 10303-11, 9.2). A clause that is absent differs from a clause that is empty.
#[derive(Drop)]
pub struct Entity<'a> {
    pub name: Word<'a>,
    pub is_abstract: bool,
    pub supertype: Supertype<'a>,
    /// The entities after SUBTYPE OF, of which there is at least one.
    pub subtype_of: Option<Vec<Word<'a>>>,
    pub explicits: Vec<Explicit<'a>>,
    pub derived: Option<Vec<Derived<'a>>>,
    pub inverses: Option<Vec<Inverse<'a>>>,
    pub uniques: Option<Vec<Unique<'a>>>,
    pub rules: Option<Vec<Rule<'a>>>,
}

/// A declaration of which only the tokens are kept.
#[derive(Clone, Copy)]
pub enum Skipped<'a> {
    /// A function (ISO 10303-11, 9.5.1).
    Function(Word<'a>, Routine<'a>),
    /// A procedure (ISO 10303-11, 9.5.2).
    Procedure(Word<'a>, Routine<'a>),
    /// A global rule, up to END_RULE (ISO 10303-11, 9.6).
    Rule(Word<'a>, Passage<'a>),
    /// Constants, up to END_CONSTANT (ISO 10303-11, 9.4).
    Constants(Passage<'a>),
    /// A subtype constraint, up to END_SUBTYPE_CONSTRAINT (ISO 10303-11, 9.7).
    SubtypeConstraint(Word<'a>, Passage<'a>),
}

/// A declaration of a schema (ISO 10303-11, 9).
#[derive(Drop)]
pub enum Declaration<'a> {
    Type(TypeDeclaration<'a>),
    Entity(Entity<'a>),
    Skipped(Skipped<'a>),
}

/// The version of a schema, a string (ISO 10303-11, 9.3).
#[derive(Clone, Copy)]
pub enum Version<'a> {
    String(SimpleString<'a>),
    Encoded(EncodedString<'a>),
}

/// A schema that some text reads as (ISO 10303-11, 9.3). It is within the limits, with runs only
/// for parts that have no tree. The fields are for reading.
#[derive(Drop)]
pub struct SchemaTree<'a> {
    pub name: Word<'a>,
    pub version: Option<Version<'a>>,
    pub declarations: Vec<Declaration<'a>>,
    /// Names by which exchange structures may call the schema beside its own, in any case.
    pub other_names: Vec<String>,
    pub ghost read: { ∥ IsRead (schema_from name version declarations.items) ∥₁ },
}

impl<'a> SchemaTree<'a> {
    /// Returns the same schema, which exchange structures may also call by `names`, in any case.
    pub fn with_other_names(self, names: Vec<String>) -> SchemaTree<'a>
        ensures { result ≡ record self.entry { other_names = names } }
    {
        SchemaTree {
            name: self.name,
            version: self.version,
            declarations: self.declarations,
            other_names: names,
        }
    }
}
