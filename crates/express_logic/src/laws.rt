//! Laws about the definitions, apart from any code.

ghost use Rattle.express_logic.specs.Laws.{
  LogicHasItsOrder,
  EqualValuesAreTheSame,
  LesserValuesAreBelow,
  MembersAreEqualElements,
  LiteralsSayTheirContent,
};

/// In the order FALSE < UNKNOWN < TRUE, AND is the minimum, OR is the maximum, and NOT reverses the
/// order. XOR is OR but not AND (ISO 10303-11, 12.4).
pub fn logic_has_its_order()
    ensures { LogicHasItsOrder }
{}

/// Two values compare as equal exactly if what is compared is of one kind and equal. The comparison
/// is UNKNOWN exactly if it isn't of one kind (ISO 10303-11, 12.2.1).
pub fn equal_values_are_the_same()
    ensures { EqualValuesAreTheSame }
{}

/// A value compares as less than another exactly if both are of a kind that has an order and the
/// first comes before the second. The comparison is UNKNOWN exactly if they have no order in common
/// (ISO 10303-11, 12.2.1).
pub fn lesser_values_are_below()
    ensures { LesserValuesAreBelow }
{}

/// A known value is a member of an aggregate exactly if it is equal to some element. It is no
/// member exactly if it differs from each element (ISO 10303-11, 12.2.3).
pub fn members_are_equal_elements()
    ensures { MembersAreEqualElements }
{}

/// The values of strings and binaries of a schema are those of the content of their spelling (ISO
/// 10303-11, 7.5).
pub fn literals_say_their_content()
    ensures { LiteralsSayTheirContent }
{}
