//! Laws of the definitions.

ghost use Rattle.std.specs.Prelude.{
  ◌≡◌,
  ◌≤◌,
  ◌↔◌,
  ℕ,
  ◌*◌,
  ◌-◌,
  List,
  [],
  ◌∷◌,
  ◌++◌,
  length,
  drop,
  None,
  Some,
  true,
  not,
  IsTrue,
  nat_eq,
  pos,
  neg_ℤ,
  ◌-ℤ◌,
};
ghost use Rattle.std.specs.Bool.{beq};
ghost use Rattle.std.specs.List.{flat_map};
ghost use Rattle.std.specs.Ordering.{on, int_eq};
ghost use Rattle.std.specs.Cmp.Lexicographic.{pointwise};
ghost use Rattle.step_literals.specs.Bytes.{is_digit, Each};
ghost use Rattle.step_literals.specs.Tokens.{is_e, IsSign, IsDigits, Says};
ghost use Rattle.step_literals.specs.Words.{upper};
ghost use Rattle.step_literals.specs.Numbers.{exponent_digits};
ghost use Rattle.step_literals.specs.Decimals.{
  signed_value,
  mantissa,
  exponent,
  ComparedAtLesserExponent,
};
ghost use Rattle.step_literals.specs.DecimalKeys.{units_of};
ghost use Rattle.step_literals.specs.Strings.{Piece, piece_at, BeginsPiece, BeginsDirective};
ghost use Rattle.step_literals.specs.Bits.{digit_bits, bits_of};
ghost use Rattle.step_literals.specs.Values.{word_value, bits_value};
ghost use Rattle.step_literals.specs.declared.literal.Word.{Word};
ghost use Rattle.step_literals.specs.declared.literal.Bits.{Bits};
ghost use Rattle.step_literals.specs.declared.literal.Decimal.{Decimal};
ghost use Rattle.step_literals.specs.Items.{StringsSayTheirPieces};
ghost use Rattle.step_literals.specs.ItemKeys.{TextsAreTheirItems};

/// The digits that the limit of an exponent counts are those after the `E` and its sign.
pub fn exponent_digits_are_behind_the_e()
    ensures written { (front sign ds : List ℕ) (e : ℕ) → Each (λ b. not (is_e b)) front
        → is_e e ≡ true → IsSign sign → IsDigits ds
        → exponent_digits (front ++ e ∷ (sign ++ ds)) ≡ ds }
    ensures none { (front : List ℕ) → Each (λ b. not (is_e b)) front → exponent_digits front ≡ [] }
{}

/// A piece that the table of a string's pieces finds at the start is spelled there, and has its
/// length. If the table finds none, one of the directives that have to be completed is begun there.
pub fn pieces_are_spelled()
    ensures found { (bs : List ℕ) (p : Piece) → piece_at bs ≡ Some p → BeginsPiece bs p }
    ensures none { (b : ℕ) (bs : List ℕ) → piece_at (b ∷ bs) ≡ None → BeginsDirective (b ∷ bs) }
{}

/// A text is a word, whatever the case of its letters, exactly if both are equal in upper case.
pub fn words_are_said_in_upper_case()
    ensures { (word text : List ℕ) → Says word text ↔ (upper text ≡ upper word) }
{}

/// Two words are equal by `==` exactly if they are equal in upper case.
pub fn equal_words_are_the_same_in_upper_case()
    ensures { (v w : Word)
        → IsTrue (on word_value (pointwise nat_eq) v w) ↔ (word_value v ≡ word_value w) }
{}

/// Two binaries are equal by `==` exactly if they have the same bits.
pub fn equal_binaries_have_the_same_bits()
    ensures { (a b : Bits)
        → IsTrue (on bits_value (pointwise beq) a b) ↔ (bits_value a ≡ bits_value b) }
{}

/// The bits of a binary are the four bits of each hexadecimal digit. The digit after the quote is
/// the number of first bits that are left out.
pub fn bits_are_those_of_the_digits()
    ensures bits { (unused : ℕ) (digits : List ℕ) → 48 ≤ unused → unused ≤ 51
        → bits_of (34 ∷ unused ∷ digits ++ 34 ∷ [])
        ≡ drop (unused - 48) (flat_map digit_bits digits) }
    ensures len { (unused : ℕ) (digits : List ℕ) → 48 ≤ unused → unused ≤ 51
        → length (bits_of (34 ∷ unused ∷ digits ++ 34 ∷ [])) ≡ 4 * length digits - (unused - 48) }
{}

/// The value of a number is determined by its pieces in the table of tokens. Its mantissa is the
/// whole number that the digits before the exponent write, with the sign. Its exponent is the
/// written exponent less the number of digits after the point.
pub fn numbers_are_worth_their_pieces()
    ensures integers { (sign ds : List ℕ) → IsSign sign → IsDigits ds
        → (mantissa (sign ++ ds) ≡ signed_value sign ds) × (exponent (sign ++ ds) ≡ pos 0) }
    ensures reals { (sign whole part : List ℕ) → IsSign sign → IsDigits whole → Each is_digit part
        → (mantissa (sign ++ whole ++ 46 ∷ part) ≡ signed_value sign (whole ++ part))
        × (exponent (sign ++ whole ++ 46 ∷ part) ≡ neg_ℤ (pos (length part))) }
    ensures exponents { (sign whole part : List ℕ) (e : ℕ) (minus ds : List ℕ)
        → IsSign sign → IsDigits whole → Each is_digit part
        → is_e e ≡ true → IsSign minus → IsDigits ds
        → (mantissa (sign ++ whole ++ 46 ∷ part ++ e ∷ (minus ++ ds))
        ≡ signed_value sign (whole ++ part))
        × (exponent (sign ++ whole ++ 46 ∷ part ++ e ∷ (minus ++ ds))
        ≡ signed_value minus ds -ℤ pos (length part)) }
{}

/// Two numbers are equal by `==` exactly if they have the same value.
pub fn equal_numbers_are_worth_the_same()
    ensures { (d e : Decimal) → IsTrue (on units_of int_eq d e) ↔ (units_of d ≡ units_of e) }
{}

/// Two numbers compare like their mantissas once both are brought to the lesser exponent.
pub fn numbers_compare_at_the_lesser_exponent()
    ensures { ComparedAtLesserExponent }
{}

/// The characters of a readable string are those of its pieces, one after another.
pub fn strings_say_what_their_pieces_say()
    ensures { StringsSayTheirPieces }
{}

/// Strings are equal exactly if their characters are.
pub fn equal_strings_have_equal_characters()
    ensures { TextsAreTheirItems }
{}
