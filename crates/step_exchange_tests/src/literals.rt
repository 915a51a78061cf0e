//! The meaning of keywords, numbers, strings and binaries, and how they compare.

use crate::rows::expect_none;
use std::cmp::Ordering;
use std::cmp::Ordering::{Equal, Greater, Less};
use std::hash::{DefaultHasher, Hash, Hasher};
use step_literals::fault::{Flaw, TextFault};
use step_literals::literal::{Bits, Decimal, Item, Text, Word};

/// A question about literals, with the expected answer.
#[derive(Clone, Copy)]
enum Question {
    /// How two words compare.
    Words(&'static [u8], &'static [u8], Ordering),
    /// How two numbers compare.
    Numbers(&'static [u8], &'static [u8], Ordering),
    /// How two numbers compare, each after a flag that inverts its sign.
    Turned(bool, &'static [u8], bool, &'static [u8], Ordering),
    /// How a number compares with an integer.
    BesideWhole(&'static [u8], i64, Ordering),
    /// The integer that a number is equal to, if any.
    Whole(&'static [u8], Result<Option<i64>, TextFault>),
    /// The first flaw of a string and its byte offset, if any.
    IsString(&'static [u8], Option<(Flaw, u64)>),
    /// The characters of a string.
    Says(&'static [u8], &'static [Item]),
    /// How two strings compare.
    Strings(&'static [u8], &'static [u8], Ordering),
    /// The bits of a binary; `None` if the text isn't one.
    HasBits(&'static [u8], Option<&'static [bool]>),
    /// How two binaries compare.
    Binaries(&'static [u8], &'static [u8], Ordering),
}

const SEVENS: [u8; 401] = [b'7'; 401];

const FEWER: [u8; 400] = [b'7'; 400];

const TOO_LONG: TextFault = TextFault {
    flaw: Flaw::NumberTooLong,
    place: 0,
};

const CODE: Item = Item::Code(233);

const PAGE: Item = Item::Page(2, 233);

const BYTE: Item = Item::Raw(233);

const CASES: &'static [Question] = &[
    // Words are compared without case.
    Question::Words(b"cartesian_point", b"CARTESIAN_POINT", Equal),
    Question::Words(b"Cartesian_Point", b"CARTESIAN_POINT", Equal),
    Question::Words(b"CARTESIAN_POINTS", b"CARTESIAN_POINT", Greater),
    Question::Words(b"A1", b"A_B", Less),
    Question::Words(b"ab", b"A_", Less),
    Question::Words(b"Ab", b"aB1", Less),
    Question::Words(b"b", b"AA", Greater),
    // Numbers compare by their values.
    Question::Numbers(b"1.", b"1.0E0", Equal),
    Question::Numbers(b"1.", b"10.E-1", Equal),
    Question::Numbers(b"1.", b"+1", Equal),
    Question::Numbers(b"1.", b"00.001E+003", Equal),
    Question::Numbers(b"10.E-1", b"+1", Equal),
    Question::Numbers(b"-0.", b"0.E999999", Equal),
    Question::Numbers(b"-0.", b"0.", Equal),
    Question::Numbers(b"-0.0E5", b"0", Equal),
    Question::Numbers(b"-25.0", b"-2.5E1", Equal),
    Question::Numbers(b"1.", b"-1.", Greater),
    Question::Numbers(b"1.", b"10.", Less),
    Question::Numbers(b"9.E999998", b"1.E999999", Less),
    Question::Numbers(b"1.E-999999", b"0.", Greater),
    Question::Numbers(b"-1.E-999999", b"0.", Less),
    Question::Numbers(b"-2.5", b"-2.45", Less),
    Question::Numbers(b"-10", b"9", Less),
    Question::Numbers(b"0.3", b"0.25", Greater),
    Question::Turned(true, b"2.5", false, b"-2.50", Equal),
    Question::Turned(true, b"0.", false, b"0", Equal),
    Question::Turned(true, b"1.", true, b"2.", Greater),
    Question::Turned(false, b"-1.E-999999", true, b"0.", Less),
    Question::Turned(true, b"-3", false, b"1.E1", Less),
    Question::BesideWhole(b"3.", 3, Equal),
    Question::BesideWhole(b"-30.E-1", -3, Equal),
    Question::BesideWhole(b"2.9999", 3, Less),
    Question::BesideWhole(b"-3.0001", -3, Less),
    Question::BesideWhole(b"1.E-999999", 0, Greater),
    Question::BesideWhole(b"-1.E999999", i64::MIN, Less),
    Question::BesideWhole(b"-9223372036854775808", i64::MIN, Equal),
    Question::BesideWhole(b"9223372036854775807.5", i64::MAX, Greater),
    // Integers, numbers that aren't integers or don't fit, and the limits of what is read.
    Question::Whole(b"10.E-1", Ok(Some(1))),
    Question::Whole(b"-7.00", Ok(Some(-7))),
    Question::Whole(b"0.E999999", Ok(Some(0))),
    Question::Whole(b"1.E18", Ok(Some(1_000_000_000_000_000_000))),
    Question::Whole(b"-9223372036854775808.", Ok(Some(i64::MIN))),
    Question::Whole(b"9223372036854775807", Ok(Some(i64::MAX))),
    Question::Whole(b"9223372036854775808", Ok(None)),
    Question::Whole(b"1.5", Ok(None)),
    Question::Whole(b"1.E30", Ok(None)),
    Question::Whole(b"1.E999999", Ok(None)),
    Question::Whole(b"1.E-999999", Ok(None)),
    Question::Whole(&SEVENS, Err(TOO_LONG)),
    Question::Whole(&FEWER, Ok(None)),
    Question::Whole(b"1.E1000000", Err(TOO_LONG)),
    // Strings, or the first flaw.
    Question::IsString(
        b"'it''s C:\\temp, \\X2\\00E900EA\\X0\\ and \\PB\\\\S\\i'",
        None,
    ),
    Question::IsString(b"'\\X\\E9\\X\\E'", Some((Flaw::BadEscape, 6))),
    Question::IsString(b"'it''s", Some((Flaw::UnendedString, 0))),
    Question::IsString(b"'a' 'b'", Some((Flaw::BadToken, 0))),
    // The characters of strings.
    Question::Says(b"''", &[]),
    Question::Says(
        b"'it''s'",
        &[
            Item::Code(105),
            Item::Code(116),
            Item::Code(39),
            Item::Code(115),
        ],
    ),
    Question::Says(
        b"'caf\xC3\xA9'",
        &[Item::Code(99), Item::Code(97), Item::Code(102), CODE],
    ),
    Question::Says(b"'\\S\\\\'", &[Item::Code(220)]),
    Question::Says(b"'\\X4\\0001F600\\X0\\'", &[Item::Code(0x1F600)]),
    Question::Says(b"'\\X2\\00E9D800\\X0\\'", &[CODE, Item::Code(0xD800)]),
    Question::Says(
        b"'\\x2\\'",
        &[
            Item::Code(92),
            Item::Code(120),
            Item::Code(50),
            Item::Code(92),
        ],
    ),
    Question::Says(b"'\xF0\x9F\x98\x80'", &[Item::Code(0x1F600)]),
    Question::Says(b"'\\PB\\\\S\\i\\X\\E9\\S\\i'", &[PAGE, CODE, PAGE]),
    Question::Says(b"'\\PB\\\\S\\i\\PA\\\\S\\i'", &[PAGE, CODE]),
    Question::Says(b"'\xE9'", &[BYTE]),
    Question::Says(b"'\xC3\xA9\xE9'", &[Item::Raw(0xC3), Item::Raw(0xA9), BYTE]),
    Question::Says(b"'\xC3\xA9a\xE9'", &[CODE, Item::Code(97), BYTE]),
    // Strings compare by their characters.
    Question::Strings(b"'caf\xC3\xA9'", b"'caf\\X\\E9'", Equal),
    Question::Strings(b"'caf\xC3\xA9'", b"'caf\\X2\\00E9\\X0\\'", Equal),
    Question::Strings(b"'caf\xC3\xA9'", b"'caf\\X4\\000000e9\\X0\\'", Equal),
    Question::Strings(b"'caf\xC3\xA9'", b"'caf\\S\\i'", Equal),
    Question::Strings(b"'caf\xC3\xA9'", b"'cafe'", Greater),
    Question::Strings(b"'\\PB\\\\S\\i'", b"'\\S\\i'", Greater),
    Question::Strings(b"'\\X2\\\\X0\\'", b"''", Equal),
    Question::Strings(b"'C:\\temp'", b"'C:\\\\temp'", Equal),
    Question::Strings(b"'long\r\ntext'", b"'longtext'", Equal),
    Question::Strings(b"'\\X2\\00\nE9\\X\r\n0\\'", b"'\\X2\\00E9\\X0\\'", Equal),
    Question::Strings(b"'a\\\n\\b'", b"'a\\\\b'", Equal),
    Question::Strings(b"'\xC3\r\n\xA9'", b"'\xC3\xA9'", Equal),
    Question::Strings(b"'\\X4\\FFFFFFFF\\X0\\'", b"'\\PB\\\\S\\ '", Less),
    Question::Strings(b"'\\PB\\\\S\\ '", b"'\xE9'", Less),
    Question::Strings(b"'a'", b"'ab'", Less),
    // The bits of binaries.
    Question::HasBits(
        b"\"1A3\"",
        Some(&[false, true, false, false, false, true, true]),
    ),
    Question::HasBits(b"\"0\"", Some(&[])),
    Question::HasBits(b"\"1\"", None),
    Question::HasBits(b"\"4A\"", None),
    // Binaries compare by their bits.
    Question::Binaries(b"\"23\"", b"\"27\"", Equal),
    Question::Binaries(b"\"0a\"", b"\"0A\"", Equal),
    Question::Binaries(b"\"03\"", b"\"23\"", Less),
    Question::Binaries(b"\"3F\"", b"\"23\"", Less),
    Question::Binaries(b"\"0\"", b"\"30\"", Less),
];

fn hash_of<T: Hash>(value: &T) -> u64 {
    let mut state = DefaultHasher::new();
    value.hash(&mut state);
    state.finish()
}

// Whether two values compare in this order, and `==` and the hashes agree with it.
fn is_order<T: Ord + Hash>(left: &T, right: &T, wanted: Ordering) -> bool {
    let order = left.cmp(right);
    let is_one = left == right;
    let is_one_hash = hash_of(left) == hash_of(right);
    order == wanted && is_one == wanted.is_eq() && is_one_hash == wanted.is_eq()
}

fn is_order_of_words(left: &[u8], right: &[u8], wanted: Ordering) -> bool {
    match (Word::read(left), Word::read(right)) {
        (Ok(left), Ok(right)) => is_order(&left, &right, wanted),
        _ => false,
    }
}

fn is_order_of_numbers(left: &[u8], right: &[u8], wanted: Ordering) -> bool {
    match (Decimal::read(left), Decimal::read(right)) {
        (Ok(left), Ok(right)) => is_order(&left, &right, wanted),
        _ => false,
    }
}

fn is_order_of_strings(left: &[u8], right: &[u8], wanted: Ordering) -> bool {
    match (Text::read(left), Text::read(right)) {
        (Ok(left), Ok(right)) => is_order(&left, &right, wanted),
        _ => false,
    }
}

fn is_order_of_binaries(left: &[u8], right: &[u8], wanted: Ordering) -> bool {
    match (Bits::read(left), Bits::read(right)) {
        (Ok(left), Ok(right)) => is_order(&left, &right, wanted),
        _ => false,
    }
}

fn is_turned_order(
    turn: bool,
    left: &[u8],
    turn_right: bool,
    right: &[u8],
    wanted: Ordering,
) -> bool {
    match (Decimal::read(left), Decimal::read(right)) {
        (Ok(left), Ok(right)) => left.compare_turned(turn, &right, turn_right) == wanted,
        _ => false,
    }
}

fn is_order_beside_whole(text: &[u8], whole: i64, wanted: Ordering) -> bool {
    match Decimal::read(text) {
        Ok(number) => number.compare_whole(whole) == wanted,
        Err(_) => false,
    }
}

fn is_whole(text: &[u8], wanted: Result<Option<i64>, TextFault>) -> bool {
    match (Decimal::read(text), wanted) {
        (Ok(number), Ok(whole)) => number.whole() == whole,
        (Err(fault), Err(wanted)) => fault == wanted,
        _ => false,
    }
}

// Whether this is a string with this spelling, or has this flaw at this byte offset.
fn is_string(text: &[u8], wanted: Option<(Flaw, u64)>) -> bool {
    match (Text::read(text), wanted) {
        (Ok(string), None) => string.spelling() == text,
        (Err(fault), Some((flaw, place))) => fault.flaw == flaw && fault.place == place,
        _ => false,
    }
}

fn says(text: &[u8], items: &[Item]) -> bool {
    match Text::read(text) {
        Ok(string) => string.items().eq(items.iter().copied()),
        Err(_) => false,
    }
}

// Whether a binary has this spelling and exactly these bits.
fn has_bits(bits: &Bits<'_>, text: &[u8], wanted: &[bool]) -> bool {
    if bits.spelling() != text || bits.len() != wanted.len() as u128 {
        return false;
    }
    for index in 0..wanted.len() {
        if bits.bit(index) != Some(wanted[index]) {
            return false;
        }
    }
    bits.bit(wanted.len()).is_none() && bits.bit(usize::MAX).is_none()
}

fn is_binary(text: &[u8], wanted: Option<&'static [bool]>) -> bool {
    match (Bits::read(text), wanted) {
        (Ok(bits), Some(wanted)) => has_bits(&bits, text, wanted),
        (Err(_), None) => true,
        _ => false,
    }
}

fn is_right(question: Question) -> bool {
    match question {
        Question::Words(left, right, order) => is_order_of_words(left, right, order),
        Question::Numbers(left, right, order) => is_order_of_numbers(left, right, order),
        Question::Turned(turn, left, turn_right, right, order) => {
            is_turned_order(turn, left, turn_right, right, order)
        }
        Question::BesideWhole(text, whole, order) => is_order_beside_whole(text, whole, order),
        Question::Whole(text, whole) => is_whole(text, whole),
        Question::IsString(text, fault) => is_string(text, fault),
        Question::Says(text, items) => says(text, items),
        Question::Strings(left, right, order) => is_order_of_strings(left, right, order),
        Question::HasBits(text, bits) => is_binary(text, bits),
        Question::Binaries(left, right, order) => is_order_of_binaries(left, right, order),
    }
}

// Returns the number of the first question with another answer, if any.
fn wrong_case(cases: &[Question]) -> Option<usize> {
    for i in 0..cases.len() {
        if !is_right(cases[i]) {
            return Some(i);
        }
    }
    None
}

#[test]
fn literals_say_and_compare(rt: HostRuntime) {
    expect_none(&rt, wrong_case(CASES));
}
