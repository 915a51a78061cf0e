//! Three-valued logic (ISO 10303-11, 8.1.4 and 12.4).

ghost use Rattle.std.specs.Prelude.{◌≡◌};
ghost use Rattle.express_logic.specs.Logic.{negated, both, either, exclusive, known, rank};

pub use express_syntax::expression::Logical;

/// Returns NOT `p` (ISO 10303-11, 12.4.1).
pub fn not(p: Logical) -> Logical
    ensures { result ≡ negated p }
{
    match p {
        Logical::False => Logical::True,
        Logical::Unknown => Logical::Unknown,
        Logical::True => Logical::False,
    }
}

/// Returns `p` AND `q` (ISO 10303-11, 12.4.2).
pub fn and(p: Logical, q: Logical) -> Logical
    ensures { result ≡ both p q }
{
    match (p, q) {
        (Logical::False, _) | (_, Logical::False) => Logical::False,
        (Logical::True, Logical::True) => Logical::True,
        _ => Logical::Unknown,
    }
}

/// Returns `p` OR `q` (ISO 10303-11, 12.4.3).
pub fn or(p: Logical, q: Logical) -> Logical
    ensures { result ≡ either p q }
{
    match (p, q) {
        (Logical::True, _) | (_, Logical::True) => Logical::True,
        (Logical::False, Logical::False) => Logical::False,
        _ => Logical::Unknown,
    }
}

/// Returns `p` XOR `q` (ISO 10303-11, 12.4.4).
pub fn xor(p: Logical, q: Logical) -> Logical
    ensures { result ≡ exclusive p q }
{
    match (p, q) {
        (Logical::Unknown, _) | (_, Logical::Unknown) => Logical::Unknown,
        (Logical::True, q) => not(q),
        (Logical::False, q) => q,
    }
}

/// Returns TRUE if the condition holds, otherwise FALSE.
pub fn known(holds: bool) -> Logical
    ensures { result ≡ known holds }
{
    if holds { Logical::True } else { Logical::False }
}

/// Returns the position of a value in the order FALSE < UNKNOWN < TRUE (ISO 10303-11, 12.2.1.3).
pub(crate) fn rank(p: Logical) -> u8
    ensures { result ≡ rank p }
{
    match p {
        Logical::False => 0,
        Logical::Unknown => 1,
        Logical::True => 2,
    }
}
