//! Words without case: equality, order and hash.
ghost use Rattle.std.specs.Prelude.{◌++◌, nat_eq};
ghost use Rattle.std.specs.List.{flat_map};
ghost use Rattle.std.specs.Ordering.{nat_cmp, on, as_partial_cmp};
ghost use Rattle.std.specs.Cmp.Lexicographic.{slice_cmp, pointwise};
ghost use Rattle.std.specs.Cmp.Rules.{comparing, hashing};
ghost use Rattle.std.specs.Hash as fed;
ghost use Rattle.std.proofs.Common.{rules};
ghost use Rattle.step_literals.specs.Values.{word_value};

use crate::literal::Word;
use std::cmp::Ordering;
use std::hash::{Hash, Hasher};

/// The byte that a hasher gets after a word. It occurs in no word, so the bytes of no word are a
/// prefix of another's.
const END: u8 = 0xFF;

impl<'a> PartialEq for Word<'a> {
    ghost eq = { on word_value (pointwise nat_eq) };

    ghost laws = { Prim.search (comparing, rules) };

    fn eq(&self, other: &Word<'a>) -> bool {
        self.text.eq_ignore_ascii_case(other.text)
    }
}

impl<'a> Eq for Word<'a> {
    ghost laws = { Prim.search (comparing, rules) };
}

impl<'a> PartialOrd for Word<'a> {
    ghost partial_cmp = { as_partial_cmp (on word_value (slice_cmp nat_cmp)) };

    ghost laws = { Prim.search (comparing, rules) };

    fn partial_cmp(&self, other: &Word<'a>) -> Option<Ordering> {
        Some(self.cmp(other))
    }
}

impl<'a> Ord for Word<'a> {
    ghost cmp = { on word_value (slice_cmp nat_cmp) };

    ghost total = { Prim.search (comparing, rules) };

    ghost matches_partial_cmp = { Prim.search (comparing, rules) };

    ghost matches_eq = { Prim.search (comparing, rules) };

    fn cmp(&self, other: &Word<'a>) -> Ordering {
        let mine = self.text.iter().map(|byte| byte.to_ascii_uppercase());
        let theirs = other.text.iter().map(|byte| byte.to_ascii_uppercase());
        mine.cmp(theirs)
    }
}

impl<'a> Hash for Word<'a> {
    ghost hash_input = { λ w. flat_map fed.u8 (word_value w) ++ fed.u8 255 };

    ghost respects_eq = { Prim.search (hashing, rules) };

    fn hash<H: Hasher>(&self, state: &mut H) {
        for byte in self.text {
            state.write_u8(byte.to_ascii_uppercase());
        }
        state.write_u8(END);
    }
}
