//! What changes while an expression is evaluated.

ghost use Rattle.std.specs.Prelude.{◌≡◌, [], true};
ghost use Rattle.rule_evaluation.specs.declared.scope.Stopped.TheVariants.{Memory, Wants};

use crate::derived_values::{Wanted, is_same};
use rule_values::variables::Variable;
use std::alloc::{AllocError, AllocFailed, Global};

/// The number of derived attributes that may be evaluated inside each other. Each takes the stack
/// that its expression needs, whose brackets are nested at most 64 deep.
const LEVELS: u32 = 4;

/// The greatest number of derived attributes that are evaluated inside others. After that many, all
/// that are inside others and aren't cached are wanted, so that nothing is evaluated over and over.
const NESTED: u32 = 32;

/// The least number of wanted derived values that may be collected before they are evaluated.
const WANTED: usize = 1024;

/// Why an evaluation ended without a value.
#[derive(Clone, Copy)]
pub(crate) enum Stopped {
    /// An allocation was refused.
    Memory,
    /// This derived value isn't cached, and isn't evaluated directly because of `LEVELS` or
    /// `NESTED`. It has to be cached before the evaluation begins again.
    Wants(Wanted),
}

impl From<AllocError> for Stopped {
    ghost from_gives = { λ _ e. e ≡ Memory };

    fn from(_: AllocError) -> Stopped {
        Stopped::Memory
    }
}

impl<T: Drop> From<AllocFailed<T>> for Stopped {
    ghost from_gives = { λ _ e. e ≡ Memory };

    fn from(_: AllocFailed<T>) -> Stopped {
        Stopped::Memory
    }
}

/// The variables of queries, the innermost last, and the derived values that have to be evaluated
/// before the expression is.
#[derive(Drop)]
pub(crate) struct Scope<'p, 'r> {
    pub variables: Vec<Variable<'p, 'r>>,
    /// The derived values that aren't cached, and aren't evaluated directly because of `LEVELS` or
    /// `NESTED`.
    pub wanted: Vec<Wanted>,
    /// How many wanted derived values may be collected before they are evaluated.
    room: usize,
    /// How many derived attributes were evaluated inside others.
    nested: u32,
}

impl<'p, 'r> Scope<'p, 'r> {
    /// Returns a scope without variables in which nothing is wanted. `kept` is the number of cached
    /// values: about as many may be wanted at a time, so that an expression is evaluated again only
    /// a few times, however many derived values it needs.
    pub(crate) fn empty(alloc: Global, kept: usize) -> Scope<'p, 'r>
        ensures { result.variables.items ≡ [] }
    {
        Scope {
            variables: Vec::new(alloc),
            wanted: Vec::new(alloc),
            room: kept.max(WANTED),
            nested: 0,
        }
    }

    /// Whether another derived attribute is evaluated directly, inside `level` others. Counts it if
    /// `level` isn't 0.
    pub(crate) fn enters(&mut self, level: u32) -> bool
        ensures variables { self.new.variables ≡ self.old.variables }
        ensures direct { level ≡ 0 → result ≡ true }
    {
        if level == 0 {
            return true;
        }
        if level >= LEVELS || self.nested >= NESTED {
            return false;
        }
        self.nested = self.nested.saturating_add(1);
        true
    }

    /// Returns the failure that suspends the evaluation until `wanted` is cached.
    ///
    /// Adds `wanted` to `self.wanted`, unless it is the last there or no more may be collected. The
    /// failure names `wanted`, so nothing is lost if an allocation for the list is refused.
    pub(crate) fn want(&mut self, wanted: Wanted) -> Stopped
        ensures { result ≡ Wants wanted }
    {
        let is_noted = match self.wanted.last() {
            Some(last) => is_same(*last, wanted),
            None => false,
        };
        if !is_noted && self.is_open() {
            let _noted = self.wanted.push(wanted);
        }
        Stopped::Wants(wanted)
    }

    /// Whether more wanted derived values may be collected.
    fn is_open(&self) -> bool {
        self.wanted.len() < self.room
    }

    /// Whether derived values are wanted and more may be collected.
    pub(crate) fn goes_on(&self) -> bool {
        !self.wanted.is_empty() && self.is_open()
    }
}
