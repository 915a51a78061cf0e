//! What a call needs beside its arguments: memory, and keys for hashes.
#![tactic(auto)]

use std::alloc::Global;
use std::hash::RandomState;

/// What the system gives a call beside its arguments.
#[derive(Clone, Copy)]
pub struct Resources {
    /// Allocates all memory.
    pub alloc: Global,
    /// The keys by which names, values and keys of rules are hashed. They are random, so no input can
    /// be crafted to collide.
    pub keys: RandomState,
}
