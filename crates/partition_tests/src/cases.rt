//! The cases of all tables.

use crate::chains::{Chain, is_found};
use crate::tables::wrong_table;

#[test]
fn tables_are_found(rt: HostRuntime) {
    assert_eq!(rt; wrong_table(rt.alloc()), None);
}

#[test]
fn chains_are_found(rt: HostRuntime) {
    assert!(rt; is_found(rt.alloc(), Chain::Forward));
    assert!(rt; is_found(rt.alloc(), Chain::Backward));
    assert!(rt; is_found(rt.alloc(), Chain::Twice));
}
