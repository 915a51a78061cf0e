//! The cases of all tables.

use crate::{round_trips, texts};

#[test]
fn texts_are_answered(rt: HostRuntime) {
    assert_eq!(rt; texts::wrong_answer(rt.alloc()), None);
}

#[test]
fn tables_are_written_and_read(rt: HostRuntime) {
    assert!(rt; round_trips::is_right(rt.alloc()));
}
