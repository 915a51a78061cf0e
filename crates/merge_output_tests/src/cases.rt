//! The cases of all tables.

use crate::{sizes, texts};
use std::hash::RandomState;
use std::test::Fail;

#[test]
fn smaller_files_are_written(rt: HostRuntime) -> Result<(), Fail> {
    let keys = RandomState::new(&rt)?;
    assert_eq!(rt; texts::wrong_text(rt.alloc(), keys), None);
    Ok(())
}

#[test]
fn a_fault_tells_how_much_went_out(rt: HostRuntime) -> Result<(), Fail> {
    let keys = RandomState::new(&rt)?;
    assert_eq!(rt; texts::wrong_room(rt.alloc(), keys), None);
    Ok(())
}

#[test]
fn large_files_are_written(rt: HostRuntime) -> Result<(), Fail> {
    let keys = RandomState::new(&rt)?;
    assert!(rt; sizes::are_rewritten(rt.alloc(), keys));
    Ok(())
}
