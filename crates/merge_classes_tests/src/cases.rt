//! The cases of all tests.

use crate::{chains, drawn_populations, worked_row};
use std::hash::RandomState;
use std::test::Fail;

#[test]
fn drawn_populations_have_the_tables_of_a_plain_refinement(rt: HostRuntime) -> Result<(), Fail> {
    let keys = RandomState::new(&rt)?;
    assert_eq!(rt; drawn_populations::wrong_seed(rt.alloc(), keys), None);
    Ok(())
}

#[test]
fn a_chain_parts_one_row_a_round(rt: HostRuntime) -> Result<(), Fail> {
    let keys = RandomState::new(&rt)?;
    assert!(rt; chains::is_parted(rt.alloc(), keys));
    Ok(())
}

#[test]
fn a_worked_row_is_parted_with_little_work(rt: HostRuntime) -> Result<(), Fail> {
    let keys = RandomState::new(&rt)?;
    assert!(rt; worked_row::is_parted(rt.alloc(), keys));
    Ok(())
}
