//! The cases of all tables.

use crate::tables::wrong_case;
use std::hash::RandomState;
use std::test::Fail;

#[test]
fn cases_are_answered(rt: HostRuntime) -> Result<(), Fail> {
    let keys = RandomState::new(&rt)?;
    assert_eq!(rt; wrong_case(rt.alloc(), keys), None);
    Ok(())
}
