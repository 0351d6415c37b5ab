//! Each text of rows holds, and has as many rows as here.

mod orders;

use crate::command::Command;
use crate::rows;
use pddl_row_driver::text_of;
use std::test::Fail;

/// All rows of a text hold, and there are so many.
fn all_hold<R: Print + AllocGlobal>(rt: &R, text: &[u8], rows: u64) -> Result<(), Fail> {
    pddl_row_driver::all_hold::<R, Command>(rt, text_of(text), rows)?;
    Ok(())
}

#[test]
fn ends(rt: HostRuntime) -> Result<(), Fail> {
    all_hold(&rt, rows::ENDS, 17)
}

#[test]
fn first_atoms(rt: HostRuntime) -> Result<(), Fail> {
    all_hold(&rt, rows::FIRST_ATOMS, 1)
}

#[test]
fn moments(rt: HostRuntime) -> Result<(), Fail> {
    all_hold(&rt, rows::MOMENTS, 6)
}

#[test]
fn plans(rt: HostRuntime) -> Result<(), Fail> {
    all_hold(&rt, rows::PLANS, 43)
}

#[test]
fn quantifiers(rt: HostRuntime) -> Result<(), Fail> {
    all_hold(&rt, rows::QUANTIFIERS, 18)
}

#[test]
fn refused_plans(rt: HostRuntime) -> Result<(), Fail> {
    all_hold(&rt, rows::REFUSED_PLANS, 21)
}

#[test]
fn replays(rt: HostRuntime) -> Result<(), Fail> {
    all_hold(&rt, rows::REPLAYS, 13)
}

#[test]
fn serial_forms(rt: HostRuntime) -> Result<(), Fail> {
    all_hold(&rt, rows::SERIAL_FORMS, 11)
}

#[test]
fn splits(rt: HostRuntime) -> Result<(), Fail> {
    all_hold(&rt, rows::SPLITS, 8)
}

#[test]
fn states(rt: HostRuntime) -> Result<(), Fail> {
    all_hold(&rt, rows::STATES, 31)
}

#[test]
fn steps(rt: HostRuntime) -> Result<(), Fail> {
    all_hold(&rt, rows::STEPS, 37)
}

#[test]
fn groups(rt: HostRuntime) -> Result<(), Fail> {
    all_hold(&rt, rows::GROUPS, 26)
}

#[test]
fn serials(rt: HostRuntime) -> Result<(), Fail> {
    all_hold(&rt, rows::SERIALS, 47)
}
