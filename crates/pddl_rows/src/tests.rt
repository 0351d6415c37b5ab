//! Each text of rows holds, and has as many rows as here.

mod command_lines;
mod devices;
mod pieces;

use crate::command::Command;
use crate::rows;
use pddl_row_driver::text_of;
use std::test::Fail;

/// All rows of a text hold, and there are so many.
fn all_hold<R: Print + AllocGlobal>(rt: &R, text: &[u8], rows: u64) -> Result<(), Fail> {
    pddl_row_driver::all_hold::<R, Command>(rt, text_of(text), rows)?;
    Ok(())
}

#[test]
fn changed_problems(rt: HostRuntime) -> Result<(), Fail> {
    all_hold(&rt, rows::CHANGED_PROBLEMS, 63)
}

#[test]
fn costs(rt: HostRuntime) -> Result<(), Fail> {
    all_hold(&rt, rows::COSTS, 22)
}

#[test]
fn domains(rt: HostRuntime) -> Result<(), Fail> {
    all_hold(&rt, rows::DOMAINS, 27)
}

#[test]
fn format_domains(rt: HostRuntime) -> Result<(), Fail> {
    all_hold(&rt, rows::FORMAT_DOMAINS, 45)
}

#[test]
fn format_plans(rt: HostRuntime) -> Result<(), Fail> {
    all_hold(&rt, rows::FORMAT_PLANS, 55)
}

#[test]
fn format_problems(rt: HostRuntime) -> Result<(), Fail> {
    all_hold(&rt, rows::FORMAT_PROBLEMS, 25)
}

#[test]
fn good_domains(rt: HostRuntime) -> Result<(), Fail> {
    all_hold(&rt, rows::GOOD_DOMAINS, 42)
}

#[test]
fn items(rt: HostRuntime) -> Result<(), Fail> {
    all_hold(&rt, rows::ITEMS, 40)
}

#[test]
fn layouts(rt: HostRuntime) -> Result<(), Fail> {
    all_hold(&rt, rows::LAYOUTS, 6)
}

#[test]
fn problems(rt: HostRuntime) -> Result<(), Fail> {
    all_hold(&rt, rows::PROBLEMS, 77)
}

#[test]
fn read_domains(rt: HostRuntime) -> Result<(), Fail> {
    all_hold(&rt, rows::READ_DOMAINS, 98)
}

#[test]
fn read_plans(rt: HostRuntime) -> Result<(), Fail> {
    all_hold(&rt, rows::READ_PLANS, 26)
}

#[test]
fn read_problems(rt: HostRuntime) -> Result<(), Fail> {
    all_hold(&rt, rows::READ_PROBLEMS, 66)
}

#[test]
fn reading(rt: HostRuntime) -> Result<(), Fail> {
    all_hold(&rt, rows::READING, 15)
}

#[test]
fn tasks(rt: HostRuntime) -> Result<(), Fail> {
    all_hold(&rt, rows::TASKS, 16)
}

#[test]
fn terms(rt: HostRuntime) -> Result<(), Fail> {
    all_hold(&rt, rows::TERMS, 49)
}

#[test]
fn twice(rt: HostRuntime) -> Result<(), Fail> {
    all_hold(&rt, rows::TWICE, 48)
}

#[test]
fn typed_lists(rt: HostRuntime) -> Result<(), Fail> {
    all_hold(&rt, rows::TYPED_LISTS, 46)
}

#[test]
fn types(rt: HostRuntime) -> Result<(), Fail> {
    all_hold(&rt, rows::TYPES, 56)
}

#[test]
fn unknown(rt: HostRuntime) -> Result<(), Fail> {
    all_hold(&rt, rows::UNKNOWN, 54)
}

#[test]
fn values(rt: HostRuntime) -> Result<(), Fail> {
    all_hold(&rt, rows::VALUES.as_bytes(), 20)
}

#[test]
fn words(rt: HostRuntime) -> Result<(), Fail> {
    all_hold(&rt, rows::WORDS.as_bytes(), 61)
}
