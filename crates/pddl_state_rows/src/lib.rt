//! A caller of any store, and the tests of the stores, which run it at both. There is nothing here but tests.
#![tactic(auto)]

#[cfg(test)]
mod caller;
#[cfg(test)]
mod tests;
