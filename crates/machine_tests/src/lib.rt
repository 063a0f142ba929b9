//! Tests of the hart's words and of whole guests, by what [`rv64_core`] and [`guest_machine`] have for everyone. They stand in a crate of
//! their own since a crate that has tests is proved once more with them.
#![tactic(auto)]

#[cfg(test)]
mod asserts;
#[cfg(test)]
mod guests;
#[cfg(test)]
mod words;
