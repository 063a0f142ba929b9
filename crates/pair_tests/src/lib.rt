//! Tests of the pair and of its parts, from the modes, the line and the ports up to the record, the world and two hosts' nodes, by what
//! their crates have for everyone. They stand in a crate of their own since a crate that has tests is proved once more with them.
#![tactic(auto)]

#[cfg(test)]
mod asserts;
#[cfg(test)]
mod gate;
#[cfg(test)]
mod history;
#[cfg(test)]
mod line;
#[cfg(test)]
mod modes;
#[cfg(test)]
mod nodes;
#[cfg(test)]
mod ports;
#[cfg(test)]
mod record;
#[cfg(test)]
mod refusals;
#[cfg(test)]
mod world;
