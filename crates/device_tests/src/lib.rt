//! Tests of the machine's parts, by what their crates have for everyone: memory, devices and their queues, CSRs, the address map and the
//! images of guests. They stand in a crate of their own since a crate that has tests is proved once more with them.
#![tactic(auto)]

#[cfg(test)]
mod addresses;
#[cfg(test)]
mod asserts;
#[cfg(test)]
mod card;
#[cfg(test)]
mod csrs;
#[cfg(test)]
mod disk;
#[cfg(test)]
mod images;
#[cfg(test)]
mod lanes;
#[cfg(test)]
mod memory;
#[cfg(test)]
mod queues;
#[cfg(test)]
mod registers;
#[cfg(test)]
mod wanted;
