//! Tests of the book and of the growing history, by what [`pair_book`] and [`growing_history`] have for everyone. They stand in a crate of
//! their own since a crate that has tests is proved once more with them.
#![tactic(auto)]

#[cfg(test)]
mod answers;
#[cfg(test)]
mod asserts;
#[cfg(test)]
mod beacon;
#[cfg(test)]
mod calls;
#[cfg(test)]
mod hosts;
#[cfg(test)]
mod members;
#[cfg(test)]
mod packets;
#[cfg(test)]
mod prepared;
#[cfg(test)]
mod refusals;
#[cfg(test)]
mod rows;
#[cfg(test)]
mod seats;
#[cfg(test)]
mod threads;
