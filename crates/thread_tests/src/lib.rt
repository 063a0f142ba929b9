//! Tests of a pair in threads, and of its members by hand; and of writers and readers that fail, of live sessions and of the files of runs.
//! They stand in a crate of their own since a crate that has tests is proved once more with them.
#![tactic(auto)]

#[cfg(test)]
mod asserts;
#[cfg(test)]
mod callers;
#[cfg(test)]
mod courses;
#[cfg(test)]
mod files;
#[cfg(test)]
mod gates;
#[cfg(test)]
mod hands;
#[cfg(test)]
mod holds;
#[cfg(test)]
mod late;
#[cfg(test)]
mod live;
#[cfg(test)]
mod pairs;
#[cfg(test)]
mod parts_rows;
#[cfg(test)]
mod releases;
#[cfg(test)]
mod run_files;
#[cfg(test)]
mod writers;
#[cfg(test)]
mod zombies;
