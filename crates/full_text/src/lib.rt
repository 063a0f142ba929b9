//! The text of a full checkpoint, made in parts while its machine goes on.
//!
//! A full checkpoint states all that a machine holds, and its text is about as long as the machine's memory. [`PageSearch::new`] makes what
//! doesn't stand in its memory. Which pages aren't all zero is found later, and then their records are made, of the memory that the machine had
//! when it was last settled. So the machine may be settled then, and go on. Where it is settled again before the text is whole, what it had of
//! the pages that it wrote in between is kept.
#![tactic(auto)]

mod found;
mod kept;
mod machine_texts;
mod records;
mod rows;
mod search;
mod stage;
mod tail;
mod text;

pub use machine_texts::MachineTexts;
pub use search::PageSearch;
