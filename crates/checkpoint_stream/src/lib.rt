//! Checkpoints as bytes: the one spelling of a checkpoint, and a reader that takes it in whatever pieces it comes.
//!
//! [`encode`] gives a checkpoint's text, and a [`Reader`] gives the checkpoints of a stream of texts. docs/CHECKPOINT.md describes the
//! format.
#![tactic(auto)]

mod encoding;
mod errors;
mod frames;
mod judging;
mod laws;
mod marks;
mod parts;
mod place;
mod reader;
mod rules;
mod runs;
mod states;
mod widths;

pub use encoding::encode;
pub use errors::StreamError;
pub use laws::{
    any_pieces, closed_takes_nothing, each_byte_is_needed, malformed_begins_no_text,
    no_text_begins_another, read_is_canonical, read_is_its_text, text_is_read_back,
    texts_are_their_parts, units_are_read,
};
pub use reader::Reader;
