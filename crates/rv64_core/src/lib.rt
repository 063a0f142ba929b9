//! The instructions of RV64IM, with the words of machine mode: what a word of 32 bits says, and what it does.
//!
//! [`decode`] reads a word by the table of the instruction set, [`encode`] writes it again, and [`plan`] says what an
//! instruction does with the registers, as a [`Plan`]: the next place and a register's value, an access to memory, or an
//! exception. Numbers wrap at 2^64, and an immediate is already sign extended.
#![tactic(auto)]

mod arithmetic;
mod decoding;
mod deeds;
mod encoding;
mod fields;
mod instruction;
mod kind;
mod operations;
mod ops;
mod planning;
mod plans;
mod prepared;
mod register;
mod width;

pub use decoding::decode;
pub use deeds::{Deed, Operands, Parts, deed_of};
pub use encoding::encode;
pub use instruction::Instr;
pub use kind::Kind;
pub use operations::{Condition, CsrOp, Division, Multiplication, Operation, WordOperation};
pub use ops::Op;
pub use planning::plan;
pub use plans::Plan;
pub use prepared::{Prepared, plan_prepared, prepare};
pub use register::{Register, Regs};
pub use width::Width;
