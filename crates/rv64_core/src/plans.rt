//! What an instruction does.

use crate::{CsrOp, Register, Width};

/// What an instruction does. Numbers wrap at 2^64.
#[derive(Clone, Copy, PartialEq, Eq)]
pub enum Plan {
    /// Go on at `pc`, with `value` in `rd`.
    Next {
        /// The place of the next instruction.
        pc: u64,
        /// The register that is written; a write to x0 does nothing.
        rd: Register,
        /// Its new value.
        value: u64,
    },
    /// Load from `address` into `rd`, and go on at the word behind this one.
    Load {
        /// The register that is written.
        rd: Register,
        /// The address of the first byte, of any alignment.
        address: u64,
        /// How many bytes are read.
        width: Width,
        /// Whether the value is sign extended to 64 bits, and not filled with zeros.
        signed: bool,
    },
    /// Store the low bytes of `value` at `address`, and go on at the word behind this one.
    Store {
        /// The address of the first byte, of any alignment.
        address: u64,
        /// How many bytes are written.
        width: Width,
        /// The number whose low bytes are stored.
        value: u64,
    },
    /// Access a control and status register: its old value goes into `rd`. Go on at the word behind this one.
    Csr {
        /// The register that gets the old value.
        rd: Register,
        /// The number of the control and status register, below 4096.
        csr: u16,
        /// What is written there.
        op: CsrOp,
        /// The number that is written, or the bits that are set or cleared.
        operand: u64,
        /// Whether this access writes at all. CSRRS and CSRRC of x0 don't, nor do CSRRSI and CSRRCI of 0.
        writes: bool,
    },
    /// An exception at this instruction, which writes no register.
    Trap {
        /// Its cause: 0 for a jump to a target that isn't a multiple of 4, 3 for EBREAK, 11 for ECALL.
        cause: u64,
        /// What goes into mtval: the target of such a jump, the place of an EBREAK, and 0 for ECALL.
        value: u64,
    },
    /// Return from a trap.
    Mret,
}
