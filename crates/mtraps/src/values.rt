//! The values of the CSRs, and which of them a CSR can hold.

ghost use Rattle.std.specs.Prelude.{◌≡◌};
ghost use Rattle.mtraps.specs.CsrTable.{legal_value};

use crate::{numbers, status};

/// The values of the CSRs that hold one. The others always read the same.
#[derive(Clone, Copy, PartialEq, Eq)]
pub struct CsrValues {
    /// Machine status: `0x1800`, with bit 3 where interrupts are enabled, and bit 7 where they were before the trap.
    pub mstatus: u64,
    /// Which interrupts are enabled: bits 3, 7 and 11.
    pub mie: u64,
    /// Where traps go: a base, a multiple of 4, and in bit 0 whether each interrupt has a handler of its own.
    pub mtvec: u64,
    /// A word for the trap handler.
    pub mscratch: u64,
    /// The pc of the trapped instruction, a multiple of 4.
    pub mepc: u64,
    /// Why the last trap came.
    pub mcause: u64,
    /// What the last trap says beside its cause, as an address.
    pub mtval: u64,
}

/// The bits of `mstatus` that a write keeps: the two enables.
pub(crate) const MSTATUS_KEPT: u64 = status::MIE | status::MPIE;
/// The bits of `mie` that a write keeps: the software, timer and external interrupts.
pub(crate) const MIE_KEPT: u64 = 0x888;
/// The bits of `mtvec` that a write keeps.
pub(crate) const MTVEC_KEPT: u64 = !2;
/// The bits of `mepc` that a write keeps.
pub(crate) const MEPC_KEPT: u64 = !3;
/// What `misa` reads: 64 bits, with the base set I and the extension M.
pub(crate) const MISA: u64 = 0x8000_0000_0000_1100;

/// What the CSR of this number holds after a write of `value`, by which bits it keeps. Where the CSR can hold `value`, that
/// is `value` itself; so it is where there is no such CSR.
#[tactic(auto, using(crate::proofs::Masks::masks), unfolding(crate::specs::CsrTable::csr_table, crate::specs::CsrTable::csr, crate::specs::CsrTable::legal_value))]
pub fn legal_value(number: u16, value: u64) -> u64
    ensures { result ≡ legal_value number value }
{
    match number {
        numbers::MSTATUS => value & MSTATUS_KEPT | status::CLEAR,
        numbers::MISA => MISA,
        numbers::MIE => value & MIE_KEPT,
        numbers::MTVEC => value & MTVEC_KEPT,
        numbers::MEPC => value & MEPC_KEPT,
        numbers::MSCRATCH => value,
        numbers::MCAUSE => value,
        numbers::MTVAL => value,
        numbers::MIP | numbers::MVENDORID..=numbers::MCONFIGPTR => 0,
        _ => value,
    }
}
