//! The CSRs: software's reads and writes of them, and what interrupts, traps and MRET do to them.

ghost use Rattle.std.specs.Prelude.{◌≡◌, ◌%◌};
ghost use Rattle.mtraps.specs.Traps.{handler};

use crate::interrupts::{EXTERNAL, INTERRUPT, SOFTWARE};
use crate::values::{CsrValues, MEPC_KEPT, MIE_KEPT, MISA, MSTATUS_KEPT, MTVEC_KEPT};
use crate::{numbers, status};
use std::marker::Model;

/// The machine-mode CSRs.
///
/// Each holds only what a write can leave there: `mstatus` has bits 3 and 7 beside `0x1800`, `mie` bits 3, 7 and 11,
/// bit 1 of `mtvec` and bits 1:0 of `mepc` are clear.
#[derive(Clone, Copy, PartialEq, Eq)]
pub struct Csrs {
    values: CsrValues,
}

impl Model for Csrs {
    ghost use Rattle.mtraps.specs.declared.values.CsrValues.{CsrValues};
    ghost use Rattle.mtraps.specs.CsrTable.{IsLegal};

    ghost Value = { CsrValues };

    ghost view = { λ a. a.values };

    ghost invariant = { λ a. IsLegal a.values };

    ghost inverse = { λ s. record { values = s } };
}

/// The bits of `mtvec` that are the base.
const BASE: u64 = !3;
/// The bit of `mtvec` that asks for a handler for each interrupt.
const VECTORED: u64 = 1;

impl Csrs {
    ghost use Rattle.std.specs.Prelude.{◌≡◌, ◌%◌, ◌≢◌, IsSome, IfNone, ◌↔◌, IsTrue, All, bit_and, ℕ, false, None};
    ghost use Rattle.mtraps.specs.Status.{mie_bit};
    ghost use Rattle.mtraps.specs.Interrupts.{due_interrupt};
    ghost use Rattle.mtraps.specs.Traps.{handler, after_entry, after_return};
    ghost use Rattle.mtraps.specs.CsrTable.{csr_table, boot_values, read_value, is_writable, legal_value, written, IsLegal};

    /// The CSRs at boot: interrupts are disabled, the mode before a trap is machine mode, and all else is 0.
    #[tactic(auto, using(crate::proofs::Table::boot_rows), unfolding(crate::specs::CsrTable::csr_table, crate::specs::CsrTable::csr, crate::specs::CsrTable::legal_value))]
    pub fn boot() -> Csrs
        ensures values { result ≡ boot_values }
        ensures rows { All (λ row. row.value result ≡ row.boot) csr_table }
    {
        Csrs {
            values: CsrValues {
                mstatus: status::CLEAR,
                mie: 0,
                mtvec: 0,
                mscratch: 0,
                mepc: 0,
                mcause: 0,
                mtval: 0,
            },
        }
    }

    /// What the CSR of this number reads, or `None` where there is none.
    ///
    /// `mip` reads 0 here: which interrupts are pending is the machine's to say.
    #[tactic(auto, using(crate::proofs::Table::row_read))]
    pub fn read(&self, number: u16) -> Option<u64>
        ensures value { result ≡ read_value number self.now }

        // The table has no order: each row of this number gives the answer.
        ensures row { All (λ row. row.number ≡ number → result ≡ Some (row.value self.now)) csr_table }
    {
        self.value_of(number)
    }

    /// What the CSR of this number reads, by its row.
    #[tactic(auto, unfolding(crate::specs::CsrTable::csr_table, crate::specs::CsrTable::csr, crate::specs::CsrTable::read_value))]
    fn value_of(&self, number: u16) -> Option<u64>
        ensures { result ≡ read_value number self.now }
    {
        match number {
            numbers::MSTATUS => Some(self.values.mstatus),
            numbers::MISA => Some(MISA),
            numbers::MIE => Some(self.values.mie),
            numbers::MTVEC => Some(self.values.mtvec),
            numbers::MSCRATCH => Some(self.values.mscratch),
            numbers::MEPC => Some(self.values.mepc),
            numbers::MCAUSE => Some(self.values.mcause),
            numbers::MTVAL => Some(self.values.mtval),
            numbers::MIP => Some(0),
            numbers::MVENDORID..=numbers::MCONFIGPTR => Some(0),
            _ => None,
        }
    }

    /// Writes `value` to the CSR of this number, which keeps the bits that it can hold. Writes of `misa` and `mip` are
    /// ignored.
    ///
    /// `None` where there is no such CSR, or it is read-only. Then nothing changes.
    #[tactic(auto, using(crate::proofs::Masks::masks), unfolding(crate::specs::CsrTable::csr_table, crate::specs::CsrTable::csr, crate::specs::CsrTable::is_writable, crate::specs::CsrTable::written))]
    pub fn write(&mut self, number: u16, value: u64) -> Option<()>
        ensures legal { IsSome result ↔ IsTrue (is_writable number) }
        ensures values { self.new ≡ written number value self.old }
        ensures unchanged { IfNone result (self.new ≡ self.old) }
    {
        match number {
            numbers::MSTATUS => self.values.mstatus = value & MSTATUS_KEPT | status::CLEAR,
            numbers::MIE => self.values.mie = value & MIE_KEPT,
            numbers::MTVEC => self.values.mtvec = value & MTVEC_KEPT,
            numbers::MSCRATCH => self.values.mscratch = value,
            numbers::MEPC => self.values.mepc = value & MEPC_KEPT,
            numbers::MCAUSE => self.values.mcause = value,
            numbers::MTVAL => self.values.mtval = value,
            numbers::MISA | numbers::MIP => {}
            _ => return None,
        }
        Some(())
    }

    /// The CSRs with these values.
    pub fn from_values(values: CsrValues) -> Csrs
        requires { IsLegal values }
        ensures { result ≡ values }
    {
        Csrs { values }
    }

    /// The values that the CSRs hold.
    pub fn values(&self) -> CsrValues
        ensures value { result ≡ self.now }
        ensures legal { IsLegal result }
    {
        let Csrs { values } = *self;
        values
    }

    /// Enters a trap for this cause and this `mtval`, at the instruction at `pc`: interrupts are disabled until MRET.
    ///
    /// Answers the pc of the handler: the base that `mtvec` gives, and in its vectored mode, for an interrupt, 4 times
    /// the interrupt's bit behind it, modulo 2^64.
    #[tactic(auto, using(crate::proofs::Masks::entries), unfolding(crate::specs::Traps::after_entry))]
    pub fn enter(&mut self, cause: u64, tval: u64, pc: u64) -> u64
        ensures handler { result ≡ handler cause self.old.mtvec }
        ensures values { self.new ≡ after_entry cause tval pc self.old }
        ensures aligned { result % 4 ≡ 0 }
    {
        let mstatus = self.values.mstatus;
        let mtvec = self.values.mtvec;
        self.values.mstatus = status::with_enables(false, status::mie(mstatus));
        self.values.mepc = pc & MEPC_KEPT;
        self.values.mcause = cause;
        self.values.mtval = tval;
        handler_of(cause, mtvec)
    }

    /// Returns from a trap, as MRET does: interrupts are enabled again where they were before it. Answers the pc to go on at.
    #[tactic(auto, using(crate::proofs::Masks::entries), unfolding(crate::specs::Traps::after_return))]
    pub fn mret(&mut self) -> u64
        ensures value { result ≡ self.old.mepc }
        ensures values { self.new ≡ after_return self.old }
        ensures aligned { result % 4 ≡ 0 }
    {
        let mstatus = self.values.mstatus;
        self.values.mstatus = status::with_enables(status::mpie(mstatus), true);
        self.values.mepc
    }

    /// Whether interrupts are enabled at all. Where they aren't, none is taken, whatever is pending.
    #[inline]
    #[tactic(auto, unfolding(crate::specs::Interrupts::due_interrupt))]
    pub fn are_interrupts_enabled(&self) -> bool
        ensures value { result ≡ mie_bit self.now.mstatus }
        ensures none { result ≡ false → (mip : ℕ) → due_interrupt self.now mip ≡ None }
    {
        status::mie(self.values.mstatus)
    }

    /// The cause of the interrupt that is to be taken now, where one is: it is enabled, and pending in `mip`, and interrupts
    /// are enabled at all. An external one comes before a software one before a timer one.
    #[inline]
    #[tactic(auto, using(crate::proofs::Due::dues), unfolding(crate::specs::Interrupts::due_interrupt))]
    pub fn pending(&self, mip: u64) -> Option<u64>
        ensures cause { result ≡ due_interrupt self.now mip }
        ensures due { IsSome result ↔ (IsTrue (mie_bit self.now.mstatus) × (bit_and self.now.mie mip ≢ 0)) }
    {
        let due = self.values.mie & mip;
        if due == 0 || !self.are_interrupts_enabled() {
            None
        } else if due & EXTERNAL != 0 {
            Some(INTERRUPT + 11)
        } else if due & SOFTWARE != 0 {
            Some(INTERRUPT + 3)
        } else {
            Some(INTERRUPT + 7)
        }
    }
}

/// The pc of the handler for this cause.
#[tactic(auto, using(crate::proofs::Handler::handlers), unfolding(crate::specs::Traps::handler))]
fn handler_of(cause: u64, mtvec: u64) -> u64
    ensures value { result ≡ handler cause mtvec }
    ensures aligned { result % 4 ≡ 0 }
{
    let base = mtvec & BASE;
    if cause >= INTERRUPT && mtvec & VECTORED != 0 {
        base.wrapping_add(4u64.wrapping_mul(cause - INTERRUPT))
    } else {
        base
    }
}
