//! What the hart itself keeps, and its timer.
ghost use Rattle.std.specs.Prelude.{◌≡◌, ◌+◌, ◌%◌, ◌^◌, ◌∷◌, drop};
ghost use Rattle.mtraps.specs.Traps.{after_entry, handler};
ghost use Rattle.rv64_core.specs.Registers.{AreRegisters};

use mtraps::Csrs;
use rv64_core::{Register, Regs};

/// The registers of the hart, those of its timer, and its step count.
#[derive(Clone, Copy)]
pub(crate) struct Hart {
    /// x0 to x31.
    pub(crate) regs: Regs,
    /// The address of the instruction that comes next.
    pub(crate) pc: u64,
    /// The control and status registers.
    pub(crate) csrs: Csrs,
    /// Whether the software interrupt is pending, bit 0 of msip.
    pub(crate) msip: bool,
    /// The step count from which the timer interrupt is pending.
    pub(crate) mtimecmp: u64,
    /// How many steps were made since boot, modulo 2^64.
    pub(crate) steps: u64,
}

impl Hart {
    /// Takes a trap, and goes on at its handler.
    #[inline]
    pub(crate) fn trap(&mut self, cause: u64, value: u64)
        ensures { self.new ≡ record self.old {
          csrs = after_entry cause value self.old.pc self.old.csrs;
          pc = handler cause self.old.csrs.mtvec;
        } }
    {
        self.pc = self.csrs.enter(cause, value, self.pc);
    }

    /// The values of x1 to x31.
    pub(crate) fn registers(&self) -> [u64; 31]
        ensures value { result ≡ drop 1 self.now.regs }
        ensures registers { AreRegisters self.now.regs }
    {
        let x0 = self.regs.get(Register::zero());
        let mut values = [x0; 31];
        for i in 0..31 {
            let value = self.regs.get(Register::from_low_bits(i as u32 + 1));
            values[i] = value;
        }
        values
    }

    /// Goes on at the word behind this one.
    #[inline]
    pub(crate) fn pass(&mut self)
        ensures { self.new ≡ record self.old { pc = (self.old.pc + 4) % 2 ^ 64 } }
    {
        self.pc = self.pc.wrapping_add(4);
    }
}

/// The registers of which x1 to x31 have these values.
pub(crate) fn registers_with(values: &[u64; 31]) -> Regs
    ensures { result ≡ 0 ∷ values.now }
{
    let mut regs = Regs::new();
    for i in 0..31 {
        regs.set(Register::from_low_bits(i as u32 + 1), values[i]);
    }
    regs
}
