//! The registers x0 to x31.

ghost use Rattle.std.specs.Prelude.{◌≡◌, ◌<◌, ◌≤◌, ◌%◌, ◌^◌, Some, None};
ghost use Rattle.rv64_core.specs.Registers.{register, with_register, no_registers, AreRegisters};

use std::marker::Model;

/// The number of a register, 0 to 31.
#[derive(Clone, Copy, PartialEq, Eq)]
pub struct Register {
    number: u8,
}

impl Model for Register {
    ghost use Rattle.std.specs.Prelude.{ℕ, ◌<◌};

    ghost Value = { ℕ };

    ghost view = { λ r. r.number };

    ghost invariant = { λ r. r.number < 32 };

    ghost inverse = { λ n. record { number = n } };
}

impl Register {
    /// The register of this number, or `None` where it is not below 32.
    pub fn new(number: u8) -> Option<Register>
        ensures some { number < 32 → result ≡ Some number }
        ensures none { 32 ≤ number → result ≡ None }
    {
        if number < 32 {
            Some(Register { number })
        } else {
            None
        }
    }

    /// x0, which is always 0.
    #[inline]
    pub fn zero() -> Register
        ensures { result ≡ 0 }
    {
        Register { number: 0 }
    }

    /// The register that the lowest 5 bits of a field name.
    #[inline]
    pub fn from_low_bits(field: u32) -> Register
        ensures { result ≡ field % 2 ^ 5 }
    {
        Register {
            number: (field % 32) as u8,
        }
    }

    /// Its number.
    #[inline]
    pub fn number(self) -> u8
        ensures value { result ≡ self }
        ensures bound { result < 32 }
    {
        self.number
    }
}

/// The values of the registers x0 to x31. The first of them is always 0.
#[derive(Clone, Copy, PartialEq, Eq)]
pub struct Regs {
    values: [u64; 32],
}

impl Model for Regs {
    ghost use Rattle.std.specs.Prelude.{List, ℕ, ◌≡◌};
    ghost use Rattle.rv64_core.specs.Registers.{register};

    ghost Value = { List ℕ };

    ghost view = { λ r. r.values };

    ghost invariant = { λ r. register r.values 0 ≡ 0 };

    ghost inverse = { λ x. record { values = x } };
}

impl Regs {
    /// All of them 0.
    pub fn new() -> Regs
        ensures { result ≡ no_registers }
    {
        Regs { values: [0; 32] }
    }

    /// The value of a register.
    #[inline]
    pub fn get(&self, which: Register) -> u64
        ensures value { result ≡ register self.now which }
        ensures registers { AreRegisters self.now }
    {
        self.values[which.number() as usize]
    }

    /// Gives a register a value. x0 stays 0: it is written again, which takes less than to test for it.
    #[inline]
    pub fn set(&mut self, which: Register, value: u64)
        ensures value { self.new ≡ with_register self.old which value }
        ensures read { (which ≡ 0 → ⊥) → register self.new which ≡ value }
    {
        self.values[which.number() as usize] = value;
        self.values[0] = 0;
    }
}
