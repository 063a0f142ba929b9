//! The fields of a word, and its immediates.

ghost use Rattle.std.specs.Prelude.{◌≡◌, ◌<◌, ◌%◌, ◌^◌};
ghost use Rattle.rv64_core.specs.Fields.{
  rd,
  rs1,
  rs2,
  csr_number,
  shift_amount,
  word_shift_amount,
  i_immediate,
  s_immediate,
  b_immediate,
  u_immediate,
  j_immediate,
};

use crate::Register;

/// The register that is written.
#[inline]
pub(crate) fn rd(word: u32) -> Register
    ensures { result ≡ rd word }
{
    Register::from_low_bits(word >> 7)
}

/// The first register that is read.
#[inline]
pub(crate) fn rs1(word: u32) -> Register
    ensures { result ≡ rs1 word }
{
    Register::from_low_bits(word >> 15)
}

/// The second register that is read.
#[inline]
pub(crate) fn rs2(word: u32) -> Register
    ensures { result ≡ rs2 word }
{
    Register::from_low_bits(word >> 20)
}

/// The number of a control and status register.
#[inline]
pub(crate) fn csr_number(word: u32) -> u16
    ensures { result ≡ csr_number word }
{
    (word >> 20) as u16
}

/// By how much a shift by an immediate goes.
#[inline]
pub(crate) fn shift_amount(word: u32) -> u64
    ensures { result ≡ shift_amount word }
{
    u64::from(word >> 20) % 64
}

/// By how much a shift of 32 bits by an immediate goes.
#[inline]
pub(crate) fn word_shift_amount(word: u32) -> u64
    ensures { result ≡ word_shift_amount word }
{
    u64::from(word >> 20) % 32
}

/// The immediate of format I.
#[inline]
pub(crate) fn i_immediate(word: u32) -> u64
    ensures { result ≡ i_immediate word }
{
    u64::from(word >> 20) + u64::from(word >> 31) * 0xffff_ffff_ffff_f000
}

/// The immediate of format S.
#[inline]
pub(crate) fn s_immediate(word: u32) -> u64
    ensures { result ≡ s_immediate word }
{
    u64::from(word >> 25) * 0x20
        + u64::from(word >> 7) % 0x20
        + u64::from(word >> 31) * 0xffff_ffff_ffff_f000
}

/// The immediate of format B.
#[inline]
pub(crate) fn b_immediate(word: u32) -> u64
    ensures { result ≡ b_immediate word }
{
    u64::from(word >> 7) % 2 * 0x800
        + u64::from(word >> 25) % 0x40 * 0x20
        + u64::from(word >> 8) % 0x10 * 2
        + u64::from(word >> 31) * 0xffff_ffff_ffff_f000
}

/// The immediate of format U.
#[inline]
pub(crate) fn u_immediate(word: u32) -> u64
    ensures { result ≡ u_immediate word }
{
    u64::from(word >> 12) * 0x1000 + u64::from(word >> 31) * 0xffff_ffff_0000_0000
}

/// The immediate of format J.
#[inline]
pub(crate) fn j_immediate(word: u32) -> u64
    ensures { result ≡ j_immediate word }
{
    u64::from(word >> 12) % 0x100 * 0x1000
        + u64::from(word >> 20) % 2 * 0x800
        + u64::from(word >> 21) % 0x400 * 2
        + u64::from(word >> 31) * 0xffff_ffff_fff0_0000
}
