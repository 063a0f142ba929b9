//! The register `mstatus`: its two interrupt enables.

ghost use Rattle.std.specs.Prelude.{◌≡◌};
ghost use Rattle.mtraps.specs.CsrTable.{legal_value};
ghost use Rattle.mtraps.specs.Status.{status, mie_bit, mpie_bit};

/// What `mstatus` reads where both enables are clear: MPP is machine mode, and all else is 0.
pub(crate) const CLEAR: u64 = 0x1800;
/// MIE, bit 3: interrupts are enabled.
pub(crate) const MIE: u64 = 1 << 3;
/// MPIE, bit 7: they were enabled before the trap.
pub(crate) const MPIE: u64 = 1 << 7;

/// `mstatus` with these enables.
#[tactic(auto, unfolding(crate::specs::CsrTable::csr_table, crate::specs::CsrTable::csr, crate::specs::CsrTable::legal_value))]
pub(crate) fn with_enables(mie: bool, mpie: bool) -> u64
    ensures value { result ≡ status mie mpie }
    ensures legal { legal_value 0x300 result ≡ result }
{
    let enabled = if mie { MIE } else { 0 };
    let enabled_before = if mpie { MPIE } else { 0 };
    CLEAR | enabled | enabled_before
}

/// Whether interrupts are enabled.
#[inline]
#[tactic(auto, using(crate::proofs::Masks::mie_mask))]
pub(crate) fn mie(mstatus: u64) -> bool
    ensures { result ≡ mie_bit mstatus }
{
    mstatus & MIE != 0
}

/// Whether they were enabled before the trap.
#[tactic(auto, using(crate::proofs::Masks::mpie_mask))]
pub(crate) fn mpie(mstatus: u64) -> bool
    ensures { result ≡ mpie_bit mstatus }
{
    mstatus & MPIE != 0
}
