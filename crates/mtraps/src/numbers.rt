//! The numbers of the CSRs, as an instruction names them.
ghost use Rattle.std.specs.Prelude.{◌≡◌};

/// Machine status: the interrupt enables.
pub const MSTATUS: u16 = 0x300;
/// The instruction set: RV64IM. Writes are ignored.
pub const MISA: u16 = 0x301;
/// Which interrupts are enabled.
pub const MIE: u16 = 0x304;
/// Where traps go.
pub const MTVEC: u16 = 0x305;
/// A word for the trap handler.
pub const MSCRATCH: u16 = 0x340;
/// The pc of the instruction that was trapped.
pub const MEPC: u16 = 0x341;
/// Why the last trap came.
pub const MCAUSE: u16 = 0x342;
/// What the last trap says beside its cause, as an address.
pub const MTVAL: u16 = 0x343;
/// Which interrupts are pending. Writes are ignored.
pub const MIP: u16 = 0x344;
/// The vendor: 0. Read-only.
pub const MVENDORID: u16 = 0xf11;
/// The architecture: 0. Read-only.
pub const MARCHID: u16 = 0xf12;
/// The implementation: 0. Read-only.
pub const MIMPID: u16 = 0xf13;
/// The number of the hart: 0. Read-only.
pub const MHARTID: u16 = 0xf14;
/// Where the configuration data lie: 0. Read-only.
pub const MCONFIGPTR: u16 = 0xf15;

/// The numbers of the read-only CSRs are those that the Privileged ISA lists ("CSR Listing"). A read tests them as a range, so no other
/// promise names those inside it.
pub fn numbers_are_as_listed()
    ensures mvendorid { MVENDORID ≡ 0xf11 }
    ensures marchid { MARCHID ≡ 0xf12 }
    ensures mimpid { MIMPID ≡ 0xf13 }
    ensures mhartid { MHARTID ≡ 0xf14 }
    ensures mconfigptr { MCONFIGPTR ≡ 0xf15 }
{}
