//! The interrupt of the disk in the machine: it is told, acknowledged and taken.

use super::BEACON;
use super::disk::{BEHIND, REQUEST};
use super::play::{Line, Part, Reading, plays};

/// What stands behind the notify to read mip and InterruptStatus, acknowledge the interrupt, and read them again.
static ACKNOWLEDGE: [Part; 1] = [Part::Words(
    BEHIND,
    &[
        0x34402573, // CSRRS x10, mip, x0
        0x0602a583, // LW x11, 0x60(x5): InterruptStatus
        0x0662a223, // SW x6, 0x64(x5): InterruptACK
        0x34402673, // CSRRS x12, mip, x0
        0x0602a683, // LW x13, 0x60(x5): InterruptStatus
    ],
)];

static ACKNOWLEDGED: [Line; 6] = [
    Line::Run(28),
    Line::Is(Reading::Register(10), 0x800),
    Line::Is(Reading::Register(11), 1),
    Line::Is(Reading::Register(12), 0),
    Line::Is(Reading::Register(13), 0),
    Line::Is(Reading::DiskInterrupt, 0),
];

#[test]
fn an_answer_is_told_by_an_interrupt(rt: HostRuntime) {
    plays(&rt, rt.alloc(), &REQUEST, &ACKNOWLEDGE, &ACKNOWLEDGED);
}

/// Behind the request the beacon, whose queue of 1 the disk's chain breaks, since its first next is 1. What stands behind both notifies
/// reads mip, acknowledges the card's interrupt, and then the disk's.
static ACKNOWLEDGE_BOTH: [Part; 2] = [
    Part::Words(BEHIND, &BEACON),
    Part::Words(
        BEHIND + 4 * 22,
        &[
            0x34402573, // CSRRS x10, mip, x0
            0x00200413, // ADDI x8, x0, 2
            0x0682a223, // SW x8, 0x64(x5): InterruptACK of the card
            0x344025f3, // CSRRS x11, mip, x0
            0x100022b7, // LUI x5, 0x10002
            0x0662a223, // SW x6, 0x64(x5): InterruptACK of the disk
            0x34402673, // CSRRS x12, mip, x0
        ],
    ),
];

static BOTH_ACKNOWLEDGED: [Line; 10] = [
    Line::Run(45),
    Line::Is(Reading::CardStatus, 0x4f),
    Line::Is(Reading::CardInterrupt, 2),
    // the broken card leaves the disk as it was
    Line::Is(Reading::DiskStatus, 0x0f),
    Line::Is(Reading::DiskInterrupt, 1),
    Line::LastSector(0xab),
    Line::Run(7),
    Line::Is(Reading::Register(10), 0x800),
    Line::Is(Reading::Register(11), 0x800),
    Line::Is(Reading::Register(12), 0),
];

#[test]
fn either_device_makes_the_interrupt_pending(rt: HostRuntime) {
    plays(
        &rt,
        rt.alloc(),
        &REQUEST,
        &ACKNOWLEDGE_BOTH,
        &BOTH_ACKNOWLEDGED,
    );
}

/// What stands behind the notify to enable external interrupts.
static ENABLE_EXTERNAL: [Part; 1] = [Part::Words(
    BEHIND,
    &[
        0x00001537, // LUI x10, 1
        0x80050513, // ADDI x10, x10, -2048
        0x30452073, // CSRRS x0, mie, x10
        0x30046073, // CSRRSI x0, mstatus, 8
    ],
)];

static EXTERNAL_TAKEN: [Line; 4] = [
    Line::Run(28),
    Line::Is(Reading::Mcause, 0x8000_0000_0000_000b),
    Line::Is(Reading::Mepc, 0x8000_006c),
    Line::Is(Reading::Pc, 0),
];

#[test]
fn the_interrupt_of_the_disk_is_taken(rt: HostRuntime) {
    plays(&rt, rt.alloc(), &REQUEST, &ENABLE_EXTERNAL, &EXTERNAL_TAKEN);
}
