//! What worked guests do, each the contract of a function that does nothing.
ghost use Rattle.std.specs.Prelude.{◌≡◌, ◌+◌, ◌^◌, [], ◌∷◌, ◌++◌, length, replicate, slice_range};
ghost use Rattle.mtraps.specs.CsrTable.{boot_values};
ghost use Rattle.virtio_mmio.specs.States.{boot_state};
ghost use Rattle.guest_examples.specs.Beacon.{beacon, beacon_with, beacon_frame};
ghost use Rattle.paged_memory.specs.Bytes.{number_at};
ghost use Rattle.guest_examples.specs.DiskGuest.{disk_guest, IsAnswered};
ghost use Rattle.guest_examples.specs.Examples.{two_branches, mhartid_written, timer_due, receiver, client_frame};
ghost use Rattle.guest_rules.specs.Guest.{boot_guest};
ghost use Rattle.guest_rules.specs.Pending.{mip};
ghost use Rattle.guest_rules.specs.Runs.{after_steps, sent_in, marked_in};
ghost use Rattle.guest_rules.specs.Step.{next, arrived};

/// A worked arrival, at a guest whose receive queue has one buffer of 26 bytes: there stand ten zero bytes, le16 1 and the
/// frame; the used ring tells its length; the card's interrupt is pending, and no step is counted. A second frame has no chain.
pub fn frames_arrive()
    ensures quiet { mip receiver ≡ 0 }
    ensures header { number_at (arrived receiver client_frame).ram 0x1100 12 ≡ 2 ^ 80 }
    ensures frame { slice_range (arrived receiver client_frame).ram 0x110c 0x111a ≡ client_frame.items }
    ensures used { number_at (arrived receiver client_frame).ram 0x1080 4 ≡ 0x10000 }
    ensures used_len { number_at (arrived receiver client_frame).ram 0x1088 4 ≡ 26 }
    ensures told { (arrived receiver client_frame).net.interrupt_status ≡ 1 }
    ensures pending { mip (arrived receiver client_frame) ≡ 0x800 }
    ensures steps { (arrived receiver client_frame).steps ≡ 21 }
    ensures second { arrived (arrived receiver client_frame) client_frame ≡ arrived receiver client_frame }
{}

/// Two branches from boot: the first isn't taken, the second traps on itself, with its target, and the handler at 0 lies
/// outside memory.
pub fn branches_trap()
    ensures first { (next two_branches).pc ≡ 0x80000004 }
    ensures second { (after_steps 2 two_branches).csrs ≡ record boot_values { mepc = 0x80000004; mtval = 0x80000006 } }
    ensures second_pc { (after_steps 2 two_branches).pc ≡ 0 }
    ensures third { (after_steps 3 two_branches).csrs ≡ record boot_values { mcause = 1 } }
    ensures third_pc { (after_steps 3 two_branches).pc ≡ 0 }
{}

/// A write to a read-only CSR is an illegal instruction, and mtval is its word.
pub fn read_only_csrs_trap()
    ensures csrs { (next mhartid_written).csrs ≡ record boot_values { mcause = 2; mepc = 0x80000000; mtval = 0xf1401073 } }
    ensures pc { (next mhartid_written).pc ≡ 0 }
{}

/// A timer interrupt that is due is taken in place of the instruction: the pc is its handler's, and the step counts. Then
/// interrupts are disabled, and the handler runs, whose word is 0 here.
pub fn timer_interrupts()
    ensures cause { (next timer_due).csrs.mcause ≡ 0x8000000000000007 }
    ensures value { (next timer_due).csrs.mtval ≡ 0 }
    ensures from { (next timer_due).csrs.mepc ≡ 0x80000000 }
    ensures disabled { (next timer_due).csrs.mstatus ≡ 0x1880 }
    ensures pc { (next timer_due).pc ≡ 0x8000021c }
    ensures steps { (next timer_due).steps ≡ 6 }
    ensures once { (after_steps 2 timer_due).csrs.mcause ≡ 2 }
{}

/// A worked guest, from boot: the beacon sends nothing in its first 21 steps, and its frame in the next, which the card tells
/// in the used ring (idx 1, at 0x82 of its page) and by InterruptStatus. With idx 2 it sends the frame twice, with 64 so often.
pub fn beacon_sends()
    ensures quiet { sent_in 21 (boot_guest 2 1 beacon) ≡ [] }
    ensures frame { sent_in 22 (boot_guest 2 1 beacon) ≡ beacon_frame ∷ [] }
    ensures used { number_at (after_steps 22 (boot_guest 2 1 beacon)).ram 0x1080 4 ≡ 0x10000 }
    ensures told { (after_steps 22 (boot_guest 2 1 beacon)).net.interrupt_status ≡ 1 }
    ensures status { (after_steps 22 (boot_guest 2 1 beacon)).net.status ≡ 0x0f }
    ensures twice { sent_in 22 (boot_guest 2 1 (beacon_with 26 0 2)) ≡ beacon_frame ∷ beacon_frame ∷ [] }
    ensures used_twice { number_at (after_steps 22 (boot_guest 2 1 (beacon_with 26 0 2))).ram 0x1080 4 ≡ 0x20000 }
    ensures often { sent_in 22 (boot_guest 2 1 (beacon_with 26 0 64)) ≡ replicate 64 beacon_frame }
{}

/// Frames of a wrong length are lost, and their chains are served: with 13 bytes of frame, and with 1515; not with 1514.
pub fn beacon_loses()
    ensures short { sent_in 22 (boot_guest 2 1 (beacon_with 25 0 1)) ≡ [] }
    ensures used { number_at (after_steps 22 (boot_guest 2 1 (beacon_with 25 0 1))).ram 0x1080 4 ≡ 0x10000 }
    ensures length_0 { number_at (after_steps 22 (boot_guest 2 1 (beacon_with 25 0 1))).ram 0x1088 4 ≡ 0 }
    ensures told { (after_steps 22 (boot_guest 2 1 (beacon_with 25 0 1))).net.interrupt_status ≡ 1 }
    ensures longest { length (sent_in 22 (boot_guest 2 1 (beacon_with 1526 0 1))) ≡ 1 }
    ensures long { sent_in 22 (boot_guest 2 1 (beacon_with 1527 0 1)) ≡ [] }
{}

/// Malformed chains break the card: one that comes back to itself (flags NEXT, next 0), and 65 chains available.
pub fn beacon_breaks()
    ensures nothing { sent_in 22 (boot_guest 2 1 (beacon_with 26 1 1)) ≡ [] }
    ensures status { (after_steps 22 (boot_guest 2 1 (beacon_with 26 1 1))).net.status ≡ 0x4f }
    ensures told { (after_steps 22 (boot_guest 2 1 (beacon_with 26 1 1))).net.interrupt_status ≡ 2 }
    ensures disk { (after_steps 22 (boot_guest 2 1 (beacon_with 26 1 1))).disk ≡ boot_state }
    ensures too_many { sent_in 22 (boot_guest 2 1 (beacon_with 26 0 65)) ≡ [] }
    ensures too_many_status { (after_steps 22 (boot_guest 2 1 (beacon_with 26 0 65))).net.status ≡ 0x4f }
{}

/// A worked guest, from boot, on a disk of 8 sectors: it writes bytes ab to sector 7. Its first 22 steps leave the disk as it was,
/// and the next writes the sector: the status byte, at 0x1110, is 0, the used ring, at 0x1080, has one entry, whose length is 1,
/// the external interrupt is pending, no other sector is written, and the network card is as at boot.
pub fn disk_writes()
    ensures before { (after_steps 22 (boot_guest 2 8 (disk_guest 7 0xab))).sectors ≡ replicate 4096 0 }
    ensures sectors { (after_steps 23 (boot_guest 2 8 (disk_guest 7 0xab))).sectors ≡ replicate 3584 0 ++ replicate 512 0xab }
    ensures list { marked_in 23 (boot_guest 2 8 (disk_guest 7 0xab)) [] ≡ 7 ∷ [] }
    ensures status { number_at (after_steps 23 (boot_guest 2 8 (disk_guest 7 0xab))).ram 0x1110 1 ≡ 0 }
    ensures used { number_at (after_steps 23 (boot_guest 2 8 (disk_guest 7 0xab))).ram 0x1080 4 ≡ 0x10000 }
    ensures used_len { number_at (after_steps 23 (boot_guest 2 8 (disk_guest 7 0xab))).ram 0x1088 4 ≡ 1 }
    ensures told { (after_steps 23 (boot_guest 2 8 (disk_guest 7 0xab))).disk.interrupt_status ≡ 1 }
    ensures pending { mip (after_steps 23 (boot_guest 2 8 (disk_guest 7 0xab))) ≡ 0x800 }
    ensures net { (after_steps 23 (boot_guest 2 8 (disk_guest 7 0xab))).net ≡ boot_state }
    ensures frames { sent_in 23 (boot_guest 2 8 (disk_guest 7 0xab)) ≡ [] }
{}

/// The same guest asks for other things, and the disk of 8 sectors stays all zero: sector 8 isn't there, a flush has nothing to do,
/// type 9 isn't supported. The status bytes are 1, 0 and 2, and each used length is 1. A read whose chain has no place for data
/// reads no bytes: at sector 8, the end, that is done, and at sector 9 it is refused.
pub fn disk_refuses()
    ensures past_the_end { IsAnswered 1 8 1 }
    ensures flush { IsAnswered 4 7 0 }
    ensures unknown { IsAnswered 9 7 2 }
    ensures nothing_at_the_end { IsAnswered 0 8 0 }
    ensures nothing_behind { IsAnswered 0 9 1 }
{}
