//! Laws of the guest's step, each the contract of a function that does nothing.
ghost use Rattle.std.specs.Prelude.{◌≡◌, ℕ, ◌+◌, ◌%◌, ◌^◌, ◌≤◌, ◌⊎◌, List, All, length};
ghost use Rattle.arrayvec.specs.ArrayVec.{ArrayVec};
ghost use Rattle.virtio_mmio.specs.declared.kinds.DeviceKind.TheVariants.{Network};
ghost use Rattle.virtio_mmio.specs.States.{IsDeviceRecord};
ghost use Rattle.block_device.specs.Contents.{contents_of};
ghost use Rattle.block_device.specs.Listed.{IsListed};
ghost use Rattle.net_device.specs.Frames.{IsFrame};
ghost use Rattle.guest_rules.specs.Aligned.{IsAligned};
ghost use Rattle.guest_rules.specs.Guest.{Guest, HasDeviceRecords, sector_count, boot_guest};
ghost use Rattle.guest_rules.specs.Runs.{after_steps, marked_in};
ghost use Rattle.guest_rules.specs.Step.{next, sent, marked, arrived};

/// Whatever the guest, its next step sends at most 64 frames, each of 14 to 1514 bytes.
pub fn sent_frames()
    ensures frames { (g : Guest) → All IsFrame (sent g) }
    ensures most { (g : Guest) → length (sent g) ≤ 64 }
{}

/// Each step counts 1, modulo 2^64, and a guest at boot has made none.
pub fn counted_steps()
    ensures step { (g : Guest) → (next g).steps ≡ (g.steps + 1) % 2 ^ 64 }
    ensures boot { (pages sectors : ℕ) (image : List ℕ) → (boot_guest pages sectors image).steps ≡ 0 }
{}

/// The memory has as many bytes as at boot after each step and after each frame that arrives, and the records of both devices
/// meet their rules.
pub fn kept_memory()
    ensures boot { (pages sectors : ℕ) (image : List ℕ) → HasDeviceRecords (boot_guest pages sectors image) }
    ensures bytes { (g : Guest) → HasDeviceRecords g → length (next g).ram ≡ length g.ram }
    ensures rules { (g : Guest) → HasDeviceRecords g → HasDeviceRecords (next g) }
    ensures bytes_at_arrival { (g : Guest) (frame : ArrayVec ℕ) → IsDeviceRecord Network g.net →
        length (arrived g frame).ram ≡ length g.ram }
    ensures rules_at_arrival { (g : Guest) (frame : ArrayVec ℕ) → HasDeviceRecords g → HasDeviceRecords (arrived g frame) }
{}

/// The disk has as many sectors as at boot after each step, and as many bytes.
pub fn kept_disk()
    ensures boot { (pages sectors : ℕ) (image : List ℕ) → sector_count (boot_guest pages sectors image).sectors ≡ sectors }
    ensures step { (g : Guest) → sector_count (next g).sectors ≡ sector_count g.sectors }
    ensures bytes { (g : Guest) → length (next g).sectors ≡ length g.sectors }
{}

/// Steps change no sector that isn't in the list of written sectors afterwards, and take none off it. (An arrival changes no sector, and
/// leaves the list.)
pub fn changed_sectors_are_listed()
    ensures step { (g : Guest) (dirty : List ℕ) → IsListed (contents_of g.sectors dirty) (contents_of (next g).sectors (marked g dirty)) }
    ensures run { (n : ℕ) (g : Guest) (dirty : List ℕ) →
        IsListed (contents_of g.sectors dirty) (contents_of (after_steps n g).sectors (marked_in n g dirty)) }
{}

/// No step changes what the network card keeps and also what the disk keeps, and a frame that arrives changes nothing of the disk.
pub fn devices_apart()
    ensures step { (g : Guest) → ((next g).net ≡ g.net) ⊎ (((next g).disk ≡ g.disk) × ((next g).sectors ≡ g.sectors)) }
    ensures arrival { (g : Guest) (frame : ArrayVec ℕ) → ((arrived g frame).disk ≡ g.disk) × ((arrived g frame).sectors ≡ g.sectors) }
{}

/// A frame that arrives at a guest that has set up no queue is lost.
pub fn early_frames_are_lost()
    ensures { (pages sectors : ℕ) (image : List ℕ) (frame : ArrayVec ℕ) →
        arrived (boot_guest pages sectors image) frame ≡ boot_guest pages sectors image }
{}

/// The pc is a multiple of 4 from boot on.
pub fn aligned_pc()
    ensures boot { (pages sectors : ℕ) (image : List ℕ) → IsAligned (boot_guest pages sectors image) }
    ensures step { (g : Guest) → IsAligned g → IsAligned (next g) }
{}
