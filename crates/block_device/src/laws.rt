//! Laws of the disk's definitions, each the contract of a function that does nothing.
ghost use Rattle.std.specs.Prelude.{
  ◌≡◌,
  ℕ,
  ◌+◌,
  ◌-◌,
  ◌/◌,
  ◌^◌,
  ◌≤◌,
  ◌<◌,
  ◌⊎◌,
  ◌++◌,
  ◌&&◌,
  ◌||◌,
  List,
  [],
  ◌∷◌,
  length,
  replicate,
  nat_le,
  nat_lt,
  IsTrue,
};
ghost use Rattle.virtio_mmio.specs.declared.kinds.DeviceKind.TheVariants.{Block};
ghost use Rattle.virtio_mmio.specs.declared.states.DeviceState.{DeviceState};
ghost use Rattle.virtio_mmio.specs.States.{IsDeviceRecord};
ghost use Rattle.block_device.specs.Contents.{
  Contents,
  IsDisk,
  capacity,
  sector_at,
  boot_contents,
  in_capacity,
  contents_with,
  contents_of,
};
ghost use Rattle.block_device.specs.Dirty.{with_written, is_in};
ghost use Rattle.block_device.specs.Disk.{disk_served};
ghost use Rattle.block_device.specs.Listed.{IsListed};
ghost use Rattle.block_device.specs.Request.{Request, outcome, written_len};

/// A read of the sectors that a request has just written gives the bytes that it wrote.
pub fn reading_back()
    ensures { (disk : Contents) (w r : Request) (room : ℕ) → w.kind ≡ 1 → (outcome disk w room).status ≡ 0 → r.kind ≡ 0 →
        r.sector ≡ w.sector →
        outcome (outcome disk w room).disk r (length w.payload)
        ≡ record { status = 0; payload = w.payload; disk = (outcome disk w room).disk } }
{}

/// A request changes a disk only if it is a write of whole sectors of it, and then no other sector.
pub fn other_sectors()
    ensures refused { (disk : Contents) (r : Request) (room : ℕ) → ((outcome disk r room).status ≡ 0 → ⊥) →
        (outcome disk r room).disk ≡ disk }
    ensures other_types { (disk : Contents) (r : Request) (room : ℕ) → (r.kind ≡ 1 → ⊥) → (outcome disk r room).disk ≡ disk }
    ensures others { (disk : Contents) (sector i : ℕ) (new : List ℕ) → IsTrue (in_capacity disk sector (length new)) →
        (i < sector) ⊎ (sector + length new / 512 ≤ i) → sector_at (contents_with disk sector new) i ≡ sector_at disk i }
{}

/// However many requests are served, a disk stays one, with as many sectors. RAM is as long as it was, and the record of the
/// registers still meets the rules of a block device's.
pub fn serving_keeps_the_disk()
    ensures sectors { (ram : List ℕ) (state : DeviceState) (disk : Contents) → capacity (disk_served ram state disk).kept ≡ capacity disk }
    ensures rules { (ram : List ℕ) (state : DeviceState) (disk : Contents) → IsDisk disk → IsDisk (disk_served ram state disk).kept }
    ensures memory { (ram : List ℕ) (state : DeviceState) (disk : Contents) → IsDeviceRecord (Block (capacity disk)) state →
        length (disk_served ram state disk).ram ≡ length ram }
    ensures record { (ram : List ℕ) (state : DeviceState) (disk : Contents) → IsDeviceRecord (Block (capacity disk)) state →
        IsDeviceRecord (Block (capacity disk)) (disk_served ram state disk).state }
{}

/// What the driver sees of a disk's serving, the bytes of RAM, the registers and the sectors, is the same whatever list of written
/// sectors the disk had before.
pub fn the_list_plays_no_part()
    ensures memory { (ram : List ℕ) (state : DeviceState) (bytes one other : List ℕ) →
        (disk_served ram state (contents_of bytes one)).ram ≡ (disk_served ram state (contents_of bytes other)).ram }
    ensures state { (ram : List ℕ) (state : DeviceState) (bytes one other : List ℕ) →
        (disk_served ram state (contents_of bytes one)).state ≡ (disk_served ram state (contents_of bytes other)).state }
    ensures sectors { (ram : List ℕ) (state : DeviceState) (bytes one other : List ℕ) →
        (disk_served ram state (contents_of bytes one)).kept.bytes ≡ (disk_served ram state (contents_of bytes other)).kept.bytes }
{}

/// A sector stands in the list after a write exactly if it stood there before, or is one of those that were written.
pub fn written_sectors()
    ensures { (dirty : List ℕ) (first count i : ℕ) → is_in i (with_written dirty first count)
        ≡ (is_in i dirty || (nat_le first i && nat_lt i (first + count))) }
{}

/// However many requests are served, no sector changes that isn't in the list afterwards, and none is taken off the list.
pub fn changed_sectors_are_listed()
    ensures { (ram : List ℕ) (state : DeviceState) (disk : Contents) → IsListed disk (disk_served ram state disk).kept }
{}

/// Worked requests to a disk of 8 sectors, all zero. A sector of bytes ab goes to sector 7, and not to sector 8, which is not
/// there; a flush is done; type 9 is not supported; no bytes can be read at sector 8, and not at sector 9. Two sectors from
/// 2^64 - 1 on are out of range.
pub fn worked_requests()
    ensures written { outcome (boot_contents 8) (record { kind = 1; sector = 7; payload = replicate 512 0xab }) 0
        ≡ record { status = 0; payload = []; disk = contents_of (replicate 3584 0 ++ replicate 512 0xab) (7 ∷ []) } }
    ensures past_the_end { outcome (boot_contents 8) (record { kind = 1; sector = 8; payload = replicate 512 0xab }) 0
        ≡ record { status = 1; payload = []; disk = boot_contents 8 } }
    ensures flush { outcome (boot_contents 8) (record { kind = 4; sector = 7; payload = replicate 512 0xab }) 0
        ≡ record { status = 0; payload = []; disk = boot_contents 8 } }
    ensures unknown { outcome (boot_contents 8) (record { kind = 9; sector = 7; payload = replicate 512 0xab }) 0
        ≡ record { status = 2; payload = []; disk = boot_contents 8 } }
    ensures nothing_at_the_end { outcome (boot_contents 8) (record { kind = 0; sector = 8; payload = [] }) 0
        ≡ record { status = 0; payload = []; disk = boot_contents 8 } }
    ensures nothing_behind { outcome (boot_contents 8) (record { kind = 0; sector = 9; payload = [] }) 0
        ≡ record { status = 1; payload = []; disk = boot_contents 8 } }
    ensures part_of_a_sector { outcome (boot_contents 8) (record { kind = 0; sector = 0; payload = [] }) 511
        ≡ record { status = 1; payload = []; disk = boot_contents 8 } }
    ensures wrapped { outcome (boot_contents 8) (record { kind = 1; sector = 2 ^ 64 - 1; payload = replicate 1024 0xab }) 0
        ≡ record { status = 1; payload = []; disk = boot_contents 8 } }
{}

/// Worked used lengths: the status byte alone counts where it has the only place; where data fills the places before it, all
/// of them and it; where it stands behind places that were not written, nothing.
pub fn worked_lengths()
    ensures alone { written_len 0 [] ≡ 1 }
    ensures filled { written_len 512 (replicate 512 0xab) ≡ 513 }
    ensures behind_a_gap { written_len 512 [] ≡ 0 }
{}
