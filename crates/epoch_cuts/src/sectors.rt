//! What a cut records of the disk.
ghost use Rattle.std.specs.Prelude.{◌≡◌, ◌+◌, ◌*◌, ◌≤◌, length, [], vec_capacity, OnOk};
ghost use Rattle.epoch_snapshot.specs.Cuts.{sector_change, changed_sectors, used_sectors};

use epoch_snapshot::SectorChange;
use guest_machine::Machine;
use memory_wanted::{MemoryWanted, push};

/// A sector with its bytes.
fn record(machine: &Machine, sector: u32) -> SectorChange
    requires { 512 * sector + 512 ≤ length machine.now.guest.sectors }
    ensures { result ≡ sector_change machine.now.guest.sectors sector }
{
    SectorChange {
        sector,
        bytes: *machine.sector(sector),
    }
}

/// Puts the sectors that were written since the last settle into an empty list that has room for them.
pub(crate) fn push_written(machine: &Machine, list: &mut Vec<SectorChange>)
    requires empty { list.old.items ≡ [] }
    requires room { length machine.now.dirty ≤ vec_capacity list.old }
    ensures { list.new.items ≡ changed_sectors machine.now.guest.sectors machine.now.dirty }
{
    for sector in machine.dirty_sectors() {
        list.push_reserved(record(machine, *sector));
    }
}

/// Puts those of the first `count` sectors that aren't all zero into an empty list.
pub(crate) fn push_used(
    machine: &Machine,
    count: u32,
    list: &mut Vec<SectorChange>,
) -> Result<(), MemoryWanted>
    requires size { 512 * count ≤ length machine.now.guest.sectors }
    requires empty { list.old.items ≡ [] }
    ensures { OnOk result (list.new.items ≡ changed_sectors machine.now.guest.sectors (used_sectors machine.now.guest.sectors count)) }
{
    for sector in 0..count {
        if !machine.blank(sector) {
            push(list, record(machine, sector))?;
        }
    }
    Ok(())
}
