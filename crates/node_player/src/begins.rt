//! How a node begins: as a primary that boots a guest, or as a standby.

ghost use Rattle.std.specs.Prelude.{◌≤◌, IfOk};
ghost use Rattle.node_player.specs.AtNothing.{IsBooted};
ghost use Rattle.node_player.specs.Limits.{last_generation};
ghost use Rattle.node_player.specs.Lines.{boot, order};
ghost use Rattle.node_player.specs.Meaning.{NodeAnswers};
ghost use Rattle.node_player.specs.Nodes.{node_of};
ghost use Rattle.node_player.specs.declared.orders.Order.TheVariants.{Standby};
ghost use Rattle.script_player.specs.Boot.{IsInLimits, boot_line};
ghost use Rattle.script_player.specs.Session.{IsAnswered};

use crate::printing::{refuse, tell, tell_number};
use crate::role::Role;
use guest_rules::SECTOR_BYTES;
use memory_wanted::{MemoryWanted, resize, with_capacity};
use pair_core::{Refusal, Shape};
use pair_nodes::{PrimaryNode, StandbyNode};
use script_player::boot::Boot;
use script_player::player::image;
use script_player::streams::{Failed, Sink};
use std::alloc::Global;

/// The bytes of a sector's record in a checkpoint: its number, and what it holds.
const SECTOR_RECORD: usize = 4 + SECTOR_BYTES;

/// The bytes that lists of pages take for each of them, while they grow.
const PAGE_LISTS: usize = 64;

/// The node boots the guest of a boot line: it is a primary that is alone.
///
/// # Errors
///
/// Where a write fails.
pub fn boot<O: Sink>(alloc: Global, role: &mut Role, line: &Boot, out: &mut O) -> Result<(), Failed>
    requires { IsInLimits (boot_line line.now) }
    ensures { IsAnswered (NodeAnswers O.no_memory (node_of role.old) (boot (boot_line line.now)))
        (O.written out.old) (O.written out.new) result (node_of role.new) }
{
    let Role::Nothing = role else {
        return refuse(Refusal::AlreadyPaired, out);
    };
    match boot_guest(alloc, line) {
        Ok(primary) => {
            *role = Role::Primary(primary);
            warm(alloc, line);
            tell(out, "booted")
        }
        Err(wanted) => out.refuse(wanted),
    }
}

/// A primary that is alone, of the guest of a boot line.
///
/// # Errors
///
/// Where there is no memory for it.
fn boot_guest(alloc: Global, line: &Boot) -> Result<PrimaryNode, MemoryWanted>
    requires { IsInLimits (boot_line line.now) }
    ensures { IfOk result (IsBooted (boot_line line.now)) }
{
    let shape = Shape {
        pages: line.pages,
        sectors: line.sectors,
    };
    let image = image(alloc, line)?;
    PrimaryNode::boot(alloc, shape, image.as_slice())
}

/// Takes as much memory as `protect` fills, most of it with the disk's part of the full checkpoint, fills it, and gives it back. Where the
/// C library keeps it, the guest, which stands in `protect`, needn't wait for the system to give out each page of it.
fn warm(alloc: Global, line: &Boot) {
    let bytes = SECTOR_RECORD * line.sectors as usize + PAGE_LISTS * line.pages as usize;
    if let Ok(mut room) = with_capacity(alloc, bytes) {
        let _ = resize(&mut room, bytes, 0_u8);
    }
}

/// The node is a standby for a guest of this shape, and takes checkpoints of this generation.
///
/// # Errors
///
/// Where a write fails.
pub fn wait<O: Sink>(
    alloc: Global,
    role: &mut Role,
    shape: Shape,
    generation: u64,
    out: &mut O,
) -> Result<(), Failed>
    requires first { 1 ≤ generation }
    requires last { generation ≤ last_generation }
    ensures { IsAnswered (NodeAnswers O.no_memory (node_of role.old) (order (Standby shape.pages shape.sectors generation)))
        (O.written out.old) (O.written out.new) result (node_of role.new) }
{
    let Role::Nothing = role else {
        return refuse(Refusal::AlreadyPaired, out);
    };
    match StandbyNode::new(alloc, shape, generation) {
        Ok(standby) => {
            *role = Role::Standby(standby);
            tell_number(out, "waiting", generation)
        }
        Err(wanted) => out.refuse(wanted),
    }
}
