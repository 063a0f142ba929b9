//! The lines that show a node.

ghost use Rattle.std.specs.Prelude.{◌≡◌, ◌≤◌, ℕ, List, length, option_map};
ghost use Rattle.node_player.specs.AtPrimary.{AtPrimary, mode_word};
ghost use Rattle.node_player.specs.AtStandby.{AtStandby, standby_word};
ghost use Rattle.node_player.specs.Lines.{order};
ghost use Rattle.node_player.specs.Meaning.{NodeAnswers, node_sector};
ghost use Rattle.node_player.specs.Nodes.{node_of, standby as standby_node};
ghost use Rattle.node_player.specs.declared.orders.Order.TheVariants.{Show, Sector};
ghost use Rattle.script_player.specs.Printed.{sector_line};
ghost use Rattle.script_player.specs.Session.{IsAnswered};
ghost use Rattle.script_player.specs.Streams.{IsPut};

use crate::printing::write_state;
use crate::role::Role;
use pair_core::{Mode, SECTOR_BYTES};
use pair_nodes::{PrimaryNode, StandbyNode};
use script_player::replies::write_sector;
use script_player::session::BAD;
use script_player::streams::{Failed, Sink};
use script_player::text::Text;

/// Prints the state in one line.
///
/// # Errors
///
/// Where a write fails.
pub fn show<O: Sink>(role: &Role, out: &mut O) -> Result<(), Failed>
    ensures { IsAnswered (NodeAnswers O.no_memory (node_of role.now) (order Show))
        (O.written out.old) (O.written out.new) result (node_of role.now) }
{
    let mut text = Text::new();
    write_role(&mut text, role);
    out.put(text.as_slice())
}

/// Writes the state of a node.
fn write_role(text: &mut Text, role: &Role)
    ensures { (no_memory : List ℕ) → NodeAnswers no_memory (node_of role.now) (order Show) text.new.items (node_of role.now) }
{
    match role {
        Role::Nothing => write_state(text, "empty", 0, 0, 0, 0),
        Role::Primary(primary) => write_primary(text, primary),
        Role::Standby(standby) => write_standby(text, standby),
    }
}

/// Writes the state of a primary.
fn write_primary(text: &mut Text, primary: &PrimaryNode)
    ensures { (no_memory : List ℕ) → AtPrimary no_memory primary.now (order Show) text.new.items primary.now }
{
    let word = mode_word(primary.mode());
    let pending = primary.pending() as u64;
    let written = primary.written() as u64;
    write_state(
        text,
        word,
        primary.generation(),
        pending,
        primary.steps(),
        written,
    );
}

/// Writes the state of a standby.
fn write_standby(text: &mut Text, standby: &StandbyNode)
    ensures { (no_memory : List ℕ) → AtStandby no_memory standby.now (order Show) text.new.items (standby_node standby.now) }
{
    let word = standby_word(standby);
    write_state(text, word, standby.generation(), 0, standby.steps(), 0);
}

/// The word that is printed of a primary's mode.
fn mode_word(mode: Mode) -> &'static str
    ensures word { result.now ≡ mode_word mode }
    ensures short { length result.now ≤ 7 }
{
    match mode {
        Mode::Paired => "paired",
        Mode::Filling => "filling",
        Mode::Alone => "alone",
        Mode::Stopped => "stopped",
    }
}

/// The word that is printed of a standby: one with no full checkpoint is empty.
fn standby_word(standby: &StandbyNode) -> &'static str
    ensures word { result.now ≡ standby_word standby.now }
    ensures short { length result.now ≤ 7 }
{
    if standby.is_empty() {
        "empty"
    } else {
        "standby"
    }
}

/// Prints a sector of the disk, if the node has a guest and its disk that sector.
///
/// # Errors
///
/// Where a write fails.
pub fn show_sector<O: Sink>(role: &Role, sector: u64, out: &mut O) -> Result<(), Failed>
    ensures { IsAnswered (NodeAnswers O.no_memory (node_of role.now) (order (Sector sector)))
        (O.written out.old) (O.written out.new) result (node_of role.now) }
{
    match sector_of(role, sector) {
        Some(bytes) => put_sector(out, sector, bytes),
        None => out.put(BAD),
    }
}

/// The bytes of the sector that a number names, none beyond the disk or where there is no guest.
fn sector_of(role: &Role, sector: u64) -> Option<&[u8; SECTOR_BYTES]>
    ensures { option_map (λ bytes. bytes.now) result ≡ node_sector (node_of role.now) sector }
{
    let sector = u32::try_from(sector).ok()?;
    match role {
        Role::Nothing => None,
        Role::Primary(primary) => primary.sector(sector),
        Role::Standby(standby) if standby.is_empty() => None,
        Role::Standby(standby) => standby.sector(sector),
    }
}

/// Prints the number of a sector, and its bytes.
fn put_sector<O: Sink>(out: &mut O, sector: u64, bytes: &[u8; SECTOR_BYTES]) -> Result<(), Failed>
    ensures { IsPut (O.written out.old) (O.written out.new) result (sector_line sector bytes.now) }
{
    let mut text = Text::new();
    write_sector(&mut text, sector, bytes);
    out.put(text.as_slice())
}
