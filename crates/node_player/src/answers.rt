//! What a line does to a node, and what is printed of it.

ghost use Rattle.node_player.specs.Lines.{line_of, order};
ghost use Rattle.node_player.specs.internal.Limited.{IsLimited, IsLimitedOrder};
ghost use Rattle.node_player.specs.Meaning.{NodeAnswers, PlaysLine};
ghost use Rattle.node_player.specs.Nodes.{node_of};
ghost use Rattle.script_player.specs.Session.{IsAnswered};

use crate::begins::{boot, wait};
use crate::lines::{Line, read_line};
use crate::orders::Order;
use crate::role::Role;
use crate::runs::{acknowledge, arrive, cut, go_alone, protect, put_part, step};
use crate::shows::{show, show_sector};
use crate::waits::{commit, go_live, restart, take_piece};
use pair_core::{Packet, Shape};
use script_player::player::is_silent;
use script_player::session::BAD;
use script_player::streams::{Failed, Sink};
use std::alloc::Global;

/// Plays a line, and prints the answer.
///
/// # Errors
///
/// Where a write fails.
pub fn play<O: Sink>(alloc: Global, role: &mut Role, line: &[u8], out: &mut O) -> Result<(), Failed>
    ensures { IsAnswered (PlaysLine O.no_memory (node_of role.old) line.now)
        (O.written out.old) (O.written out.new) result (node_of role.new) }
{
    if is_silent(line) {
        return out.put(b"");
    }
    match read_line(alloc, line) {
        Ok(Some(line)) => answer(alloc, role, &line, out),
        Ok(None) => out.put(BAD),
        Err(wanted) => out.refuse(wanted),
    }
}

/// Does what a line says, and prints the answer.
///
/// # Errors
///
/// Where a write fails.
fn answer<O: Sink>(
    alloc: Global,
    role: &mut Role,
    line: &Line<'_>,
    out: &mut O,
) -> Result<(), Failed>
    requires { IsLimited line.now }
    ensures { IsAnswered (NodeAnswers O.no_memory (node_of role.old) (line_of line.now))
        (O.written out.old) (O.written out.new) result (node_of role.new) }
{
    match line {
        Line::Boot(boot_line) => boot(alloc, role, boot_line, out),
        Line::Arrive(bytes) => arrive(role, bytes.as_slice(), out),
        Line::Piece(bytes) => take_piece(role, bytes.as_slice(), out),
        Line::RawPiece(bytes) => take_piece(role, bytes, out),
        Line::Order(command) => obey(alloc, role, *command, out),
    }
}

/// Does what an order says, and prints the answer.
///
/// # Errors
///
/// Where a write fails.
fn obey<O: Sink>(alloc: Global, role: &mut Role, command: Order, out: &mut O) -> Result<(), Failed>
    requires { IsLimitedOrder command }
    ensures { IsAnswered (NodeAnswers O.no_memory (node_of role.old) (order command))
        (O.written out.old) (O.written out.new) result (node_of role.new) }
{
    match command {
        Order::Standby {
            pages,
            sectors,
            generation,
        } => wait(alloc, role, Shape { pages, sectors }, generation, out),
        Order::Step(count) => step(role, count, out),
        Order::Cut => cut(role, out),
        Order::Text {
            form,
            number,
            from,
            count,
        } => put_part(role, form, number, from, count, out),
        Order::Ack { generation, number } => acknowledge(role, Packet { generation, number }, out),
        Order::Alone => go_alone(role, out),
        Order::Protect => protect(role, out),
        Order::Commit => commit(role, out),
        Order::Restart => restart(role, out),
        Order::GoLive => go_live(role, out),
        Order::Show => show(role, out),
        Order::Sector(sector) => show_sector(role, sector, out),
    }
}
