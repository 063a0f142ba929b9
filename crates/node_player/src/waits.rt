//! The lines for a standby.

ghost use Rattle.std.specs.Prelude.{◌≡◌, ◌∷◌, [], codes, decimal};
ghost use Rattle.node_player.specs.AtStandby.{IsFed, taken_answer, commit_answer};
ghost use Rattle.node_player.specs.Lines.{piece, order};
ghost use Rattle.node_player.specs.Meaning.{NodeAnswers};
ghost use Rattle.node_player.specs.Nodes.{node_of};
ghost use Rattle.node_player.specs.declared.orders.Order.TheVariants as orders;
ghost use Rattle.pair_nodes.specs.StandbyCalls.{commit_outcome};
ghost use Rattle.script_player.specs.Printed.{line};
ghost use Rattle.script_player.specs.Session.{IsAnswered};
ghost use Rattle.script_player.specs.Streams.{IsPut};

use crate::printing::{refuse, tell, write_malformed};
use crate::role::Role;
use checkpoint_stream::StreamError;
use pair_core::Refusal;
use pair_nodes::{Commit, PrimaryNode, StandbyNode};
use script_player::replies::{write_checkpoint, write_generation, write_number};
use script_player::streams::{Failed, Sink};
use script_player::text::Text;
use std::mem;

/// The next bytes of a checkpoint's text come.
///
/// # Errors
///
/// Where a write fails.
pub fn take_piece<O: Sink>(role: &mut Role, bytes: &[u8], out: &mut O) -> Result<(), Failed>
    ensures { IsAnswered (NodeAnswers O.no_memory (node_of role.old) (piece bytes.now))
        (O.written out.old) (O.written out.new) result (node_of role.new) }
{
    match role {
        Role::Nothing => refuse(Refusal::NoImage, out),
        Role::Primary(_) => refuse(Refusal::AlreadyPaired, out),
        Role::Standby(standby) => feed(standby, bytes, out),
    }
}

/// The next bytes of a text come to a standby.
fn feed<O: Sink>(standby: &mut StandbyNode, bytes: &[u8], out: &mut O) -> Result<(), Failed>
    ensures { IsAnswered (IsFed O.no_memory standby.old bytes.now) (O.written out.old) (O.written out.new) result standby.new }
{
    let mut text = Text::new();
    match standby.piece(bytes) {
        Ok(count) => write_taken(&mut text, standby, count, bytes.len()),
        Err(StreamError::Malformed(offset)) => write_malformed(&mut text, offset),
        Err(StreamError::NoMemory(wanted)) => return out.refuse(wanted),
    }
    out.put(text.as_slice())
}

/// Prints how many of so many bytes were taken, or which checkpoint is complete with the last of them.
fn write_taken(text: &mut Text, standby: &StandbyNode, count: usize, bytes: usize)
    ensures { text.new.items ≡ taken_answer standby.now count bytes }
{
    match standby.whole() {
        Some(whole) if count == bytes => {
            write_checkpoint(text, "whole", whole.generation, whole.number);
        }
        _ => write_number(text, "taken", count as u64),
    }
}

/// The complete checkpoint is taken into the image.
///
/// # Errors
///
/// Where a write fails.
pub fn commit<O: Sink>(role: &mut Role, out: &mut O) -> Result<(), Failed>
    ensures { IsAnswered (NodeAnswers O.no_memory (node_of role.old) (order orders.Commit))
        (O.written out.old) (O.written out.new) result (node_of role.new) }
{
    match role {
        Role::Nothing => refuse(Refusal::NoImage, out),
        Role::Primary(_) => refuse(Refusal::AlreadyPaired, out),
        Role::Standby(standby) => take_in(standby, out),
    }
}

/// A standby takes the complete checkpoint into its image.
fn take_in<O: Sink>(standby: &mut StandbyNode, out: &mut O) -> Result<(), Failed>
    ensures answer { IsPut (O.written out.old) (O.written out.new) result (commit_answer O.no_memory (commit_outcome standby.old).0) }
    ensures left { standby.new ≡ (commit_outcome standby.old).1 }
{
    let mut text = Text::new();
    match standby.commit() {
        Ok(Commit::Committed(ack)) => {
            write_checkpoint(&mut text, "committed", ack.generation, ack.number);
        }
        Ok(Commit::Again(ack)) => write_checkpoint(&mut text, "again", ack.generation, ack.number),
        Err(why) => return refuse(why, out),
    }
    out.put(text.as_slice())
}

/// The stream of a checkpoint's text broke off.
///
/// # Errors
///
/// Where a write fails.
pub fn restart<O: Sink>(role: &mut Role, out: &mut O) -> Result<(), Failed>
    ensures { IsAnswered (NodeAnswers O.no_memory (node_of role.old) (order orders.Restart))
        (O.written out.old) (O.written out.new) result (node_of role.new) }
{
    match role {
        Role::Nothing => refuse(Refusal::NoImage, out),
        Role::Primary(_) => refuse(Refusal::AlreadyPaired, out),
        Role::Standby(standby) => {
            standby.restart();
            tell(out, "restarted")
        }
    }
}

/// The standby goes on as a primary.
///
/// # Errors
///
/// Where a write fails.
pub fn go_live<O: Sink>(role: &mut Role, out: &mut O) -> Result<(), Failed>
    ensures { IsAnswered (NodeAnswers O.no_memory (node_of role.old) (order orders.GoLive))
        (O.written out.old) (O.written out.new) result (node_of role.new) }
{
    match mem::replace(role, Role::Nothing) {
        Role::Nothing => refuse(Refusal::NoImage, out),
        Role::Primary(primary) => {
            *role = Role::Primary(primary);
            refuse(Refusal::AlreadyPaired, out)
        }
        Role::Standby(standby) => match standby.go_live() {
            Ok(primary) => {
                let written = tell_live(out, &primary);
                *role = Role::Primary(primary);
                written
            }
            Err((same, why)) => {
                *role = Role::Standby(same);
                refuse(why, out)
            }
        },
    }
}

/// Prints in which generation a primary went live, and from how many steps.
fn tell_live<O: Sink>(out: &mut O, primary: &PrimaryNode) -> Result<(), Failed>
    ensures { IsPut (O.written out.old) (O.written out.new) result
        (line (codes "live" ∷ decimal primary.now.primary.generation ∷ codes "steps" ∷ decimal primary.now.primary.live.guest.steps ∷ [])) }
{
    let mut text = Text::new();
    write_generation(
        &mut text,
        "live",
        primary.generation(),
        "steps",
        primary.steps(),
    );
    out.put(text.as_slice())
}
