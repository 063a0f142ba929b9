//! The lines for a primary.

ghost use Rattle.std.specs.Prelude.{◌≤◌, ◌∷◌, ◌++◌, [], length, codes, decimal};
ghost use Rattle.node_player.specs.AtPrimary.{AtPrimary};
ghost use Rattle.node_player.specs.Lines.{arrive, order};
ghost use Rattle.node_player.specs.Meaning.{NodeAnswers};
ghost use Rattle.node_player.specs.Nodes.{node_of};
ghost use Rattle.node_player.specs.Printed.{acked_lines, alone_lines, steps_lines};
ghost use Rattle.node_player.specs.declared.orders.Order.TheVariants.{Step, Cut, Text, Ack, Alone, Protect};
ghost use Rattle.script_player.specs.Printed.{line};
ghost use Rattle.script_player.specs.Session.{IsAnswered};
ghost use Rattle.script_player.specs.Streams.{IsPut};

use crate::orders::Form;
use crate::printing::{put_frames, put_text, refuse, tell, write_acked, write_cut, write_steps};
use crate::role::Role;
use pair_core::{Frame, Packet, Refusal};
use pair_nodes::PrimaryNode;
use script_player::replies::{write_checkpoint, write_generation};
use script_player::streams::{Failed, Sink};
use script_player::text::Text;
use std::mem;

/// A frame of these bytes arrives at the guest.
///
/// # Errors
///
/// Where a write fails.
pub fn arrive<O: Sink>(role: &mut Role, bytes: &[u8], out: &mut O) -> Result<(), Failed>
    ensures { IsAnswered (NodeAnswers O.no_memory (node_of role.old) (arrive bytes.now))
        (O.written out.old) (O.written out.new) result (node_of role.new) }
{
    match role {
        Role::Nothing => refuse(Refusal::NoImage, out),
        Role::Standby(_) => refuse(Refusal::NotPaired, out),
        Role::Primary(primary) => match primary.arrive(bytes) {
            Ok(()) => tell(out, "arrived"),
            Err(why) => refuse(why, out),
        },
    }
}

/// The guest makes so many steps.
///
/// # Errors
///
/// Where a write fails.
pub fn step<O: Sink>(role: &mut Role, count: u64, out: &mut O) -> Result<(), Failed>
    ensures { IsAnswered (NodeAnswers O.no_memory (node_of role.old) (order (Step count)))
        (O.written out.old) (O.written out.new) result (node_of role.new) }
{
    match role {
        Role::Nothing => refuse(Refusal::NoImage, out),
        Role::Standby(_) => refuse(Refusal::NotPaired, out),
        Role::Primary(primary) => step_guest(primary, count, out),
    }
}

/// The guest makes so many steps. What it sends is held, or, if the primary is alone, let out at once.
fn step_guest<O: Sink>(primary: &mut PrimaryNode, count: u64, out: &mut O) -> Result<(), Failed>
    ensures { IsAnswered (AtPrimary O.no_memory primary.old (order (Step count)))
        (O.written out.old) (O.written out.new) result primary.new }
{
    if let Err(why) = primary.step(count) {
        return refuse(why, out);
    }
    if primary.is_backed() {
        let waiting = primary.outbox().len() as u64;
        return put_steps(out, primary.steps(), waiting, &[]);
    }
    let written = put_steps(out, primary.steps(), 0, primary.outbox());
    primary.release();
    written
}

/// Prints the guest's step count, how many frames wait in its outbox, and those that are let out.
fn put_steps<O: Sink>(out: &mut O, steps: u64, waiting: u64, frames: &[Frame]) -> Result<(), Failed>
    ensures { IsPut (O.written out.old) (O.written out.new) result (steps_lines steps waiting frames.now) }
{
    let mut text = Text::new();
    write_steps(&mut text, steps, waiting, frames.len() as u64);
    out.put(text.as_slice())?;
    put_frames(out, frames)
}

/// The epoch ends.
///
/// # Errors
///
/// Where a write fails.
pub fn cut<O: Sink>(role: &mut Role, out: &mut O) -> Result<(), Failed>
    ensures { IsAnswered (NodeAnswers O.no_memory (node_of role.old) (order Cut))
        (O.written out.old) (O.written out.new) result (node_of role.new) }
{
    match role {
        Role::Nothing => refuse(Refusal::NoImage, out),
        Role::Standby(_) => refuse(Refusal::NotPaired, out),
        Role::Primary(primary) => cut_epoch(primary, out),
    }
}

/// The epoch of a primary ends.
fn cut_epoch<O: Sink>(primary: &mut PrimaryNode, out: &mut O) -> Result<(), Failed>
    ensures { IsAnswered (AtPrimary O.no_memory primary.old (order Cut)) (O.written out.old) (O.written out.new) result primary.new }
{
    let mut text = Text::new();
    let generation = primary.generation();
    let number = primary.to_cut();
    match primary.cut() {
        Ok(bytes) => write_cut(&mut text, generation, number, bytes as u64),
        Err(why) => return refuse(why, out),
    }
    out.put(text.as_slice())
}

/// Prints a part of a pending checkpoint's text.
///
/// # Errors
///
/// Where a write fails.
pub fn put_part<O: Sink>(
    role: &mut Role,
    form: Form,
    number: u64,
    from: u64,
    count: u64,
    out: &mut O,
) -> Result<(), Failed>
    ensures { IsAnswered (NodeAnswers O.no_memory (node_of role.old) (order (Text form number from count)))
        (O.written out.old) (O.written out.new) result (node_of role.new) }
{
    match role {
        Role::Nothing => refuse(Refusal::NoImage, out),
        Role::Standby(_) => refuse(Refusal::NotPaired, out),
        Role::Primary(primary) => put_part_of(primary, form, number, from, count, out),
    }
}

/// Prints a part of a text that is pending at a primary.
fn put_part_of<O: Sink>(
    primary: &mut PrimaryNode,
    form: Form,
    number: u64,
    from: u64,
    count: u64,
    out: &mut O,
) -> Result<(), Failed>
    ensures { IsAnswered (AtPrimary O.no_memory primary.old (order (Text form number from count))) (O.written out.old) (O.written out.new)
        result primary.new }
{
    match primary.text(number, from, count) {
        Ok(part) => put_text(out, form, part),
        Err(why) => refuse(why, out),
    }
}

/// The standby has committed all checkpoints up to one.
///
/// # Errors
///
/// Where a write fails.
pub fn acknowledge<O: Sink>(role: &mut Role, ack: Packet, out: &mut O) -> Result<(), Failed>
    ensures { IsAnswered (NodeAnswers O.no_memory (node_of role.old) (order (Ack ack.generation ack.number)))
        (O.written out.old) (O.written out.new) result (node_of role.new) }
{
    match role {
        Role::Nothing => refuse(Refusal::NoImage, out),
        Role::Standby(_) => refuse(Refusal::NotPaired, out),
        Role::Primary(primary) => hear(primary, ack, out),
    }
}

/// The standby has committed all checkpoints up to one: their frames are let out.
fn hear<O: Sink>(primary: &mut PrimaryNode, ack: Packet, out: &mut O) -> Result<(), Failed>
    ensures { IsAnswered (AtPrimary O.no_memory primary.old (order (Ack ack.generation ack.number)))
        (O.written out.old) (O.written out.new) result primary.new }
{
    let written = match primary.let_out(ack) {
        Ok(frames) => put_acked(out, ack, frames),
        Err(why) => return refuse(why, out),
    };
    let Ok(()) = primary.acknowledge(ack) else {
        unreachable!();
    };
    written
}

/// Prints up to which checkpoint all are acknowledged, and the frames that are let out.
fn put_acked<O: Sink>(out: &mut O, ack: Packet, frames: &[Frame]) -> Result<(), Failed>
    ensures { IsPut (O.written out.old) (O.written out.new) result (acked_lines ack.generation ack.number frames.now) }
{
    let mut text = Text::new();
    write_acked(&mut text, ack.generation, ack.number, frames.len() as u64);
    out.put(text.as_slice())?;
    put_frames(out, frames)
}

/// The standby has stopped.
///
/// # Errors
///
/// Where a write fails.
pub fn go_alone<O: Sink>(role: &mut Role, out: &mut O) -> Result<(), Failed>
    ensures { IsAnswered (NodeAnswers O.no_memory (node_of role.old) (order Alone))
        (O.written out.old) (O.written out.new) result (node_of role.new) }
{
    match mem::replace(role, Role::Nothing) {
        Role::Nothing => refuse(Refusal::NoImage, out),
        Role::Standby(standby) => {
            *role = Role::Standby(standby);
            refuse(Refusal::NotPaired, out)
        }
        Role::Primary(primary) => {
            let (next, written) = left_alone(primary, out);
            *role = Role::Primary(next);
            written
        }
    }
}

/// The standby of a primary has stopped: all that was held is let out, and what the running epoch has sent.
fn left_alone<O: Sink>(primary: PrimaryNode, out: &mut O) -> (PrimaryNode, Result<(), Failed>)
    ensures { IsAnswered (AtPrimary O.no_memory primary (order Alone)) (O.written out.old) (O.written out.new) result.1 result.0 }
{
    if !primary.is_backed() {
        return (primary, refuse(Refusal::NotPaired, out));
    }
    let written = put_alone(out, primary.generation(), primary.held(), primary.outbox());
    match primary.alone() {
        Ok(next) => (next, written),
        Err(_) => unreachable!(),
    }
}

/// Prints the generation of a node that is alone now, and the frames that are let out: those held, and those of the running epoch.
fn put_alone<O: Sink>(
    out: &mut O,
    generation: u64,
    held: &[Frame],
    sent: &[Frame],
) -> Result<(), Failed>
    requires held { length held.now ≤ 1024 }
    requires sent { length sent.now ≤ 256 }
    ensures { IsPut (O.written out.old) (O.written out.new) result (alone_lines generation (held.now ++ sent.now)) }
{
    let mut text = Text::new();
    let frames = (held.len() + sent.len()) as u64;
    write_generation(&mut text, "alone", generation, "frames", frames);
    out.put(text.as_slice())?;
    put_frames(out, held)?;
    put_frames(out, sent)
}

/// A new standby is to come.
///
/// # Errors
///
/// Where a write fails.
pub fn protect<O: Sink>(role: &mut Role, out: &mut O) -> Result<(), Failed>
    ensures { IsAnswered (NodeAnswers O.no_memory (node_of role.old) (order Protect))
        (O.written out.old) (O.written out.new) result (node_of role.new) }
{
    match mem::replace(role, Role::Nothing) {
        Role::Nothing => refuse(Refusal::NoImage, out),
        Role::Standby(standby) => {
            *role = Role::Standby(standby);
            refuse(Refusal::NotPaired, out)
        }
        Role::Primary(primary) => {
            let (next, written) = protected(primary, out);
            *role = Role::Primary(next);
            written
        }
    }
}

/// A new standby of a primary is to come, in the next generation.
fn protected<O: Sink>(primary: PrimaryNode, out: &mut O) -> (PrimaryNode, Result<(), Failed>)
    ensures { IsAnswered (AtPrimary O.no_memory primary (order Protect)) (O.written out.old) (O.written out.new) result.1 result.0 }
{
    match primary.protect() {
        Ok((next, bytes)) => {
            let written = tell_protecting(out, next.generation(), bytes as u64);
            (next, written)
        }
        Err((same, why)) => (same, refuse(why, out)),
    }
}

/// Prints the generation that begins, and how many bytes the full checkpoint's text has at most.
fn tell_protecting<O: Sink>(out: &mut O, generation: u64, bytes: u64) -> Result<(), Failed>
    ensures { IsPut (O.written out.old) (O.written out.new) result
        (line (codes "protecting" ∷ decimal generation ∷ decimal bytes ∷ [])) }
{
    let mut text = Text::new();
    write_checkpoint(&mut text, "protecting", generation, bytes);
    out.put(text.as_slice())
}
