//! What is printed of a run that has ended.
ghost use Rattle.std.specs.List.{flat_map};
ghost use Rattle.script_player.specs.Printed.{reply_line};
ghost use Rattle.script_player.specs.Streams.{IsPrinted};
ghost use Rattle.pair_run.specs.RunPrinted.{IsWritten, answered_lines, client_title, entries_line, run_text};

use pair_record::Reply;
use script_player::replies::write_reply;
use script_player::streams::{Failed, Sink};
use script_player::text::Field::Number;
use script_player::text::{Text, write_line};

/// A client, and what it was answered.
#[derive(Drop)]
pub struct Answered {
    /// Its number.
    pub client: u64,
    /// The answers to its actions, in order.
    pub replies: Vec<Reply>,
}

/// Prints each client and its answers, and the length of the history, and writes all out.
///
/// # Errors
///
/// Where a write fails.
pub fn write_run<O: Sink>(clients: &[Answered], entries: u64, out: &mut O) -> Result<(), Failed>
    ensures { IsWritten (O.written out.old) (O.written out.new) result (run_text clients.now entries) }
{
    write_clients(clients, out)?;
    write_entries(entries, out)?;
    out.show()
}

/// Prints each client and its answers.
fn write_clients<O: Sink>(clients: &[Answered], out: &mut O) -> Result<(), Failed>
    ensures { IsPrinted (O.written out.old) (O.written out.new) result (flat_map answered_lines clients.now) }
{
    for answered in clients {
        write_client(answered, out)?;
    }
    Ok(())
}

/// Prints a client and its answers.
fn write_client<O: Sink>(answered: &Answered, out: &mut O) -> Result<(), Failed>
    ensures { IsPrinted (O.written out.old) (O.written out.new) result (answered_lines answered.now) }
{
    write_title(answered.client, out)?;
    write_replies(answered.replies.as_slice(), out)
}

/// Prints a client's number.
fn write_title<O: Sink>(client: u64, out: &mut O) -> Result<(), Failed>
    ensures { IsPrinted (O.written out.old) (O.written out.new) result (client_title client) }
{
    let mut text = Text::new();
    write_line(&mut text, "client", &[Number(client)]);
    out.put(text.as_slice())
}

/// Prints answers, a line each.
fn write_replies<O: Sink>(replies: &[Reply], out: &mut O) -> Result<(), Failed>
    ensures { IsPrinted (O.written out.old) (O.written out.new) result (flat_map reply_line replies.now) }
{
    for reply in replies {
        write_answer(reply, out)?;
    }
    Ok(())
}

/// Prints an answer.
fn write_answer<O: Sink>(reply: &Reply, out: &mut O) -> Result<(), Failed>
    ensures { IsPrinted (O.written out.old) (O.written out.new) result (reply_line reply.now) }
{
    let mut text = Text::new();
    write_reply(&mut text, reply);
    out.put(text.as_slice())
}

/// Prints the length of the history.
fn write_entries<O: Sink>(entries: u64, out: &mut O) -> Result<(), Failed>
    ensures { IsPrinted (O.written out.old) (O.written out.new) result (entries_line entries) }
{
    let mut text = Text::new();
    write_line(&mut text, "entries", &[Number(entries)]);
    out.put(text.as_slice())
}
