//! A file of a run, read line by line.
ghost use Rattle.std.specs.Prelude.{◌≡◌, ◌==◌, IfOk, IsFalse, IsTrue, option_map};
ghost use Rattle.std.specs.List.{list_any};
ghost use Rattle.script_player.specs.Boot.{IsInLimits, boot_line};
ghost use Rattle.pair_run.specs.RunFile.{IsFree, client_head};
ghost use Rattle.pair_run.specs.Views.{IsReadAs, run_file};
ghost use Rattle.pair_run.specs.internal.Reading.{IsAdded, IsLineRead, stage_of};

use crate::actions::{count_actions, read_actions};
use crate::run_file::{ClientLine, RunFile, Unread};
use memory_wanted::{MemoryWanted, push};
use script_player::boot::{Boot, read_boot};
use script_player::fields::{after, numbers, operand};
use script_player::player::is_silent;
use script_player::sim::first_line;
use std::alloc::Global;

/// What was read so far.
#[derive(Drop)]
enum Stage {
    /// Nothing.
    Unbooted,
    /// The boot line.
    Booted(Boot),
    /// The boot line, the epochs line, and clients' lines.
    Told(RunFile),
}

/// What a file of a run says.
///
/// # Errors
///
/// [`Unread::Bad`] with the number of the first line that has no known form, or names a client that there isn't or that has a line already;
/// where the file ends before its boot line or its epochs line, of its last line. [`Unread::NoMemory`] where there is no memory for what
/// a line says, and no line before it is bad.
pub fn read_run(alloc: Global, source: &[u8]) -> Result<RunFile, Unread>
    ensures means { IsReadAs source.now result }
    // The pair can be booted.
    ensures limits { IfOk result (λ file. IsInLimits (boot_line file.boot)) }
{
    let mut stage = Stage::Unbooted;
    let mut count = 0;
    let mut left = Some(source);
    while let Some(text) = left {
        let (line, rest) = first_line(text);
        left = rest;
        count += 1;
        stage = read_on(alloc, stage, count, line)?;
    }
    match stage {
        Stage::Told(file) => Ok(file),
        Stage::Unbooted => Err(Unread::Bad(count)),
        Stage::Booted(_) => Err(Unread::Bad(count)),
    }
}

/// Reads one line more, of this number.
///
/// # Errors
///
/// [`Unread::Bad`] where it may not stand there; [`Unread::NoMemory`] where it may, and there is no memory for what it says.
fn read_on(alloc: Global, stage: Stage, number: u64, text: &[u8]) -> Result<Stage, Unread>
    ensures { IsLineRead (stage_of stage) number text.now result }
{
    if is_silent(text) {
        return Ok(stage);
    }
    match stage {
        Stage::Unbooted => {
            let Some(boot) = read_boot(alloc, text)? else {
                return Err(Unread::Bad(number));
            };
            Ok(Stage::Booted(boot))
        }
        Stage::Booted(boot) => {
            let Some((epochs, steps)) = numbers(text, b"epochs ") else {
                return Err(Unread::Bad(number));
            };
            Ok(Stage::Told(RunFile {
                boot,
                epochs,
                steps,
                clients: Vec::new(alloc),
            }))
        }
        Stage::Told(mut file) => {
            if !add_client(alloc, &mut file, text)? {
                return Err(Unread::Bad(number));
            }
            Ok(Stage::Told(file))
        }
    }
}

/// Adds what a client's line says. Answers whether the line is one, of a client that may have one.
///
/// # Errors
///
/// [`MemoryWanted`] where it is, and there is no memory for what it says.
fn add_client(alloc: Global, file: &mut RunFile, text: &[u8]) -> Result<bool, MemoryWanted>
    ensures { IsAdded (run_file file.old) text.now result (run_file file.new) }
{
    let Some((client, fields)) = read_head(text) else {
        return Ok(false);
    };
    if !is_free(file, client) {
        return Ok(false);
    }
    let Some(count) = count_actions(fields) else {
        return Ok(false);
    };
    let actions = read_actions(alloc, fields, count)?;
    push(&mut file.clients, ClientLine { client, actions })?;
    Ok(true)
}

/// The client's number, and the text of its actions.
fn read_head(text: &[u8]) -> Option<(u64, &[u8])>
    ensures { option_map (λ head. (head.0, head.1.now)) result ≡ client_head text.now }
{
    operand(after(text, b"client ")?)
}

/// Whether the client is one of the pair's, and has no line yet.
fn is_free(file: &RunFile, client: u64) -> bool
    ensures free { IsTrue result → IsFree (run_file file.now) client }
    ensures taken { IsFalse result → IsFree (run_file file.now) client → ⊥ }
{
    if client == 0 {
        return false;
    }
    if client > file.boot.clients {
        return false;
    }
    !has_line(file.clients.as_slice(), client)
}

/// Whether the client has a line among these.
fn has_line(clients: &[ClientLine], client: u64) -> bool
    ensures { result ≡ list_any (λ line. line.client == client) clients.now }
{
    clients.iter().any(|line| line.client == client)
}
