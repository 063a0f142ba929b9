//! The command line: `remus sim FILE`, `remus run FILE`, `remus check-stream FILE --pages P --sectors S`, `remus live` and `remus node`. It
//! stands in a crate of its own, so that it is proved beside what runs a pair in threads, and not after it.
#![tactic(auto)]

ghost use Rattle.std.specs.Prelude.{◌<◌, ◌≤◌, IfSome, length};

use clap::{Arg, ArgMatches, Command, Error};
use pair_core::Shape;
use script_player::limits::{MOST_PAGES, MOST_SECTORS};
use std::alloc::{AllocError, Global};

/// What the command line asks for.
#[derive(Clone, Copy)]
pub enum Invocation<'a> {
    /// To play the script of this file.
    Sim(&'a str),
    /// To run the pair of this file in threads.
    Run(&'a str),
    /// To list the checkpoints of this file, of a machine of this shape.
    CheckStream(&'a str, Shape),
    /// To play lines as they come.
    Live,
    /// To play the lines of one host as they come.
    Node,
}

/// What the words of the command line ask for. `None`: they are no command line of `remus`, or ask for help, a FILE is empty, or a number
/// isn't one whole number in its range; or there is no memory to read them.
pub fn read<'a>(alloc: Global, words: &'a [String]) -> Option<Invocation<'a>> {
    let matches = matches_of(commands(alloc), words).ok()?;
    invocation_of(&matches)
}

/// `remus` and its subcommands. What would be let go of at a `?` is handed on instead, since the proof goes over each part of it there.
fn commands<'a>(alloc: Global) -> Result<Command<'a>, AllocError> {
    let remus = Ok(Command::new(alloc, "remus").subcommand_required(true));
    let remus = with(remus, of_file(alloc, Command::new(alloc, "sim")));
    let remus = with(remus, of_file(alloc, Command::new(alloc, "run")));
    let remus = with(remus, check_stream(alloc));
    let remus = with(remus, Ok(Command::new(alloc, "live")));
    with(remus, Ok(Command::new(alloc, "node")))
}

/// The command with one subcommand more.
fn with<'a>(
    command: Result<Command<'a>, AllocError>,
    sub: Result<Command<'a>, AllocError>,
) -> Result<Command<'a>, AllocError> {
    let (command, sub) = both(command, sub)?;
    command.subcommand(sub)
}

/// Both of these, where neither was refused.
fn both<A: Drop, B: Drop>(
    one: Result<A, AllocError>,
    other: Result<B, AllocError>,
) -> Result<(A, B), AllocError> {
    let one = one?;
    let other = other?;
    Ok((one, other))
}

/// A subcommand with its FILE.
fn of_file<'a>(alloc: Global, command: Command<'a>) -> Result<Command<'a>, AllocError> {
    command.arg(Arg::new(alloc, "FILE").required(true))
}

/// `check-stream`, with its arguments.
fn check_stream<'a>(alloc: Global) -> Result<Command<'a>, AllocError> {
    of_file(alloc, Command::new(alloc, "check-stream"))?
        .arg(option(alloc, "pages"))?
        .arg(option(alloc, "sectors"))
}

/// An option that must be there.
fn option<'a>(alloc: Global, name: &'a str) -> Arg<'a> {
    Arg::new(alloc, name).long(name).required(true)
}

/// What the words say to a command.
fn matches_of<'a>(
    command: Result<Command<'a>, AllocError>,
    words: &'a [String],
) -> Result<ArgMatches<'a>, Error> {
    command?.try_get_matches_from(words)
}

/// What these words ask for.
fn invocation_of<'a>(matches: &ArgMatches<'a>) -> Option<Invocation<'a>> {
    if let Some(sim) = matches.subcommand_matches("sim") {
        return file_of(sim).map(Invocation::Sim);
    }
    if let Some(run) = matches.subcommand_matches("run") {
        return file_of(run).map(Invocation::Run);
    }
    if let Some(check) = matches.subcommand_matches("check-stream") {
        return check_stream_of(check);
    }
    if matches.subcommand_matches("live").is_some() {
        return Some(Invocation::Live);
    }
    matches.subcommand_matches("node").map(|_| Invocation::Node)
}

/// The FILE, where it isn't empty.
fn file_of<'a>(matches: &ArgMatches<'a>) -> Option<&'a str>
    ensures { IfSome result (λ file. 0 < length file.now) }
{
    matches.get_str("FILE").filter(|file| !file.is_empty())
}

/// What `check-stream` was asked, where its numbers are in range.
fn check_stream_of<'a>(matches: &ArgMatches<'a>) -> Option<Invocation<'a>> {
    let file = file_of(matches)?;
    let pages = number_of(matches, "pages", MOST_PAGES)?;
    let sectors = number_of(matches, "sectors", MOST_SECTORS)?;
    Some(Invocation::CheckStream(file, Shape { pages, sectors }))
}

/// The value of an option: one whole number from 1 to `most`.
fn number_of(matches: &ArgMatches<'_>, option: &str, most: u32) -> Option<u32>
    ensures { IfSome result (λ n. (1 ≤ n) × (n ≤ most)) }
{
    let number = matches.get_str(option)?.parse::<u32>().ok()?;
    if number == 0 || number > most {
        return None;
    }
    Some(number)
}
