//! `remus run FILE`.
ghost use Rattle.std.specs.Prelude.{◌≡◌, ℕ, ◌+◌, true, [], IfOk, IfErr};
ghost use Rattle.hypervisor.specs.Clients.{own};
ghost use Rattle.hypervisor.specs.Opening.{new_client, start_with};
ghost use Rattle.pair_run.specs.RunPrinted.{IsWritten, run_text};
ghost use Rattle.pair_threads.specs.Lines.{AreClients, clients_of};
ghost use Rattle.pair_threads.specs.Runs.{IsPlayed, IsRun, IsRunFrom, IsRunOf, IsSaid, start_of, status_of};
ghost use Rattle.pair_threads.specs.declared.file_run.Unplayed.TheVariants.{NoMemory, Later};
ghost use Rattle.pair_threads.specs.internal.Scripts.{AreScripts, HasEnded, HasEndedUntold, IsUntold};
ghost use Rattle.pair_threads.specs.internal.Shown.{IsShown, IsTold, untold_text};
ghost use Rattle.script_player.specs.Boot.{IsInLimits, boot_line};

use crate::booting::boot_pair;
use crate::both::both;
use crate::scripts::{Lists, Script, listed, room_for, scripts_of};
use crate::threads::{Ended, Members, members_of, run_members};
use hypervisor::{Found, LaterGeneration, Pair, UnnamedPair};
use memory_wanted::MemoryWanted;
use pair_run::{Answered, ClientLine, RunFile, Unread, read_run, write_run};
use script_player::sim::tell_bad_line;
use script_player::streams::{Failed, Sink};
use std::alloc::{AllocError, Global};
use std::marker::Brand;
use std::sync::Wait;
use std::thread::Threads;

/// What came of a run.
#[derive(Drop)]
struct Played {
    clients: Vec<Answered>,
    entries: u64,
    is_whole: bool,
}

/// The scripts of a file, each with its client, and the pair's other members.
#[derive(Drop)]
struct Assigned<P: Pair> {
    scripts: Vec<Script<P>>,
    members: Members<P>,
}

/// Why nothing is told of a run.
#[derive(Drop)]
enum Unplayed {
    /// There is no memory for it, or no thread can be made.
    NoMemory,
    /// A node has failed, so nothing is known of the run. Nobody in it says that one has, but no type shows it.
    Later(LaterGeneration),
}

impl From<AllocError> for Unplayed {
    ghost from_gives = { λ _ why. why ≡ NoMemory };

    fn from(_: AllocError) -> Unplayed {
        Unplayed::NoMemory
    }
}

impl From<MemoryWanted> for Unplayed {
    ghost from_gives = { λ _ why. why ≡ NoMemory };

    fn from(_: MemoryWanted) -> Unplayed {
        Unplayed::NoMemory
    }
}

impl From<LaterGeneration> for Unplayed {
    ghost from_gives = { λ later why. why ≡ Later later };

    fn from(later: LaterGeneration) -> Unplayed {
        Unplayed::Later(later)
    }
}

/// Runs the pair of the file `source` in threads, and prints on `out` what each client was answered, and on `err` a bad line. Answers the
/// exit status: 0, or 1 after a bad line, a refused boot line, a run that ended early or isn't told, or a write that failed.
pub fn run<R: Threads + Wait + Sync, O: Sink, E: Sink>(
    rt: &R,
    alloc: Global,
    source: &[u8],
    out: &mut O,
    err: &mut E,
) -> u8
    ensures { IsRun source.now (O.written out.old) (O.written out.new) (E.written err.old) (E.written err.new) result }
{
    match read_run(alloc, source) {
        Ok(file) => run_file(rt, alloc, file, out),
        Err(why) => tell(&why, out, err),
    }
}

/// Tells why a file isn't read. Answers the exit status.
fn tell<O: Sink, E: Sink>(why: &Unread, out: &mut O, err: &mut E) -> u8
    ensures { IsTold why.now (O.written out.old) (O.written out.new) (E.written err.old) (E.written err.new) result }
{
    match why {
        Unread::Bad(number) => {
            let _ = tell_bad_line(*number, err);
            1
        }
        Unread::NoMemory(_) => refuse(Unplayed::NoMemory, out),
    }
}

/// Runs what a file says, and prints what came of it. Answers the exit status.
fn run_file<R: Threads + Wait + Sync, O: Sink>(
    rt: &R,
    alloc: Global,
    file: RunFile,
    out: &mut O,
) -> u8
    requires limits { IsInLimits (boot_line file.boot) }
    requires clients { AreClients file.boot.clients (clients_of file.clients.items) }
    ensures { IsPlayed file (O.written out.old) (O.written out.new) result }
{
    match play(rt, alloc, file) {
        Ok(played) => print(&played, out),
        Err(why) => refuse(why, out),
    }
}

/// Prints what came of a run. Answers the exit status.
fn print<O: Sink>(played: &Played, out: &mut O) -> u8
    ensures { IsShown (run_text played.now.clients.items played.now.entries) played.now.is_whole (O.written out.old) (O.written out.new)
        result }
{
    match write_run(played.clients.as_slice(), played.entries, out) {
        Ok(()) => status_of(played.is_whole),
        Err(Failed) => 1,
    }
}

/// The exit status of a run that is printed.
fn status_of(is_whole: bool) -> u8
    ensures { result ≡ status_of is_whole }
{
    if is_whole { 0 } else { 1 }
}

/// Prints why nothing is told of a run. Answers the exit status.
fn refuse<O: Sink>(why: Unplayed, out: &mut O) -> u8
    ensures status { result ≡ 1 }
    ensures said { IsSaid (O.written out.old) (O.written out.new) (untold_text why) }
{
    match why {
        Unplayed::NoMemory => say(b"refused 12 NoMemory\n", out),
        Unplayed::Later(_) => say(b"refused 9 Stale\n", out),
    }
}

/// Prints this text. Answers the exit status of a run of which nothing is told.
fn say<O: Sink>(text: &[u8], out: &mut O) -> u8
    ensures status { result ≡ 1 }
    ensures said { IsSaid (O.written out.old) (O.written out.new) text.now }
{
    let _ = write_out(text, out);
    1
}

/// Writes out this text.
///
/// # Errors
///
/// Where a write fails.
fn write_out<O: Sink>(text: &[u8], out: &mut O) -> Result<(), Failed>
    ensures { IsWritten (O.written out.old) (O.written out.new) result text.now }
{
    out.put(text)?;
    out.show()
}

/// Boots the pair that a file asks for, and runs it.
///
/// # Errors
///
/// [`Unplayed::NoMemory`] where there is no memory for it, or a thread can't be made; [`Unplayed::Later`] where a node has failed.
fn play<R: Threads + Wait + Sync>(rt: &R, alloc: Global, file: RunFile) -> Result<Played, Unplayed>
    requires limits { IsInLimits (boot_line file.boot) }
    requires clients { AreClients file.boot.clients (clients_of file.clients.items) }
    ensures told { IfOk result (λ played. IsRunOf file played.clients.items played.entries played.is_whole) }
    ensures why { IfErr result (IsUntold (start_of file) file.clients.items) }
{
    let pair = boot_pair(alloc, &file.boot)?;
    play_named::<Brand, _>(rt, alloc, pair, file.epochs, file.steps, file.clients)
}

/// Names the pair, and runs it.
///
/// # Errors
///
/// [`Unplayed::NoMemory`] where there is no memory for it, or a thread can't be made; [`Unplayed::Later`] where a node has failed.
fn play_named<P: Pair + Send + Sync, R: Threads + Wait + Sync>(
    rt: &R,
    alloc: Global,
    pair: UnnamedPair,
    epochs: u64,
    steps: u64,
    lines: Vec<ClientLine>,
) -> Result<Played, Unplayed>
    requires word { pair.word ≡ P.word }
    requires start { P.start ≡ start_with pair.guest pair.clients }
    requires clients { AreClients pair.clients (clients_of lines.items) }
    ensures told { IfOk result (λ played.
        IsRunFrom P.start lines.items epochs played.clients.items played.entries played.is_whole) }
    ensures why { IfErr result (IsUntold P.start lines.items) }
{
    let lists = room_for(alloc, lines.len());
    let Some((lists, assigned)) = both(lists, assign::<P>(alloc, pair, lines)) else {
        return Err(Unplayed::NoMemory);
    };
    let Ok(ended) = run_members(rt, alloc, assigned.members, epochs, steps, assigned.scripts) else {
        return Err(Unplayed::NoMemory);
    };
    told(rt, ended, lists, epochs)
}

/// Gives each line its client.
///
/// # Errors
///
/// [`Unplayed::NoMemory`] where there is no memory for it.
fn assign<P: Pair>(
    alloc: Global,
    pair: UnnamedPair,
    lines: Vec<ClientLine>,
) -> Result<Assigned<P>, Unplayed>
    requires word { pair.word ≡ P.word }
    requires start { P.start ≡ start_with pair.guest pair.clients }
    requires clients { AreClients pair.clients (clients_of lines.items) }
    ensures scripts { IfOk result (λ assigned. AreScripts lines.items assigned.scripts.items) }
    ensures unseen { IfOk result (λ _. (c : ℕ) → own P.start (new_client c) ≡ []) }
{
    let (clients, members) = members_of::<P>(alloc, pair)?;
    let scripts = scripts_of(alloc, clients, lines)?;
    Ok(Assigned { scripts, members })
}

/// What came of a run that has ended. There is room for all of it in the lists.
///
/// # Errors
///
/// [`Unplayed::NoMemory`] where there isn't, and [`Unplayed::Later`] where a node has failed.
fn told<P: Pair, R: Wait>(
    rt: &R,
    ended: Ended<P, Script<P>>,
    lists: Lists<P>,
    epochs: u64,
) -> Result<Played, Unplayed>
    requires answered { lists.answered.items ≡ [] }
    requires clients { lists.clients.items ≡ [] }
    ensures told { IfOk result (λ played.
        HasEnded P.start ended.sessions.items epochs played.clients.items played.entries played.is_whole) }
    ensures why { IfErr result (HasEndedUntold P.start ended.sessions.items) }
{
    let Ended {
        sessions,
        warden,
        mut backup,
        is_whole,
    } = ended;
    let Ok(lists) = listed(sessions, lists) else {
        drop(backup);
        return Err(Unplayed::NoMemory);
    };
    let Lists {
        answered,
        mut clients,
    } = lists;
    // All threads have ended, so this is all that happened.
    let found = warden.look_beside(rt, &mut clients, backup.as_mut());
    drop(backup);
    let found = found?;
    Ok(Played {
        clients: answered,
        entries: found.entries,
        is_whole: is_whole_by(found, is_whole, epochs),
    })
}

/// Whether all these epochs were sealed, and each is committed and acknowledged, in a run that nothing ended early.
fn is_whole_by(found: Found, is_whole: bool, epochs: u64) -> bool
    ensures { result ≡ true → (found.generation ≡ 1) × (found.next ≡ epochs + 1) × (found.pending ≡ 0) }
{
    is_whole
        && found.generation == 1
        && found.next > 0
        && found.next - 1 == epochs
        && found.pending == 0
}
