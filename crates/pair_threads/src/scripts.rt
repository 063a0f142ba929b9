//! What the clients of a file do.
ghost use Rattle.std.specs.Prelude.{◌≡◌, ◌≤◌, ◌-◌, [], ◌∷◌, ◌++◌, IfOk, OnOk, None, Some, length, map, set, vec_capacity};
ghost use Rattle.hypervisor.specs.Opening.{new_client};
ghost use Rattle.pair_run.specs.declared.run_file.Action.TheVariants.{Deliver, Take};
ghost use Rattle.pair_threads.specs.Lines.{clients_of};
ghost use Rattle.pair_threads.specs.Seats.{AreSeated, sits};
ghost use Rattle.pair_threads.specs.Told.{HasMade};
ghost use Rattle.pair_threads.specs.internal.Scripts.{AddsScript, AreScripts, Tells, answered_of, client_of};

use crate::sessions::Session;
use hypervisor::{Client, Pair};
use memory_wanted::{MemoryWanted, boxed, push, with_capacity};
use pair_history::Frame;
use pair_record::{Refusal, Reply, TakenFrame};
use pair_run::{Action, Answered, ClientLine};
use std::alloc::Global;
use std::marker::Model;
use std::sync::Wait;

/// A client, its line, and what it was answered so far. Contracts see it as a `ScriptState` of the specs.
#[derive(Drop)]
pub(crate) struct Script<P: Pair> {
    alloc: Global,
    client: Client<P>,
    line: ClientLine,
    replies: Vec<Reply>,
}

impl<P: Pair> Model for Script<P> {
    ghost use Rattle.pair_threads.specs.internal.Scripts.{ScriptState, script_state};

    ghost Value = { ScriptState };

    ghost view = { λ s. script_state s.client s.line s.replies };
}

impl<P: Pair + Send + Sync> Session for Script<P> {
    ghost use Rattle.pair_threads.specs.internal.Scripts.{HasPlayed};

    ghost served = { HasPlayed P.start };

    /// Makes the line's actions in their order.
    fn serve<R: Wait>(&mut self, rt: &R) -> bool {
        let Script {
            alloc,
            client,
            line,
            replies,
        } = self;
        play(rt, *alloc, client, line.actions.as_slice(), replies)
    }
}

/// The client makes these actions, one after another, and keeps what it is answered. Answers whether there was room for all answers.
fn play<P: Pair, R: Wait>(
    rt: &R,
    alloc: Global,
    client: &mut Client<P>,
    actions: &[Action],
    replies: &mut Vec<Reply>,
) -> bool
    ensures { replies.old.items ≡ [] → length actions.now ≤ vec_capacity replies.old
        → HasMade P.start actions.now replies.new.items client.old client.new }
{
    for action in actions {
        let reply = act(rt, alloc, client, action);
        let Ok(()) = push(replies, reply) else {
            return false;
        };
    }
    true
}

/// Makes one action. Answers what it was answered.
fn act<P: Pair, R: Wait>(rt: &R, alloc: Global, client: &mut Client<P>, action: &Action) -> Reply
    ensures { Tells P.start action.now result client.old client.new }
{
    match action {
        Action::Take => take(rt, alloc, client),
        Action::Deliver(bytes) => deliver(rt, client, bytes),
    }
}

/// Takes a frame, into a place that is had first.
fn take<P: Pair, R: Wait>(rt: &R, alloc: Global, client: &mut Client<P>) -> Reply
    ensures { Tells P.start Take result client.old client.new }
{
    let mut place = match boxed(alloc, Frame::new()) {
        Ok(place) => place,
        Err(wanted) => return Reply::Refused(Refusal::NoMemory(wanted)),
    };
    match client.take_into(rt, &mut *place) {
        Ok(is_some) => Reply::Took(TakenFrame::given(is_some, place)),
        Err(why) => Reply::Refused(why),
    }
}

/// Delivers these bytes.
fn deliver<P: Pair, R: Wait>(rt: &R, client: &mut Client<P>, bytes: &Vec<u8>) -> Reply
    ensures { Tells P.start (Deliver bytes.now) result client.old client.new }
{
    match client.deliver(rt, bytes.as_slice()) {
        Ok(number) => Reply::Delivered(number),
        Err(why) => Reply::Refused(why),
    }
}

/// Each client at its place, client 1 at the first.
///
/// # Errors
///
/// [`MemoryWanted`] where the room for the places can't be had.
fn seats_of<P: Pair>(
    alloc: Global,
    clients: Vec<Client<P>>,
) -> Result<Vec<Option<Client<P>>>, MemoryWanted>
    ensures { IfOk result (λ seats. seats.items ≡ map Some clients.items) }
{
    let mut seats = with_capacity(alloc, clients.len())?;
    for client in clients {
        push(&mut seats, Some(client))?;
    }
    Ok(seats)
}

/// Takes this client from its place.
fn take_client<P: Pair>(seats: &mut Vec<Option<Client<P>>>, number: u64) -> Client<P>
    requires one { 1 ≤ number }
    requires sits { sits seats.old.items number }
    ensures client { result ≡ new_client number }
    ensures seats { seats.new.items ≡ set seats.old.items (number - 1) None }
{
    let at = (number - 1) as usize;
    let Some(client) = seats[at].take() else {
        unreachable!();
    };
    client
}

/// The script of this line, with room for all answers, goes last into the list. Its client leaves its place.
///
/// # Errors
///
/// [`MemoryWanted`] where that room can't be had.
fn add_script<P: Pair>(
    alloc: Global,
    seats: &mut Vec<Option<Client<P>>>,
    scripts: &mut Vec<Script<P>>,
    line: ClientLine,
) -> Result<(), MemoryWanted>
    requires one { 1 ≤ line.client }
    requires sits { sits seats.old.items line.client }
    ensures seats { OnOk result (seats.new.items ≡ set seats.old.items (line.client - 1) None) }
    ensures added { OnOk result (AddsScript line scripts.old.items scripts.new.items) }
{
    let replies = with_capacity(alloc, line.actions.len())?;
    let client = take_client(seats, line.client);
    let script = Script {
        alloc,
        client,
        line,
        replies,
    };
    push(scripts, script)?;
    Ok(())
}

/// The scripts of these lines, in their order, with room for all answers.
///
/// # Errors
///
/// [`MemoryWanted`] where that room can't be had.
pub(crate) fn scripts_of<P: Pair>(
    alloc: Global,
    clients: Vec<Client<P>>,
    lines: Vec<ClientLine>,
) -> Result<Vec<Script<P>>, MemoryWanted>
    requires { AreSeated (map Some clients.items) (clients_of lines.items) }
    ensures { IfOk result (λ scripts. AreScripts lines.items scripts.items) }
{
    let mut scripts = with_capacity(alloc, lines.len())?;
    let mut seats = seats_of(alloc, clients)?;
    for line in lines {
        add_script(alloc, &mut seats, &mut scripts, line)?;
    }
    Ok(scripts)
}

/// What is told of scripts that have ended, in their order: what each was answered, and its client.
#[derive(Drop)]
pub(crate) struct Lists<P: Pair> {
    pub(crate) answered: Vec<Answered>,
    pub(crate) clients: Vec<Client<P>>,
}

/// Room for so many.
///
/// # Errors
///
/// [`MemoryWanted`] where it can't be had.
pub(crate) fn room_for<P: Pair>(alloc: Global, count: usize) -> Result<Lists<P>, MemoryWanted>
    ensures answered { IfOk result (λ lists. lists.answered.items ≡ []) }
    ensures clients { IfOk result (λ lists. lists.clients.items ≡ []) }
{
    let answered = with_capacity(alloc, count)?;
    let clients = with_capacity(alloc, count)?;
    Ok(Lists { answered, clients })
}

/// Puts what is told of these into the lists, where there is room for it.
///
/// # Errors
///
/// [`MemoryWanted`] where there isn't.
pub(crate) fn listed<P: Pair>(
    scripts: Vec<Script<P>>,
    mut lists: Lists<P>,
) -> Result<Lists<P>, MemoryWanted>
    requires answered { lists.answered.items ≡ [] }
    requires clients { lists.clients.items ≡ [] }
    ensures answered { IfOk result (λ lists. lists.answered.items ≡ map answered_of scripts.items) }
    ensures clients { IfOk result (λ lists. lists.clients.items ≡ map client_of scripts.items) }
{
    for script in scripts {
        list(script, &mut lists)?;
    }
    Ok(lists)
}

/// Puts what is told of this one last into the lists.
///
/// # Errors
///
/// [`MemoryWanted`] where there is no room for it.
fn list<P: Pair>(script: Script<P>, lists: &mut Lists<P>) -> Result<(), MemoryWanted>
    ensures answered { OnOk result (lists.new.answered.items ≡ lists.old.answered.items ++ answered_of script ∷ []) }
    ensures clients { OnOk result (lists.new.clients.items ≡ lists.old.clients.items ++ client_of script ∷ []) }
{
    let Script {
        alloc: _,
        client,
        line,
        replies,
    } = script;
    push(&mut lists.clients, client)?;
    push(
        &mut lists.answered,
        Answered {
            client: line.client,
            replies,
        },
    )?;
    Ok(())
}
