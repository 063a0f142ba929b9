//! A pair whose members are called by hand, row by row: what a row says is called, and what it answers is compared. Each row has a small
//! function of its own, and a test is a table of rows: a test that makes all these calls itself is slow to prove.
ghost use Rattle.std.specs.Prelude.{◌≡◌};
ghost use Rattle.hypervisor.specs.Opening.{start_with};

use super::asserts::{holds, is_ack, is_number, is_refusal, same};
use guest_machine::Unpaced;
use hypervisor::{
    Ack, Backup, Client, Frame, LandedCount, Loss, Lost, Node, Pair, Parts, Refusal, Runner,
    Sender, TextPacket, UnnamedPair, Warden,
};
use std::alloc::Global;
use std::process::Abort;
use std::sync::Wait;

/// The frame that the beacon sends to client 1.
pub(super) const FRAME: [u8; 14] = [2, 0, 0, 0, 1, 1, 2, 0, 0, 0, 0, 1, 0x88, 0xb5];

/// A frame from client 1 to the guest. An echo of it is the beacon's frame.
pub(super) const TO_GUEST: [u8; 14] = [2, 0, 0, 0, 0, 1, 2, 0, 0, 0, 1, 1, 0x88, 0xb5];

/// A call, and what it answers. Runners, backups and packets are named by their places, in the order in which they came; a packet's
/// checkpoint and what acknowledges it by generation and number.
pub(super) enum Row {
    /// This runner runs so many steps.
    Runs(usize, u64),
    /// This runner runs so many steps, asks, prepares and submits, and is handed no frame.
    Epoch(usize, u64),
    /// The same, but it is handed so many frames.
    Hands(usize, u64, usize),
    /// The sender gives the packet of this generation and number, which is kept.
    Next(u64, u64),
    /// This backup reads this packet, and answers so to its commit.
    Commit(usize, usize, Result<(u64, u64), Refusal>),
    /// The sender hands in the acknowledgement of this generation and number, and is answered how many frames land, or why not.
    Acked(u64, u64, Result<u64, Refusal>),
    /// Client 1 delivers a frame of these bytes, which gets this number.
    Delivers([u8; 14], u64),
    /// Client 1 takes the beacon's frame.
    Takes,
    /// Client 1 finds its box empty.
    TakesNone,
    /// The line drops the frame at this place of client 1's inbox.
    LosesIn(u64),
    /// The line drops the frame at this place of client 1's box.
    LosesOut(u64),
    /// The history has so many entries.
    Entries(u64),
    /// This node fails, and so many frames land.
    Fails(Node, u64),
    /// There is a new backup.
    Protects,
    /// This backup goes live: there is a new runner.
    GoesLive(usize),
    /// This backup doesn't, and keeps what it has read.
    StaysBackup(usize, Refusal),
}

/// The members of a pair, and what came of the calls so far.
#[derive(Drop)]
pub(super) struct Hand<P: Pair> {
    pub(super) clients: Vec<Client<P>>,
    runners: Vec<Runner<P>>,
    sender: Sender<P>,
    backups: Vec<Option<Backup<P>>>,
    warden: Warden<P>,
    loss: Loss<P>,
    packets: Vec<TextPacket>,
}

/// A list of this alone.
pub(super) fn list_of<T: Drop>(rt: &impl Abort, alloc: Global, first: T) -> Vec<T> {
    let mut list = Vec::new(alloc);
    list.push(first).expect(rt, "memory");
    list
}

/// The members of a pair, in one hand.
fn hand_of<P: Pair>(rt: &impl Abort, alloc: Global, parts: Parts<P>) -> Hand<P> {
    Hand {
        clients: parts.clients,
        runners: list_of(rt, alloc, parts.runner),
        sender: parts.sender,
        backups: list_of(rt, alloc, Some(parts.backup)),
        warden: parts.warden,
        loss: parts.loss,
        packets: Vec::new(alloc),
    }
}

/// The members of a pair at its start, in a box: a function that holds them by value is slow to prove.
pub(super) fn at_start<P: Pair, R: Abort>(rt: &R, alloc: Global, pair: UnnamedPair) -> Box<Hand<P>>
    requires { (pair.word ≡ P.word) × (P.start ≡ start_with pair.guest pair.clients) }
{
    let parts = pair.named::<P>().expect(rt, "memory");
    Box::new(alloc, hand_of(rt, alloc, parts)).expect(rt, "memory")
}

/// Plays these rows.
pub(super) fn play<P: Pair, R: Wait + Abort>(rt: &R, hand: &mut Hand<P>, rows: &[Row]) {
    for row in rows {
        play_row(rt, hand, row);
    }
}

fn play_row<P: Pair, R: Wait + Abort>(rt: &R, hand: &mut Hand<P>, row: &Row) {
    match row {
        Row::Runs(at, steps) => runs(rt, hand, *at, *steps),
        Row::Epoch(at, steps) => runs_epoch(rt, hand, *at, *steps, 0),
        Row::Hands(at, steps, handed) => runs_epoch(rt, hand, *at, *steps, *handed),
        Row::Next(generation, number) => gives_next(rt, hand, (*generation, *number)),
        Row::Commit(at, packet, wanted) => commits(rt, hand, *at, *packet, wanted),
        Row::Acked(generation, number, wanted) => {
            is_acked(rt, hand, (*generation, *number), wanted);
        }
        Row::Delivers(bytes, number) => delivers(rt, hand, bytes, *number),
        Row::Takes => takes(rt, hand),
        Row::TakesNone => finds_none(rt, client(rt, hand)),
        Row::LosesIn(place) => loses_in(rt, hand, *place),
        Row::LosesOut(place) => loses_out(rt, hand, *place),
        Row::Entries(count) => has_entries(rt, hand, *count),
        Row::Fails(node, landed) => fails(rt, hand, *node, *landed),
        Row::Protects => protects(rt, hand),
        Row::GoesLive(at) => goes_live(rt, hand, *at),
        Row::StaysBackup(at, why) => stays_backup(rt, hand, *at, why),
    }
}

/// The runner at this place.
fn runner<'a, P: Pair>(rt: &impl Abort, hand: &'a mut Hand<P>, at: usize) -> &'a mut Runner<P> {
    hand.runners.get_mut(at).expect(rt, "a runner")
}

/// Takes the last runner, into a box.
pub(super) fn take_runner<P: Pair>(
    rt: &impl Abort,
    alloc: Global,
    hand: &mut Hand<P>,
) -> Box<Runner<P>> {
    let runner = hand.runners.pop().expect(rt, "a runner");
    Box::new(alloc, runner).expect(rt, "memory")
}

/// What the runner at this place holds arrives, and its guest makes so many steps.
pub(super) fn runs<P: Pair>(rt: &impl Abort, hand: &mut Hand<P>, at: usize, steps: u64) {
    let made = runner(rt, hand, at).run(steps, &mut Unpaced);
    same(rt, "steps", made, steps);
}

/// What is wanted is asked for, prepared and submitted. Answers how many frames are handed out.
fn cut<P: Pair, R: Wait + Abort>(rt: &R, runner: &mut Runner<P>) -> usize {
    let want = runner.ask(rt).expect(rt, "what is wanted");
    runner.prepare(want).expect(rt, "memory");
    runner.submit(rt).expect(rt, "a submit")
}

/// The runner at this place ends its epoch so. Answers how many frames are handed out.
pub(super) fn cuts<P: Pair, R: Wait + Abort>(rt: &R, hand: &mut Hand<P>, at: usize) -> usize {
    cut(rt, runner(rt, hand, at))
}

/// An epoch of so many steps, which is submitted, and hands out so many frames.
fn runs_epoch<P: Pair, R: Wait + Abort>(
    rt: &R,
    hand: &mut Hand<P>,
    at: usize,
    steps: u64,
    handed: usize,
) {
    runs(rt, hand, at, steps);
    same(
        rt,
        "frames handed out",
        cuts(rt, hand, at) as u64,
        handed as u64,
    );
}

/// The answer is that the runner isn't live.
fn is_refused<T: Drop>(rt: &impl Abort, answer: Result<T, Refusal>) {
    holds(rt, "it is stopped", answer.err() == Some(Refusal::Stopped));
}

/// The runner is told that it isn't live.
pub(super) fn is_stopped<P: Pair, R: Wait + Abort>(rt: &R, runner: &mut Runner<P>) {
    is_refused(rt, runner.submit(rt));
    is_refused(rt, runner.ask(rt));
}

/// The next packet.
fn next_packet<P: Pair, R: Wait + Abort>(rt: &R, sender: &mut Sender<P>) -> TextPacket {
    sender
        .next(rt)
        .expect(rt, "an answer")
        .expect(rt, "a packet")
}

fn gives_next<P: Pair, R: Wait + Abort>(rt: &R, hand: &mut Hand<P>, wanted: (u64, u64)) {
    let packet = next_packet(rt, &mut hand.sender);
    same(rt, "the generation", packet.generation(), wanted.0);
    same(rt, "the number", packet.number(), wanted.1);
    hand.packets.push(packet).expect(rt, "memory");
}

/// The backup at this place.
fn backup<'a, P: Pair>(
    rt: &impl Abort,
    backups: &'a mut Vec<Option<Backup<P>>>,
    at: usize,
) -> &'a mut Backup<P> {
    let Some(Some(backup)) = backups.get_mut(at) else {
        panic!(rt; "no backup");
    };
    backup
}

/// The backup reads all of this packet, or nothing where it has read it.
fn reads<P: Pair>(rt: &impl Abort, backup: &mut Backup<P>, packet: &TextPacket) {
    let bytes = packet.bytes();
    let count = backup.feed(bytes).expect(rt, "no refusal");
    holds(rt, "all or nothing", count == bytes.len() || count == 0);
}

/// What the backup answers to its commit.
fn committed<P: Pair, R: Wait>(rt: &R, backup: &mut Backup<P>) -> Result<(u64, u64), Refusal> {
    let ack = backup.commit(rt)?;
    Ok((ack.generation, ack.number))
}

/// The backup reads this packet, and commits.
fn commit<P: Pair, R: Wait + Abort>(
    rt: &R,
    backup: &mut Backup<P>,
    packet: &TextPacket,
    wanted: &Result<(u64, u64), Refusal>,
) {
    reads(rt, backup, packet);
    is_ack(rt, &committed(rt, backup), wanted);
}

fn commits<P: Pair, R: Wait + Abort>(
    rt: &R,
    hand: &mut Hand<P>,
    at: usize,
    packet: usize,
    wanted: &Result<(u64, u64), Refusal>,
) {
    let packet = hand.packets.get(packet).expect(rt, "a packet");
    commit(rt, backup(rt, &mut hand.backups, at), packet, wanted);
}

/// How many frames land with the acknowledgement of this generation and number, or why it is refused.
fn landed<P: Pair, R: Wait>(
    rt: &R,
    sender: &mut Sender<P>,
    (generation, number): (u64, u64),
) -> Result<u64, Refusal> {
    let landed = sender.acked(rt, Ack { generation, number })?;
    Ok(landed.count)
}

fn is_acked<P: Pair, R: Wait + Abort>(
    rt: &R,
    hand: &mut Hand<P>,
    named: (u64, u64),
    wanted: &Result<u64, Refusal>,
) {
    is_number(rt, &landed(rt, &mut hand.sender, named), wanted);
}

/// The first backup reads this packet, and commits this number of generation 1.
fn commit_first<P: Pair, R: Wait + Abort>(
    rt: &R,
    backups: &mut Vec<Option<Backup<P>>>,
    packet: &TextPacket,
    number: u64,
) {
    commit(rt, backup(rt, backups, 0), packet, &Ok((1, number)));
}

/// The next packet comes to the first backup, which acknowledges this number of generation 1. Answers how many frames land.
pub(super) fn pass<P: Pair, R: Wait + Abort>(rt: &R, hand: &mut Hand<P>, number: u64) -> u64 {
    let packet = next_packet(rt, &mut hand.sender);
    commit_first(rt, &mut hand.backups, &packet, number);
    landed(rt, &mut hand.sender, (1, number)).expect(rt, "an answer")
}

/// Client 1.
fn client<'a, P: Pair>(rt: &impl Abort, hand: &'a mut Hand<P>) -> &'a mut Client<P> {
    hand.clients.get_mut(0).expect(rt, "a client")
}

/// Takes the last client.
pub(super) fn take_client<P: Pair>(rt: &impl Abort, hand: &mut Hand<P>) -> Client<P> {
    hand.clients.pop().expect(rt, "a client")
}

fn delivers<P: Pair, R: Wait + Abort>(rt: &R, hand: &mut Hand<P>, bytes: &[u8], number: u64) {
    let delivered = client(rt, hand).deliver(rt, bytes);
    is_number(rt, &delivered, &Ok(number));
}

/// What the client takes.
fn taken<P: Pair, R: Wait + Abort>(rt: &R, client: &mut Client<P>) -> Frame {
    client
        .take(rt)
        .expect(rt, "an answer")
        .expect(rt, "a frame")
}

fn takes<P: Pair, R: Wait + Abort>(rt: &R, hand: &mut Hand<P>) {
    let frame = taken(rt, client(rt, hand));
    holds(
        rt,
        "the beacon's frame",
        frame.as_slice() == FRAME.as_slice(),
    );
}

/// The client finds its box empty.
pub(super) fn finds_none<P: Pair, R: Wait + Abort>(rt: &R, client: &mut Client<P>) {
    let taken = client.take(rt);
    holds(rt, "an empty box", matches!(taken, Ok(None)));
}

fn loses_in<P: Pair, R: Wait + Abort>(rt: &R, hand: &mut Hand<P>, place: u64) {
    let lost = hand.loss.lose_in(rt, 1, place);
    holds(rt, "a frame is lost", lost == Ok(Lost::Dropped));
}

fn loses_out<P: Pair, R: Wait + Abort>(rt: &R, hand: &mut Hand<P>, place: u64) {
    let lost = hand.loss.lose_out(rt, 1, place);
    holds(rt, "a frame is lost", lost == Ok(Lost::Dropped));
}

/// The history has so many entries.
pub(super) fn has_entries<P: Pair, R: Wait + Abort>(rt: &R, hand: &mut Hand<P>, count: u64) {
    let found = hand.warden.look(rt, &mut hand.clients);
    same(rt, "entries", found.entries, count);
}

/// This node fails, and so many frames land.
pub(super) fn fails<P: Pair, R: Wait + Abort>(rt: &R, hand: &mut Hand<P>, node: Node, count: u64) {
    let landed = hand.warden.fail(rt, node);
    holds(rt, "frames land", landed == Ok(LandedCount { count }));
}

fn protects<P: Pair, R: Wait + Abort>(rt: &R, hand: &mut Hand<P>) {
    let backup = hand.warden.protect(rt).expect(rt, "a new backup");
    hand.backups.push(Some(backup)).expect(rt, "memory");
}

/// Takes the backup at this place.
fn take_backup<P: Pair>(rt: &impl Abort, hand: &mut Hand<P>, at: usize) -> Backup<P> {
    let Some(place) = hand.backups.get_mut(at) else {
        panic!(rt; "no such place");
    };
    place.take().expect(rt, "a backup")
}

/// This backup goes live: there is a new runner.
pub(super) fn goes_live<P: Pair, R: Wait + Abort>(rt: &R, hand: &mut Hand<P>, at: usize) {
    let backup = take_backup(rt, hand, at);
    let came = hand.warden.go_live(rt, backup).ok();
    let runner = came.expect(rt, "the backup goes live");
    hand.runners.push(runner).expect(rt, "memory");
}

/// The backup, which is kept, has what it has read.
fn keeps<P: Pair>(rt: &impl Abort, hand: &mut Hand<P>, backup: Backup<P>) {
    holds(rt, "what it has read", backup.read().is_some());
    hand.backups.push(Some(backup)).expect(rt, "memory");
}

fn stays_backup<P: Pair, R: Wait + Abort>(rt: &R, hand: &mut Hand<P>, at: usize, wanted: &Refusal) {
    let backup = take_backup(rt, hand, at);
    let came = hand.warden.go_live(rt, backup).err();
    let (back, why) = came.expect(rt, "the backup doesn't go live");
    is_refusal(rt, &why, wanted);
    keeps(rt, hand, back);
}
