//! A pair at its start: its members, with what they share.
ghost use Rattle.std.specs.Prelude.{◌≡◌, ◌≤◌, ◌<◌, ◌+◌, ◌*◌, [], IfOk, Ok, length};
ghost use Rattle.frame_ports.specs.Limits.{max_clients};
ghost use Rattle.growing_history.specs.LogState.{first_runner, first_backup, line_seat, client_seat};
ghost use Rattle.pair_book.specs.Books.{start_book};
ghost use Rattle.backup_image.specs.Images.{settled_machine};
ghost use Rattle.guest_rules.specs.Guest.{boot_guest};
ghost use Rattle.guest_rules.specs.Limits.{page_bytes};
ghost use Rattle.pair_book.specs.Calls.{client_of};
ghost use Rattle.pair_book.specs.Made.{IsShape};
ghost use Rattle.pair_book.specs.Opening.{IsBoot};
ghost use Rattle.pair_history.specs.Reached.{IsReached};
ghost use Rattle.hypervisor.specs.Backups.{new_backup};
ghost use Rattle.hypervisor.specs.Opening.{new_client, new_clients, AreNew, IsStarted, start_with, first_image, unseen};
ghost use Rattle.hypervisor.specs.Runners.{new_runner};

use crate::backup::Backup;
use crate::callers::CallerSeat;
use crate::clients::Client;
use crate::losses::Loss;
use crate::runner::Runner;
use crate::sender::Sender;
use crate::shared::Shared;
use crate::warden::Warden;
use backup_image::Image;
use growing_history::{BackupSeat, Clock, Pair, RunnerSeat, steps_go_on};
use guest_machine::{Machine, Shape};
use pair_book::{LineSeat, Members, NewBook, UnnamedBook, members_begin};
use pair_history::reached_states;
use std::alloc::{AllocError, Global};
use std::marker::Model;
use std::sync::Arc;

/// A pair that has no name yet, with its guest at boot on both nodes. Contracts see its word, how many clients it has, and the guest.
#[derive(Drop)]
pub struct UnnamedPair {
    alloc: Global,
    book: UnnamedBook,
    machine: Machine,
    image: Image,
    clients: u64,
}

impl Model for UnnamedPair {
    ghost use Rattle.hypervisor.specs.Opening.{UnnamedState, unnamed_state, IsUnnamed};

    ghost Value = { UnnamedState };

    ghost view = { λ p. unnamed_state p.book p.image };

    ghost invariant = { λ p. IsUnnamed p.clients p.book p.machine p.image };
}

/// The members of a pair: its clients, client 1 first, and the others, each once.
#[derive(Drop)]
pub struct Parts<P: Pair> {
    pub clients: Vec<Client<P>>,
    pub runner: Runner<P>,
    pub sender: Sender<P>,
    pub backup: Backup<P>,
    pub warden: Warden<P>,
    pub loss: Loss<P>,
}

/// A handle of what all members share for each of those that aren't clients.
#[derive(Drop)]
struct Handles<P: Pair> {
    runner: Arc<Shared<P>>,
    sender: Arc<Shared<P>>,
    backup: Arc<Shared<P>>,
    warden: Arc<Shared<P>>,
    loss: Arc<Shared<P>>,
}

/// What is opened of a pair's book: the clients, and for the others their handles and seats.
#[derive(Drop)]
struct Opened<P: Pair> {
    clients: Vec<Client<P>>,
    handles: Handles<P>,
    runner: RunnerSeat<P>,
    backup: BackupSeat<P>,
    line: LineSeat<P>,
}

/// Both of these, where neither was refused. One that is there alone is let go of here, where its type is a parameter: at each `?` beside
/// a large value, as a machine, the proof would go over every part of it.
fn both<A: Drop, B: Drop>(
    one: Result<A, AllocError>,
    other: Result<B, AllocError>,
) -> Result<(A, B), AllocError>
    ensures { IfOk result (λ r. (one ≡ Ok r.0) × (other ≡ Ok r.1)) }
{
    let one = one?;
    let other = other?;
    Ok((one, other))
}

/// The machine of the guest at boot.
fn boot_machine(alloc: Global, shape: Shape, image: &[u8]) -> Result<Machine, AllocError>
    requires { length image.now ≤ page_bytes * shape.pages }
    ensures { IfOk result (λ m. m ≡ settled_machine shape (boot_guest shape.pages shape.sectors image.now)) }
{
    match Machine::boot(alloc, shape, image) {
        Ok(machine) => Ok(machine),
        Err(_) => Err(AllocError),
    }
}

/// The backup's image of the guest at boot.
fn boot_image(alloc: Global, shape: Shape, image: &[u8]) -> Result<Image, AllocError>
    requires { length image.now ≤ page_bytes * shape.pages }
    ensures { IfOk result (λ i. i ≡ first_image shape (boot_guest shape.pages shape.sectors image.now)) }
{
    match Image::boot(alloc, shape, image) {
        Ok(image) => Ok(image),
        Err(_) => Err(AllocError),
    }
}

/// Gives out the clients' seats, client 1's first.
fn client_seats<P: Pair>(
    alloc: Global,
    clock: &Clock<P>,
    book: &mut NewBook<P>,
    clients: u64,
) -> Result<Vec<CallerSeat<P>>, AllocError>
    requires start { book.old ≡ start_book clients line_seat }
    ensures seats { IfOk result (λ seats. seats.items ≡ new_clients clients) }
    // No client's seat was given out otherwise, and nothing else happened.
    ensures started { book.new ≡ start_book clients book.new.enrolled }
{
    let mut seats = Vec::with_capacity(alloc, clients as usize)?;
    for _ in 0..clients {
        seats.push(next_seat(clock, book))?;
    }
    Ok(seats)
}

/// Gives out the seat of the next client. There is one that has none yet, as the caller knows.
fn next_seat<P: Pair>(clock: &Clock<P>, book: &mut NewBook<P>) -> CallerSeat<P>
    requires first { book.old.steps ≡ [] }
    requires more { book.old.enrolled < client_seat (length book.old.ports.boxes) }
    ensures seat { result ≡ new_client (client_of (book.old.enrolled + 1)) }
    ensures book { book.new ≡ record book.old { enrolled = book.old.enrolled + 1 } }
{
    let Some(seat) = book.next_client(clock) else {
        unreachable!();
    };
    CallerSeat::of(seat)
}

/// Gives each of these seats to a client.
fn seated<P: Pair>(
    alloc: Global,
    shared: &Arc<Shared<P>>,
    seats: Vec<CallerSeat<P>>,
) -> Result<Vec<Client<P>>, AllocError>
    ensures { IfOk result (λ clients. clients.items ≡ seats.items) }
{
    let mut clients = Vec::with_capacity(alloc, seats.len())?;
    for seat in seats {
        clients.push(Client::at(Arc::try_clone(shared)?, seat))?;
    }
    Ok(clients)
}

/// Gives each member that isn't a client its handle.
fn handles_of<P: Pair>(shared: Arc<Shared<P>>) -> Result<Handles<P>, AllocError> {
    let one = both(Arc::try_clone(&shared), Arc::try_clone(&shared));
    let other = both(Arc::try_clone(&shared), Arc::try_clone(&shared));
    let ((runner, sender), (backup, warden)) = both(one, other)?;
    Ok(Handles {
        runner,
        sender,
        backup,
        warden,
        loss: shared,
    })
}

/// Gives out the clients' seats, and then shares the book with these clients and with the others.
fn share<P: Pair>(
    alloc: Global,
    clock: Clock<P>,
    mut book: NewBook<P>,
    clients: u64,
) -> Result<(Vec<Client<P>>, Handles<P>), AllocError>
    requires start { book ≡ start_book clients line_seat }
    requires reached { IsReached P.start }
    ensures { IfOk result (λ r. r.0.items ≡ new_clients clients) }
{
    let seats = client_seats(alloc, &clock, &mut book, clients);
    let (seats, shared) = both(seats, shared_book(alloc, clock, book))?;
    let clients = seated(alloc, &shared, seats);
    both(clients, handles_of(shared))
}

/// Opens the book, which all members share from here on.
fn shared_book<P: Pair>(
    alloc: Global,
    clock: Clock<P>,
    book: NewBook<P>,
) -> Result<Arc<Shared<P>>, AllocError>
    requires reached { IsReached P.start }
    requires started { IsStarted book }
{
    let book = book.open(&clock);
    let shared = Arc::new(alloc, Shared::new(clock, book))?;
    Ok(shared)
}

/// Opens the book, and gives out its seats.
fn open_book<P: Pair>(
    alloc: Global,
    book: UnnamedBook,
    clients: u64,
) -> Result<Opened<P>, AllocError>
    requires word { book.word ≡ P.word }
    requires start { IsBoot P.start book.clients }
    requires reached { IsReached P.start }
    requires count { clients ≡ book.clients }
    ensures clients { IfOk result (λ o. AreNew P.start book.clients o.clients.items) }
    ensures runner { IfOk result (λ o. o.runner ≡ unseen first_runner) }
    ensures backup { IfOk result (λ o. o.backup ≡ unseen first_backup) }
    ensures line { IfOk result (λ o. o.line ≡ unseen line_seat) }
{
    steps_go_on();
    let Members {
        clock,
        book,
        runner,
        backup,
        line,
    } = book.named::<P>();
    let (clients, handles) = share(alloc, clock, book, clients)?;
    Ok(Opened {
        clients,
        handles,
        runner,
        backup,
        line,
    })
}

/// The runner of the guest where the history starts.
fn first_runner<P: Pair>(
    alloc: Global,
    shared: Arc<Shared<P>>,
    machine: Machine,
    seat: RunnerSeat<P>,
) -> Runner<P>
    requires seat { seat ≡ unseen first_runner }
    requires guest { machine.guest ≡ P.start.guest }
    requires outbox { machine.outbox ≡ [] }
    requires settled { machine.settled ≡ machine.guest.ram }
    ensures { result ≡ new_runner machine seat }
{
    members_begin();
    Runner::new(alloc, shared, machine, seat)
}

/// The backup whose image is the guest where the history starts.
fn first_backup<P: Pair>(
    alloc: Global,
    shared: Arc<Shared<P>>,
    image: Image,
    seat: BackupSeat<P>,
) -> Backup<P>
    requires seat { seat ≡ unseen first_backup }
    requires image { image ≡ first_image image.shape P.start.guest }
    requires shape { IsShape P.start image.shape }
    ensures { result ≡ new_backup image seat }
{
    members_begin();
    Backup::new(alloc, shared, image, seat)
}

/// The members of a pair of which nothing has happened yet: the runner of this machine, and the backup of this image.
fn members<P: Pair>(
    alloc: Global,
    opened: Opened<P>,
    machine: Machine,
    image: Image,
    shape: Shape,
) -> Parts<P>
    requires runner { opened.runner ≡ unseen first_runner }
    requires backup { opened.backup ≡ unseen first_backup }
    requires line { opened.line ≡ unseen line_seat }
    requires guest { machine ≡ settled_machine image.shape P.start.guest }
    requires image { image ≡ first_image image.shape P.start.guest }
    requires shape { shape ≡ image.shape }
    requires sized { IsShape P.start image.shape }
    ensures clients { result.clients.items ≡ opened.clients.items }
    ensures loss { result.loss ≡ [] }
    ensures runner { result.runner ≡ new_runner machine (unseen first_runner) }
    ensures backup { result.backup ≡ new_backup image (unseen first_backup) }
    ensures warden { result.warden ≡ shape }
{
    let Opened {
        clients,
        handles,
        runner,
        backup,
        line,
    } = opened;
    Parts {
        clients,
        runner: first_runner(alloc, handles.runner, machine, runner),
        sender: Sender::of(handles.sender),
        backup: first_backup(alloc, handles.backup, image, backup),
        warden: Warden::of(alloc, handles.warden, shape),
        loss: Loss::of(handles.loss, line),
    }
}

impl UnnamedPair {
    /// A pair of so many clients, with a guest of this shape at boot: the image's bytes stand at the start of its memory. They fit in it, as
    /// the caller knows.
    ///
    /// # Errors
    ///
    /// [`AllocError`] if the memory for its book, for the machine or for the backup's image can't be had.
    pub fn new(
        alloc: Global,
        shape: Shape,
        clients: u64,
        image: &[u8],
    ) -> Result<UnnamedPair, AllocError>
        requires some { 1 ≤ clients }
        requires few { clients ≤ max_clients }
        requires fits { length image.now ≤ page_bytes * shape.pages }
        ensures clients { IfOk result (λ p. p.clients ≡ clients) }
        ensures shape { IfOk result (λ p. p.shape ≡ shape) }
        ensures guest { IfOk result (λ p. p.guest ≡ boot_guest shape.pages shape.sectors image.now) }
    {
        let book = UnnamedBook::new(alloc, clients);
        let machine = boot_machine(alloc, shape, image);
        let image = boot_image(alloc, shape, image);
        let (book, (machine, image)) = both(book, both(machine, image))?;
        Ok(UnnamedPair {
            alloc,
            book,
            machine,
            image,
            clients,
        })
    }

    /// Names the pair, whose history starts at the boot guest's state, and gives out its members. Nothing has happened yet: no member has
    /// seen anything, the history is empty, and the runner's machine and the backup's image are the boot guest.
    ///
    /// # Errors
    ///
    /// [`AllocError`] if the memory for what the members share, or for the list of clients, can't be had.
    pub fn named<P: Pair>(self) -> Result<Parts<P>, AllocError>
        requires word { self.word ≡ P.word }
        requires start { P.start ≡ start_with self.guest self.clients }
        ensures clients { IfOk result (λ p. AreNew P.start self.clients p.clients.items) }
        ensures loss { IfOk result (λ p. p.loss ≡ []) }
        ensures runner { IfOk result (λ p. p.runner ≡ new_runner (settled_machine self.shape self.guest) (unseen first_runner)) }
        ensures backup { IfOk result (λ p. p.backup ≡ new_backup (first_image self.shape self.guest) (unseen first_backup)) }
        ensures warden { IfOk result (λ p. p.warden ≡ self.shape) }
    {
        reached_states();
        let UnnamedPair {
            alloc,
            book,
            machine,
            image,
            clients,
        } = self;
        let shape = image.shape();
        let Ok(opened) = open_book::<P>(alloc, book, clients) else {
            // By calls, as in `both`.
            drop(machine);
            drop(image);
            return Err(AllocError);
        };
        Ok(members(alloc, opened, machine, image, shape))
    }
}
