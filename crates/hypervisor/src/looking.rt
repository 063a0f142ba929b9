//! How far a pair has come.
ghost use Rattle.std.specs.Prelude.{◌≡◌, IfOk, IfErr};
ghost use Rattle.hypervisor.specs.FirstBackups.{FindFirstGeneration, FindLaterGeneration, HasSeen};
ghost use Rattle.hypervisor.specs.Looking.{found_at, HasFound, HaveLooked, SeeAll};

use crate::clients::Client;
use crate::first_backup::FirstBackup;
use growing_history::{Clock, Pair, clients_have_one_guest_that_never_fails};
use pair_book::Book;
use std::marker::Model;

/// How far a pair has come.
#[derive(Clone, Copy)]
pub struct Found {
    /// The length of the history.
    pub entries: u64,
    /// The pair's generation, from 1.
    pub generation: u64,
    /// The number that the next checkpoint gets in it.
    pub next: u64,
    /// How many checkpoints are pending.
    pub pending: u64,
}

/// The pair is in a later generation than its first, since a node has failed. Only who looked at the book of such a pair has this.
/// Contracts see the number of the generation.
#[derive(Drop)]
pub struct LaterGeneration {
    generation: u64,
}

impl Model for LaterGeneration {
    ghost use Rattle.std.specs.Prelude.{ℕ, ◌≢◌};

    ghost Value = { ℕ };

    ghost view = { λ l. l.generation };

    ghost invariant = { λ l. l.generation ≢ 1 };
}

/// How far the pair has come; and each of these clients sees all the steps that were made.
pub(crate) fn look<P: Pair>(
    book: &mut Book<P>,
    clock: &Clock<P>,
    clients: &mut Vec<Client<P>>,
) -> Found
    ensures same { book.new ≡ book.old }
    ensures found { result ≡ found_at book.old }
    // By all the steps that were made.
    ensures has { HasFound P.start book.old.steps result }
    ensures see { SeeAll P.start book.old.steps clients.old.items clients.new.items }
    ensures looked { HaveLooked P.start result clients.old.items clients.new.items }
{
    clients_have_one_guest_that_never_fails();
    for place in 0..clients.len() {
        clients[place].look(book, clock);
    }
    book.keep();
    Found {
        entries: book.entries(),
        generation: book.generation(),
        next: book.next_number(),
        pending: book.pending(),
    }
}

/// How far the pair has come, in its first generation; and each of these clients, and the first backup, sees all the steps that were made.
///
/// # Errors
///
/// [`LaterGeneration`] where the pair is in a later one. They have looked then too.
pub(crate) fn look_beside<P: Pair>(
    book: &mut Book<P>,
    clock: &Clock<P>,
    clients: &mut Vec<Client<P>>,
    backup: &mut FirstBackup<P>,
) -> Result<Found, LaterGeneration>
    ensures same { book.new ≡ book.old }
    ensures see { SeeAll P.start book.old.steps clients.old.items clients.new.items }
    ensures seen { HasSeen P.start book.old.steps backup.old backup.new }
    ensures found { IfOk result (λ found. found ≡ found_at book.old) }
    ensures generation { IfErr result (λ generation. generation ≡ book.old.protocol.generation) }
    ensures first { IfOk result (λ found.
        FindFirstGeneration P.start found clients.old.items clients.new.items backup.old backup.new) }
    ensures later { IfErr result (λ generation.
        FindLaterGeneration P.start generation clients.old.items clients.new.items backup.old backup.new) }
{
    backup.look(book, clock);
    let found = look(book, clock, clients);
    if found.generation != 1 {
        return Err(LaterGeneration {
            generation: found.generation,
        });
    }
    Ok(found)
}
