//! What the members of a pair share.
ghost use Rattle.pair_history.specs.Reached.{IsReached};
ghost use Rattle.hypervisor.specs.Opening.{IsStarted};

use growing_history::{Clock, Pair};
use pair_book::Book;
use std::marker::Model;
use std::sync::{Mutex, MutexGuard, Wait};
use std::thread::yield_now;

/// How often a client looks whether the book is free, and lets other threads run in between, before it sleeps until it is. Enough that
/// clients who call at once seldom sleep; and bounded, since a thread that has the book may be stopped for long, and then looking takes a
/// processor and brings nothing.
const LOOKS: u32 = 100;

/// The word that counts the steps of the book's keeper, which anyone may look at, and the book, which one thread has at a time. Both are
/// private to this file: the book is had by [`Shared::lock`] and [`Shared::hold`] alone, which may wait and never give up. So a member's
/// method is that and one call of a function over the lent book, whose clauses say what it leaves there. Contracts see where the history
/// starts.
#[derive(Drop)]
pub(crate) struct Shared<P: Pair> {
    clock: Clock<P>,
    book: Mutex<Book<P>>,
}

impl<P: Pair> Model for Shared<P> {
    ghost use Rattle.pair_history.specs.HistoryState.{HistoryState};
    ghost use Rattle.pair_history.specs.Reached.{IsReached};

    ghost Value = { HistoryState };

    ghost view = { λ _. P.start };

    ghost invariant = { λ _. IsReached P.start };
}

impl<P: Pair> Shared<P> {
    /// The history starts in a state that one can reach, and nothing has happened, as the caller knows.
    pub(crate) fn new(clock: Clock<P>, book: Book<P>) -> Shared<P>
        requires reached { IsReached P.start }
        requires started { IsStarted book }
    {
        Shared {
            clock,
            book: Mutex::new(book),
        }
    }

    /// The book, which is the caller's until the guard is dropped. So the clients take it, who may be many and call at once, and who loses
    /// frames: they keep it for less than a microsecond, and a sleep and a wake take ten. The other members wait in `lock`, and are served
    /// too: to a thread that has slept twice in vain the mutex leaves the book before any that only looks.
    pub(crate) fn hold<R: Wait>(&self, rt: &R) -> MutexGuard<'_, Book<P>> {
        for _ in 0..LOOKS {
            if let Some(held) = self.book.try_lock() {
                return held;
            }
            yield_now();
        }
        self.book.lock(rt)
    }

    /// The book, once it is the caller's turn.
    pub(crate) fn lock<R: Wait>(&self, rt: &R) -> MutexGuard<'_, Book<P>> {
        self.book.lock(rt)
    }

    /// The word that counts the keeper's steps.
    pub(crate) fn clock(&self) -> &Clock<P> {
        &self.clock
    }

    /// What is true of every pair is true of this one.
    pub(crate) fn keep(&self)
        ensures { IsReached P.start }
    {
        let _ = &self.clock;
    }
}
