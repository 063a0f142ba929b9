//! Two threads share a book under a lock.
ghost use Rattle.std.specs.Prelude.{◌≡◌, []};
ghost use Rattle.pair_history.specs.HistoryState.{start_state};
ghost use Rattle.pair_book.specs.Calls.{IsClientSeat};

use crate::asserts::{holds, same};
use crate::hosts::FRAME;
use crate::members::next_client;
use crate::rows::unnamed;
use growing_history::{Badge, ClientSeat, Clock, Pair};
use pair_book::{Book, Members, Refusal, UnnamedBook};
use pair_history::Frame;
use std::marker::Brand;
use std::process::Abort;
use std::sync::{Mutex, Wait};
use std::test::*;
use std::thread::{Threads, join};

#[test]
fn two_threads_share_a_book(rt: HostRuntime) -> Result<(), Fail> {
    share::<Brand, _>(&rt, unnamed(rt.alloc())?)
}

/// The first client delivers, in a thread, and tells of it.
fn deliver_and_tell<P: Pair, R: Wait>(
    rt: &R,
    clock: &Clock<P>,
    book: &Mutex<Book<P>>,
    mut first: ClientSeat<P>,
) -> (Result<u64, Refusal>, Badge<P>)
    requires { IsClientSeat P.start first.number }
{
    let delivered = book.lock(rt).deliver(clock, &mut first, &FRAME);
    (delivered, first.tell(clock))
}

/// Meanwhile the second one takes.
fn take_once<P: Pair, R: Wait>(
    rt: &R,
    clock: &Clock<P>,
    book: &Mutex<Book<P>>,
    mut second: ClientSeat<P>,
) -> (Result<bool, Refusal>, ClientSeat<P>)
    requires { IsClientSeat P.start second.number }
    ensures { IsClientSeat P.start result.1.number }
{
    let mut frame = Frame::new();
    let taken = book.lock(rt).take(clock, &mut second, &mut frame);
    (taken, second)
}

/// The first client's delivery and the second one's first take are made in two threads.
fn call_in_threads<P: Pair + Send + Sync, R: Threads + Wait + Abort + Sync>(
    rt: &R,
    clock: &Clock<P>,
    book: Book<P>,
    first: ClientSeat<P>,
    second: ClientSeat<P>,
)
    requires { IsClientSeat P.start first.number × IsClientSeat P.start second.number }
{
    let book = Mutex::new(book);
    let ((delivered, mut badge), (taken, mut second)) = join(
        rt,
        || -> (Result<u64, Refusal>, Badge<P>)
            requires { IsClientSeat P.start first.number }
        { deliver_and_tell(rt, clock, &book, first) },
        || -> (Result<bool, Refusal>, ClientSeat<P>)
            requires { IsClientSeat P.start second.number }
            ensures { IsClientSeat P.start result.1.number }
        { take_once(rt, clock, &book, second) },
    );
    holds(rt, "delivered", delivered == Ok(1));
    holds(rt, "nothing taken", taken == Ok(false));
    second.learn(clock, &mut badge);
    let (taken, mut second) = take_once(rt, clock, &book, second);
    holds(rt, "again nothing taken", taken == Ok(false));
    same(rt, "steps", second.look(clock), 3);
}

fn share<P: Pair + Send + Sync, R: Threads + Wait + Abort + Sync>(
    rt: &R,
    book: UnnamedBook,
) -> Result<(), Fail>
    requires { (book.word ≡ P.word) × (P.start ≡ start_state 1 1 [] book.clients) }
{
    let Members {
        mut book,
        clock,
        runner: _,
        backup: _,
        line: _,
    } = book.named::<P>();
    let first = next_client(&mut book, &clock)?;
    let second = next_client(&mut book, &clock)?;
    call_in_threads(rt, &clock, book.open(&clock), first, second);
    Ok(())
}
