//! The word, before and after its seats have been given out.
ghost use Rattle.std.specs.Prelude.{◌≡◌, [], IfOk};
ghost use Rattle.atomic_table.specs.Seated.{TableId};
ghost use Rattle.growing_history.specs.Views.{unopened};

use crate::known::{Known, OneLog, Pair};
use crate::seats::KeeperSeat;
use atomic_table::{Seat, Table};
use std::alloc::{AllocError, Global};
use std::marker::{Model, PhantomData};

/// The word of a pair, which is 0, and the first seat.
#[derive(Drop)]
pub struct Opened {
    table: Table<(), Known, (), OneLog, Global>,
    seat: Seat<(), Known>,
}

impl Model for Opened {
    ghost Value = { TableId };

    ghost view = { λ o. o.table.shared.table_id };

    ghost invariant = { λ o. (o.table.shared.table_id.words ≡ 1) × (o.seat.table_id ≡ o.table.shared.table_id)
        × (o.seat.me ≡ (unopened, [])) };
}

/// The word of a pair, which counts the steps of its keeper. Threads share it.
#[derive(Drop)]
pub struct Clock<P: Pair> {
    pub(crate) table: Table<(), Known, (), OneLog, Global>,
    of: PhantomData<P>,
    ghost named: { table.shared.table_id ≡ P.word },
    ghost one_word: { table.shared.table_id.words ≡ 1 },
}

impl Opened {
    /// Makes the word. This alone takes memory.
    pub fn new(alloc: Global) -> Result<Opened, AllocError> {
        let (table, seat) = Table::of_words(alloc, &[0], &())?;
        Ok(Opened { table, seat })
    }

    /// Gives the word its name, and the keeper its seat. This can't fail.
    pub fn named<P: Pair>(self) -> (Clock<P>, KeeperSeat<P>)
        requires { self ≡ P.word }
        ensures { result.1 ≡ record { steps = []; enrolled = 0 } }
    {
        let Opened { table, seat } = self;
        let clock = Clock {
            table,
            of: PhantomData,
        };
        let keeper = KeeperSeat::first(&clock, seat);
        (clock, keeper)
    }
}
