//! What a file of a run says.
ghost use Rattle.std.specs.Prelude.{◌≡◌};
ghost use Rattle.pair_run.specs.declared.run_file.Unread.TheVariants.{NoMemory};

use memory_wanted::MemoryWanted;
use script_player::boot::Boot;

/// What a client does.
#[derive(Drop)]
pub enum Action {
    /// It takes the first frame of its box.
    Take,
    /// It delivers these bytes, at least one.
    Deliver(Vec<u8>),
}

/// What one client does.
#[derive(Drop)]
pub struct ClientLine {
    /// Its number, from 1 up to the number of clients.
    pub client: u64,
    /// One after another, at least one.
    pub actions: Vec<Action>,
}

/// What a file says.
#[derive(Drop)]
pub struct RunFile {
    /// The pair to boot.
    pub boot: Boot,
    /// How many epochs are run.
    pub epochs: u64,
    /// The most steps of an epoch.
    pub steps: u64,
    /// What clients do, in the order of their lines; each client has one line at most.
    pub clients: Vec<ClientLine>,
}

/// Why a file isn't read.
#[derive(Drop)]
pub enum Unread {
    /// The line of this number is bad; the first one is 1.
    Bad(u64),
    /// There is no memory for what a line says.
    NoMemory(MemoryWanted),
}

impl From<MemoryWanted> for Unread {
    ghost from_gives = { λ wanted unread. unread ≡ NoMemory wanted };

    fn from(wanted: MemoryWanted) -> Unread {
        Unread::NoMemory(wanted)
    }
}
