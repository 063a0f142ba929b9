ghost use Rattle.std.specs.Prelude.{◌≡◌};
ghost use Rattle.memory_wanted.specs.Wanted.{wanted};
ghost use Rattle.pair_record.specs.declared.event.Refusal.TheVariants.{NoMemory};

use failover::Mode;
use memory_wanted::MemoryWanted;
use pair_history::Frame;
use std::fmt;
use std::marker::Model;
use thiserror::Error;

/// What may happen next to the pair.
#[derive(Clone, Copy)]
pub enum Event<'a> {
    /// The guest makes one step.
    Step,
    /// The running epoch ends, and its checkpoint waits to be sent.
    Cut,
    /// The primary sends one packet for each checkpoint that waits for its acknowledgement.
    Send,
    /// The backup gets the packet of this number, counted from 0 in the order sent.
    BackupGet(u64),
    /// The primary gets the acknowledgement of this number, counted from 0 in the order sent.
    AckGet(u64),
    /// The first frame of this client's inbox arrives at the guest.
    Admit(u64),
    /// The client of this number, counted from 1, delivers the frame of these bytes.
    Deliver(u64, &'a [u8]),
    /// The client of this number, counted from 1, takes the first frame of its box.
    Take(u64),
    /// The line drops the frame at this place, from 0, of this client's inbox: `LoseIn(client, place)`.
    LoseIn(u64, u64),
    /// The line drops the frame at this place, from 0, of this client's box: `LoseOut(client, place)`.
    LoseOut(u64, u64),
    /// The primary stops. From then on it does nothing, and the pair waits for the backup to go live.
    FailPrimary,
    /// The backup stops. The primary goes on alone: what was held lands, and what the guest sends lands at once.
    FailBackup,
    /// The backup goes on in the place of the stopped primary, from its image. Its generation is the next one.
    GoLive,
    /// The node that is alone gets a new backup, while it runs. The generation is the next one, and begins with a full checkpoint.
    Protect,
}

/// Why an event was refused. Nothing changed, but that the history tells of a refusal [`Refusal::Full`].
#[derive(Debug, Drop, PartialEq, Eq, Error)]
pub enum Refusal {
    /// The client's inbox holds 64 frames.
    Full,
    /// The frame has fewer than 14 or more than 1514 bytes.
    BadFrame,
    /// The client number is 0 or above the count.
    NoClient,
    /// The node that would act has stopped.
    Stopped,
    /// Four checkpoints are pending.
    Behind,
    /// The event needs a pair, and one node is alone.
    NotPaired,
    /// The event needs a node that is alone or stopped.
    AlreadyPaired,
    /// No backup holds an image that could go on.
    NoImage,
    /// The message is of another generation.
    Stale,
    /// The checkpoint's number is beyond the next one.
    Gap,
    /// A growth was refused.
    NoMemory(MemoryWanted),
    /// Fewer than 64 places of the outbox are free.
    CutNeeded,
    /// A number would reach 2^62.
    Exhausted,
    /// A delta of version 1, which carries no frames, was to be committed.
    OldVersion,
}

impl Refusal {
    ghost use Rattle.pair_record.specs.Refusals.{number_of, name_of};

    /// The number of the refusal, in the project's table of refusals.
    pub fn number(&self) -> u8
        ensures { result ≡ number_of self.now }
    {
        match self {
            Refusal::Full => 1,
            Refusal::BadFrame => 2,
            Refusal::NoClient => 3,
            Refusal::Stopped => 4,
            Refusal::Behind => 5,
            Refusal::NotPaired => 6,
            Refusal::AlreadyPaired => 7,
            Refusal::NoImage => 8,
            Refusal::Stale => 9,
            Refusal::Gap => 10,
            Refusal::NoMemory(_) => 12,
            Refusal::CutNeeded => 13,
            Refusal::Exhausted => 14,
            Refusal::OldVersion => 15,
        }
    }

    /// Its name in that table, which is also what `Display` prints.
    pub fn name(&self) -> &'static str
        ensures { result.now ≡ name_of self.now }
    {
        match self {
            Refusal::Full => "Full",
            Refusal::BadFrame => "BadFrame",
            Refusal::NoClient => "NoClient",
            Refusal::Stopped => "Stopped",
            Refusal::Behind => "Behind",
            Refusal::NotPaired => "NotPaired",
            Refusal::AlreadyPaired => "AlreadyPaired",
            Refusal::NoImage => "NoImage",
            Refusal::Stale => "Stale",
            Refusal::Gap => "Gap",
            Refusal::NoMemory(_) => "NoMemory",
            Refusal::CutNeeded => "CutNeeded",
            Refusal::Exhausted => "Exhausted",
            Refusal::OldVersion => "OldVersion",
        }
    }
}

/// Its name.
impl fmt::Display for Refusal {
    fn fmt<W: fmt::Write>(&self, f: &mut fmt::Formatter<W>) -> fmt::Result {
        write!(f, "{}", self.name())
    }
}

impl From<MemoryWanted> for Refusal {
    ghost from_gives = { λ _ e. e ≡ NoMemory wanted };

    fn from(wanted: MemoryWanted) -> Refusal {
        Refusal::NoMemory(wanted)
    }
}

/// A frame that a client took, in a place of its own: a [`Reply`] has no room for one. Contracts see it as the frame.
#[derive(Drop)]
pub struct TakenFrame {
    place: Box<Frame>,
}

impl Model for TakenFrame {
    ghost use Rattle.pair_history.specs.Entries.{Frame};

    ghost Value = { Frame };

    ghost view = { λ taken. taken.place.value };
}

impl TakenFrame {
    ghost use Rattle.pair_record.specs.Record.{given};

    /// The frame at this place, if one was put there.
    pub fn given(is_some: bool, place: Box<Frame>) -> Option<TakenFrame>
        ensures { result ≡ given is_some place.value }
    {
        if is_some {
            Some(TakenFrame { place })
        } else {
            None
        }
    }

    /// The frame.
    pub fn frame(&self) -> &Frame
        ensures { result.now ≡ self.now }
    {
        &self.place
    }
}

/// What an event is answered.
#[derive(Drop)]
pub enum Reply {
    /// The guest's step count now.
    Steps(u64),
    /// The generation and the number of the checkpoint that was cut.
    Cut {
        generation: u64,
        number: u64,
    },
    /// How many packets were sent.
    Sent(u64),
    /// The backup's image is now the guest at this checkpoint.
    Committed {
        generation: u64,
        number: u64,
    },
    /// The checkpoint was committed before: the acknowledgement of the last committed one was sent again.
    Again {
        generation: u64,
        number: u64,
    },
    /// There is no such packet.
    Lost,
    /// Checkpoints up to this one are acknowledged, and `landed` frames were put into boxes, counted for each client.
    Acked {
        generation: u64,
        number: u64,
        landed: u64,
    },
    /// The frame of this number arrived at the guest.
    Admitted(u64),
    /// No frame is there: nothing happened.
    Empty,
    /// The frame that was there is dropped.
    Dropped,
    /// The frame waits for the guest under this number, counted from 1.
    Delivered(u64),
    /// The frame, or none where the box is empty.
    Took(Option<TakenFrame>),
    /// The primary has stopped.
    Stopped,
    /// The backup has stopped, and `landed` frames were put into boxes, counted for each client.
    Alone {
        generation: u64,
        landed: u64,
    },
    /// The backup goes on, in this generation, from a guest that has made so many steps.
    Live {
        generation: u64,
        steps: u64,
    },
    /// There is a new backup, in this generation, and its full checkpoint is pending.
    Protecting(u64),
    /// Nothing happened, or a frame found the inbox full.
    Refused(Refusal),
}

/// What an operator sees of the pair.
#[derive(Clone, Copy, PartialEq, Eq)]
pub struct Show {
    /// Who runs the guest.
    pub mode: Mode,
    /// The generation, from 1.
    pub generation: u64,
    /// How many checkpoints wait for their acknowledgement.
    pub pending: u64,
    /// The guest's step count: the live guest's, where the primary has stopped the image's.
    pub steps: u64,
    /// The length of the history.
    pub entries: u64,
}

/// A packet of either line: a checkpoint, or its acknowledgement.
#[derive(Clone, Copy, PartialEq, Eq)]
pub struct Packet {
    /// The generation, from 1.
    pub generation: u64,
    /// The checkpoint's number.
    pub number: u64,
}
