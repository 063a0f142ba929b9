//! Entries as they are stored: each takes a place of its own, and the bytes of their frames lie one after another beside them.
ghost use Rattle.std.specs.Prelude.{◌≡◌, length};
ghost use Rattle.pair_history.specs.Log.{expanded, frame_bytes};
ghost use Rattle.pair_history.specs.internal.Packed.{width, with_bytes, unpacked, widths};

use crate::history::Entry;
use std::marker::Model;

/// An entry as it is stored: where it has a frame, the frame's length stands in the frame's place.
#[derive(Clone, Copy)]
pub(crate) enum StoredEntry {
    Ran(u64),
    Arrive(u64),
    Delivered(u64, usize, u64),
    Refused(u64, usize),
    DropIn(u64),
    Land(u64),
    DropOut { client: u64, place: u64 },
    Took(u64, Option<usize>),
}

/// A stored entry has 32 bytes beside those of its frame.
const _: () = prove!(size_of::<StoredEntry>() == 32);

/// What is stored of this entry beside the bytes of its frame.
pub(crate) fn stored(entry: Entry) -> StoredEntry
    ensures entry { with_bytes result (frame_bytes entry.entry) ≡ expanded entry.entry }
    ensures width { width result ≡ length (frame_bytes entry.entry) }
{
    match entry {
        Entry::Ran(steps) => StoredEntry::Ran(steps),
        Entry::Arrive(number) => StoredEntry::Arrive(number),
        Entry::Delivered(client, bytes, number) => {
            StoredEntry::Delivered(client, bytes.len(), number)
        }
        Entry::Refused(client, bytes) => StoredEntry::Refused(client, bytes.len()),
        Entry::DropIn(number) => StoredEntry::DropIn(number),
        Entry::Land(client) => StoredEntry::Land(client),
        Entry::DropOut { client, place } => StoredEntry::DropOut { client, place },
        Entry::Took(client, Some(bytes)) => StoredEntry::Took(client, Some(bytes.len())),
        Entry::Took(client, None) => StoredEntry::Took(client, None),
    }
}

impl StoredEntry {
    /// How many bytes its frame has; none if it has no frame.
    fn width(self) -> usize
        ensures { result ≡ width self }
    {
        match self {
            StoredEntry::Delivered(_, len, _)
            | StoredEntry::Refused(_, len)
            | StoredEntry::Took(_, Some(len)) => len,
            _ => 0,
        }
    }

    /// The entry, with these bytes for its frame.
    fn with_bytes(self, bytes: &[u8]) -> Entry<'_>
        ensures { expanded result ≡ with_bytes self bytes.now }
    {
        match self {
            StoredEntry::Ran(steps) => Entry::Ran(steps),
            StoredEntry::Arrive(number) => Entry::Arrive(number),
            StoredEntry::Delivered(client, _, number) => Entry::Delivered(client, bytes, number),
            StoredEntry::Refused(client, _) => Entry::Refused(client, bytes),
            StoredEntry::DropIn(number) => Entry::DropIn(number),
            StoredEntry::Land(client) => Entry::Land(client),
            StoredEntry::DropOut { client, place } => Entry::DropOut { client, place },
            StoredEntry::Took(client, Some(_)) => Entry::Took(client, Some(bytes)),
            StoredEntry::Took(client, None) => Entry::Took(client, None),
        }
    }
}

/// The entries of a history, from some entry on. Each stored entry is one item.
#[derive(Drop)]
pub struct Entries<'a> {
    stored: &'a [StoredEntry],
    /// The bytes of their frames.
    bytes: &'a [u8],
}

impl<'a> Model for Entries<'a> {
    ghost use Rattle.pair_history.specs.Unread.{Unread};

    ghost Value = { Unread };

    ghost use Rattle.pair_history.specs.internal.UnreadFields.{unread, AreFields};

    ghost view = { unread };

    ghost invariant = { AreFields };
}

impl<'a> Entries<'a> {
    /// The entries that are stored here, the bytes of whose frames are these.
    pub(crate) fn new(stored: &'a [StoredEntry], bytes: &'a [u8]) -> Entries<'a>
        requires { widths stored.now ≡ length bytes.now }
        ensures { result.left ≡ unpacked stored.now bytes.now }
    {
        Entries { stored, bytes }
    }
}

impl<'a> Iterator for Entries<'a> {
    ghost use Rattle.std.specs.Iterator.{at_most};
    ghost use Rattle.pair_history.specs.Unread.{Reads};

    type Item = Entry<'a>;

    ghost next_gives = { Reads };

    ghost remaining = { λ s. at_most s.stored };

    fn next(&mut self) -> Option<Entry<'a>> {
        let (first, others) = self.stored.split_first()?;
        let (bytes, rest) = self.bytes.split_at(first.width());
        self.stored = others;
        self.bytes = rest;
        Some(first.with_bytes(bytes))
    }
}
