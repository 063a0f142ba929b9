//! The limits of the ports.
ghost use Rattle.std.specs.Prelude.{◌≡◌};
ghost use Rattle.frame_ports.specs.Limits.{min_frame, max_frame, max_clients, inbox_frames, box_frames, number_limit};

use arrayvec::ArrayVec;

/// A network frame, without preamble and checksum: 14 to 1514 bytes, of which the first six are the address of
/// the receiver, and the next six that of the sender.
pub type Frame = ArrayVec<u8, 1514>;

/// The least length of a frame, in bytes: an Ethernet header.
pub const MIN_FRAME: usize = 14;

/// The greatest length of a frame, in bytes: a header and 1500 bytes.
pub const MAX_FRAME: usize = 1514;

/// The most clients of a pair. They are numbered from 1.
pub const MAX_CLIENTS: u64 = 16;

/// How many frames one client's inbox holds.
pub const INBOX_FRAMES: usize = 64;

/// How many frames one client's box holds.
pub const BOX_FRAMES: usize = 256;

/// Frame numbers are below this, 2^62.
pub const NUMBER_LIMIT: u64 = 1 << 62;

/// Each constant is the number that the rules name. Definitions and clauses cite those numbers, and never the constants.
pub fn limits_are_the_rules()
    ensures min_frame { MIN_FRAME ≡ min_frame }
    ensures max_frame { MAX_FRAME ≡ max_frame }
    ensures max_clients { MAX_CLIENTS ≡ max_clients }
    ensures inbox_frames { INBOX_FRAMES ≡ inbox_frames }
    ensures box_frames { BOX_FRAMES ≡ box_frames }
    ensures number_limit { NUMBER_LIMIT ≡ number_limit }
{}
