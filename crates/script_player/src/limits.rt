//! The limits of a machine, its clients and a line.
ghost use Rattle.std.specs.Prelude.{◌≡◌};
ghost use Rattle.script_player.specs.Limits.{most_pages, most_sectors, most_clients, most_line_bytes, most_head_bytes};

/// Pages of memory, at most.
pub const MOST_PAGES: u32 = 16384;

/// Sectors of the disk, at most.
pub const MOST_SECTORS: u32 = 32768;

/// Clients, at most.
pub const MOST_CLIENTS: u64 = 16;

/// Bytes of a line of a live session, at most, without its newline.
pub const MOST_LINE_BYTES: usize = 268_435_456;

/// Bytes of a line that bytes follow, at most, in front of its newline.
pub const MOST_HEAD_BYTES: usize = 32;

/// Each constant is the number that the rules name. Definitions and clauses cite those numbers, and never the constants.
pub fn limits_are_the_rules()
    ensures most_pages { MOST_PAGES ≡ most_pages }
    ensures most_sectors { MOST_SECTORS ≡ most_sectors }
    ensures most_clients { MOST_CLIENTS ≡ most_clients }
    ensures most_line_bytes { MOST_LINE_BYTES ≡ most_line_bytes }
    ensures most_head_bytes { MOST_HEAD_BYTES ≡ most_head_bytes }
{}
