//! The head's numbers: how wide each is, and what it may be.

ghost use Rattle.std.specs.Prelude.{◌≡◌, ◌<◌, length};
ghost use Rattle.checkpoint_stream.specs.HeadTable.{row_at, passes, number_spelled, bytes_in};
ghost use Rattle.checkpoint_stream.specs.declared.rules.Width.TheVariants.{Four};

use epoch_snapshot::MOST_OLD_PAGES;
use guest_rules::Shape;
use mtraps::legal_value;

/// How many bytes a number takes.
#[derive(Clone, Copy)]
pub enum Width {
    Two,
    Four,
    Eight,
}

impl Width {
    /// That many.
    pub(crate) fn bytes(self) -> usize
        ensures { result ≡ bytes_in self }
    {
        match self {
            Width::Two => 2,
            Width::Four => 4,
            Width::Eight => 8,
        }
    }
}

/// What a number may be.
#[derive(Clone, Copy)]
pub enum Rule {
    /// Anything.
    Any,
    /// The bytes `RMC1` or `RMC2`.
    Magic,
    /// As many pages as the reader's shape has, and in version 1 at most 4096.
    Pages,
    /// As many sectors as the reader's shape has.
    Sectors,
    /// From `least` to `most`.
    Within { least: u64, most: u64 },
    /// A multiple of 4.
    Aligned,
    /// A value that the CSR of this number can hold.
    Csr { number: u16 },
    /// A device status: only bits of 0xcf.
    Status,
    /// 0, or a power of two up to 64.
    QueueSize,
    /// 0 or 1, and 0 where the number before it, the queue's size, is 0.
    Ready,
}

/// A number of the head.
#[derive(Clone, Copy)]
pub struct Row {
    pub width: Width,
    pub rule: Rule,
}

/// The bytes `RMC1` as a number, little end first: version 1.
pub(crate) const OLD_MAGIC: u64 = 0x3143_4d52;

/// The bytes `RMC2` as a number: version 2.
pub(crate) const NEW_MAGIC: u64 = 0x3243_4d52;

/// How many numbers the head has.
pub(crate) const HEAD_NUMBERS: usize = 80;

const ANY_2: Row = Row {
    width: Width::Two,
    rule: Rule::Any,
};

const ANY_4: Row = Row {
    width: Width::Four,
    rule: Rule::Any,
};

const ANY_8: Row = Row {
    width: Width::Eight,
    rule: Rule::Any,
};

const MAGIC: Row = Row {
    width: Width::Four,
    rule: Rule::Magic,
};

const PAGES: Row = Row {
    width: Width::Four,
    rule: Rule::Pages,
};

const SECTORS: Row = Row {
    width: Width::Four,
    rule: Rule::Sectors,
};

const GENERATION: Row = Row {
    width: Width::Eight,
    rule: Rule::Within {
        least: 1,
        most: 0x3fff_ffff_ffff_ffff,
    },
};

const NUMBER: Row = Row {
    width: Width::Eight,
    rule: Rule::Within {
        least: 0,
        most: 0x3fff_ffff_ffff_ffff,
    },
};

const PC: Row = Row {
    width: Width::Eight,
    rule: Rule::Aligned,
};

const MSTATUS: Row = Row {
    width: Width::Eight,
    rule: Rule::Csr { number: 0x300 },
};

const MIE: Row = Row {
    width: Width::Eight,
    rule: Rule::Csr { number: 0x304 },
};

const MTVEC: Row = Row {
    width: Width::Eight,
    rule: Rule::Csr { number: 0x305 },
};

const MEPC: Row = Row {
    width: Width::Eight,
    rule: Rule::Csr { number: 0x341 },
};

const MSIP: Row = Row {
    width: Width::Four,
    rule: Rule::Within { least: 0, most: 1 },
};

const STATUS: Row = Row {
    width: Width::Four,
    rule: Rule::Status,
};

const INTERRUPT_STATUS: Row = Row {
    width: Width::Four,
    rule: Rule::Within { least: 0, most: 3 },
};

const QUEUE_SIZE: Row = Row {
    width: Width::Four,
    rule: Rule::QueueSize,
};

const READY: Row = Row {
    width: Width::Four,
    rule: Rule::Ready,
};

#[rattlefmt::skip]
static HEAD: [Row; HEAD_NUMBERS] = [
    MAGIC, PAGES, SECTORS, GENERATION, NUMBER, ANY_8,
    // x1 to x31
    ANY_8, ANY_8, ANY_8, ANY_8, ANY_8, ANY_8, ANY_8, ANY_8, ANY_8, ANY_8, ANY_8, ANY_8, ANY_8, ANY_8, ANY_8, ANY_8,
    ANY_8, ANY_8, ANY_8, ANY_8, ANY_8, ANY_8, ANY_8, ANY_8, ANY_8, ANY_8, ANY_8, ANY_8, ANY_8, ANY_8, ANY_8,
    PC, MSTATUS, MIE, MTVEC, ANY_8, MEPC, ANY_8, ANY_8, MSIP, ANY_8,
    // the network card's record and its two queues
    STATUS, ANY_4, ANY_4, ANY_8, ANY_4, INTERRUPT_STATUS,
    QUEUE_SIZE, READY, ANY_8, ANY_8, ANY_8, ANY_2, ANY_2,
    QUEUE_SIZE, READY, ANY_8, ANY_8, ANY_8, ANY_2, ANY_2,
    // the disk's record and its queue
    STATUS, ANY_4, ANY_4, ANY_8, ANY_4, INTERRUPT_STATUS,
    QUEUE_SIZE, READY, ANY_8, ANY_8, ANY_8, ANY_2, ANY_2,
];

/// The head's number of this index.
#[tactic(auto, unfolding(crate::specs::HeadTable::row_at, crate::specs::HeadTable::head_table))]
pub(crate) fn head_row(index: usize) -> Row
    requires { index < 80 }
    ensures { result ≡ row_at index }
{
    HEAD[index]
}

/// Whether `n` may stand where its rule is this, after the number `before`. Most rules are `Any`, which is asked first, in the caller.
#[inline(always)]
#[tactic(auto, unfolding(crate::specs::HeadTable::passes))]
pub(crate) fn passes(shape: Shape, rule: Rule, before: u64, n: u64) -> bool
    ensures { result ≡ passes shape rule before n }
{
    match rule {
        Rule::Any => true,
        _ => keeps(shape, rule, before, n),
    }
}

/// Whether `n` keeps this rule, after the number `before`.
#[inline(never)]
#[tactic(auto, unfolding(crate::specs::HeadTable::passes))]
fn keeps(shape: Shape, rule: Rule, before: u64, n: u64) -> bool
    ensures { result ≡ passes shape rule before n }
{
    match rule {
        Rule::Any => true,
        Rule::Magic => n == OLD_MAGIC || n == NEW_MAGIC,
        Rule::Pages => {
            n == u64::from(shape.pages) && (before == NEW_MAGIC || n <= u64::from(MOST_OLD_PAGES))
        }
        Rule::Sectors => n == u64::from(shape.sectors),
        Rule::Within { least, most } => least <= n && n <= most,
        Rule::Aligned => n % 4 == 0,
        Rule::Csr { number } => legal_value(number, n) == n,
        Rule::Status => n & 0xcf == n,
        Rule::QueueSize => matches!(n, 0 | 1 | 2 | 4 | 8 | 16 | 32 | 64),
        Rule::Ready => n == 0 || n == 1 && 1 <= before,
    }
}

/// The number that these bytes are, little end first.
#[tactic(auto, unfolding(crate::specs::HeadTable::number_spelled))]
pub(crate) fn number_of(width: Width, bytes: &[u8]) -> u64
    requires { length bytes.now ≡ bytes_in width }
    ensures { result ≡ number_spelled width bytes.now }
{
    match width {
        Width::Two => u64::from(u16::from_le_bytes([bytes[0], bytes[1]])),
        Width::Four => u64::from(u32::from_le_bytes([bytes[0], bytes[1], bytes[2], bytes[3]])),
        Width::Eight => u64::from_le_bytes([
            bytes[0], bytes[1], bytes[2], bytes[3], bytes[4], bytes[5], bytes[6], bytes[7],
        ]),
    }
}

/// The number that these four bytes are, little end first.
#[tactic(auto, unfolding(crate::specs::HeadTable::number_spelled))]
pub(crate) fn u32_of(bytes: &[u8]) -> u32
    requires { length bytes.now ≡ 4 }
    ensures { result ≡ number_spelled Four bytes.now }
{
    u32::from_le_bytes([bytes[0], bytes[1], bytes[2], bytes[3]])
}
