//! The lines of a node that carry numbers alone: what each form is, and how it is read.

ghost use Rattle.std.specs.Prelude.{◌≡◌, ◌≤◌, Some, IfSome, IsTrue, option_and_then};
ghost use Rattle.node_player.specs.Orders.{order_of, is_shaped, shaped_order, three_by, IsOrder};
ghost use Rattle.node_player.specs.declared.orders.Order.{Order};
ghost use Rattle.script_player.specs.Fields.{operand_of, with_second};
ghost use Rattle.script_player.specs.Limits.{most_pages, most_sectors};

use script_player::fields::{number, numbered, numbers, operand, operand_after};
use script_player::limits::{MOST_PAGES, MOST_SECTORS};

/// The number of the last generation, 2^62 - 1.
pub const LAST_GENERATION: u64 = 4_611_686_018_427_387_903;

/// A line that carries numbers alone.
#[derive(Clone, Copy)]
pub enum Order {
    /// `standby PAGES SECTORS G`: the node is a standby for a guest of that shape, and takes checkpoints of generation `G`.
    Standby {
        /// Pages of 4096 bytes of RAM, 1 to 16384.
        pages: u32,
        /// Sectors of 512 bytes of the disk, 1 to 32768.
        sectors: u32,
        /// The generation, 1 to 2^62 - 1.
        generation: u64,
    },
    /// `step N`: so many guest steps, at least 1.
    Step(u64),
    /// `cut`: ends the epoch.
    Cut,
    /// `text N FROM COUNT` or `rawtext N FROM COUNT`: bytes of a pending checkpoint's text.
    Text {
        /// How they are printed.
        form: Form,
        /// The checkpoint's number.
        number: u64,
        /// The place of the first byte, from 0.
        from: u64,
        /// How many bytes, if there are as many.
        count: u64,
    },
    /// `ack G N`: all checkpoints of a generation up to this one are committed.
    Ack {
        /// The generation.
        generation: u64,
        /// The checkpoint's number.
        number: u64,
    },
    /// `alone`: the standby has stopped.
    Alone,
    /// `protect`: a new standby is to come.
    Protect,
    /// `commit`: takes the complete checkpoint into the image.
    Commit,
    /// `restart`: the stream of a checkpoint's text broke off.
    Restart,
    /// `golive`: the standby goes on as a primary.
    GoLive,
    /// `show`: the state in one line.
    Show,
    /// `sector S`: the bytes of sector `S` of the disk, from 0.
    Sector(u64),
}

/// How bytes of a text are printed.
#[derive(Clone, Copy)]
pub enum Form {
    /// As hex digits.
    Hex,
    /// As they are, behind a line that says how many.
    Raw,
}

/// The order that a line spells, if it has one of their forms: fields parted by one space, nothing before or after them. A line has
/// one reading at most.
pub fn read_order(text: &[u8]) -> Option<Order>
    // What is read is spelled so.
    ensures found { IfSome result (λ order. IsOrder text.now order) }
    // What is spelled so is read so.
    ensures only { (order : Order) → IsOrder text.now order → result ≡ Some order }
{
    first_form(text)
}

/// The first form that fits.
fn first_form(text: &[u8]) -> Option<Order>
    ensures { result ≡ order_of text.now }
{
    if text == b"cut".as_slice() {
        return Some(Order::Cut);
    }
    if text == b"alone".as_slice() {
        return Some(Order::Alone);
    }
    if text == b"protect".as_slice() {
        return Some(Order::Protect);
    }
    if text == b"commit".as_slice() {
        return Some(Order::Commit);
    }
    if text == b"restart".as_slice() {
        return Some(Order::Restart);
    }
    if text == b"golive".as_slice() {
        return Some(Order::GoLive);
    }
    if text == b"show".as_slice() {
        return Some(Order::Show);
    }
    if let Some(count) = numbered(text, b"step ") {
        return if count == 0 {
            None
        } else {
            Some(Order::Step(count))
        };
    }
    if let Some((generation, number)) = numbers(text, b"ack ") {
        return Some(Order::Ack { generation, number });
    }
    if let Some((number, from, count)) = three(text, b"text ") {
        return Some(Order::Text {
            form: Form::Hex,
            number,
            from,
            count,
        });
    }
    if let Some((number, from, count)) = three(text, b"rawtext ") {
        return Some(Order::Text {
            form: Form::Raw,
            number,
            from,
            count,
        });
    }
    if let Some(sector) = numbered(text, b"sector ") {
        return Some(Order::Sector(sector));
    }
    if let Some((pages, sectors, generation)) = three(text, b"standby ") {
        return shaped(pages, sectors, generation);
    }
    None
}

/// The order for a standby of a shape and a generation, where these are in their ranges.
fn shaped(pages: u64, sectors: u64, generation: u64) -> Option<Order>
    ensures { result ≡ shaped_order pages sectors generation }
{
    if !is_shaped(pages, sectors, generation) {
        return None;
    }
    Some(Order::Standby {
        pages: pages as u32,
        sectors: sectors as u32,
        generation,
    })
}

/// Whether a machine may have that shape, and a generation that number.
fn is_shaped(pages: u64, sectors: u64, generation: u64) -> bool
    ensures value { result ≡ is_shaped pages sectors generation }
    ensures small { IsTrue result → (pages ≤ most_pages) × (sectors ≤ most_sectors) }
{
    1 <= pages
        && pages <= u64::from(MOST_PAGES)
        && (1 <= sectors && sectors <= u64::from(MOST_SECTORS))
        && (1 <= generation && generation <= LAST_GENERATION)
}

/// The three numbers after `front`, where the text is `front` and three numbers with one space between them.
fn three(text: &[u8], front: &[u8]) -> Option<(u64, u64, u64)>
    ensures { result ≡ three_by front.now text.now }
{
    let (first, rest) = operand_after(text, front)?;
    let (second, third) = two(rest)?;
    Some((first, second, third))
}

/// The two numbers that a text writes, with one space between them.
fn two(text: &[u8]) -> Option<(u64, u64)>
    ensures { result ≡ option_and_then with_second (operand_of text.now) }
{
    let (first, rest) = operand(text)?;
    Some((first, number(rest)?))
}
