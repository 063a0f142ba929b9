//! What a cut records of memory.
ghost use Rattle.std.specs.Prelude.{◌≡◌, ◌+◌, ◌*◌, ◌<◌, ◌≤◌, false, length, [], ◌∷◌, ◌++◌, map, replicate, vec_capacity, OnOk};
ghost use Rattle.guest_rules.specs.Limits.{page_bytes};
ghost use Rattle.epoch_snapshot.specs.Blocks.{IsPageIn, set_blocks, xored, block_in, changed_mask};
ghost use Rattle.epoch_snapshot.specs.Cuts.{changed_pages, changed_blocks};
ghost use Rattle.epoch_cuts.specs.Over.{old_ram};

use epoch_snapshot::{BLOCK_BYTES, Block, PageChange};
use guest_machine::Machine;
use memory_wanted::{MemoryWanted, push, reserve};
use page_lanes::{PAGE_SIZE, Page, mask, xor_blocks};

/// Where at most so many pages were written, the next of them is found in their list, and else by the flags of all pages.
const FEW_WRITTEN: usize = 16;

/// How many pages are passed over in one go where none of them was written.
const GROUP_PAGES: u32 = 256;

/// The same where some page of such a group was written.
const FEW_PAGES: u32 = 16;

/// A page of zeros.
static ZERO_PAGE: Page = [0; PAGE_SIZE];

/// What a checkpoint is cut over.
#[derive(Clone, Copy)]
pub(crate) enum Over {
    /// The machine at its last settle: the checkpoint is a delta.
    Settled,
    /// A machine that is all zero: the checkpoint is full.
    Zero,
}

/// A page of what the checkpoint is cut over.
fn old_page(machine: &Machine, over: Over, page: u32) -> &Page
    requires { page_bytes * page + page_bytes ≤ length machine.now.guest.ram }
    ensures { IsPageIn (old_ram over machine.now) page result.now }
{
    match over {
        Over::Settled => machine.original(page),
        Over::Zero => &ZERO_PAGE,
    }
}

/// Which blocks of a page change.
fn page_mask(machine: &Machine, over: Over, page: u32) -> u64
    requires { page_bytes * page + page_bytes ≤ length machine.now.guest.ram }
    ensures { result ≡ changed_mask (old_ram over machine.now) machine.now.guest.ram page }
{
    mask(old_page(machine, over, page), machine.page(page))
}

/// Whether one of the pages from `from` up to `end` was written since the last settle. It looks at each, so that several are looked
/// at in one go.
fn some_written(machine: &Machine, from: u32, end: u32) -> bool
    requires ordered { from ≤ end }
    requires size { page_bytes * end ≤ length machine.now.guest.ram }
    ensures { result ≡ false →
        changed_pages machine.now.settled machine.now.guest.ram end ≡ changed_pages machine.now.settled machine.now.guest.ram from }
{
    let mut some = false;
    for page in from..end {
        some |= machine.dirty(page);
    }
    some
}

/// A page after `from`, or `pages`, such that none from `from` up to it was written since the last settle. `from` wasn't, as the caller
/// knows.
fn end_of_unwritten(machine: &Machine, from: u32, pages: u32) -> u32
    requires some { from < pages }
    requires size { page_bytes * pages ≤ length machine.now.guest.ram }
    requires here { changed_pages machine.now.settled machine.now.guest.ram (from + 1) ≡
        changed_pages machine.now.settled machine.now.guest.ram from }
    ensures first { from < result }
    ensures last { result ≤ pages }
    ensures same { changed_pages machine.now.settled machine.now.guest.ram result ≡
        changed_pages machine.now.settled machine.now.guest.ram from }
{
    let left = pages - from;
    if from % GROUP_PAGES == 0
        && left >= GROUP_PAGES
        && !some_written(machine, from, from + GROUP_PAGES)
    {
        from + GROUP_PAGES
    } else if from % FEW_PAGES == 0
        && left >= FEW_PAGES
        && !some_written(machine, from, from + FEW_PAGES)
    {
        from + FEW_PAGES
    } else {
        from + 1
    }
}

/// The first page from `from` on that was written since the last settle, or `pages` where none of the first `pages` was.
fn next_written(machine: &Machine, from: u32, pages: u32) -> u32
    requires ordered { from ≤ pages }
    requires size { page_bytes * pages ≤ length machine.now.guest.ram }
    ensures first { from ≤ result }
    ensures last { result ≤ pages }
    ensures same { changed_pages machine.now.settled machine.now.guest.ram result ≡
        changed_pages machine.now.settled machine.now.guest.ram from }
{
    let mut page = from;
    while page < pages && !machine.dirty(page) {
        page = end_of_unwritten(machine, page, pages);
    }
    page
}

/// The same, found in the list of the pages that were written.
fn next_listed(machine: &Machine, from: u32, pages: u32) -> u32
    requires ordered { from ≤ pages }
    requires size { page_bytes * pages ≤ length machine.now.guest.ram }
    ensures first { from ≤ result }
    ensures last { result ≤ pages }
    ensures same { changed_pages machine.now.settled machine.now.guest.ram result ≡
        changed_pages machine.now.settled machine.now.guest.ram from }
{
    machine.next_dirty(from).min(pages)
}

/// The same, by whichever of both takes less time.
fn next_of_written(machine: &Machine, from: u32, pages: u32) -> u32
    requires ordered { from ≤ pages }
    requires size { page_bytes * pages ≤ length machine.now.guest.ram }
    ensures first { from ≤ result }
    ensures last { result ≤ pages }
    ensures same { changed_pages machine.now.settled machine.now.guest.ram result ≡
        changed_pages machine.now.settled machine.now.guest.ram from }
{
    if machine.dirty_count() <= FEW_WRITTEN {
        next_listed(machine, from, pages)
    } else {
        next_written(machine, from, pages)
    }
}

/// The first page from `from` on that isn't all zero, or `pages` where each of the first `pages` is.
fn next_nonzero(machine: &Machine, from: u32, pages: u32) -> u32
    requires ordered { from ≤ pages }
    requires size { page_bytes * pages ≤ length machine.now.guest.ram }
    ensures first { from ≤ result }
    ensures last { result ≤ pages }
    ensures same { let zero = replicate (length machine.now.guest.ram) 0 in
        changed_pages zero machine.now.guest.ram result ≡ changed_pages zero machine.now.guest.ram from }
{
    let mut page = from;
    while page < pages && machine.is_zero(page) {
        page += 1;
    }
    page
}

/// A page from `from` on such that none before it changes, or `pages` where none of the first `pages` does.
fn next_page(machine: &Machine, over: Over, from: u32, pages: u32) -> u32
    requires ordered { from ≤ pages }
    requires size { page_bytes * pages ≤ length machine.now.guest.ram }
    ensures first { from ≤ result }
    ensures last { result ≤ pages }
    ensures same { changed_pages (old_ram over machine.now) machine.now.guest.ram result ≡
        changed_pages (old_ram over machine.now) machine.now.guest.ram from }
{
    match over {
        Over::Settled => next_of_written(machine, from, pages),
        Over::Zero => next_nonzero(machine, from, pages),
    }
}

/// A block of a page.
fn block(page: &Page, number: u32) -> &Block
    requires { number < 64 }
    ensures { result.now ≡ block_in page.now number }
{
    let start = BLOCK_BYTES * number as usize;
    let Ok(block) = <&Block>::try_from(&page[start..start + BLOCK_BYTES]) else {
        unreachable!()
    };
    block
}

/// Puts the blocks that a mask names last into a list that has room for them, the old XOR the new.
fn push_page_blocks(old: &Page, new: &Page, mask: u64, list: &mut Vec<Block>)
    requires { length list.old.items + length (set_blocks mask) ≤ vec_capacity list.old }
    ensures items { list.new.items ≡ list.old.items ++ map (λ i. xored (block_in old.now i) (block_in new.now i)) (set_blocks mask) }
    ensures capacity { vec_capacity list.new ≡ vec_capacity list.old }
{
    // The bits of the mask from block `next` on; those below it are done.
    let mut rest = mask;
    let mut next = 0;
    while rest != 0 {
        let number = next + rest.trailing_zeros();
        list.push_reserved(xor_blocks(block(old, number), block(new, number)));
        next = number + 1;
        rest = mask >> number >> 1;
    }
}

/// Puts a page last into two lists: the page with its mask, and the blocks that the mask names, the old XOR the new. After an error the
/// lists hold what they held, and maybe the page.
fn push_page(
    machine: &Machine,
    over: Over,
    change: PageChange,
    pages: &mut Vec<PageChange>,
    blocks: &mut Vec<Block>,
) -> Result<(), MemoryWanted>
    requires { page_bytes * change.page + page_bytes ≤ length machine.now.guest.ram }
    ensures pages { OnOk result (pages.new.items ≡ pages.old.items ++ change ∷ []) }
    ensures blocks { OnOk result (blocks.new.items
        ≡ blocks.old.items ++ changed_blocks (old_ram over machine.now) machine.now.guest.ram (change ∷ [])) }
{
    push(pages, change)?;
    reserve(blocks, change.mask.count_ones() as usize)?;
    push_page_blocks(
        old_page(machine, over, change.page),
        machine.page(change.page),
        change.mask,
        blocks,
    );
    Ok(())
}

/// Puts those of the first `count` pages that change into two empty lists: each with the mask of its blocks that do, and these blocks, the
/// old XOR the new. After an error the lists hold some of them.
pub(crate) fn push_pages(
    machine: &Machine,
    over: Over,
    count: u32,
    pages: &mut Vec<PageChange>,
    blocks: &mut Vec<Block>,
) -> Result<(), MemoryWanted>
    requires size { page_bytes * count ≤ length machine.now.guest.ram }
    requires no_pages { pages.old.items ≡ [] }
    requires no_blocks { blocks.old.items ≡ [] }
    ensures pages { OnOk result (pages.new.items ≡ changed_pages (old_ram over machine.now) machine.now.guest.ram count) }
    ensures blocks { OnOk result (blocks.new.items ≡ changed_blocks (old_ram over machine.now) machine.now.guest.ram
        (changed_pages (old_ram over machine.now) machine.now.guest.ram count)) }
{
    let mut page = next_page(machine, over, 0, count);
    while page < count {
        let mask = page_mask(machine, over, page);
        if mask != 0 {
            push_page(machine, over, PageChange { page, mask }, pages, blocks)?;
        }
        page = next_page(machine, over, page + 1, count);
    }
    Ok(())
}
