//! Which pages of a machine weren't all zero at its last settle.
ghost use Rattle.std.specs.Prelude.{◌≡◌, ◌+◌, ◌*◌, ◌^◌, ◌≤◌, ◌<◌, ◌++◌, ◌∷◌, [], ◌==◌, true, length, if◌then◌else◌, vec_capacity, All};
ghost use Rattle.guest_rules.specs.Limits.{page_bytes};
ghost use Rattle.full_text.specs.Full.{page_at};
ghost use Rattle.full_text.specs.UsedPages.{used_mask, used_pages};

use crate::kept::KeptPages;
use crate::records::{block, page_of};
use epoch_snapshot::PageChange;
use guest_machine::Machine;
use page_lanes::{Page, is_zero};

/// The mask of the first blocks of a page that aren't all zero, with one block more.
#[inline(always)]
fn with_block(mask: u64, page: &Page, number: u32) -> u64
    requires below { number < 64 }
    requires so_far { mask ≡ used_mask page.now number }
    ensures { result ≡ used_mask page.now (number + 1) }
{
    mask + (u64::from(!is_zero(block(page, number))) << number)
}

/// Which blocks of a page aren't all zero. It goes over memory in the order in which it stands there, and looks at nothing beside it.
fn page_mask(page: &Page) -> u64
    ensures { result ≡ used_mask page.now 64 }
{
    let mut mask = 0;
    for number in 0..64 {
        mask = with_block(mask, page, number);
    }
    mask
}

/// Which blocks of four pages in turn aren't all zero. It goes over them side by side: memory gives them in four fifths of the time that
/// they take one after another, since a processor fetches ahead in each page by itself.
fn four_masks(machine: &Machine, kept: &KeptPages, page: u32) -> [u64; 4]
    requires few { page + 4 < 2 ^ 32 }
    requires size { page_bytes * page + 4 * page_bytes ≤ length machine.now.guest.ram }
    ensures { let bytes = page_at machine.now.settled kept.now in result ≡ used_mask (bytes page) 64 ∷ used_mask (bytes (page + 1)) 64
        ∷ used_mask (bytes (page + 2)) 64 ∷ used_mask (bytes (page + 3)) 64 ∷ [] }
{
    let first = page_of(machine, kept, page);
    let second = page_of(machine, kept, page + 1);
    let third = page_of(machine, kept, page + 2);
    let fourth = page_of(machine, kept, page + 3);
    let (mut a, mut b, mut c, mut d) = (0, 0, 0, 0);
    for number in 0..64 {
        a = with_block(a, first, number);
        b = with_block(b, second, number);
        c = with_block(c, third, number);
        d = with_block(d, fourth, number);
    }
    [a, b, c, d]
}

/// Puts a page of this mask last in a list that has room for it, unless the mask names no block.
fn add_page(pages: &mut Vec<PageChange>, page: u32, mask: u64)
    requires { length pages.old.items < vec_capacity pages.old }
    ensures few { length pages.new.items ≤ length pages.old.items + 1 }
    ensures pages { pages.new.items ≡ pages.old.items ++ (if mask == 0 then [] else record { page = page; mask = mask } ∷ []) }
    ensures room { vec_capacity pages.old ≤ vec_capacity pages.new }
{
    if mask != 0 {
        match pages.push(PageChange { page, mask }) {
            Ok(()) => {}
            Err(_) => unreachable!(),
        }
    }
}

/// Puts those of four pages in turn last that aren't all zero, behind those of the pages before them.
fn add_four(machine: &Machine, kept: &KeptPages, page: u32, pages: &mut Vec<PageChange>)
    requires few { page + 4 < 2 ^ 32 }
    requires size { page_bytes * page + 4 * page_bytes ≤ length machine.now.guest.ram }
    requires so_far { pages.old.items ≡ used_pages (page_at machine.now.settled kept.now) page }
    requires room { length pages.old.items + 4 ≤ vec_capacity pages.old }
    ensures few { length pages.new.items ≤ length pages.old.items + 4 }
    ensures pages { pages.new.items ≡ used_pages (page_at machine.now.settled kept.now) (page + 4) }
    ensures room { vec_capacity pages.old ≤ vec_capacity pages.new }
{
    let [a, b, c, d] = four_masks(machine, kept, page);
    add_page(pages, page, a);
    add_page(pages, page + 1, b);
    add_page(pages, page + 2, c);
    add_page(pages, page + 3, d);
}

/// Whether a page was all zero, where that is soon known: nothing is kept of it, and it wasn't written since the machine's last settle. One
/// into which nothing was put since boot isn't looked at.
fn was_zero(machine: &Machine, kept: &KeptPages, page: u32) -> bool
    requires { page_bytes * page + page_bytes ≤ length machine.now.guest.ram }
    ensures { result ≡ true → All (λ b. b ≡ 0) (page_at machine.now.settled kept.now page) }
{
    match kept.find(page) {
        None => !machine.dirty(page) && machine.is_zero(page),
        Some(_) => false,
    }
}

/// A page from `from` on such that each before it was all zero, or `to` where each of the pages up to it was.
fn next_used(machine: &Machine, kept: &KeptPages, from: u32, to: u32) -> u32
    requires order { from ≤ to }
    requires size { page_bytes * to ≤ length machine.now.guest.ram }
    ensures first { from ≤ result }
    ensures last { result ≤ to }
    ensures same { used_pages (page_at machine.now.settled kept.now) result ≡ used_pages (page_at machine.now.settled kept.now) from }
{
    let mut page = from;
    while page < to && was_zero(machine, kept, page) {
        page += 1;
    }
    page
}

/// Puts those of the pages from `from` up to `to` last that weren't all zero, each with the mask of its blocks that weren't, behind those of the
/// pages before them. The list has room for all.
pub(crate) fn find_pages(
    machine: &Machine,
    kept: &KeptPages,
    from: u32,
    to: u32,
    pages: &mut Vec<PageChange>,
)
    requires order { from ≤ to }
    requires size { page_bytes * to ≤ length machine.now.guest.ram }
    requires so_far { pages.old.items ≡ used_pages (page_at machine.now.settled kept.now) from }
    requires few { length pages.old.items ≤ from }
    requires room { to ≤ vec_capacity pages.old }
    ensures few { length pages.new.items ≤ to }
    ensures pages { pages.new.items ≡ used_pages (page_at machine.now.settled kept.now) to }
    ensures room { vec_capacity pages.old ≤ vec_capacity pages.new }
{
    let mut page = next_used(machine, kept, from, to);
    while to - page >= 4 {
        add_four(machine, kept, page, pages);
        page = next_used(machine, kept, page + 4, to);
    }
    while page < to {
        add_page(pages, page, page_mask(page_of(machine, kept, page)));
        page += 1;
    }
}
