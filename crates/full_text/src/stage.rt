//! The stages of a full checkpoint's text: its pages are searched for, and then its records are made.
ghost use Rattle.std.specs.Prelude.{◌≡◌, ◌≤◌, ◌<◌, ◌+◌, ℕ, List, OnOk, length};
ghost use Rattle.full_text.specs.Full.{AreIn, SearchFits, found_of, most_record, part_of, whole};
ghost use Rattle.full_text.specs.MachineTexts.{HasGoneOn, ahead};
ghost use Rattle.full_text.specs.Stages.{IsKept, IsMade, IsReadyTo, StageFits, made, text_of};
ghost use Rattle.full_text.specs.declared.stage.FullStage.{FullStage};
ghost use Rattle.full_text.specs.declared.stage.FullStage.TheVariants.{Search, Text};

use crate::records::ends_before;
use crate::rows::part_of;
use crate::search::PageSearch;
use crate::text::FullText;
use guest_machine::Machine;
use memory_wanted::MemoryWanted;

/// So many pages more are looked at where a part of a full text is asked for.
const LOOK: u32 = 1024;

/// So many bytes more of a full text are made where a part of it is asked for. So one that is fetched in small parts is whole long before it
/// is fetched, and few of its pages have to be kept where the machine is settled.
const AHEAD: u64 = 1 << 20;

/// The text of a full checkpoint.
#[derive(Drop)]
pub(crate) enum FullStage {
    /// Its pages are searched for.
    Search(PageSearch),
    /// They are found, and its records are made.
    Text(FullText),
}

impl FullStage {
    /// The bytes that are made, from the first on.
    fn made(&self) -> &[u8]
        ensures { result.now ≡ made self.now }
    {
        match self {
            FullStage::Search(search) => search.head(),
            FullStage::Text(text) => text.made(),
        }
    }

    /// Keeps what of the text is still to be made and the machine gives up where it is settled.
    pub(crate) fn keep(&mut self, machine: &Machine) -> Result<(), MemoryWanted>
        requires { StageFits machine.now self.old }
        ensures fits { StageFits machine.now self.new }
        ensures same { text_of machine.now.settled self.new ≡ text_of machine.now.settled self.old }
        ensures kept { OnOk result (IsKept machine.now self.new) }
    {
        let _shape = machine.shape();
        match self {
            FullStage::Search(search) => search.keep(machine),
            FullStage::Text(text) => text.keep(machine),
        }
    }

    /// Looks at the next pages, or makes the next bytes.
    pub(crate) fn on(self, machine: &Machine) -> FullStage
        requires { StageFits machine.now self }
        ensures fits { StageFits machine.now result }
        ensures same { text_of machine.now.settled result ≡ text_of machine.now.settled self }
        ensures further { HasGoneOn 0 self result }
        ensures no_further { length (made result) < length (made self) + ahead + most_record }
    {
        match self {
            FullStage::Search(search) => looked_on(search, machine),
            FullStage::Text(text) => {
                let made = text.made().len() as u64;
                made_to(text, machine, made, AHEAD)
            }
        }
    }

    /// Makes the text up to `count` bytes from place `from` on, or all of it.
    pub(crate) fn on_to(self, machine: &Machine, from: u64, count: u64) -> FullStage
        requires { StageFits machine.now self }
        ensures fits { StageFits machine.now result }
        ensures same { text_of machine.now.settled result ≡ text_of machine.now.settled self }
        ensures made { IsReadyTo (from + count) result }
        ensures further { (before : FullStage) → HasGoneOn 0 before self → HasGoneOn (from + count) before result }
        ensures no_further { length (made self) < length (made result) → length (made result) < from + count + most_record }
    {
        match self {
            FullStage::Search(search) => searched_to(search, machine, from, count),
            FullStage::Text(text) => made_to(text, machine, from, count),
        }
    }

    /// Of the text, which is made as far, the bytes from place `from` on, `count` of them or as many as there are.
    pub(crate) fn part(&self, from: u64, count: u64) -> &[u8]
        requires { IsReadyTo (from + count) self.now }
        ensures { (settled : List ℕ) → result.now ≡ part_of from count (text_of settled self.now) }
    {
        part_of(self.made(), from, count)
    }
}

/// Looks at the next pages.
fn looked_on(mut search: PageSearch, machine: &Machine) -> FullStage
    requires { SearchFits machine.now.settled search }
    ensures fits { StageFits machine.now result }
    ensures same { text_of machine.now.settled result ≡ whole machine.now.settled (found_of machine.now.settled search) }
    ensures further { HasGoneOn 0 (Search search) result }
    ensures no_further { length (made result) ≤ length search.head + 4 }
{
    search.look(machine, LOOK);
    if search.is_done() {
        FullStage::Text(search.finish())
    } else {
        FullStage::Search(search)
    }
}

/// Looks at all pages that are left, unless the head has as many bytes as are wanted.
fn searched_to(mut search: PageSearch, machine: &Machine, from: u64, count: u64) -> FullStage
    requires { SearchFits machine.now.settled search }
    ensures fits { StageFits machine.now result }
    ensures same { text_of machine.now.settled result ≡ whole machine.now.settled (found_of machine.now.settled search) }
    ensures made { IsReadyTo (from + count) result }
    ensures further { (before : FullStage) → HasGoneOn 0 before (Search search) → HasGoneOn (from + count) before result }
    ensures no_further { length search.head < length (made result) → length (made result) < from + count + most_record }
{
    if !ends_before(search.head().len(), from, count) {
        return FullStage::Search(search);
    }
    search.look(machine, u32::MAX);
    made_to(search.finish(), machine, from, count)
}

/// Makes the text up to `count` bytes from place `from` on, or all of it.
fn made_to(mut text: FullText, machine: &Machine, from: u64, count: u64) -> FullStage
    requires { AreIn (length machine.now.settled) text.pages }
    ensures fits { StageFits machine.now result }
    ensures same { text_of machine.now.settled result ≡ whole machine.now.settled text }
    ensures made { IsReadyTo (from + count) result }
    ensures text { IsMade (from + count) result }
    ensures further { (before : FullStage) → HasGoneOn 0 before (Text text) → HasGoneOn (from + count) before result }
    ensures no_further { length text.made < length (made result) → length (made result) < from + count + most_record }
{
    let _shape = machine.shape();
    text.make_to(machine, from, count);
    FullStage::Text(text)
}
