//! Laws of what checkpoints record, each the contract of a function that does nothing.
ghost use Rattle.std.specs.Prelude.{◌≡◌, ℕ, ◌+◌, ◌*◌, ◌^◌, ◌<◌, ◌≤◌, ◌==◌, ◌↔◌, Bool, IsTrue, if◌then◌else◌};
ghost use Rattle.std.specs.Prelude.{List, [], ◌∷◌, ◌++◌, All, length, map, replicate, count_ones};
ghost use Rattle.std.specs.Int.{bit_at};
ghost use Rattle.guest_rules.specs.Guest.{Guest, State, sector_of};
ghost use Rattle.guest_rules.specs.Limits.{page_bytes};
ghost use Rattle.guest_rules.specs.MachineStates.{IsMachineState, state_of, with_state};
ghost use Rattle.guest_rules.specs.Pages.{page_of};
ghost use Rattle.epoch_snapshot.specs.declared.changes.PageChange.{PageChange};
ghost use Rattle.epoch_snapshot.specs.Bases.{IsFullCut};
ghost use Rattle.epoch_snapshot.specs.Blocks.{IsPageIn, block_in, changed_mask, named_below, set_blocks};
ghost use Rattle.epoch_snapshot.specs.Checkpoints.{Change, IsCanonical};
ghost use Rattle.epoch_snapshot.specs.Cuts.{changed_blocks, changed_pages, used_sectors};
ghost use Rattle.epoch_snapshot.specs.Images.{image_of};

/// A mask names blocks from bit 0 up, as many as it has ones.
pub fn masks_name_blocks()
    ensures next { (mask n : ℕ) → named_below mask (n + 1) ≡ named_below mask n ++ (if bit_at mask n == 1 then n ∷ [] else []) }
    ensures fewer { (mask n : ℕ) → mask < 2 ^ 64 → n < 64 → bit_at mask n ≡ 1 → length (named_below mask n) < count_ones mask }
    ensures all { (mask : ℕ) → mask < 2 ^ 64 → length (set_blocks mask) ≡ count_ones mask }
{}

/// A page of a memory is its blocks. Over a memory that is all zero the blocks that are recorded are the page's own.
pub fn pages_are_their_blocks()
    ensures page { (ram : List ℕ) (page : ℕ) → IsPageIn ram page (page_of ram page) }
    ensures own { (ram : List ℕ) (p : PageChange) → page_bytes * p.page + page_bytes ≤ length ram
        → map (λ i. block_in (page_of ram p.page) i) (set_blocks p.mask) ≡ changed_blocks (replicate (length ram) 0) ram (p ∷ []) }
{}

/// What a cut records is found page by page and sector by sector: one page more is recorded where its mask isn't 0, and one sector more where
/// it isn't blank.
pub fn changes_are_found_in_turn()
    ensures pages { (old new : List ℕ) (n mask : ℕ) → mask ≡ changed_mask old new n
        → changed_pages old new (n + 1) ≡ changed_pages old new n ++ (if mask == 0 then [] else record { page = n; mask = mask } ∷ []) }
    ensures sectors { (bytes : List ℕ) (n : ℕ) (blank : Bool) → IsTrue blank ↔ All (λ b. b ≡ 0) (sector_of bytes n)
        → used_sectors bytes (n + 1) ≡ used_sectors bytes n ++ (if blank then [] else n ∷ []) }
{}

/// A full checkpoint of a machine stands for itself: it is canonical, each of its parts has its width, and over any guest it makes the
/// machine's.
pub fn full_cuts_are_whole()
    ensures canonical { (m : State) (g : ℕ) (c : Change) → IsFullCut m g c → 1 ≤ g → g < 2 ^ 62 → IsMachineState (state_of m.guest)
        → IsCanonical c }
    ensures image { (m : State) (g : ℕ) (c : Change) (base : Guest) → IsFullCut m g c → with_state m.guest (state_of m.guest) ≡ m.guest
        → image_of c base ≡ m.guest }
    ensures masks { (m : State) (g : ℕ) (c : Change) → IsFullCut m g c → All (λ p. p.mask < 2 ^ 64) c.pages }
    ensures blocks { (m : State) (g : ℕ) (c : Change) → IsFullCut m g c → All (λ b. length b ≡ 64) c.blocks }
    ensures sectors { (m : State) (g : ℕ) (c : Change) → IsFullCut m g c → All (λ s. length s.bytes ≡ 512) c.sectors }
{}
