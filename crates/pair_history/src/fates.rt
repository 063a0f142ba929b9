//! What becomes of the frames that clients deliver, and to whom those of the guest go.
ghost use Rattle.std.specs.Prelude.{◌≡◌, ℕ, ◌+◌, ◌++◌, List, length};
ghost use Rattle.std.specs.List.{filter, range_with_len};
ghost use Rattle.std.specs.List.Sorted.{IsPermutation};
ghost use Rattle.guest_rules.specs.Step.{sent};
ghost use Rattle.frame_ports.specs.Addresses.{addressed};
ghost use Rattle.pair_history.specs.Entries.{Entry};
ghost use Rattle.pair_history.specs.Failures.{arrived_numbers, dropped_numbers};
ghost use Rattle.pair_history.specs.Fates.{delivered_numbers, waiting_numbers};
ghost use Rattle.pair_history.specs.HistoryState.{HistoryState, IsClient, at, Legal};
ghost use Rattle.pair_history.specs.Released.{frames_for};

/// Delivered frames are numbered one after another, and each has one fate: of those that waited at first and those that a legal
/// history delivered, each either arrived at the guest, or was dropped before it could, or waits in the end, and none twice.
#[tactic(auto, using(crate::proofs::FateLaws::fates, crate::proofs::FateLaws::numbered))]
pub fn delivered_frames_have_one_fate()
    ensures numbers { (s : HistoryState) (es : List Entry) → Legal s es
        → delivered_numbers es ≡ range_with_len s.number (length (delivered_numbers es)) }
    ensures next_number { (s : HistoryState) (es : List Entry) → Legal s es
        → (at s es).number ≡ s.number + length (delivered_numbers es) }
    ensures fate { (s : HistoryState) (es : List Entry) → Legal s es
        → IsPermutation (waiting_numbers s.waiting ++ delivered_numbers es)
        (arrived_numbers es ++ (dropped_numbers es ++ waiting_numbers (at s es).waiting)) }
{}

/// The frames that the guest's next step sends to a client are those that are addressed to it, in order.
#[tactic(auto, using(crate::proofs::AddressedLaws::address_laws))]
pub fn sent_frames_go_by_address()
    ensures { (s : HistoryState) (c : ℕ) → IsClient s c → frames_for c s ≡ filter (λ f. addressed f.items c) (sent s.guest) }
{}
