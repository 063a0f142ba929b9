//! What two nodes do is what a pair does.
ghost use Rattle.std.specs.Prelude.{◌≡◌, ◌≢◌, ◌<◌, ◌≤◌, ◌+◌, ℕ, List, [], ◌∷◌};
ghost use Rattle.checkpoint_stream.specs.Readings.{begun, fed};
ghost use Rattle.checkpoint_stream.specs.Sound.{change_in};
ghost use Rattle.checkpoint_stream.specs.declared.place.Place.TheVariants.{Whole};
ghost use Rattle.frame_ports.specs.Limits.{number_limit};
ghost use Rattle.guest_rules.specs.declared.shapes.Shape.{Shape};
ghost use Rattle.output_gate.specs.Epochs.{Epoch};
ghost use Rattle.pair_core.specs.Nodes.{read_as};
ghost use Rattle.pair_core.specs.Pair.{Pair};
ghost use Rattle.pair_history.specs.Entries.{Frame};
ghost use Rattle.pair_history.specs.HistoryState.{start_state};
ghost use Rattle.pair_nodes.specs.Frames.{AreOut, GoesOnFrom, NoneGoesLive, NoneIsHeardBeyond, out_to, sent_since};
ghost use Rattle.pair_nodes.specs.Handing.{IsCaughtUp, all_let_out, handed_over, handed_site, turned, turned_site};
ghost use Rattle.pair_nodes.specs.Names.{OneNameOneText};
ghost use Rattle.pair_nodes.specs.Matching.{Matches, IsServed, HasRoom};
ghost use Rattle.pair_nodes.specs.Serving.{AreOneGuest, GoesOn, Reach, lone_start, start_moment, start_site};
ghost use Rattle.pair_nodes.specs.Runs.{Begin, Premises, Run, Call, adds, calls_by};
ghost use Rattle.pair_nodes.specs.Sides.{IsFull, Primary, Standby, after_ack, after_alone, live_of};
ghost use Rattle.pair_nodes.specs.Sites.{Site, Happening, Happens, cuts, goes_alone, hear_site};

/// The service that two nodes are for. Over every run of a primary and a standby, with every message between them lost, repeated or got in
/// any order and in any pieces, and at most one of both stopped in each generation before the other goes on: each call of a client is
/// answered as one guest answers it that never fails, behind a network that may lose frames, at points of one history; each frame that a
/// node lets out, to whatever address, was sent by a step of that history, none twice, in the order sent; the history goes on and takes
/// nothing back; and the guest that goes on, with its memory and its disk, is the history's.
pub fn two_nodes_serve_as_one_guest()
    ensures served { (shape : Shape) (image : List ℕ) (clients : ℕ) (calls : List Call) (s : Site) → Reach shape image clients calls s
        → AreOneGuest (start_state shape.pages shape.sectors image clients) (start_moment shape image clients) calls s }
    ensures goes_on { (shape : Shape) (image : List ℕ) (clients : ℕ) (calls : List Call) (s : Site) (r : Reach shape image clients calls s)
        (t : Site) (ys : List Happening) (n : ℕ) (more : List Call) → r.entries + n < number_limit → Run s ys n more t
        → GoesOn (start_state shape.pages shape.sectors image clients) (start_moment shape image clients) calls more s t }
{}

/// What is out after the acknowledgement of a checkpoint is all that the guest had sent up to its cut since the last failure, and where later
/// ones were heard of, or the standby has stopped, what it sent behind that. So it is as long as no standby goes live.
pub fn what_a_checkpoint_covers_is_let_out()
    ensures covered { (shape : Shape) (image : List ℕ) (clients : ℕ) (calls : List Call) (s : Site) (r : Reach shape image clients calls s)
        (t : Site) (ys : List Happening) (n : ℕ) (more : List Call) (text : List ℕ) → r.entries + n < number_limit
        → Run s (cuts text ∷ ys) n more t → NoneGoesLive ys → GoesOnFrom (sent_since s) (out_to s.primary.to_cut t) }
    ensures exactly { (shape : Shape) (image : List ℕ) (clients : ℕ) (calls : List Call) (s : Site) (r : Reach shape image clients calls s)
        (t : Site) (ys : List Happening) (n : ℕ) (more : List Call) (text : List ℕ) → r.entries + n < number_limit
        → Run s (cuts text ∷ ys) n more t → NoneIsHeardBeyond s.primary.to_cut ys → out_to s.primary.to_cut t ≡ sent_since s }
    ensures heard { (s : Site) (n : ℕ) → out_to n (hear_site s n) ≡ (hear_site s n).out.now }
{}

/// Worked rows. One node let a frame out, and another one was lost where it stopped; the next one let out a third. A frame isn't let out
/// twice, nor one that wasn't sent, nor two in another order.
pub fn what_is_let_out_reads_so()
    ensures lost { (a b c : Frame)
        → AreOut (record { before = record { let_out = a ∷ []; lost = b ∷ [] } ∷ []; now = c ∷ [] }) [] (a ∷ b ∷ c ∷ []) }
    ensures twice { (a : Frame)
        → AreOut (record { before = record { let_out = a ∷ []; lost = [] } ∷ []; now = a ∷ [] }) [] (a ∷ []) → ⊥ }
    ensures unsent { (a : Frame) → AreOut (record { before = []; now = a ∷ [] }) [] [] → ⊥ }
    ensures order { (a b : Frame) → a ≢ b → AreOut (record { before = []; now = b ∷ a ∷ [] }) [] (a ∷ b ∷ []) → ⊥ }
{}

/// A primary whose epoch has just been cut turns twice: it goes alone, protects, goes alone and protects. It is then the primary that a
/// standby becomes which has committed that cut, goes live and protects. So the full checkpoint of the new generation can be made of what
/// that standby has, and none needs to come from the primary.
pub fn turning_twice_is_handing_over()
    // Each text of the full checkpoint of the one is one of the other.
    ensures text { (p : Primary) (b : Standby) (t u : List ℕ) → IsCaughtUp p b
        → (IsFull (live_of b) u → IsFull (after_alone (turned p t)) u) × (IsFull (after_alone (turned p t)) u → IsFull (live_of b) u) }
    // With the same text both are the same primary: what the one does then, and each text that it cuts, the other may do and cut.
    ensures same { (p : Primary) (b : Standby) (t u : List ℕ) → IsCaughtUp p b → turned (turned p t) u ≡ handed_over b u }
    // One turn is too few.
    ensures once { (p : Primary) (b : Standby) (t : List ℕ) → IsCaughtUp p b → turned p t ≡ handed_over b t → ⊥ }
    // And which text it kept is nothing of what it is once that checkpoint is acknowledged, with others behind it or without.
    ensures given_up { (p : Primary) (first : Epoch) (later : List Epoch) (t u : List ℕ) (texts : List (List ℕ)) (n : ℕ) → first.number ≤ n
        → after_ack (record p { pending = first ∷ later; texts = t ∷ texts }) n
        ≡ after_ack (record p { pending = first ∷ later; texts = u ∷ texts }) n }
    // Where all was heard of, all that a run goes on from is the same, the messages and the network too, but that a failover ends a turn of
    // what was let out; and what was let out in all is the same.
    ensures site { (s : Site) (t u : List ℕ) → IsCaughtUp s.primary s.standby → s.primary.pending ≡ []
        → record (turned_site (turned_site s t) u) { out = s.out } ≡ record (handed_site s u) { out = s.out } }
    ensures out { (s : Site) (t u : List ℕ) → IsCaughtUp s.primary s.standby → s.primary.pending ≡ []
        → all_let_out (turned_site (turned_site s t) u).out ≡ all_let_out (handed_site s u).out }
{}

/// In whatever pieces a text comes: what stands whole of it reads as the text that was sent.
pub fn what_comes_whole_was_sent()
    ensures { (shape : Shape) (came : List ℕ) (texts : List (List ℕ)) (b : Begin came texts) → (fed (begun shape 0) came).place ≡ Whole
        → change_in (fed (begun shape 0) came) ≡ read_as shape b.0 }
{}

/// No two texts that were ever sent in one run bear the same generation and number.
pub fn each_text_has_a_name_of_its_own()
    ensures { (shape : Shape) (image : List ℕ) (clients : ℕ) (calls : List Call) (s : Site) → Reach shape image clients calls s
        → OneNameOneText s.primary.shape s.texts }
{}

/// A primary that boots alone is one of a pair whose standby has stopped at once.
pub fn one_that_boots_alone_is_one_of_two()
    ensures { (shape : Shape) (image : List ℕ) (clients : ℕ)
        → Happens (start_site shape image clients) goes_alone (lone_start shape image clients) }
{}

/// Each thing that happens at two nodes is a run of the pair that they match.
pub fn what_nodes_do_a_pair_does()
    ensures { (s t : Site) (w : Pair) (x : Happening) (most : ℕ) → Matches s w → HasRoom w (adds s x) → Premises s x most → Happens s x t
        → IsServed w (adds s x) (calls_by s x) t }
{}
