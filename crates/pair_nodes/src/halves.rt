//! What a node's calls answer and leave is what may happen at its half of a run.
ghost use Rattle.std.specs.Prelude.{◌≡◌, ◌≤◌, ◌<◌, ◌++◌, ◌∷◌, ℕ, List, [], Ok, Err, true, false, length};
ghost use Rattle.checkpoint_stream.specs.declared.place.Place.TheVariants.{Whole};
ghost use Rattle.full_text.specs.Full.{IsMost};
ghost use Rattle.pair_record.specs.declared.event.Packet.{Packet};
ghost use Rattle.pair_record.specs.declared.event.Refusal.TheVariants.{CutNeeded};
ghost use Rattle.pair_nodes.specs.PrimaryCalls.{IsSealed, IsSteps, IsProtected, ack_rows, alone_rows, after_release, part_of, text_part};
ghost use Rattle.pair_nodes.specs.Halves.{acknowledged_by};
ghost use Rattle.pair_nodes.specs.Refusing.{IsFree};
ghost use Rattle.pair_nodes.specs.Sides.{Primary, after_ack, after_alone, after_piece, live_of, restarted};
ghost use Rattle.pair_nodes.specs.Sites.{Site, Happens, cuts, sends, hears, goes_alone, protects, steps, lone_steps, gets, restarts, commits};
ghost use Rattle.pair_nodes.specs.Sites.{goes_live, alone_site, hear_site, live_site, lone_site, piece_site, protect_site, restart_site};
ghost use Rattle.pair_nodes.specs.Sites.{run_site, whole_site};
ghost use Rattle.pair_nodes.specs.StandbyCalls.{commit_outcome, live_rows};

/// Each call of a primary, answered as its contract says, is something that may happen at its site, and leaves the primary that this leaves.
pub fn what_a_primary_does_may_happen()
    ensures cut { (s : Site) (count : ℕ) (q : Primary) → IsSealed s.primary count q
        → (text : List ℕ) × (length text ≡ count) × Happens s (cuts text) (record s { primary = q }) }
    ensures text { (s : Site) (n from count : ℕ) (bytes : List ℕ) → s.primary.backed ≡ true → text_part s.primary n from count ≡ Ok bytes
        → (k : ℕ) × (text : List ℕ) × (bytes ≡ part_of from count text)
        × Happens s (sends k) (record s { texts = s.texts ++ text ∷ [] }) }
    ensures acknowledge { (s : Site) (ack : Packet) → IsFree (ack_rows s.primary ack)
        → Happens s (hears ack) (hear_site s ack.number) × ((hear_site s ack.number).primary ≡ after_ack s.primary ack.number) }
    ensures alone { (s : Site) → IsFree (alone_rows s.primary) → length s.primary.live.outbox ≤ 256
        → Happens s goes_alone (alone_site s) × ((alone_site s).primary ≡ after_alone s.primary) }
    ensures protect { (s : Site) (count : ℕ) (q : Primary) → IsProtected s.primary count q
        → (text : List ℕ) × IsMost count text s.primary.live.guest.ram × Happens s (protects text) (protect_site s text) × ((protect_site s text).primary ≡ q) }
    ensures step { (s : Site) (count made : ℕ) (q : Primary) → s.primary.backed ≡ true → IsSteps count s.primary (Ok made) q
        → Happens s (steps made) (run_site made s) × ((run_site made s).primary ≡ q) }
    ensures full { (s : Site) (count : ℕ) (q : Primary) → IsSteps count s.primary (Err CutNeeded) q
        → (made : ℕ) × (made < count) × Happens s (steps made) (run_site made s) × ((run_site made s).primary ≡ q) }
    ensures lone { (s : Site) (count made : ℕ) (q : Primary) → s.primary.backed ≡ false → s.primary.live.outbox ≡ []
        → IsSteps count s.primary (Ok made) q
        → Happens s (lone_steps made) (lone_site made s) × ((lone_site made s).primary ≡ after_release q) }
{}

/// And so is each call of a standby. What a commit answers is acknowledged.
pub fn what_a_standby_does_may_happen()
    ensures piece { (s : Site) (bytes : List ℕ) → Happens s (gets bytes) (piece_site s bytes)
        × ((piece_site s bytes).standby ≡ after_piece s.standby bytes) }
    ensures restart { (s : Site) → Happens s restarts (restart_site s) × ((restart_site s).standby ≡ restarted s.standby) }
    ensures commit { (s : Site) → s.standby.reading.place ≡ Whole
        → Happens s commits (whole_site s) × ((whole_site s).standby ≡ (commit_outcome s.standby).1)
        × ((whole_site s).acks ≡ s.acks ++ acknowledged_by (commit_outcome s.standby).0) }
    ensures go_live { (s : Site) → IsFree (live_rows s.standby)
        → Happens s goes_live (live_site s) × ((live_site s).primary ≡ live_of s.standby) }
{}
