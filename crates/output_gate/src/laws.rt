//! What landings under numbers come to.
ghost use Rattle.std.specs.Prelude.{◌≡◌, ◌≢◌, ℕ, ◌+◌, ◌<◌, ◌≤◌, List, ◌++◌, length};
ghost use Rattle.arrayvec.specs.ArrayVec.{ArrayVec};
ghost use Rattle.frame_ports.specs.Addresses.{targets_of};
ghost use Rattle.frame_ports.specs.Lands.{lands, put_count, drop_count};
ghost use Rattle.frame_ports.specs.Numbers.{after_landing, is_new, last_come};
ghost use Rattle.frame_ports.specs.Ports.{PortsState};
ghost use Rattle.output_gate.specs.Landings.{clients_for, landed_for, ports_after, landed_count, dropped_count, told_after};
ghost use Rattle.output_gate.specs.Landings.{AreBelow, AreOld, AreRising, HaveRisen, last_number};

use crate::listener::Listener;

/// Frames whose numbers are above every client's land as if they had none: each in the boxes of its clients, in order. They change
/// the boxes and the numbers only. Then the number of a client is that of the last frame that goes to it, and every client's is
/// below the number after the last one.
#[tactic(auto, using(crate::proofs::LandedLaws::new_frames))]
pub fn new_frames_land()
    ensures boxes { (p : PortsState) (first : ℕ) (fs : List (ArrayVec ℕ)) → AreBelow p first
        → (ports_after p first fs).boxes ≡ lands p.boxes (targets_of (length p.boxes) fs) }
    ensures landed { (p : PortsState) (first : ℕ) (fs : List (ArrayVec ℕ)) → AreBelow p first
        → landed_count p first fs ≡ put_count p.boxes (targets_of (length p.boxes) fs) }
    ensures dropped { (p : PortsState) (first : ℕ) (fs : List (ArrayVec ℕ)) → AreBelow p first
        → dropped_count p first fs ≡ drop_count p.boxes (targets_of (length p.boxes) fs) }
    ensures rest { (p : PortsState) (first : ℕ) (fs : List (ArrayVec ℕ))
        → ((ports_after p first fs).next ≡ p.next) × ((ports_after p first fs).inboxes ≡ p.inboxes) }
    ensures numbers { (p : PortsState) (first : ℕ) (fs : List (ArrayVec ℕ)) (c : ℕ) → AreBelow p first → length p.numbers ≡ length p.boxes
        → 1 ≤ c → c ≤ length p.boxes → last_come (ports_after p first fs) c ≡ last_number c first fs (last_come p c) }
    ensures below { (p : PortsState) (first : ℕ) (fs : List (ArrayVec ℕ)) → AreBelow p first
        → AreBelow (ports_after p first fs) (first + length fs) }
{}

/// Frames that came before for each of their clients change nothing, and count as nothing. Frames are such once they have landed,
/// and stay so, since numbers only rise until they are marked.
#[tactic(auto, using(crate::proofs::LandedLaws::old_frames))]
pub fn old_frames_stay()
    ensures ports { (p : PortsState) (first : ℕ) (fs : List (ArrayVec ℕ)) → AreOld p first fs → ports_after p first fs ≡ p }
    ensures landed { (p : PortsState) (first : ℕ) (fs : List (ArrayVec ℕ)) → AreOld p first fs → landed_count p first fs ≡ 0 }
    ensures dropped { (p : PortsState) (first : ℕ) (fs : List (ArrayVec ℕ)) → AreOld p first fs → dropped_count p first fs ≡ 0 }
    ensures old { (p : PortsState) (first : ℕ) (fs : List (ArrayVec ℕ)) → length p.numbers ≡ length p.boxes
        → AreOld (ports_after p first fs) first fs }
    ensures stay { (p q : PortsState) (first : ℕ) (fs : List (ArrayVec ℕ)) → HaveRisen p q → AreOld p first fs → AreOld q first fs }
    ensures rise { (p : PortsState) (first : ℕ) (fs : List (ArrayVec ℕ)) → HaveRisen p (ports_after p first fs) }
{}

/// A frame lands for its clients in rising order, for each once. Where it comes for a client, the others' numbers stay; the clients stay as
/// many, and later frames as new as before.
pub fn one_frame_lands()
    ensures rise { (p : PortsState) (f : ArrayVec ℕ) → AreRising (clients_for p f) }
    ensures others { (p : PortsState) (c n : ℕ) (f : ArrayVec ℕ) (d : ℕ) → 1 ≤ c → 1 ≤ d → d ≢ c
        → last_come (after_landing p c n f) d ≡ last_come p d }
    ensures clients { (p : PortsState) (cs : List ℕ) (n : ℕ) (f : ArrayVec ℕ) → length (landed_for p cs n f).boxes ≡ length p.boxes }
    ensures later { (p : PortsState) (cs : List ℕ) (n : ℕ) (f : ArrayVec ℕ) (d m : ℕ) → n < m
        → is_new (landed_for p cs n f) d m ≡ is_new p d m }
{}

/// Frames that land in two parts, the numbers of the second going on from the first, land as in one.
#[tactic(auto, using(crate::proofs::LandedLaws::in_parts))]
pub fn landings_go_in_parts()
    ensures ports { (p : PortsState) (first : ℕ) (fs gs : List (ArrayVec ℕ))
        → ports_after p first (fs ++ gs) ≡ ports_after (ports_after p first fs) (first + length fs) gs }
    ensures landed { (p : PortsState) (first : ℕ) (fs gs : List (ArrayVec ℕ)) → landed_count p first (fs ++ gs)
        ≡ landed_count p first fs + landed_count (ports_after p first fs) (first + length fs) gs }
    ensures dropped { (p : PortsState) (first : ℕ) (fs gs : List (ArrayVec ℕ)) → dropped_count p first (fs ++ gs)
        ≡ dropped_count p first fs + dropped_count (ports_after p first fs) (first + length fs) gs }
{}

/// A listener hears the same of frames that land in two parts as of them in one.
pub fn listeners_hear_in_parts<L: Listener>()
    ensures { (x : L.Known) (p : PortsState) (first : ℕ) (fs gs : List (ArrayVec ℕ)) → told_after L.told x p first (fs ++ gs)
        ≡ told_after L.told (told_after L.told x p first fs) (ports_after p first fs) (first + length fs) gs }
{}
