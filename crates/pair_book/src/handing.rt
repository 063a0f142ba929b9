//! Frames are handed out to the runner.
ghost use Rattle.std.specs.Prelude.{◌≡◌, ◌+◌, ◌*◌, ◌<◌, ◌≤◌, take, length, All, vec_len, vec_capacity};
ghost use Rattle.frame_ports.specs.Addresses.{IsFrame};
ghost use Rattle.frame_ports.specs.Limits.{number_limit};
ghost use Rattle.frame_ports.specs.Ports.{IsClient, inbox_of};
ghost use Rattle.pair_record.specs.Journal.{all_entries};
ghost use Rattle.pair_book.specs.Handing.{handing, handed_all, handed_out};

use pair_history::Frame;
use pair_record::PairRecord;

/// How many frames of one client are handed out at once, at most.
pub(crate) const FRAMES_AT_ONCE: usize = 4;

/// The first four frames of a client's inbox, or all, the first first, go last into the list of those that were handed out, in the room
/// that was made.
fn hand_out_first(pair: &mut PairRecord, client: u64, frames: &mut Vec<(u64, Frame)>)
    requires client { IsClient pair.old.ports client }
    requires inboxes { length pair.old.ports.inboxes ≡ length pair.old.ports.boxes }
    requires numbers { length (all_entries pair.old.protocol.journal) + 4 < number_limit }
    requires arrival_room { 4 ≤ pair.old.arrival_room }
    requires room { vec_len frames.old + 4 ≤ vec_capacity frames.old }
    requires frames { All (λ x. IsFrame x.1) frames.old.items }
    ensures done { handing pair.new.protocol pair.new.ports frames.new.items
        ≡ handed_all client (take 4 (inbox_of pair.old.ports client)) (handing pair.old.protocol pair.old.ports frames.old.items) }
    ensures boxes { length pair.new.ports.boxes ≡ length pair.old.ports.boxes }
    ensures inboxes { length pair.new.ports.inboxes ≡ length pair.new.ports.boxes }
    ensures numbers { length (all_entries pair.new.protocol.journal) ≤ length (all_entries pair.old.protocol.journal) + 4 }
    ensures arrival_room { pair.old.arrival_room ≤ pair.new.arrival_room + 4 }
    ensures len { vec_len frames.new ≤ vec_len frames.old + 4 }
    ensures room { vec_capacity frames.old ≤ vec_capacity frames.new }
    ensures frames { All (λ x. IsFrame x.1) frames.new.items }
{
    for place in 0..FRAMES_AT_ONCE {
        let Some(frame) = pair.hand_out(client) else {
            return;
        };
        frames.push(frame).unwrap();
    }
}

/// The first four frames of each client's inbox, or all, leave it for the guest, clients rising, and go last into that list with their
/// numbers, in the room that was made.
pub(crate) fn hand_out(pair: &mut PairRecord, frames: &mut Vec<(u64, Frame)>)
    requires inboxes { length pair.old.ports.inboxes ≡ length pair.old.ports.boxes }
    requires numbers { length (all_entries pair.old.protocol.journal) + 4 * length pair.old.ports.boxes < number_limit }
    requires arrival_room { 4 * length pair.old.ports.boxes ≤ pair.old.arrival_room }
    requires room { vec_len frames.old + 4 * length pair.old.ports.boxes ≤ vec_capacity frames.old }
    requires frames { All (λ x. IsFrame x.1) frames.old.items }
    ensures done { handing pair.new.protocol pair.new.ports frames.new.items
        ≡ handed_out (length pair.old.ports.boxes) 1 (handing pair.old.protocol pair.old.ports frames.old.items) }
    ensures frames { All (λ x. IsFrame x.1) frames.new.items }
{
    let clients = pair.clients();
    for client in 1..clients + 1 {
        hand_out_first(pair, client, frames);
    }
}
