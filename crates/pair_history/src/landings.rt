//! Lists of frames land, and how many entries landings add, counted before.
ghost use Rattle.std.specs.Prelude.{◌≡◌, ◌+◌, ◌-◌, ◌*◌, ◌^◌, ◌≤◌, ◌<◌, All, length, map, take};
ghost use Rattle.frame_ports.specs.Addresses.{IsFrame, targets_of};
ghost use Rattle.frame_ports.specs.Limits.{number_limit};
ghost use Rattle.frame_ports.specs.Ports.{IsClient};
ghost use Rattle.output_gate.specs.Landings.{ports_after, landed_count, dropped_count, told_after};
ghost use Rattle.pair_history.specs.internal.NewFrames.{new_one, new_for, new_after};
ghost use Rattle.pair_history.specs.LandedEntries.{all_frames, entries_after};

use frame_list::FrameList;
use frame_ports::{Frame, NUMBER_LIMIT, Ports};
use output_gate::{
    Listener, land_frame, landings_go_in_parts, listeners_hear_in_parts, one_frame_lands,
    receivers_of,
};

/// Lands the first `count` of these frames in order, the first of them under that number, and tells the listener.
fn land_frames<L: Listener>(
    ports: &mut Ports,
    first: u64,
    frames: &FrameList,
    count: usize,
    listener: &mut L,
)
    requires there { count ≤ length frames.now.items }
    requires frames { All IsFrame (take count frames.now.items) }
    requires numbers { first + count < 2 ^ 64 }
    requires room { landed_count ports.old first (take count frames.now.items) + dropped_count ports.old first (take count frames.now.items)
        ≤ L.room listener.old }
    ensures ports { ports.new ≡ ports_after ports.old first (take count frames.now.items) }
    ensures known { L.known listener.new ≡ told_after L.told (L.known listener.old) ports.old first (take count frames.now.items) }
    ensures room { L.room listener.old ≤ L.room listener.new
        + (landed_count ports.old first (take count frames.now.items) + dropped_count ports.old first (take count frames.now.items)) }
{
    let mut number = first;
    for at in 0..count {
        land_frame(ports, number, frames.bytes(at), listener);
        number += 1;
    }
}

/// How many of these frames, the first of which has that number, have a number below `end`: those that come first.
fn up_to(frames: &FrameList, number: u64, end: u64) -> usize
    ensures frames { take result frames.now.items ≡ take (end - number) frames.now.items }
    ensures there { result ≤ length frames.now.items }
    ensures numbers { number + result < 2 ^ 64 }
{
    let most = end.saturating_sub(number);
    if most < frames.len() as u64 {
        most as usize
    } else {
        frames.len()
    }
}

/// Lands those frames of these lists that have a number below `end`, in order, where the first of all has the number `first`, and tells the
/// listener.
pub(crate) fn land_lists<L: Listener>(
    ports: &mut Ports,
    first: u64,
    end: u64,
    lists: &[FrameList],
    listener: &mut L,
)
    requires frames { All (λ v. All IsFrame v.items) lists.now }
    requires room { landed_count ports.old first (take (end - first) (all_frames (map (λ v. v.items) lists.now)))
        + dropped_count ports.old first (take (end - first) (all_frames (map (λ v. v.items) lists.now))) ≤ L.room listener.old }
    ensures ports { ports.new ≡ ports_after ports.old first (take (end - first) (all_frames (map (λ v. v.items) lists.now))) }
    ensures known { L.known listener.new
        ≡ told_after L.told (L.known listener.old) ports.old first (take (end - first) (all_frames (map (λ v. v.items) lists.now))) }
{
    landings_go_in_parts();
    listeners_hear_in_parts::<L>();
    let mut number = first;
    for frames in lists {
        let known = up_to(frames, number, end);
        land_frames(ports, number, frames, known, listener);
        number += known as u64;
    }
}

/// To how many clients the frames go, all in all.
pub fn count_landings(ports: &Ports, frames: &[Frame]) -> u64
    requires { length frames.now ≤ 2 ^ 58 }
    ensures count { result ≡ length (targets_of (length ports.now.boxes) frames.now) }
    ensures few { result ≤ 16 * length frames.now }
{
    let mut count = 0;
    for frame in frames {
        let bytes = frame.as_slice();
        let clients = receivers_of(ports, bytes);
        count += clients.as_slice().len() as u64;
    }
    count
}

/// 1 where the frame of that number is new for the client, and else 0.
fn count_if_new(ports: &Ports, client: u64, number: u64) -> u64
    requires { IsClient ports.now client }
    ensures count { result ≡ new_one ports.now client number }
    ensures few { result ≤ 1 }
{
    if ports.is_new(client, number) { 1 } else { 0 }
}

/// For how many of these clients the frame of that number is new.
fn count_new(ports: &Ports, clients: &[u64], number: u64) -> u64
    requires known { All (IsClient ports.now) clients.now }
    requires few { length clients.now ≤ 16 }
    ensures count { result ≡ new_for ports.now clients.now number }
    ensures few { result ≤ 16 }
{
    let mut count = 0;
    for client in clients {
        count += count_if_new(ports, *client, number);
    }
    count
}

/// For how many clients the first `known` of these frames are new, the first of which has that number, all in all: as many as there are, but
/// at most 2^62.
fn count_new_frames(ports: &Ports, first: u64, frames: &FrameList, known: usize) -> u64
    requires there { known ≤ length frames.now.items }
    requires numbers { first + known < 2 ^ 64 }
    ensures limit { result ≤ number_limit }
    ensures most { result ≤ new_after ports.now first (take known frames.now.items) }
    ensures exact { result < number_limit → result ≡ new_after ports.now first (take known frames.now.items) }
{
    let mut number = first;
    let mut count = 0;
    for at in 0..known {
        let clients = receivers_of(ports, frames.bytes(at));
        count = NUMBER_LIMIT.min(count + count_new(ports, clients.as_slice(), number));
        number += 1;
    }
    count
}

/// How many entries [`land_lists`] of these lists adds: as many as it does, but at most 2^62.
pub fn count_lists(ports: &Ports, first: u64, end: u64, lists: &[FrameList]) -> u64
    ensures limit { result ≤ number_limit }
    ensures most { result ≤ length (entries_after ports.now first (take (end - first) (all_frames (map (λ v. v.items) lists.now)))) }
    ensures exact { result < number_limit
        → result ≡ length (entries_after ports.now first (take (end - first) (all_frames (map (λ v. v.items) lists.now)))) }
{
    one_frame_lands();
    let mut number = first;
    let mut count = 0;
    for frames in lists {
        let known = up_to(frames, number, end);
        count = NUMBER_LIMIT.min(count + count_new_frames(ports, number, frames, known));
        number += known as u64;
    }
    count
}
