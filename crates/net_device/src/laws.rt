//! Laws of what the card does, each the contract of a function that does nothing.
ghost use Rattle.std.specs.Prelude.{◌≡◌, ℕ, ◌≤◌, true, List, [], ◌∷◌, ◌++◌, All, length, take, drop, replicate};
ghost use Rattle.arrayvec.specs.ArrayVec.{ArrayVec};
ghost use Rattle.virtio_mmio.specs.declared.kinds.DeviceKind.TheVariants.{Network};
ghost use Rattle.virtio_mmio.specs.declared.states.DeviceState.{DeviceState};
ghost use Rattle.virtio_mmio.specs.States.{IsDeviceRecord};
ghost use Rattle.net_device.specs.Frames.{IsFrame};
ghost use Rattle.net_device.specs.Transmit.{rests, served};
ghost use Rattle.net_device.specs.Receive.{received};
ghost use Rattle.net_device.specs.Worked.{
  running,
  with_table_at,
  not_ready,
  descriptor,
  readable,
  writable,
  ram_with,
  worked_frame,
  used_ring,
  used_bytes,
  sent_lengths,
  spoiled,
  with_second,
  first_used,
  worked_queue,
  FirstStays,
  arriving,
  arrived,
  stays,
  broke,
};

/// Whatever stands in RAM, a notify of the transmit queue sends at most 64 frames, each of 14 to 1514 bytes.
pub fn sent_frames()
    ensures frames { (ram : List ℕ) (net : DeviceState) → All IsFrame (served ram net).frames }
    ensures most { (ram : List ℕ) (net : DeviceState) → length (served ram net).frames ≤ 64 }
{}

/// A record that meets the rules of a network card's record still meets them after a notify and after a frame arrived, and RAM
/// is as long as it was.
pub fn kept_rules()
    ensures sending { (ram : List ℕ) (net : DeviceState) → IsDeviceRecord Network net → IsDeviceRecord Network (served ram net).net }
    ensures receiving { (ram : List ℕ) (net : DeviceState) (frame : ArrayVec ℕ) → IsDeviceRecord Network net →
        IsDeviceRecord Network (received ram net frame).net }
    ensures sending_memory { (ram : List ℕ) (net : DeviceState) → IsDeviceRecord Network net → length (served ram net).ram ≡ length ram }
    ensures receiving_memory { (ram : List ℕ) (net : DeviceState) (frame : ArrayVec ℕ) → IsDeviceRecord Network net →
        length (received ram net frame).ram ≡ length ram }
{}

/// Worked packets: two by an available idx of 2 and 64 by one of 64; a packet of 25 bytes has no frame, but its chain is
/// used with length 0, and the driver told; frames of 14 and of 1514 bytes are sent, of 13 and of 1515 not.
pub fn packets_sent()
    ensures two { (served (ram_with 2 (readable 26) (readable 26)) running).frames ≡ worked_frame ∷ worked_frame ∷ [] }
    ensures used { used_ring (served (ram_with 2 (readable 26) (readable 26)) running).ram ≡ used_bytes 2 0 0 1 0 }
    ensures many { (served (ram_with 64 (readable 26) (readable 26)) running).frames ≡ replicate 64 worked_frame }
    ensures none { sent_lengths 25 ≡ [] }
    ensures none_used { used_ring (served (ram_with 1 (readable 25) (readable 25)) running).ram ≡ used_bytes 1 0 0 0 0 }
    ensures told { (served (ram_with 1 (readable 25) (readable 25)) running).net.interrupt_status ≡ 1 }
    ensures shortest { sent_lengths 26 ≡ 14 ∷ [] }
    ensures longest { sent_lengths 1526 ≡ 1514 ∷ [] }
    ensures too_long { sent_lengths 1527 ≡ [] }
    ensures outside_service { served (ram_with 2 (readable 26) (readable 26)) not_ready
        ≡ rests (ram_with 2 (readable 26) (readable 26)) not_ready }
{}

/// Worked malformations of the transmit queue, each with nothing before it: a table that isn't aligned or lies outside,
/// 65 chains, a next past the table, an indirect descriptor, a buffer outside, a readable one behind a writable one, a
/// chain that comes back to itself, and a writable one.
pub fn transmit_breaks()
    ensures misaligned { served (ram_with 1 (readable 26) (readable 26)) (with_table_at 0x80000008)
        ≡ spoiled (ram_with 1 (readable 26) (readable 26)) (with_table_at 0x80000008) }
    ensures area_outside { served (ram_with 1 (readable 26) (readable 26)) (with_table_at 0x800007f0)
        ≡ spoiled (ram_with 1 (readable 26) (readable 26)) (with_table_at 0x800007f0) }
    ensures too_many { served (ram_with 65 (readable 26) (readable 26)) running
        ≡ spoiled (ram_with 65 (readable 26) (readable 26)) running }
    ensures bad_index { served (ram_with 1 (descriptor 0x80000100 26 1 2) (readable 26)) running
        ≡ spoiled (ram_with 1 (descriptor 0x80000100 26 1 2) (readable 26)) running }
    ensures indirect { served (ram_with 1 (descriptor 0x80000100 26 4 0) (readable 26)) running
        ≡ spoiled (ram_with 1 (descriptor 0x80000100 26 4 0) (readable 26)) running }
    ensures outside { served (ram_with 1 (descriptor 0x800007f0 26 0 0) (readable 26)) running
        ≡ spoiled (ram_with 1 (descriptor 0x800007f0 26 0 0) (readable 26)) running }
    ensures order { served (ram_with 1 (descriptor 0x80000100 26 3 1) (readable 26)) running
        ≡ spoiled (ram_with 1 (descriptor 0x80000100 26 3 1) (readable 26)) running }
    ensures comes_back { served (ram_with 1 (descriptor 0x80000100 26 1 0) (readable 26)) running
        ≡ spoiled (ram_with 1 (descriptor 0x80000100 26 1 0) (readable 26)) running }
    ensures direction { served (ram_with 1 (writable 26) (readable 26)) running ≡ spoiled (ram_with 1 (writable 26) (readable 26)) running }
{}

/// Worked malformations behind a good chain, which stays served: a next past the table, an indirect descriptor, a buffer
/// outside, a readable one behind a writable one, a chain that comes back to itself, and a writable one.
pub fn earlier_chains_stay()
    ensures bad_index { FirstStays (with_second (descriptor 0x80000100 26 1 2)) }
    ensures indirect { FirstStays (with_second (descriptor 0x80000100 26 4 0)) }
    ensures outside { FirstStays (with_second (descriptor 0x800007f0 26 0 0)) }
    ensures order { FirstStays (with_second (descriptor 0x80000100 26 3 0)) }
    ensures comes_back { FirstStays (with_second (descriptor 0x80000100 26 1 1)) }
    ensures direction { FirstStays (with_second (writable 26)) }
{}

/// Worked arrivals: a frame of 14 bytes fits a buffer of 26, and two of 13; with no chain, a buffer of 25 bytes, or a card
/// that isn't in service it is lost, and nothing changes.
pub fn packets_received()
    ensures taken { (arrived 1 (writable 26) (writable 26)).taken ≡ true }
    ensures bytes { take 27 (drop 0x100 (arrived 1 (writable 26) (writable 26)).ram) ≡ replicate 10 0 ++ 1 ∷ 0 ∷ arriving.items ++ 0 ∷ [] }
    ensures used { used_ring (arrived 1 (writable 26) (writable 26)).ram ≡ used_bytes 1 0 26 0 0 }
    ensures card { (arrived 1 (writable 26) (writable 26)).net
        ≡ record running { interrupt_status = 1; queues = first_used ∷ worked_queue ∷ [] } }
    ensures first_half { take 14 (drop 0x100 (arrived 1 (descriptor 0x80000100 13 3 1) (descriptor 0x80000200 13 2 0)).ram)
        ≡ replicate 10 0 ++ 1 ∷ 0 ∷ 0xff ∷ 0 ∷ [] }
    ensures second_half { take 14 (drop 0x200 (arrived 1 (descriptor 0x80000100 13 3 1) (descriptor 0x80000200 13 2 0)).ram)
        ≡ drop 1 arriving.items ++ 0 ∷ [] }
    ensures none { arrived 0 (writable 26) (writable 26) ≡ stays (ram_with 0 (writable 26) (writable 26)) running }
    ensures short { arrived 1 (writable 25) (writable 26) ≡ stays (ram_with 1 (writable 25) (writable 26)) running }
    ensures outside_service { received (ram_with 1 (writable 26) (writable 26)) not_ready arriving
        ≡ stays (ram_with 1 (writable 26) (writable 26)) not_ready }
{}

/// Worked malformations of the receive queue: a readable buffer, also one that is too short, and one before a writable
/// one; an indirect descriptor, and 65 chains.
pub fn receive_breaks()
    ensures direction { arrived 1 (readable 26) (writable 26) ≡ broke (ram_with 1 (readable 26) (writable 26)) }
    ensures direction_first { arrived 1 (readable 5) (writable 26) ≡ broke (ram_with 1 (readable 5) (writable 26)) }
    ensures mixed { arrived 1 (descriptor 0x80000100 12 1 1) (writable 26)
        ≡ broke (ram_with 1 (descriptor 0x80000100 12 1 1) (writable 26)) }
    ensures indirect { arrived 1 (descriptor 0x80000100 26 6 0) (writable 26)
        ≡ broke (ram_with 1 (descriptor 0x80000100 26 6 0) (writable 26)) }
    ensures too_many { arrived 65 (writable 26) (writable 26) ≡ broke (ram_with 65 (writable 26) (writable 26)) }
{}
