//! The guest that sends one frame.

ghost use Rattle.std.specs.Prelude.{◌≡◌, IfOk, vec_len};
ghost use Rattle.guest_kit.specs.Image.{image_of};
ghost use Rattle.guest_kit.specs.Beacon.{beacon_program, beacon_words, frame_buffer};

use crate::assembler::Reg::{X0, X5, X6, X7, X8};
use crate::assembler::{addi, jal, lui, lw, sw};
use crate::image::{descriptor, place, push_words};
use crate::virtio::{
    ACKNOWLEDGE, DRIVER, DRIVER_FEATURES, DRIVER_FEATURES_SEL, DRIVER_OK, FEATURES_OK, NETWORK,
    QUEUE_DESC, QUEUE_DEVICE, QUEUE_DRIVER, QUEUE_NOTIFY, QUEUE_NUM, QUEUE_READY, QUEUE_SEL,
    STATUS,
};
use memory_wanted::MemoryWanted;
use std::alloc::Global;

/// Where the descriptors of the queue lie.
const DESCRIPTORS: u64 = 0x8000_1000;
/// Where its available ring lies. The used ring lies 64 bytes behind it.
const AVAILABLE: u64 = 0x8000_1040;
/// Where the frame lies, with the header of the network device before it.
const BUFFER: u64 = 0x8000_1100;

/// The available ring: flags 0, one chain so far, which begins at descriptor 0.
const ONE_AVAILABLE: [u8; 6] = [0, 0, 1, 0, 0, 0];

/// The header of the network device, of 12 zero bytes, and the frame from client 1's guest to client 1.
const HEADER_AND_FRAME: &[u8; 26] =
    b"\0\0\0\0\0\0\0\0\0\0\0\0\x02\0\0\0\x01\x01\x02\0\0\0\0\x01\x88\xb5";

/// The image of the guest that sends one frame, of 14 bytes, to client 1, with its 22nd instruction, and then jumps to itself
/// for ever. It needs 2 pages of RAM.
///
/// The only error is out of memory.
#[tactic(auto, unfolding(crate::specs::Image::image_of))]
pub fn beacon(alloc: Global) -> Result<Vec<u8>, MemoryWanted>
    ensures image { IfOk result (λ image. image.items ≡ image_of beacon_program) }
    ensures size { IfOk result (λ image. vec_len image ≡ 0x111a) }
{
    let mut image = Vec::new(alloc);
    push_words(&mut image, &words())?;
    place(&mut image, DESCRIPTORS, &descriptor(BUFFER, 26, 0, 0))?;
    place(&mut image, AVAILABLE, &ONE_AVAILABLE)?;
    place(&mut image, BUFFER, HEADER_AND_FRAME)?;
    Ok(image)
}

/// The instructions. `x5` holds the first register of the device, and `x6` the number 1.
fn words() -> [u32; 23]
    ensures { result ≡ beacon_words }
{
    [
        lui(X5, NETWORK),
        addi(X6, X0, 1),
        // the device's features: bit 32 alone
        sw(X6, STATUS, X5),
        addi(X7, X0, ACKNOWLEDGE | DRIVER),
        sw(X7, STATUS, X5),
        sw(X6, DRIVER_FEATURES_SEL, X5),
        sw(X6, DRIVER_FEATURES, X5),
        addi(X7, X0, ACKNOWLEDGE | DRIVER | FEATURES_OK),
        sw(X7, STATUS, X5),
        lw(X8, STATUS, X5),
        // queue 1, for sending, with one descriptor
        sw(X6, QUEUE_SEL, X5),
        sw(X6, QUEUE_NUM, X5),
        lui(X7, 0xffff_ffff_8000_1000),
        sw(X7, QUEUE_DESC, X5),
        addi(X7, X7, 0x40),
        sw(X7, QUEUE_DRIVER, X5),
        addi(X7, X7, 0x40),
        sw(X7, QUEUE_DEVICE, X5),
        sw(X6, QUEUE_READY, X5),
        addi(X7, X0, ACKNOWLEDGE | DRIVER | FEATURES_OK | DRIVER_OK),
        sw(X7, STATUS, X5),
        // the frame is sent
        sw(X6, QUEUE_NOTIFY, X5),
        jal(X0, 0),
    ]
}
