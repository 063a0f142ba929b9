//! The guest that writes one sector of the disk.

ghost use Rattle.std.specs.Prelude.{◌≡◌, IfOk, vec_len};
ghost use Rattle.guest_kit.specs.Image.{image_of};
ghost use Rattle.guest_kit.specs.Disk.{disk_program, disk_words};

use crate::assembler::Reg::{X0, X5, X6, X7, X8};
use crate::assembler::{addi, jal, lui, lw, sw};
use crate::image::{descriptor, place, push_words};
use crate::virtio::{
    ACKNOWLEDGE, BLOCK, DRIVER, DRIVER_FEATURES, DRIVER_FEATURES_SEL, DRIVER_OK, FEATURES_OK, NEXT,
    QUEUE_DESC, QUEUE_DEVICE, QUEUE_DRIVER, QUEUE_NOTIFY, QUEUE_NUM, QUEUE_READY, QUEUE_SEL,
    STATUS, WRITE,
};
use memory_wanted::MemoryWanted;
use std::alloc::Global;

/// Where the descriptors of the queue lie.
const DESCRIPTORS: u64 = 0x8000_1000;
/// Where its available ring lies. The used ring lies 64 bytes behind it.
const AVAILABLE: u64 = 0x8000_1040;
/// Where the head of the request lies: its type, and behind that and 4 reserved bytes its sector.
const HEAD: u64 = 0x8000_1100;

const SECTOR: u64 = 0x8000_1108;
/// Where the device writes the status.
const STATUS_BYTE: u64 = 0x8000_1110;
/// Where the data lie.
const DATA: u64 = 0x8000_1200;

/// The available ring: flags 0, one chain so far, which begins at descriptor 0.
const ONE_AVAILABLE: [u8; 6] = [0, 0, 1, 0, 0, 0];
/// The type of a request that writes.
const WRITES: u32 = 1;
/// What stands in the place of the status until the device has written it.
const UNSERVED: u8 = 0xff;

/// The image of the guest that writes one sector of the disk, all bytes of it this one, with its 23rd instruction, and then jumps
/// to itself for ever. Whether the disk has the sector the device says, in the byte at 0x80001110. It needs 2 pages of RAM.
///
/// The only error is out of memory.
#[tactic(auto, unfolding(crate::specs::Image::image_of))]
pub fn disk_once(alloc: Global, sector: u64, byte: u8) -> Result<Vec<u8>, MemoryWanted>
    ensures image { IfOk result (λ image. image.items ≡ image_of (disk_program sector byte)) }
    ensures size { IfOk result (λ image. vec_len image ≡ 0x1400) }
{
    let mut image = Vec::new(alloc);
    push_words(&mut image, &words())?;
    place(&mut image, DESCRIPTORS, &descriptor(HEAD, 16, NEXT, 1))?;
    place(
        &mut image,
        DESCRIPTORS + 0x10,
        &descriptor(DATA, 512, NEXT, 2),
    )?;
    place(
        &mut image,
        DESCRIPTORS + 0x20,
        &descriptor(STATUS_BYTE, 1, WRITE, 0),
    )?;
    place(&mut image, AVAILABLE, &ONE_AVAILABLE)?;
    place(&mut image, HEAD, &WRITES.to_le_bytes())?;
    place(&mut image, SECTOR, &sector.to_le_bytes())?;
    place(&mut image, STATUS_BYTE, &[UNSERVED])?;
    place(&mut image, DATA, &[byte; 512])?;
    Ok(image)
}

/// The instructions. `x5` holds the first register of the device, and `x6` the number 1.
fn words() -> [u32; 24]
    ensures { result ≡ disk_words }
{
    [
        // the block device
        lui(X5, BLOCK),
        // it is noticed and driven
        addi(X6, X0, 1),
        sw(X6, STATUS, X5),
        addi(X7, X0, ACKNOWLEDGE | DRIVER),
        sw(X7, STATUS, X5),
        // of its features, bit 32 alone
        sw(X6, DRIVER_FEATURES_SEL, X5),
        sw(X6, DRIVER_FEATURES, X5),
        addi(X7, X0, ACKNOWLEDGE | DRIVER | FEATURES_OK),
        sw(X7, STATUS, X5),
        lw(X8, STATUS, X5),
        // queue 0, with four descriptors
        sw(X0, QUEUE_SEL, X5),
        addi(X7, X0, 4),
        sw(X7, QUEUE_NUM, X5),
        lui(X7, 0xffff_ffff_8000_1000),
        sw(X7, QUEUE_DESC, X5),
        addi(X7, X7, 0x40),
        sw(X7, QUEUE_DRIVER, X5),
        addi(X7, X7, 0x40),
        sw(X7, QUEUE_DEVICE, X5),
        sw(X6, QUEUE_READY, X5),
        // the driver is ready
        addi(X7, X0, ACKNOWLEDGE | DRIVER | FEATURES_OK | DRIVER_OK),
        sw(X7, STATUS, X5),
        // the request is made
        sw(X0, QUEUE_NOTIFY, X5),
        // the wait
        jal(X0, 0),
    ]
}
