//! The guest that sends each frame back to where it came from.

ghost use Rattle.std.specs.Prelude.{◌≡◌, ◌+◌, ◌++◌, IfOk, OnOk, vec_len};
ghost use Rattle.guest_kit.specs.Image.{image_of, word_bytes};
ghost use Rattle.guest_kit.specs.Echo.{echo_program, echo_words, echo_setup, echo_turn, echo_send};

use crate::assembler::Reg::{X0, X5, X6, X7, X8, X9, X10, X11, X12, X13, X14, X15};
use crate::assembler::{
    add, addi, andi, auipc, back, beq, bne, fence, jal, lhu, lui, lw, lwu, sh, slli, srli, sw,
};
use crate::image::{descriptor, place, push_words};
use crate::virtio::{
    ACKNOWLEDGE, DRIVER, DRIVER_FEATURES, DRIVER_FEATURES_SEL, DRIVER_OK, FEATURES_OK,
    INTERRUPT_ACK, INTERRUPT_STATUS, NETWORK, QUEUE_DESC, QUEUE_DEVICE, QUEUE_DRIVER, QUEUE_NOTIFY,
    QUEUE_NUM, QUEUE_READY, QUEUE_SEL, STATUS, WRITE,
};
use memory_wanted::MemoryWanted;
use std::alloc::Global;

/// Where the receiving queue's descriptors lie, at the start of a page; its available ring lies 64 bytes behind them, and its
/// used ring as far again. The sending queue's lie 256 bytes behind these.
const RECEIVING_QUEUE: u64 = 0x8000_1000;

const RECEIVING_RING: u64 = 0x8000_1040;

const SENDING_QUEUE: u64 = 0x8000_1100;

const SENDING_RING: u64 = 0x8000_1140;

/// Where the first of the four buffers lies.
const BUFFERS: u64 = 0x8000_2000;
/// The bytes of a buffer, more than the longest frame and its header.
const BUFFER_BYTES: u32 = 2048;

/// From the start of the rings' page: the sending queue's descriptors, and the idx of each ring, behind which its entries lie.
const TO_RECEIVE: u64 = 0x42;

const RECEIVED: u64 = 0x82;

const SENDING: u64 = 0x100;

const TO_SEND: u64 = 0x142;

const SENT: u64 = 0x182;

/// From the start of a buffer, where the network device's header of 12 bytes lies: how many buffers a frame took, the address
/// that it goes to, and the one that it comes from.
const NUM_BUFFERS: u64 = 10;

const TARGET: u64 = 12;

const SOURCE: u64 = 18;

/// An available ring: no interrupts, and the four buffers in order.
const FOUR_AVAILABLE: [u8; 12] = [1, 0, 4, 0, 0, 0, 1, 0, 2, 0, 3, 0];
/// An available ring: no interrupts, and nothing.
const NONE_AVAILABLE: [u8; 4] = [1, 0, 0, 0];

/// The image of the guest that sends each frame back: the address that it came from becomes the one that it goes to, the guest's
/// own, 02:00:00:00:00:01, the one that it comes from, and all else stays. Four frames can wait for it at a time. It needs 4
/// pages of RAM.
///
/// The only error is out of memory.
#[tactic(auto, unfolding(crate::specs::Image::image_of))]
pub fn echo(alloc: Global) -> Result<Vec<u8>, MemoryWanted>
    ensures image { IfOk result (λ image. image.items ≡ image_of echo_program) }
    ensures size { IfOk result (λ image. vec_len image ≡ 0x1144) }
{
    let mut image = Vec::new(alloc);
    push_instructions(&mut image)?;
    place(
        &mut image,
        RECEIVING_QUEUE,
        &descriptor(BUFFERS, BUFFER_BYTES, WRITE, 0),
    )?;
    place(
        &mut image,
        RECEIVING_QUEUE + 0x10,
        &descriptor(BUFFERS + 0x800, BUFFER_BYTES, WRITE, 0),
    )?;
    place(
        &mut image,
        RECEIVING_QUEUE + 0x20,
        &descriptor(BUFFERS + 0x1000, BUFFER_BYTES, WRITE, 0),
    )?;
    place(
        &mut image,
        RECEIVING_QUEUE + 0x30,
        &descriptor(BUFFERS + 0x1800, BUFFER_BYTES, WRITE, 0),
    )?;
    place(&mut image, RECEIVING_RING, &FOUR_AVAILABLE)?;
    place(&mut image, SENDING_QUEUE, &descriptor(BUFFERS, 0, 0, 0))?;
    place(
        &mut image,
        SENDING_QUEUE + 0x10,
        &descriptor(BUFFERS + 0x800, 0, 0, 0),
    )?;
    place(
        &mut image,
        SENDING_QUEUE + 0x20,
        &descriptor(BUFFERS + 0x1000, 0, 0, 0),
    )?;
    place(
        &mut image,
        SENDING_QUEUE + 0x30,
        &descriptor(BUFFERS + 0x1800, 0, 0, 0),
    )?;
    place(&mut image, SENDING_RING, &NONE_AVAILABLE)?;
    Ok(image)
}

/// Puts the instructions behind an image. `x5` holds the first register of the device, `x6` the number 1, `x8` how many frames
/// were sent back, `x9` the address of the rings, and `x10` that of the buffers.
fn push_instructions(image: &mut Vec<u8>) -> Result<(), MemoryWanted>
    ensures items { OnOk result (image.new.items ≡ image.old.items ++ word_bytes echo_words) }
    ensures len { OnOk result (vec_len image.new ≡ vec_len image.old + 312) }
{
    push_words(image, &setup())?;
    push_words(image, &turn())?;
    push_words(image, &send())
}

/// The device is reset and driven, and its two queues are set up.
fn setup() -> [u32; 32]
    ensures { result ≡ echo_setup }
{
    [
        // the rings' page, 0x80001000
        auipc(X9, 0x1000),
        // the network device
        lui(X5, NETWORK),
        // the buffers, a page behind it
        lui(X10, 0x1000),
        add(X10, X9, X10),
        // the device is reset, noticed, driven
        sw(X0, STATUS, X5),
        addi(X6, X0, 1),
        sw(X6, STATUS, X5),
        addi(X7, X0, ACKNOWLEDGE | DRIVER),
        sw(X7, STATUS, X5),
        // of its features, bit 32 alone
        sw(X6, DRIVER_FEATURES_SEL, X5),
        sw(X6, DRIVER_FEATURES, X5),
        addi(X7, X0, ACKNOWLEDGE | DRIVER | FEATURES_OK),
        // which it takes
        sw(X7, STATUS, X5),
        lw(X8, STATUS, X5),
        bne(X8, X7, 0xfc),
        // queue 0, for receiving, is first
        addi(X11, X0, 0),
        addi(X12, X9, 0),
        addi(X7, X0, 4),
        // a queue of 4 descriptors, with its rings
        sw(X11, QUEUE_SEL, X5),
        sw(X7, QUEUE_NUM, X5),
        sw(X12, QUEUE_DESC, X5),
        addi(X13, X12, 0x40),
        sw(X13, QUEUE_DRIVER, X5),
        addi(X13, X13, 0x40),
        sw(X13, QUEUE_DEVICE, X5),
        sw(X6, QUEUE_READY, X5),
        // queue 1, for sending, is 256 bytes behind
        addi(X11, X11, 1),
        addi(X12, X12, 0x100),
        // the same once more
        beq(X11, X6, back(10)),
        // the driver is ready
        addi(X7, X0, ACKNOWLEDGE | DRIVER | FEATURES_OK | DRIVER_OK),
        sw(X7, STATUS, X5),
        // no frame yet
        addi(X8, X0, 0),
    ]
}

/// A frame is waited for. It goes back to where it came from, and comes from the guest.
fn turn() -> [u32; 22]
    ensures { result ≡ echo_turn }
{
    [
        // the wait for the next frame
        lhu(X7, RECEIVED, X9),
        beq(X7, X8, back(1)),
        fence(),
        // its place in the rings
        andi(X11, X8, 3),
        slli(X12, X11, 3),
        add(X12, X12, X9),
        // its buffer, and its length
        lwu(X13, RECEIVED + 2, X12),
        lwu(X14, RECEIVED + 6, X12),
        slli(X15, X13, 11),
        add(X15, X15, X10),
        // back to where it came from
        lhu(X7, SOURCE, X15),
        sh(X7, TARGET, X15),
        lhu(X7, SOURCE + 2, X15),
        sh(X7, TARGET + 2, X15),
        lhu(X7, SOURCE + 4, X15),
        sh(X7, TARGET + 4, X15),
        // from the guest, 02:00:00:00:00:01
        addi(X7, X0, 2),
        sh(X7, SOURCE, X15),
        sh(X0, SOURCE + 2, X15),
        addi(X7, X0, 0x100),
        sh(X7, SOURCE + 4, X15),
        // the header says nothing
        sh(X0, NUM_BUFFERS, X15),
    ]
}

/// Its buffer is sent, and then receives again.
fn send() -> [u32; 24]
    ensures { result ≡ echo_send }
{
    [
        // the buffer is sent
        slli(X7, X13, 4),
        add(X7, X7, X9),
        sw(X14, SENDING + 8, X7),
        slli(X12, X11, 1),
        add(X12, X12, X9),
        sh(X13, TO_SEND + 2, X12),
        // one frame more, modulo 2^16
        addi(X8, X8, 1),
        slli(X8, X8, 48),
        srli(X8, X8, 48),
        fence(),
        sh(X8, TO_SEND, X9),
        fence(),
        sw(X6, QUEUE_NOTIFY, X5),
        // the wait until it was sent
        lhu(X7, SENT, X9),
        bne(X7, X8, back(1)),
        // the buffer receives again
        sh(X13, TO_RECEIVE + 2, X12),
        addi(X7, X8, 4),
        fence(),
        sh(X7, TO_RECEIVE, X9),
        sw(X0, QUEUE_NOTIFY, X5),
        // the interrupts are acknowledged
        lw(X7, INTERRUPT_STATUS, X5),
        sw(X7, INTERRUPT_ACK, X5),
        // on to the next frame
        jal(X0, back(44)),
        // where the device takes no feature
        jal(X0, 0),
    ]
}
