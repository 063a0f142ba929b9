//! The guest that counts timer interrupts.

ghost use Rattle.std.specs.Prelude.{◌≡◌, IfOk, vec_len};
ghost use Rattle.guest_kit.specs.Image.{image_of};
ghost use Rattle.guest_kit.specs.Counter.{counter_program, counter_words};

use crate::assembler::Reg::{X0, X5, X6, X7, X8};
use crate::assembler::{addi, auipc, csrrs, csrrsi, csrrw, jal, ld, lui, mret, sd};
use crate::image::push_words;
use memory_wanted::MemoryWanted;
use std::alloc::Global;

/// `mtimecmp`, a register of the timer.
const MTIMECMP: u64 = 0x0200_4000;
/// The end of the timer's registers.
const TIMER_END: u64 = 0x0200_c000;
/// Where `mtime` lies from there: 8 bytes before it.
const MTIME: u64 = 0xffff_ffff_ffff_fff8;
/// From one interrupt to the next, in steps.
const PERIOD: u64 = 100;

/// The CSR `mstatus`.
const MSTATUS: u16 = 0x300;
/// The CSR `mie`.
const MIE: u16 = 0x304;
/// The CSR `mtvec`.
const MTVEC: u16 = 0x305;
/// The timer interrupt's bit of `mie`.
const TIMER_ENABLED: u64 = 1 << 7;
/// The bit of `mstatus` that enables interrupts.
const INTERRUPTS_ENABLED: u64 = 1 << 3;

/// From the word that takes its own address to the handler, in bytes.
const TO_HANDLER: u64 = 40;

/// The image of the guest that counts timer interrupts, in the 8 bytes at 0x80001000, low byte first. It sets `mtimecmp` to
/// 100 steps from now at the start and at each interrupt, and otherwise jumps to itself. It needs 2 pages of RAM.
///
/// The only error is out of memory.
#[tactic(auto, unfolding(crate::specs::Image::image_of))]
pub fn counter(alloc: Global) -> Result<Vec<u8>, MemoryWanted>
    ensures image { IfOk result (λ image. image.items ≡ image_of counter_program) }
    ensures size { IfOk result (λ image. vec_len image ≡ 80) }
{
    let mut image = Vec::new(alloc);
    push_words(&mut image, &words())?;
    Ok(image)
}

/// The instructions. `x8` holds the address of the count, `x5` the end of the timer's registers, and `x6` the address of
/// `mtimecmp`.
fn words() -> [u32; 20]
    ensures { result ≡ counter_words }
{
    [
        auipc(X8, 0x1000),
        lui(X5, TIMER_END),
        lui(X6, MTIMECMP),
        // traps go to the handler
        auipc(X7, 0),
        addi(X7, X7, TO_HANDLER),
        csrrw(X0, MTVEC, X7),
        // the first interrupt comes a period from now
        ld(X7, MTIME, X5),
        addi(X7, X7, PERIOD),
        sd(X7, 0, X6),
        addi(X7, X0, TIMER_ENABLED),
        csrrs(X0, MIE, X7),
        csrrsi(X0, MSTATUS, INTERRUPTS_ENABLED),
        jal(X0, 0),
        // the handler counts, and sets the next one
        ld(X7, 0, X8),
        addi(X7, X7, 1),
        sd(X7, 0, X8),
        ld(X7, MTIME, X5),
        addi(X7, X7, PERIOD),
        sd(X7, 0, X6),
        mret(),
    ]
}
