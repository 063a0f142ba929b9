//! The guest that does nothing.

ghost use Rattle.std.specs.Prelude.{◌≡◌, IfOk, vec_len};
ghost use Rattle.guest_kit.specs.Image.{image_of};
ghost use Rattle.guest_kit.specs.Idle.{idle_program};

use crate::assembler::Reg::X0;
use crate::assembler::jal;
use crate::image::push_words;
use memory_wanted::MemoryWanted;
use std::alloc::Global;

/// The image of the guest that jumps to itself for ever, in one word at the start of RAM.
///
/// The only error is out of memory.
#[tactic(auto, unfolding(crate::specs::Image::image_of))]
pub fn idle(alloc: Global) -> Result<Vec<u8>, MemoryWanted>
    ensures image { IfOk result (λ image. image.items ≡ image_of idle_program) }
    ensures size { IfOk result (λ image. vec_len image ≡ 4) }
{
    let mut image = Vec::new(alloc);
    push_words(&mut image, &[jal(X0, 0)])?;
    Ok(image)
}
