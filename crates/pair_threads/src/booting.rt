//! The pair of a file, booted.
ghost use Rattle.std.specs.Prelude.{◌≡◌, IfOk};
ghost use Rattle.guest_rules.specs.Guest.{boot_guest};
ghost use Rattle.script_player.specs.Boot.{IsInLimits, boot_line};
ghost use Rattle.script_player.specs.Guests.{guest_image, named_guest};

use guest_machine::Shape;
use hypervisor::UnnamedPair;
use script_player::boot::Boot;
use script_player::player::image;
use std::alloc::{AllocError, Global};

/// The pair that a boot line asks for, at its start.
///
/// # Errors
///
/// [`AllocError`] where there is no memory for it.
pub(crate) fn boot_pair(alloc: Global, boot: &Boot) -> Result<UnnamedPair, AllocError>
    requires { IsInLimits (boot_line boot.now) }
    ensures clients { IfOk result (λ pair. pair.clients ≡ boot.now.clients) }
    ensures guest { IfOk result (λ pair. pair.guest
        ≡ boot_guest boot.now.pages boot.now.sectors (guest_image (named_guest boot.now.guest))) }
{
    let shape = Shape {
        pages: boot.pages,
        sectors: boot.sectors,
    };
    let Ok(image) = image(alloc, boot) else {
        return Err(AllocError);
    };
    UnnamedPair::new(alloc, shape, boot.clients, image.as_slice())
}
