//! The marks of the held epochs: where each ends in the row of held frames.
ghost use Rattle.std.specs.Prelude.{◌≡◌, ◌^◌, ◌<◌, length, nat_le};
ghost use Rattle.std.specs.List.{prefix_len};
ghost use Rattle.output_gate.specs.internal.Fields.{total};

/// One held epoch.
#[derive(Clone, Copy)]
pub(crate) struct Mark {
    /// The number of the checkpoint that ends it.
    pub(crate) number: u64,
    /// How many of the held frames are its own.
    pub(crate) count: usize,
}

/// How many epochs, from the first, have numbers up to `number`.
pub(crate) fn epochs_to(marks: &[Mark], number: u64) -> usize
    ensures { result ≡ prefix_len (λ m. nat_le m.number number) marks.now }
{
    marks
        .iter()
        .take_while(|mark| mark.number <= number)
        .count()
}

/// How many frames these epochs have.
pub(crate) fn frames_in(marks: &[Mark]) -> usize
    requires { total marks.now < 2 ^ 64 }
    ensures { result ≡ total marks.now }
{
    marks.iter().map(|mark| mark.count).sum()
}
