//! How many bytes an access has.

ghost use Rattle.std.specs.Prelude.{◌≡◌};
ghost use Rattle.rv64_core.specs.Widths.{width_bytes};

/// The width of a load or a store.
#[derive(Clone, Copy, PartialEq, Eq)]
pub enum Width {
    /// One byte.
    Byte,
    /// Two bytes.
    Half,
    /// Four bytes, a word.
    Word,
    /// Eight bytes, a register.
    Double,
}

impl Width {
    /// How many bytes these are: 1, 2, 4 or 8.
    pub fn bytes(self) -> usize
        ensures { result ≡ width_bytes self }
    {
        match self {
            Width::Byte => 1,
            Width::Half => 2,
            Width::Word => 4,
            Width::Double => 8,
        }
    }
}
