//! Laws of a chain's buffers, each the contract of a function that does nothing.
ghost use Rattle.std.specs.Prelude.{◌≡◌, ℕ, List, length};
ghost use Rattle.virtqueue.specs.declared.chains.Descriptor.{Descriptor};
ghost use Rattle.virtqueue.specs.declared.rings.Queue.{Queue};
ghost use Rattle.virtqueue.specs.Areas.{AreasFit, IsSized};
ghost use Rattle.virtqueue.specs.Chains.{BuffersInside};
ghost use Rattle.virtqueue.specs.Parts.{readable_len, writable_len, readable_bytes, writable_places, put_at};
ghost use Rattle.virtqueue.specs.Used.{used_written};

/// The joined bytes of a chain's readable buffers are as many as the buffers say, where these lie in RAM, and so are the
/// joined places of its writable ones. What is put at places, or into a used ring in RAM, leaves RAM as long as it was.
pub fn joined_lengths()
    ensures readable { (bytes : List ℕ) (parts : List Descriptor) → BuffersInside (length bytes) parts →
        length (readable_bytes bytes parts) ≡ readable_len parts }
    ensures writable { (parts : List Descriptor) → length (writable_places parts) ≡ writable_len parts }
    ensures put { (bytes places values : List ℕ) → length (put_at bytes places values) ≡ length bytes }
    ensures used { (queue : Queue) (bytes : List ℕ) (head len : ℕ) → AreasFit queue (length bytes) → IsSized queue →
        length (used_written queue bytes head len) ≡ length bytes }
{}
