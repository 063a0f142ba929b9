//! Guest memory as a queue sees it.

ghost use Rattle.std.specs.Prelude.{◌≡◌, ℕ, ◌+◌, ◌≤◌, List, length, take, drop};
ghost use Rattle.std.specs.Int.{to_le_bytes, w16, w32};
ghost use Rattle.virtqueue.specs.Memory.{written, le16, le32, le64, is_inside};

/// The guest address at which RAM begins.
pub const RAM_START: u64 = 0x8000_0000;

/// RAM: bytes at places from 0; the byte at place p has the guest address [`RAM_START`] + p.
pub trait GuestRam {
    ghost bytes: { Self → List ℕ };

    /// What its keeper has beside them that no write changes.
    ghost fixed: { Self → List ℕ };

    /// How many bytes there are.
    fn size(&self) -> usize
        ensures { result ≡ length (bytes self.now) };

    /// Copies the bytes from a place on into the whole of `into`.
    fn read(&self, place: usize, into: &mut [u8])
        requires { place + length into.old ≤ length (bytes self.now) }
        ensures { into.new ≡ take (length into.old) (drop place (bytes self.now)) };

    /// Puts `from` in the place of the bytes from a place on, and changes no other byte.
    fn write(&mut self, place: usize, from: &[u8])
        requires { place + length from.now ≤ length (bytes self.old) }
        ensures value { bytes self.new ≡ written (bytes self.old) place from.now }
        ensures fixed { fixed self.new ≡ fixed self.old };
}

/// The little-endian number of 2 bytes at a place.
pub(crate) fn read_u16<R: GuestRam>(ram: &R, place: usize) -> u16
    requires { place + 2 ≤ length (R.bytes ram.now) }
    ensures { result ≡ le16 (R.bytes ram.now) place }
{
    let mut bytes = [0; 2];
    ram.read(place, &mut bytes);
    u16::from_le_bytes(bytes)
}

/// The little-endian number of 4 bytes at a place.
pub(crate) fn read_u32<R: GuestRam>(ram: &R, place: usize) -> u32
    requires { place + 4 ≤ length (R.bytes ram.now) }
    ensures { result ≡ le32 (R.bytes ram.now) place }
{
    let mut bytes = [0; 4];
    ram.read(place, &mut bytes);
    u32::from_le_bytes(bytes)
}

/// The little-endian number of 8 bytes at a place.
pub(crate) fn read_u64<R: GuestRam>(ram: &R, place: usize) -> u64
    requires { place + 8 ≤ length (R.bytes ram.now) }
    ensures { result ≡ le64 (R.bytes ram.now) place }
{
    let mut bytes = [0; 8];
    ram.read(place, &mut bytes);
    u64::from_le_bytes(bytes)
}

/// Puts a little-endian number of 2 bytes at a place.
pub(crate) fn write_u16<R: GuestRam>(ram: &mut R, place: usize, number: u16)
    requires { place + 2 ≤ length (R.bytes ram.old) }
    ensures value { R.bytes ram.new ≡ written (R.bytes ram.old) place (to_le_bytes w16 number) }
    ensures size { length (R.bytes ram.new) ≡ length (R.bytes ram.old) }
    ensures fixed { R.fixed ram.new ≡ R.fixed ram.old }
{
    ram.write(place, &number.to_le_bytes());
}

/// Puts a little-endian number of 4 bytes at a place.
pub(crate) fn write_u32<R: GuestRam>(ram: &mut R, place: usize, number: u32)
    requires { place + 4 ≤ length (R.bytes ram.old) }
    ensures value { R.bytes ram.new ≡ written (R.bytes ram.old) place (to_le_bytes w32 number) }
    ensures size { length (R.bytes ram.new) ≡ length (R.bytes ram.old) }
    ensures fixed { R.fixed ram.new ≡ R.fixed ram.old }
{
    ram.write(place, &number.to_le_bytes());
}

/// Whether `len` bytes from a guest address on lie wholly in RAM of `size` bytes.
pub(crate) fn is_inside(size: usize, address: u64, len: u64) -> bool
    ensures { result ≡ is_inside size address len }
{
    address >= RAM_START
        && address - RAM_START <= size as u64
        && len <= size as u64 - (address - RAM_START)
}
