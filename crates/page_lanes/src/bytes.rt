//! One byte at a time: what stands after the last whole block.
ghost use Rattle.std.specs.Prelude.{◌≡◌, ◌≤◌, ◌↔◌, length, IsTrue, All};
ghost use Rattle.page_lanes.specs.Kernels.{xored, differing};

/// Puts the exclusive or of each two bytes in the place of the first.
pub(crate) fn xor_bytes(into: &mut [u8], from: &[u8])
    requires { length into.old ≡ length from.now }
    ensures { into.new ≡ xored into.old from.now }
{
    for (i, byte) in from.iter().enumerate() {
        into[i] ^= *byte;
    }
}

/// Whether each two bytes are equal.
pub(crate) fn equal_bytes(a: &[u8], b: &[u8]) -> bool
    requires { length a.now ≡ length b.now }
    ensures { IsTrue result ↔ (a.now ≡ b.now) }
{
    a.iter().eq(b)
}

/// Whether every byte is 0.
pub(crate) fn zero_bytes(bytes: &[u8]) -> bool
    ensures { IsTrue result ↔ All (λ b. b ≡ 0) bytes.now }
{
    bytes.iter().all(|byte| *byte == 0)
}

/// At how many places the bytes differ.
pub(crate) fn count_bytes(a: &[u8], b: &[u8]) -> usize
    requires { length a.now ≡ length b.now }
    ensures count { result ≡ differing a.now b.now }
    ensures few { result ≤ length a.now }
{
    let mut count = 0;
    for (i, byte) in a.iter().enumerate() {
        if *byte != b[i] {
            count += 1;
        }
    }
    count
}
