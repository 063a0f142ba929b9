//! The number of the last frame that came for each client.
ghost use Rattle.std.specs.Prelude.{◌≡◌, ◌<◌, ◌≤◌, replicate, nat_lt, slice_index_or, slice_set, if◌then◌else◌};
ghost use Rattle.arrayvec.specs.ArrayVec.{array_vec_len};

use arrayvec::ArrayVec;

/// A number for each client, of which there are at most 16. That of client c has the place c - 1.
pub(crate) type Numbers = ArrayVec<u64, 16>;

/// Numbers 0 for that many clients.
pub(crate) fn zeros(clients: usize) -> Numbers
    requires { clients ≤ 16 }
    ensures { result.items ≡ replicate clients 0 }
{
    let mut numbers = ArrayVec::new();
    for _ in 0..clients {
        numbers.push(0);
    }
    numbers
}

/// Puts `number` at that place if it is above the one there, and answers whether it is.
pub(crate) fn raise(numbers: &mut Numbers, place: usize, number: u64) -> bool
    requires { place < array_vec_len numbers.old }
    ensures answer { result ≡ nat_lt (slice_index_or numbers.old.items place 0) number }
    ensures raised { numbers.new.items ≡ (if result then slice_set numbers.old.items place number else numbers.old.items) }
{
    let last = numbers[place];
    if last < number {
        numbers[place] = number;
    }
    last < number
}
