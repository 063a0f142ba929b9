//! A row of texts, with room from the start.
ghost use Rattle.std.specs.Prelude.{◌≡◌, ◌≤◌, ◌<◌, ◌∷◌, ◌++◌, [], drop, take, vec_capacity, vec_len};
ghost use Rattle.full_text.specs.Full.{part_of};

/// Puts a text last, for which there is room.
pub(crate) fn put_last(texts: &mut Vec<Vec<u8>>, text: Vec<u8>)
    requires { vec_len texts.old < vec_capacity texts.old }
    ensures items { texts.new.items ≡ texts.old.items ++ text ∷ [] }
    ensures room { vec_capacity texts.old ≤ vec_capacity texts.new }
{
    match texts.push(text) {
        Ok(()) => {}
        Err(_) => unreachable!(),
    }
}

/// Of a text the bytes from place `from` on, `count` of them or as many as there are.
pub(crate) fn part_of(text: &[u8], from: u64, count: u64) -> &[u8]
    ensures { result.now ≡ part_of from count text.now }
{
    front_of(rest_of(text, from), count)
}

/// The bytes from place `from` on.
#[tactic(auto, using(std::proofs::lemmas::List::drop_all))]
fn rest_of(text: &[u8], from: u64) -> &[u8]
    ensures { result.now ≡ drop from text.now }
{
    if from < text.len() as u64 {
        &text[from as usize..]
    } else {
        &[]
    }
}

/// The first `count` bytes, or as many as there are.
#[tactic(auto, using(std::proofs::lemmas::List::take_all))]
pub(crate) fn front_of(text: &[u8], count: u64) -> &[u8]
    ensures { result.now ≡ take count text.now }
{
    if count < text.len() as u64 {
        &text[..count as usize]
    } else {
        text
    }
}
