//! A line that is put together in a place of its own, and so takes no memory.

ghost use Rattle.std.specs.Prelude.{◌≡◌, ◌+◌, ◌*◌, ◌≤◌, ◌∷◌, ◌++◌, length, decimal, map};
ghost use Rattle.std.specs.List.{AllByRecursion};
ghost use Rattle.arrayvec.specs.ArrayVec.{array_vec_len};
ghost use Rattle.script_player.specs.Printed.{field_text, line, spaced, IsShort};

use arrayvec::ArrayVec;
use itoa::Buffer;

/// Bytes that the longest line takes, that of a frame of 1514 bytes, and more.
const LINE_BYTES: usize = 4096;

/// A line.
pub type Text = ArrayVec<u8, LINE_BYTES>;

/// A field of a line.
#[derive(Clone, Copy)]
pub enum Field<'a> {
    /// A word, of at most 20 bytes.
    Word(&'a str),
    /// A number.
    Number(u64),
}

/// Writes a word and these fields, with one space between them, as a line, in the place of what the text was.
pub fn write_line<'a>(text: &mut Text, word: &str, fields: &'a [Field<'a>])
    requires word { length word.now ≤ 20 }
    requires few { length fields.now ≤ 16 }
    requires short { AllByRecursion IsShort fields.now }
    ensures { text.new.items ≡ line (word.now ∷ map field_text fields.now) }
{
    text.clear();
    add(text, word.as_bytes());
    add_spaced(text, fields);
    add(text, b"\n");
}

/// Adds fields, each after a space.
fn add_spaced<'a>(text: &mut Text, fields: &'a [Field<'a>])
    requires room { array_vec_len text.old + 41 * length fields.now ≤ 4000 }
    requires short { AllByRecursion IsShort fields.now }
    ensures items { text.new.items ≡ text.old.items ++ spaced fields.now }
    ensures len { array_vec_len text.new ≤ array_vec_len text.old + 41 * length fields.now }
{
    for field in fields {
        add(text, b" ");
        add_field(text, *field);
    }
}

/// Adds a field.
fn add_field(text: &mut Text, field: Field<'_>)
    requires room { array_vec_len text.old ≤ 4000 }
    requires short { IsShort field }
    ensures items { text.new.items ≡ text.old.items ++ field_text field.entry }
    ensures len { array_vec_len text.new ≤ array_vec_len text.old + 40 }
{
    match field {
        Field::Word(word) => add(text, word.as_bytes()),
        Field::Number(number) => add_number(text, number),
    }
}

/// Adds the digits of a number.
pub fn add_number(text: &mut Text, number: u64)
    requires { array_vec_len text.old ≤ 4000 }
    ensures items { text.new.items ≡ text.old.items ++ decimal number }
    ensures len { array_vec_len text.new ≤ array_vec_len text.old + 40 }
{
    let mut digits = Buffer::new();
    add(text, digits.format(number).as_bytes());
}

/// Adds bytes, to this text or one of another length.
#[inline(always)]
pub fn add<const N: usize>(text: &mut ArrayVec<u8, N>, bytes: &[u8])
    requires { array_vec_len text.old + length bytes.now ≤ N }
    ensures items { text.new.items ≡ text.old.items ++ bytes.now }
    ensures len { array_vec_len text.new ≡ array_vec_len text.old + length bytes.now }
{
    let _ = text.try_extend_from_slice(bytes);
}
