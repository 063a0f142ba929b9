//! Hex digits in lower case, a vector of bytes at a time.

ghost use Rattle.std.specs.Prelude.{◌≡◌, ℕ, ◌+◌, ◌*◌, ◌%◌, ◌<◌, ◌≤◌, ◌++◌, [], false, List, length, map, slice_index, true, IfNone, IfSome, IsFalse, IsTrue, Some};
ghost use Rattle.std.specs.List.{list_all, AllByRecursion};
ghost use Rattle.std.specs.Vec.{vec_len, vec_capacity};
ghost use Rattle.arrayvec.specs.ArrayVec.{array_vec_len};
ghost use Rattle.hex.specs.Hex.{encode_lower, lower_digits, IsBytes};
ghost use Rattle.script_player.specs.internal.Digits.{is_lower_digit};

use crate::text::add;
use arrayvec::ArrayVec;
use std::simd::prelude::*;

/// Bytes that are spelled or read in one go.
const BLOCK_BYTES: usize = 16;

/// The digits of so many bytes.
const BLOCK_DIGITS: usize = 32;

/// The digits of four bytes.
const FOUR_DIGITS: usize = 8;

/// Puts the digits of bytes last, two for each, into a text that has room for them.
pub fn add_digits<const N: usize>(text: &mut ArrayVec<u8, N>, bytes: &[u8])
    requires { array_vec_len text.old + 2 * length bytes.now ≤ N }
    ensures items { text.new.items ≡ text.old.items ++ encode_lower bytes.now }
    ensures len { array_vec_len text.new ≡ array_vec_len text.old + 2 * length bytes.now }
{
    let mut rest = bytes;
    while let Some((block, others)) = rest.split_first_chunk::<BLOCK_BYTES>() {
        add(text, &block_digits(block));
        rest = others;
    }
    add_few_digits(text, rest);
}

/// The same of fewer bytes than a block has.
fn add_few_digits<const N: usize>(text: &mut ArrayVec<u8, N>, bytes: &[u8])
    requires few { length bytes.now < 16 }
    requires room { array_vec_len text.old + 2 * length bytes.now ≤ N }
    ensures items { text.new.items ≡ text.old.items ++ encode_lower bytes.now }
    ensures len { array_vec_len text.new ≡ array_vec_len text.old + 2 * length bytes.now }
{
    let mut digits = [0; BLOCK_DIGITS];
    let digits = &mut digits[..2 * bytes.len()];
    hex::encode_to_slice(bytes, digits).unwrap();
    add(text, digits);
}

/// The digits of a block of bytes.
#[inline(always)]
fn block_digits(block: &[u8; BLOCK_BYTES]) -> [u8; BLOCK_DIGITS]
    ensures { result ≡ encode_lower block.now }
{
    let bytes = u8x16::from_array(*block);
    let first = digits_of(bytes >> u8x16::splat(4));
    let second = digits_of(bytes & u8x16::splat(15));
    first
        .shuffle::<BLOCK_DIGITS>(
            second,
            [
                0, 16, 1, 17, 2, 18, 3, 19, 4, 20, 5, 21, 6, 22, 7, 23, 8, 24, 9, 25, 10, 26, 11,
                27, 12, 28, 13, 29, 14, 30, 15, 31,
            ],
        )
        .to_array()
}

/// The digit of each number, all of which are below 16.
#[inline(always)]
fn digits_of(numbers: u8x16) -> u8x16
    requires { AllByRecursion (λ n. n < 16) numbers }
    ensures { result ≡ map (slice_index lower_digits) numbers }
{
    let above_nine = numbers.simd_gt(u8x16::splat(9));
    numbers + u8x16::splat(b'0') + above_nine.select(u8x16::splat(39), u8x16::splat(0))
}

/// The bytes that an even number of digits write, two digits for each byte, in an empty list that has room for them. None where one isn't a
/// digit in lower case.
pub(crate) fn read_into(list: Vec<u8>, digits: &[u8]) -> Option<Vec<u8>>
    requires empty { list.items ≡ [] }
    requires room { length digits.now ≤ 2 * vec_capacity list }
    requires even { length digits.now % 2 ≡ 0 }
    ensures found { IfSome result (λ bytes. (digits.now ≡ encode_lower bytes.items) × IsBytes bytes.items) }
    ensures none { IfNone result (list_all is_lower_digit digits.now ≡ false) }
{
    let mut bytes = list;
    let mut rest = digits;
    while let Some((block, others)) = rest.split_first_chunk::<BLOCK_DIGITS>() {
        put_reserved(&mut bytes, &block_bytes(block)?);
        rest = others;
    }
    if !put_few(&mut bytes, rest) {
        return None;
    }
    are_bytes(bytes.as_slice());
    Some(bytes)
}

/// The four bytes that the text writes, each as two hex digits in lower case.
#[inline(always)]
pub(crate) fn four_bytes(text: &[u8]) -> Option<[u8; 4]>
    // What is read is spelled so.
    ensures found { IfSome result (λ bytes. text.now ≡ encode_lower bytes) }
    ensures bytes { IfSome result (λ bytes. (length bytes ≡ 4) × IsBytes bytes) }
    // What is spelled so is read so.
    ensures only { (bytes : List ℕ) → length bytes ≡ 4 → IsBytes bytes → text.now ≡ encode_lower bytes → result ≡ Some bytes }
{
    let Ok(digits) = <&[u8; FOUR_DIGITS]>::try_from(text) else {
        return None;
    };
    let lanes = u8x8::from_array(*digits);
    if !are_eight_digits(lanes) {
        return None;
    }
    let four = four_of(eight_numbers(lanes));
    are_bytes(four.as_slice());
    Some(four)
}

/// Whether all of eight are digits in lower case.
#[inline(always)]
fn are_eight_digits(lanes: u8x8) -> bool
    ensures { result ≡ list_all is_lower_digit lanes }
{
    let from_zero = lanes - u8x8::splat(b'0');
    let from_a = lanes - u8x8::splat(b'a');
    let others = from_zero.simd_ge(u8x8::splat(10)) & from_a.simd_ge(u8x8::splat(6));
    others.to_bitmask() == 0
}

/// The number of each of eight digits, all of which are in lower case.
#[inline(always)]
fn eight_numbers(digits: u8x8) -> u8x8
    requires { list_all is_lower_digit digits ≡ true }
    ensures digits { map (slice_index lower_digits) result ≡ digits }
    ensures small { AllByRecursion (λ n. n < 16) result }
{
    let from_zero = digits - u8x8::splat(b'0');
    let letters = from_zero.simd_ge(u8x8::splat(10));
    from_zero - letters.select(u8x8::splat(39), u8x8::splat(0))
}

/// The bytes of eight numbers below 16, two for each, the higher first.
#[inline(always)]
fn four_of(numbers: u8x8) -> [u8; 4]
    requires { AllByRecursion (λ n. n < 16) numbers }
    ensures { encode_lower result ≡ map (slice_index lower_digits) numbers }
{
    let first = numbers.swizzle::<4>([0, 2, 4, 6]);
    let second = numbers.swizzle::<4>([1, 3, 5, 7]);
    ((first << u8x4::splat(4)) | second).to_array()
}

/// What a list of bytes holds are bytes.
fn are_bytes(list: &[u8])
    ensures { IsBytes list.now }
{
    let _bytes = list;
}

/// Puts the bytes last that fewer digits write than a block has. Says whether all are digits in lower case; if not, it puts none.
fn put_few(list: &mut Vec<u8>, digits: &[u8]) -> bool
    requires few { length digits.now < 32 }
    requires even { length digits.now % 2 ≡ 0 }
    requires room { 2 * vec_len list.old + length digits.now ≤ 2 * vec_capacity list.old }
    ensures read { IsTrue result → (bytes : List ℕ) × (list.new.items ≡ list.old.items ++ bytes) × (digits.now ≡ encode_lower bytes) }
    ensures none { IsFalse result → list_all is_lower_digit digits.now ≡ false }
{
    let mut block = [b'0'; BLOCK_DIGITS];
    block[..digits.len()].copy_from_slice(digits);
    let Some(bytes) = block_bytes(&block) else {
        return false;
    };
    put_reserved(list, &bytes[..digits.len() / 2]);
    true
}

/// Puts bytes last into a list that has room for them.
#[inline(always)]
fn put_reserved(list: &mut Vec<u8>, bytes: &[u8])
    requires { vec_len list.old + length bytes.now ≤ vec_capacity list.old }
    ensures items { list.new.items ≡ list.old.items ++ bytes.now }
    ensures len { vec_len list.new ≡ vec_len list.old + length bytes.now }
    ensures capacity { vec_capacity list.old ≤ vec_capacity list.new }
{
    let Ok(()) = list.extend_from_slice(bytes) else {
        unreachable!();
    };
}

/// The bytes that a block of digits writes. None where one isn't a digit in lower case.
#[inline(always)]
fn block_bytes(digits: &[u8; BLOCK_DIGITS]) -> Option<[u8; BLOCK_BYTES]>
    ensures found { IfSome result (λ bytes. digits.now ≡ encode_lower bytes) }
    ensures none { IfNone result (list_all is_lower_digit digits.now ≡ false) }
{
    let lanes = u8x32::from_array(*digits);
    if !are_digits(lanes) {
        return None;
    }
    Some(bytes_of(numbers_of(lanes)))
}

/// Whether all are digits in lower case.
#[inline(always)]
fn are_digits(lanes: u8x32) -> bool
    ensures { result ≡ list_all is_lower_digit lanes }
{
    let from_zero = lanes - u8x32::splat(b'0');
    let from_a = lanes - u8x32::splat(b'a');
    let others = from_zero.simd_ge(u8x32::splat(10)) & from_a.simd_ge(u8x32::splat(6));
    others.to_bitmask() == 0
}

/// The number of each digit, all of which are in lower case.
#[inline(always)]
fn numbers_of(digits: u8x32) -> u8x32
    requires { list_all is_lower_digit digits ≡ true }
    ensures digits { map (slice_index lower_digits) result ≡ digits }
    ensures small { AllByRecursion (λ n. n < 16) result }
{
    let from_zero = digits - u8x32::splat(b'0');
    let letters = from_zero.simd_ge(u8x32::splat(10));
    from_zero - letters.select(u8x32::splat(39), u8x32::splat(0))
}

/// The bytes of numbers below 16, two for each, the higher first.
#[inline(always)]
fn bytes_of(numbers: u8x32) -> [u8; BLOCK_BYTES]
    requires { AllByRecursion (λ n. n < 16) numbers }
    ensures { encode_lower result ≡ map (slice_index lower_digits) numbers }
{
    let first = numbers.swizzle::<BLOCK_BYTES>([
        0, 2, 4, 6, 8, 10, 12, 14, 16, 18, 20, 22, 24, 26, 28, 30,
    ]);
    let second = numbers.swizzle::<BLOCK_BYTES>([
        1, 3, 5, 7, 9, 11, 13, 15, 17, 19, 21, 23, 25, 27, 29, 31,
    ]);
    ((first << u8x16::splat(4)) | second).to_array()
}
