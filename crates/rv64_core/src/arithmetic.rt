//! The operations on numbers modulo 2^64.

ghost use Rattle.std.specs.Prelude.{◌≡◌, ◌*◌, ◌*ℤ◌, ◌%◌, ◌<◌, ◌≤◌, ◌^◌, unsigned_abs};
ghost use Rattle.std.specs.Int.{w64, w32, cast_signed, cast_unsigned, int_shr};
ghost use Rattle.rv64_core.specs.Fields.{sign_extended};
ghost use Rattle.rv64_core.specs.Operations.{
  operated,
  operated_word,
  subtracted_word,
  multiplied,
  multiplied_word,
  divided,
  divided_word,
  holds,
};

use crate::{Condition, Division, Multiplication, Operation, WordOperation};

/// What an operation gives.
#[inline]
pub(crate) fn operate(op: Operation, a: u64, b: u64) -> u64
    ensures { result ≡ operated w64 op a b }
{
    match op {
        Operation::Add => a.wrapping_add(b),
        Operation::Sll => a << (b % 64),
        Operation::Slt => u64::from(a.cast_signed() < b.cast_signed()),
        Operation::Sltu => u64::from(a < b),
        Operation::Xor => a ^ b,
        Operation::Srl => a >> (b % 64),
        Operation::Sra => (a.cast_signed() >> (b % 64)).cast_unsigned(),
        Operation::Or => a | b,
        Operation::And => a & b,
    }
}

/// What an operation on the low 32 bits gives.
#[inline]
pub(crate) fn operate_word(op: WordOperation, a: u64, b: u64) -> u64
    ensures { result ≡ operated_word op a b }
{
    let a = low_word(a);
    let b = low_word(b);
    sign_extend(match op {
        WordOperation::Add => a.wrapping_add(b),
        WordOperation::Sll => a << (b % 32),
        WordOperation::Srl => a >> (b % 32),
        WordOperation::Sra => (a.cast_signed() >> (b % 32)).cast_unsigned(),
    })
}

/// The difference of the low 32 bits.
#[inline]
pub(crate) fn subtract_word(a: u64, b: u64) -> u64
    ensures { result ≡ subtracted_word a b }
{
    sign_extend(low_word(a).wrapping_sub(low_word(b)))
}

/// Half of a product.
#[inline]
pub(crate) fn multiply(op: Multiplication, a: u64, b: u64) -> u64
    ensures { result ≡ multiplied op a b }
{
    match op {
        Multiplication::Mul => a.wrapping_mul(b),
        Multiplication::Mulh => high_of_signed(a, b),
        Multiplication::Mulhsu => high_of_mixed(a, b),
        Multiplication::Mulhu => high_of_unsigned(a, b),
    }
}

/// The high half of a product of signed numbers.
#[inline]
fn high_of_signed(a: u64, b: u64) -> u64
    ensures { result ≡ multiplied Multiplication.Mulh a b }
{
    high_signed(product(widened(a), widened(b)))
}

/// The high half of a product of a signed and an unsigned number.
#[inline]
fn high_of_mixed(a: u64, b: u64) -> u64
    ensures { result ≡ multiplied Multiplication.Mulhsu a b }
{
    high_signed(product(widened(a), i128::from(b)))
}

/// The high half of a product of unsigned numbers.
#[inline]
fn high_of_unsigned(a: u64, b: u64) -> u64
    ensures { result ≡ multiplied Multiplication.Mulhu a b }
{
    ((u128::from(a) * u128::from(b)) >> 64) as u64
}

/// The product of the low 32 bits.
#[inline]
pub(crate) fn multiply_word(a: u64, b: u64) -> u64
    ensures { result ≡ multiplied_word a b }
{
    sign_extend(low_word(a).wrapping_mul(low_word(b)))
}

/// A quotient or a remainder.
#[inline]
pub(crate) fn divide(op: Division, a: u64, b: u64) -> u64
    ensures { result ≡ divided w64 op a b }
{
    if b == 0 {
        return match op {
            Division::Div | Division::Divu => u64::MAX,
            Division::Rem | Division::Remu => a,
        };
    }
    match op {
        Division::Div => a
            .cast_signed()
            .wrapping_div(b.cast_signed())
            .cast_unsigned(),
        Division::Divu => a / b,
        Division::Rem => a
            .cast_signed()
            .wrapping_rem(b.cast_signed())
            .cast_unsigned(),
        Division::Remu => a % b,
    }
}

/// A quotient or a remainder of the low 32 bits.
#[inline]
pub(crate) fn divide_word(op: Division, a: u64, b: u64) -> u64
    ensures { result ≡ divided_word op a b }
{
    sign_extend(divide_low(op, low_word(a), low_word(b)))
}

/// A quotient or a remainder of 32 bits.
#[inline]
fn divide_low(op: Division, dividend: u32, divisor: u32) -> u32
    ensures { result ≡ divided w32 op dividend divisor }
{
    if divisor == 0 {
        return match op {
            Division::Div | Division::Divu => u32::MAX,
            Division::Rem | Division::Remu => dividend,
        };
    }
    match op {
        Division::Div => dividend
            .cast_signed()
            .wrapping_div(divisor.cast_signed())
            .cast_unsigned(),
        Division::Divu => dividend / divisor,
        Division::Rem => dividend
            .cast_signed()
            .wrapping_rem(divisor.cast_signed())
            .cast_unsigned(),
        Division::Remu => dividend % divisor,
    }
}

/// Whether a branch is taken.
#[inline]
pub(crate) fn is_taken(condition: Condition, a: u64, b: u64) -> bool
    ensures { result ≡ holds condition a b }
{
    match condition {
        Condition::Eq => a == b,
        Condition::Ne => a != b,
        Condition::Lt => a.cast_signed() < b.cast_signed(),
        Condition::Ge => a.cast_signed() >= b.cast_signed(),
        Condition::Ltu => a < b,
        Condition::Geu => a >= b,
    }
}

/// A number as a signed one.
#[inline]
fn widened(value: u64) -> i128
    ensures value { result ≡ cast_signed w64 value }
    ensures bound { unsigned_abs result ≤ 2 ^ 63 }
{
    i128::from(value.cast_signed())
}

/// A product of two numbers of 65 bits, the first of them of 64.
#[inline]
#[tactic(auto, using(crate::proofs::Signed::product_fits))]
fn product(a: i128, b: i128) -> i128
    requires first { unsigned_abs a ≤ 2 ^ 63 }
    requires second { unsigned_abs b < 2 ^ 64 }
    ensures value { result ≡ a *ℤ b }
    ensures bound { unsigned_abs result < 2 ^ 127 }
{
    a * b
}

/// The high half of a signed product of two numbers of 64 bits.
#[inline]
fn high_signed(product: i128) -> u64
    requires { unsigned_abs product < 2 ^ 127 }
    ensures { result ≡ cast_unsigned w64 (int_shr product 64) }
{
    ((product >> 64) as i64).cast_unsigned()
}

/// The low 32 bits.
#[inline]
fn low_word(value: u64) -> u32
    ensures { result ≡ value % 2 ^ 32 }
{
    (value % (1 << 32)) as u32
}

/// 32 bits, sign extended.
#[inline]
pub(crate) fn sign_extend(word: u32) -> u64
    ensures { result ≡ sign_extended 31 word }
{
    i64::from(word.cast_signed()).cast_unsigned()
}
