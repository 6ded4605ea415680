//! What the operators make of numbers.

ghost use Rattle.std.specs.Prelude.{◌≡◌, ◌<◌, ◌/◌, ◌%◌, ◌^◌, neg_ℤ, int_div, int_rem, IfSome};
ghost use Rattle.std.specs.Int.{CanDivide, w64};
ghost use Rattle.std.specs.Option.{SomeIff};
ghost use Rattle.jade_meaning.specs.Values.{number_given, number_or_overflow, related, fitting, added, multiplied, index_in};

use jade_base::FaultKind;
use jade_syntax::tree::{ProductOp, Relation, SumOp};

/// How two numbers compare.
pub fn is_related(relation: Relation, left: i64, right: i64) -> bool
    ensures { result ≡ related relation left right }
{
    match relation {
        Relation::Equal => left == right,
        Relation::Unequal => left != right,
        Relation::Less => left < right,
        Relation::LessEqual => left <= right,
        Relation::Greater => left > right,
        Relation::GreaterEqual => left >= right,
    }
}

// A number, where it is not too large.
fn fits(number: Option<i64>) -> Result<i64, FaultKind>
    ensures { number_given result ≡ number_or_overflow number }
{
    match number {
        Some(number) => Ok(number),
        None => Err(FaultKind::Overflow),
    }
}

/// The number with the other sign. The error is the fault `overflow`.
pub fn negate(number: i64) -> Result<i64, FaultKind>
    ensures { number_given result ≡ fitting (neg_ℤ number) }
{
    fits(number.checked_neg())
}

/// A sum or a difference. The error is the fault `overflow`.
pub fn add(op: SumOp, left: i64, right: i64) -> Result<i64, FaultKind>
    ensures { number_given result ≡ added op left right }
{
    match op {
        SumOp::Plus => fits(left.checked_add(right)),
        SumOp::Minus => fits(left.checked_sub(right)),
    }
}

// The exponent of a power of two.
fn exponent(number: u64) -> Option<u32>
    ensures small { IfSome result (λ exponent. exponent < 64) }
    ensures power { IfSome result (λ exponent. number ≡ 2 ^ exponent) }
{
    let exponent = number.trailing_zeros();
    if exponent < 64 && 1u64 << exponent == number {
        Some(exponent)
    } else {
        None
    }
}

// A quotient of numbers from 0 on. By a power of two it takes no division, which is slow.
fn natural_quotient(left: u64, right: u64) -> u64
    requires { 0 < right }
    ensures { result ≡ left / right }
{
    match exponent(right) {
        Some(exponent) => left >> exponent,
        None => left / right,
    }
}

// A remainder of numbers from 0 on. By a power of two it takes no division, which is slow.
fn natural_remainder(left: u64, right: u64) -> u64
    requires { 0 < right }
    ensures { result ≡ left % right }
{
    match exponent(right) {
        Some(_) => left & (right - 1),
        None => left % right,
    }
}

// A quotient, where the divisor is not 0 and it fits.
fn quotient(left: i64, right: i64) -> Option<i64>
    ensures { SomeIff result (CanDivide w64 left right) (int_div left right) }
{
    if left >= 0 && right > 0 {
        Some(natural_quotient(left as u64, right as u64) as i64)
    } else {
        left.checked_div(right)
    }
}

// A remainder, where the divisor is not 0 and the quotient fits.
fn remainder(left: i64, right: i64) -> Option<i64>
    ensures { SomeIff result (CanDivide w64 left right) (int_rem left right) }
{
    if left >= 0 && right > 0 {
        Some(natural_remainder(left as u64, right as u64) as i64)
    } else {
        left.checked_rem(right)
    }
}

/// A product, a quotient or a remainder. The error is the fault `overflow`, or `zero` where the
/// divisor is 0.
pub fn multiply(op: ProductOp, left: i64, right: i64) -> Result<i64, FaultKind>
    ensures { number_given result ≡ multiplied op left right }
{
    match op {
        ProductOp::Times => fits(left.checked_mul(right)),
        ProductOp::Over => {
            if right == 0 {
                Err(FaultKind::Zero)
            } else {
                fits(quotient(left, right))
            }
        }
        ProductOp::Remainder => {
            if right == 0 {
                Err(FaultKind::Zero)
            } else {
                fits(remainder(left, right))
            }
        }
    }
}

/// The number as an index, where it is one below `count`.
pub fn index_below(number: i64, count: usize) -> Option<usize>
    ensures { result ≡ index_in number count }
{
    if number >= 0 && (number as u64) < (count as u64) {
        Some(number as usize)
    } else {
        None
    }
}
