//! Whole numbers: arithmetic and bits.

use caja_num::{NumberFault, Whole};
use std::test::Fail;

const LARGEST: i64 = 9_007_199_254_740_991;

/// Stands in a row for a fault.
const FAULT: i64 = i64::MIN;

fn value(r: Result<Whole, NumberFault>) -> i64 {
    match r {
        Ok(n) => n.get(),
        Err(_fault) => FAULT,
    }
}

/// Each row: a, b, and a + b, a - b, a * b, a / b, a % b.
static ARITHMETIC: [[i64; 7]; 7] = [
    [7, 2, 9, 5, 14, FAULT, 1],
    [6, 3, 9, 3, 18, 2, 0],
    [-7, 2, -5, -9, -14, FAULT, -1],
    [0, -5, -5, 5, 0, 0, 0],
    [1, 0, 1, 1, 0, FAULT, FAULT],
    [LARGEST, 1, FAULT, LARGEST - 1, LARGEST, LARGEST, 0],
    [-LARGEST, LARGEST, 0, FAULT, FAULT, -1, 0],
];

fn calculates(row: &[i64; 7]) -> Option<bool> {
    let [a, b, sum, difference, product, quotient, remainder] = *row;
    let (left, right) = (Whole::new(a)?, Whole::new(b)?);
    let added = value(left.add(right)) == sum && value(left.sub(right)) == difference;
    let multiplied = value(left.mul(right)) == product && value(left.div(right)) == quotient;
    Some(added && multiplied && value(left.rem(right)) == remainder)
}

#[test]
fn arithmetic_is_exact_or_a_fault(rt: HostRuntime) -> Result<(), Fail> {
    for row in ARITHMETIC.iter() {
        assert_eq!(rt; calculates(row), Some(true), "{} and {}", row[0], row[1]);
    }
    Ok(())
}

/// Each row: a, b, and a & b, a | b, a ^ b, a << b, a >> b, a >>> b.
static BITS: [[i64; 8]; 7] = [
    [5, 3, 1, 7, 6, 40, 0, 0],
    [1, 31, 1, 31, 30, -2_147_483_648, 0, 0],
    [1, 32, 0, 33, 33, 1, 1, 1],
    [1, -1, 1, -1, -2, -2_147_483_648, 0, 0],
    [-1, 0, 0, -1, -1, -1, -1, 4_294_967_295],
    [-1, 1, 1, -1, -2, -2, -1, 2_147_483_647],
    [4_294_967_301, 3, 1, 7, 6, 40, 0, 0],
];

fn has_bits(row: &[i64; 8]) -> Option<bool> {
    let [a, b, and, or, xor, shl, shr, ushr] = *row;
    let (left, right) = (Whole::new(a)?, Whole::new(b)?);
    let both = left.bit_and(right).get() == and && left.bit_or(right).get() == or;
    let shifted = left.shl(right).get() == shl && left.shr(right).get() == shr;
    Some(both && shifted && left.bit_xor(right).get() == xor && left.ushr(right).get() == ushr)
}

#[test]
fn bits_are_those_of_32_bit_words(rt: HostRuntime) -> Result<(), Fail> {
    for row in BITS.iter() {
        assert_eq!(rt; has_bits(row), Some(true), "{} and {}", row[0], row[1]);
    }
    Ok(())
}

/// Whether -a and ~a are these.
fn turns(a: i64, minus: i64, not: i64) -> Option<bool> {
    let number = Whole::new(a)?;
    Some(number.neg().get() == minus && number.bit_not().get() == not)
}

#[test]
fn numbers_end_at_2_to_53(rt: HostRuntime) -> Result<(), Fail> {
    assert_eq!(rt; turns(0, 0, -1), Some(true));
    assert_eq!(rt; turns(5, -5, -6), Some(true));
    assert_eq!(rt; turns(LARGEST, -LARGEST, 0), Some(true));
    assert!(rt; Whole::new(LARGEST + 1).is_none());
    assert!(rt; Whole::new(-LARGEST - 1).is_none());
    Ok(())
}
