//! The cases that are easiest to get wrong. Made by tests_table/table.cpp.

use super::BinaryRow;
use ooo_value::Fault::{DivideByZero, Overflow, ShiftRange};
use ooo_value::Op::*;
use ooo_value::Value::{Bool, Int, Long, Uint, Ulong};

// The cases that are easiest to get wrong.
pub static CHOSEN: [BinaryRow; 24] = [
    (Add, Int(i32::MAX), Int(1), Err(Overflow)),
    (Add, Uint(u32::MAX), Uint(1), Ok(Uint(0))),
    (Divide, Int(i32::MIN), Int(-1), Err(Overflow)),
    (Remainder, Int(i32::MIN), Int(-1), Err(Overflow)),
    (Divide, Long(i64::MIN), Int(-1), Err(Overflow)),
    (Remainder, Long(i64::MIN), Long(-1), Err(Overflow)),
    (Divide, Int(-7), Int(2), Ok(Int(-3))),
    (Remainder, Int(-7), Int(2), Ok(Int(-1))),
    (Divide, Int(7), Int(-2), Ok(Int(-3))),
    (Remainder, Int(7), Int(-2), Ok(Int(1))),
    (Less, Int(-1), Uint(0), Ok(Bool(false))),
    (Less, Int(-1), Ulong(0), Ok(Bool(false))),
    (Less, Int(-1), Long(0), Ok(Bool(true))),
    (ShiftRight, Int(-1), Int(31), Ok(Int(-1))),
    (ShiftRight, Long(-7), Ulong(1), Ok(Long(-4))),
    (ShiftRight, Uint(1), Long(32), Err(ShiftRange)),
    (ShiftLeft, Int(1), Int(31), Ok(Int(i32::MIN))),
    (ShiftLeft, Int(1), Int(32), Err(ShiftRange)),
    (ShiftLeft, Long(1), Int(63), Ok(Long(i64::MIN))),
    (ShiftLeft, Long(1), Int(64), Err(ShiftRange)),
    (ShiftLeft, Bool(true), Int(-1), Err(ShiftRange)),
    (Subtract, Uint(0), Uint(1), Ok(Uint(u32::MAX))),
    (Subtract, Ulong(0), Int(1), Ok(Ulong(u64::MAX))),
    (Add, Bool(true), Bool(true), Ok(Int(2))),
];
