//! The cells of a table's rows. A table is one text: a row a line, with ` | ` between its cells.

use std::alloc::{AllocError, Global};
use std::process::Abort;
use std::test::Fail;

/// The first cell of a row, and the others.
pub(crate) fn halves(row: &str) -> Result<(&str, &str), Fail> {
    let halves = row.split_once(" | ").ok_or("a row of one cell")?;
    Ok(halves)
}

/// The cell at a place of a row, from 0.
pub(crate) fn cell(row: &str, at: usize) -> Result<&str, Fail> {
    let cell = row.split(" | ").nth(at).ok_or("a row of fewer cells")?;
    Ok(cell)
}

/// The number in a cell.
pub(crate) fn number(row: &str, at: usize) -> Result<u64, Fail> {
    let number = cell(row, at)?.parse::<u64>()?;
    Ok(number)
}

/// The digits of a text, each a number.
pub(crate) fn digits(alloc: Global, text: &str) -> Result<Vec<u64>, AllocError> {
    let mut digits = Vec::new(alloc);
    for byte in text.bytes() {
        if byte.is_ascii_digit() {
            digits.push(u64::from(byte.wrapping_sub(b'0')))?;
        }
    }
    Ok(digits)
}

/// Asserts that bytes are a text, and else names the row.
pub(crate) fn same(rt: &impl Abort, told: &[u8], expected: &str, row: &str) {
    assert_eq!(rt; told, expected.as_bytes(), "{row}");
}
