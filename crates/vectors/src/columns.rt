// Columns of a roster, as n and n words, into an array of 129 that the caller lends. A column that fills it is 129 alone, and
// its rows are what the array holds.
ghost use Rattle.base.specs.Sheets.{Counts};

use crate::{lists, words};
use lists::Listed;
use words::Cursor;

// Whole words.
pub fn numbers(text: &[u8], from: Cursor, out: &mut [u64]) -> Listed
    ensures { Counts result.len out.new }
{
    let read = words::next(text, from);
    let cursor = read.cursor;
    let rows = out.len();
    if read.value as usize == rows {
        return Listed { len: rows, cursor };
    }
    lists::numbers(text, from, out)
}

// Bits of floats.
pub fn of_floats(text: &[u8], from: Cursor, out: &mut [f64]) -> Listed
    ensures { Counts result.len out.new }
{
    let read = words::next(text, from);
    let cursor = read.cursor;
    let rows = out.len();
    if read.value as usize == rows {
        return Listed { len: rows, cursor };
    }
    lists::of_floats(text, from, out)
}

// Words below 2^32.
pub fn halves(text: &[u8], from: Cursor, out: &mut [u32]) -> Listed
    ensures { Counts result.len out.new }
{
    let read = words::next(text, from);
    let cursor = read.cursor;
    let rows = out.len();
    if read.value as usize == rows {
        return Listed { len: rows, cursor };
    }
    lists::halves(text, from, out)
}

// Words below 256.
pub fn bytes(text: &[u8], from: Cursor, out: &mut [u8]) -> Listed
    ensures { Counts result.len out.new }
{
    let read = words::next(text, from);
    let cursor = read.cursor;
    let rows = out.len();
    if read.value as usize == rows {
        return Listed { len: rows, cursor };
    }
    lists::bytes(text, from, out)
}
