// Lists, as n and n words, into an array that the caller lends. A list that is longer than the array fails.
ghost use Rattle.std.specs.Prelude.{◌≤◌};
ghost use Rattle.base.specs.Sheets.{Counts};

use crate::words;
use words::Cursor;

// How many were read.
#[derive(Clone, Copy)]
pub struct Listed {
    pub len: usize,
    pub cursor: Cursor,
}

// How many words follow, of which there is room for `room`.
pub fn size(text: &[u8], from: Cursor, room: usize) -> Listed
    ensures { result.len ≤ room }
{
    let read = words::next(text, from);
    let n = read.value as usize;
    let cursor = read.cursor;
    if room < n {
        let failed = words::checked(cursor, false);
        return Listed {
            len: 0,
            cursor: failed,
        };
    }
    Listed { len: n, cursor }
}

// Whole words.
pub fn numbers(text: &[u8], from: Cursor, out: &mut [u64]) -> Listed
    ensures { Counts result.len out.new }
{
    let listed = size(text, from, out.len());
    let n = listed.len;
    let mut cursor = listed.cursor;
    for i in 0..n {
        let read = words::next(text, cursor);
        out[i] = read.value;
        cursor = read.cursor;
    }
    Listed { len: n, cursor }
}

// Bits of floats.
pub fn of_floats(text: &[u8], from: Cursor, out: &mut [f64]) -> Listed
    ensures { Counts result.len out.new }
{
    let listed = size(text, from, out.len());
    let n = listed.len;
    let mut cursor = listed.cursor;
    for i in 0..n {
        let read = words::next(text, cursor);
        out[i] = base::from_bits(read.value);
        cursor = read.cursor;
    }
    Listed { len: n, cursor }
}

// Words below 2^32.
pub fn halves(text: &[u8], from: Cursor, out: &mut [u32]) -> Listed
    ensures { Counts result.len out.new }
{
    let listed = size(text, from, out.len());
    let n = listed.len;
    let mut cursor = listed.cursor;
    for i in 0..n {
        let read = words::next(text, cursor);
        out[i] = words::low_half(read.value);
        cursor = words::checked(read.cursor, read.value < 4294967296);
    }
    Listed { len: n, cursor }
}

// Words below 256.
pub fn bytes(text: &[u8], from: Cursor, out: &mut [u8]) -> Listed
    ensures { Counts result.len out.new }
{
    let listed = size(text, from, out.len());
    let n = listed.len;
    let mut cursor = listed.cursor;
    for i in 0..n {
        let read = words::next(text, cursor);
        out[i] = words::low_byte(read.value);
        cursor = words::checked(read.cursor, read.value < 256);
    }
    Listed { len: n, cursor }
}
