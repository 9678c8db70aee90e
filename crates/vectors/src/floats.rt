// Floats as their bits. All NaNs are equal, and so are the two zeros.
use crate::words;
use words::Cursor;

fn is_same(x: f64, y: f64) -> bool {
    if x != x {
        return y != y;
    }
    x == y
}

// Past the next word, which has to be a float equal to `x`.
pub fn expect(text: &[u8], cursor: Cursor, x: f64) -> Cursor {
    let read = words::next(text, cursor);
    let same = is_same(x, base::from_bits(read.value));
    words::checked(read.cursor, same)
}
