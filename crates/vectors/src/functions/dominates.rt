// vector, other vector -> 0 or 1
use crate::{coordinates, words};
use words::Cursor;

pub fn replay(text: &[u8], inputs: Cursor) -> Cursor {
    let first = coordinates::vector(text, inputs);
    let second = coordinates::vector(text, first.cursor);
    let vector = first.vector;
    let dominates = vector.dominates(second.vector);
    words::expect(text, second.cursor, dominates as u64)
}
