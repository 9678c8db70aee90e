// vector, weights as a vector -> value
use crate::{coordinates, floats, words};
use words::Cursor;

pub fn replay(text: &[u8], inputs: Cursor) -> Cursor {
    let first = coordinates::vector(text, inputs);
    let second = coordinates::vector(text, first.cursor);
    let vector = first.vector;
    let weights = coordinates::as_weights(second.vector);
    floats::expect(text, second.cursor, vector.scalarize(weights))
}
