// weights as a vector, candidates, columns ids and ratings -> refusal, places
use crate::{candidates, columns, coordinates, places, words};
use selection::weighted;
use words::Cursor;

pub fn replay(text: &[u8], inputs: Cursor) -> Cursor {
    let mut ids = [0u64; 129];
    let mut ratings = [0.0f64; 129];
    let vector = coordinates::vector(text, inputs);
    let brought = candidates::read(text, vector.cursor);
    let first = columns::numbers(text, brought.cursor, &mut ids);
    let second = columns::of_floats(text, first.cursor, &mut ratings);
    let n = first.len;
    let m = second.len;
    let weights = coordinates::as_weights(vector.vector);
    let candidates = brought.candidates;
    let given = weighted::select(weights, candidates, brought.count, &ids[..n], &ratings[..m]);
    places::expect(text, second.cursor, given)
}
