// time -> refusal, seconds
use crate::{scores, words};
use queue::time;
use words::Cursor;

pub fn replay(text: &[u8], inputs: Cursor) -> Cursor {
    let nanos = words::next(text, inputs);
    let given = time::as_secs_f64(nanos.value);
    scores::expect(text, nanos.cursor, given)
}
