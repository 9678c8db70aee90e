// later earlier -> refusal, nanos
use crate::{refusals, words};
use queue::time;
use words::Cursor;

pub fn replay(text: &[u8], inputs: Cursor) -> Cursor {
    let later = words::next(text, inputs);
    let earlier = words::next(text, later.cursor);
    let given = time::duration_since(later.value, earlier.value);
    match given {
        Err(refusal) => words::expect_both(text, earlier.cursor, refusals::number(refusal), 0),
        Ok(nanos) => words::expect_both(text, earlier.cursor, 0, nanos),
    }
}
