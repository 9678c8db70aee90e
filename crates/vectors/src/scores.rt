// Floats that may be refused, as refusal value. The value is 0.0 where it is refused.
use crate::{floats, refusals, words};
use base::Refusal;
use words::Cursor;

pub fn expect_refused(text: &[u8], from: Cursor, refusal: Refusal) -> Cursor {
    let refused = words::expect(text, from, refusals::number(refusal));
    floats::expect(text, refused, 0.0)
}

pub fn expect_value(text: &[u8], from: Cursor, value: f64) -> Cursor {
    let passed = words::expect(text, from, 0);
    floats::expect(text, passed, value)
}

pub fn expect(text: &[u8], from: Cursor, given: Result<f64, Refusal>) -> Cursor {
    match given {
        Err(refusal) => expect_refused(text, from, refusal),
        Ok(value) => expect_value(text, from, value),
    }
}
