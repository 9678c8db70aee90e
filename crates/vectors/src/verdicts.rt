// Verdicts, as refusal and 0 or 1. It is 0 where it is refused.
use crate::{refusals, words};
use base::Refusal;
use words::Cursor;

pub fn expect(text: &[u8], from: Cursor, given: Result<bool, Refusal>) -> Cursor {
    match given {
        Err(refusal) => words::expect_both(text, from, refusals::number(refusal), 0),
        Ok(satisfied) => words::expect_both(text, from, 0, u64::from(satisfied)),
    }
}
