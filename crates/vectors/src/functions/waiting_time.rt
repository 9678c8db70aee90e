// queue player now -> refusal, found, wait
use crate::{queues, refusals, words};
use base::Refusal;
use words::Cursor;

pub fn replay(text: &[u8], inputs: Cursor) -> Cursor {
    let brought = queues::queue(text, inputs);
    let player = words::next(text, brought.cursor);
    let clock = words::next(text, player.cursor);
    let before = brought.queue;
    let given = before.waiting_time(player.value, clock.value);
    expect_wait(text, clock.cursor, given)
}

// Past the refusal, found and the wait.
fn expect_wait(text: &[u8], from: Cursor, wait: Result<Option<u64>, Refusal>) -> Cursor {
    match wait {
        Err(refusal) => {
            let refused = words::expect(text, from, refusals::number(refusal));
            words::expect_both(text, refused, 0, 0)
        }
        Ok(None) => {
            let passed = words::expect(text, from, 0);
            words::expect_both(text, passed, 0, 0)
        }
        Ok(Some(nanos)) => {
            let passed = words::expect(text, from, 0);
            words::expect_both(text, passed, 1, nanos)
        }
    }
}
