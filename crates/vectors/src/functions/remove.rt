// queue player -> refusal, found, entry if found, queue
use crate::{queues, refusals, words};
use base::Refusal;
use queue::QueueEntry;
use words::Cursor;

pub fn replay(text: &[u8], inputs: Cursor) -> Cursor {
    let brought = queues::queue(text, inputs);
    let player = words::next(text, brought.cursor);
    let before = brought.queue;
    let given = before.remove(player.value);
    let taken = given.taken;
    let after = given.queue;
    let entry = expect_taken(text, player.cursor, taken);
    queues::expect_after(text, entry, before, after)
}

// Past the refusal, found, and the entry if found.
fn expect_taken(text: &[u8], from: Cursor, taken: Result<Option<QueueEntry>, Refusal>) -> Cursor {
    match taken {
        Err(refusal) => words::expect_both(text, from, refusals::number(refusal), 0),
        Ok(None) => words::expect_both(text, from, 0, 0),
        Ok(Some(entry)) => {
            let found = words::expect_both(text, from, 0, 1);
            queues::expect_entry(text, found, entry)
        }
    }
}
