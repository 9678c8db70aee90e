// queue entry -> refusal, queue
use crate::{queues, refusals, words};
use words::Cursor;

pub fn replay(text: &[u8], inputs: Cursor) -> Cursor {
    let brought = queues::queue(text, inputs);
    let joining = queues::entry(text, brought.cursor);
    let before = brought.queue;
    let given = before.enqueue(joining.entry);
    let answer = given.answer;
    let after = given.queue;
    let refusal = words::expect(text, joining.cursor, refusals::answered(answer));
    queues::expect_after(text, refusal, before, after)
}
