// queue k ids -> refusal, queue kept, queue removed
use crate::{lists, queues, refusals, words};
use words::Cursor;

pub fn replay(text: &[u8], inputs: Cursor) -> Cursor {
    let mut players = [0u64; 256];
    let brought = queues::queue(text, inputs);
    let named = lists::numbers(text, brought.cursor, &mut players);
    let k = named.len;
    let before = brought.queue;
    let given = before.remove_batch(&players[..k]);
    let answer = given.answer;
    let kept = given.kept;
    let removed = given.removed;
    let refusal = words::expect(text, named.cursor, refusals::answered(answer));
    let staying = queues::expect_after(text, refusal, before, kept);
    queues::expect_after(text, staying, before, removed)
}
