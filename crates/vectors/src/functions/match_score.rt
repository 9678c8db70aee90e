// weights (quality wait ping uncertainty), match, queue, columns ids, ratings and deviations, clock -> refusal, value
use crate::{columns, queues, scores, teams, weights, words};
use words::Cursor;

pub fn replay(text: &[u8], inputs: Cursor) -> Cursor {
    let mut ids = [0u64; 129];
    let mut ratings = [0.0f64; 129];
    let mut deviations = [0.0f64; 129];
    let weighed = weights::read(text, inputs);
    let teams = teams::proposed(text, weighed.cursor);
    let waiting = queues::queue(text, teams.cursor);
    let first = columns::numbers(text, waiting.cursor, &mut ids);
    let second = columns::of_floats(text, first.cursor, &mut ratings);
    let third = columns::of_floats(text, second.cursor, &mut deviations);
    let clock = words::next(text, third.cursor);
    let n = first.len;
    let m = second.len;
    let k = third.len;
    let weights = weighed.weights;
    let given = weights.score(
        teams.proposed,
        waiting.queue,
        &ids[..n],
        &ratings[..m],
        &deviations[..k],
        clock.value,
    );
    scores::expect(text, clock.cursor, given)
}
