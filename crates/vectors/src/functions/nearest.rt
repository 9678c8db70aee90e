// max, queue, sizes, columns ids and ratings, sheets -> refusal, matches
use crate::{columns, queues, sheets, words};
use candidate::nearest::GreedyNearestGenerator;
use queue::Queue;
use seating::TeamComposition;
use words::Cursor;

pub fn replay(text: &[u8], inputs: Cursor) -> Cursor {
    let mut ids = [0u64; 129];
    let mut ratings = [0.0f64; 129];
    let mut players = [0u64; 72];
    let mut qualities = [0.0f64; 72];
    let max = words::next(text, inputs);
    let waiting = queues::queue(text, max.cursor);
    let teams = sheets::sizes(text, waiting.cursor);
    let first = columns::numbers(text, teams.cursor, &mut ids);
    let second = columns::of_floats(text, first.cursor, &mut ratings);
    let third = sheets::players(text, second.cursor, &mut players);
    let fourth = sheets::qualities(text, third.cursor, &mut qualities);
    let n = first.len;
    let m = second.len;
    let k = third.len;
    let l = fourth.len;
    with_sheets(
        text,
        fourth.cursor,
        max.value,
        waiting.queue,
        teams.sizes,
        &ids[..n],
        &ratings[..m],
        &mut players[..k],
        &mut qualities[..l],
    )
}

fn with_sheets(
    text: &[u8],
    from: Cursor,
    max: u64,
    queue: Queue,
    sizes: TeamComposition,
    ids: &[u64],
    ratings: &[f64],
    players: &mut [u64],
    qualities: &mut [f64],
) -> Cursor {
    let generator = GreedyNearestGenerator { max: max as usize };
    let given = generator.generate_candidates(queue, sizes, ids, ratings, players, qualities);
    sheets::expect(text, from, given, players, qualities)
}
