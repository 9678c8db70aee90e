// queue, sizes, columns ids and ratings, sheets -> refusal, matches
use crate::{columns, queues, sheets, words};
use greedy::GreedySearch;
use queue::Queue;
use seating::TeamComposition;
use words::Cursor;

pub fn replay(text: &[u8], inputs: Cursor) -> Cursor {
    let mut ids = [0u64; 129];
    let mut ratings = [0.0f64; 129];
    let mut players = [0u64; 72];
    let mut qualities = [0.0f64; 72];
    let waiting = queues::queue(text, inputs);
    let teams = sheets::sizes(text, waiting.cursor);
    let first = columns::numbers(text, teams.cursor, &mut ids);
    let second = columns::of_floats(text, first.cursor, &mut ratings);
    let third = sheets::players(text, second.cursor, &mut players);
    let fourth = sheets::qualities(text, third.cursor, &mut qualities);
    let n = first.len;
    let m = second.len;
    let k = third.len;
    let l = fourth.len;
    with_sheets(
        text,
        fourth.cursor,
        waiting.queue,
        teams.sizes,
        &ids[..n],
        &ratings[..m],
        &mut players[..k],
        &mut qualities[..l],
    )
}

fn with_sheets(
    text: &[u8],
    from: Cursor,
    queue: Queue,
    sizes: TeamComposition,
    ids: &[u64],
    ratings: &[f64],
    players: &mut [u64],
    qualities: &mut [f64],
) -> Cursor {
    let given = GreedySearch::search(queue, sizes, ids, ratings, players, qualities);
    sheets::expect(text, from, given, players, qualities)
}
