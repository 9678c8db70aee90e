// queue, sizes, sheets -> refusal, matches
use crate::{queues, sheets, words};
use candidate::exhaustive::ExhaustiveGenerator;
use queue::Queue;
use seating::TeamComposition;
use words::Cursor;

pub fn replay(text: &[u8], inputs: Cursor) -> Cursor {
    let mut players = [0u64; 72];
    let mut qualities = [0.0f64; 72];
    let waiting = queues::queue(text, inputs);
    let teams = sheets::sizes(text, waiting.cursor);
    let first = sheets::players(text, teams.cursor, &mut players);
    let second = sheets::qualities(text, first.cursor, &mut qualities);
    let n = first.len;
    let m = second.len;
    with_sheets(
        text,
        second.cursor,
        waiting.queue,
        teams.sizes,
        &mut players[..n],
        &mut qualities[..m],
    )
}

fn with_sheets(
    text: &[u8],
    from: Cursor,
    queue: Queue,
    sizes: TeamComposition,
    players: &mut [u64],
    qualities: &mut [f64],
) -> Cursor {
    let given = ExhaustiveGenerator::generate_candidates(queue, sizes, players, qualities);
    sheets::expect(text, from, given, players, qualities)
}
