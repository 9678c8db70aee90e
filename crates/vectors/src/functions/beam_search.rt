// width, queue, sizes, weights, columns ids, ratings and deviations, clock, sheets -> refusal, matches
use crate::{columns, queues, sheets, weights, words};
use beam::BeamSearch;
use objective::score::MatchObjective;
use queue::Queue;
use seating::TeamComposition;
use words::Cursor;

// What the line says before its columns.
#[derive(Clone, Copy)]
struct Asked {
    width: usize,
    queue: Queue,
    sizes: TeamComposition,
    weights: MatchObjective,
    cursor: Cursor,
}

fn before_columns(text: &[u8], inputs: Cursor) -> Asked {
    let width = words::next(text, inputs);
    let waiting = queues::queue(text, width.cursor);
    let teams = sheets::sizes(text, waiting.cursor);
    let weighed = weights::read(text, teams.cursor);
    let queue = waiting.queue;
    let sizes = teams.sizes;
    let weights = weighed.weights;
    let cursor = weighed.cursor;
    Asked {
        width: width.value as usize,
        queue,
        sizes,
        weights,
        cursor,
    }
}

pub fn replay(text: &[u8], inputs: Cursor) -> Cursor {
    let mut ids = [0u64; 129];
    let mut ratings = [0.0f64; 129];
    let mut deviations = [0.0f64; 129];
    let asked = before_columns(text, inputs);
    let first = columns::numbers(text, asked.cursor, &mut ids);
    let second = columns::of_floats(text, first.cursor, &mut ratings);
    let third = columns::of_floats(text, second.cursor, &mut deviations);
    let n = first.len;
    let m = second.len;
    let k = third.len;
    with_columns(
        text,
        third.cursor,
        asked,
        &ids[..n],
        &ratings[..m],
        &deviations[..k],
    )
}

fn with_columns(
    text: &[u8],
    from: Cursor,
    asked: Asked,
    ids: &[u64],
    ratings: &[f64],
    deviations: &[f64],
) -> Cursor {
    let mut players = [0u64; 72];
    let mut qualities = [0.0f64; 72];
    let clock = words::next(text, from);
    let first = sheets::players(text, clock.cursor, &mut players);
    let second = sheets::qualities(text, first.cursor, &mut qualities);
    let n = first.len;
    let m = second.len;
    with_sheets(
        text,
        second.cursor,
        asked,
        ids,
        ratings,
        deviations,
        clock.value,
        &mut players[..n],
        &mut qualities[..m],
    )
}

fn with_sheets(
    text: &[u8],
    from: Cursor,
    asked: Asked,
    ids: &[u64],
    ratings: &[f64],
    deviations: &[f64],
    clock: u64,
    players: &mut [u64],
    qualities: &mut [f64],
) -> Cursor {
    let search = BeamSearch { width: asked.width };
    let given = search.search(
        asked.queue,
        asked.sizes,
        asked.weights,
        ids,
        ratings,
        deviations,
        clock,
        players,
        qualities,
    );
    sheets::expect(text, from, given, players, qualities)
}
