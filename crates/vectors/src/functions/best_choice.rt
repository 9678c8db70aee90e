// queue, sizes, constraints, objectives, columns ids, ratings, parties, roles and regions -> refusal, found, match if found, tried
use crate::{columns, constraints, objectives, queues, refusals, sheets, teams, words};
use base::Refusal;
use choice::Choice;
use constraint::Constraints;
use matchmaker::ProposedMatch;
use objectives::ReadObjectives;
use queue::Queue;
use seating::TeamComposition;
use words::Cursor;

// What the line says before its columns.
#[derive(Clone, Copy)]
struct Asked {
    queue: Queue,
    sizes: TeamComposition,
    constraints: Constraints,
    listed: ReadObjectives,
    cursor: Cursor,
}

fn before_columns(text: &[u8], inputs: Cursor) -> Asked {
    let waiting = queues::queue(text, inputs);
    let teams = sheets::sizes(text, waiting.cursor);
    let brought = constraints::read(text, teams.cursor);
    let listed = objectives::read(text, brought.cursor);
    let queue = waiting.queue;
    let sizes = teams.sizes;
    let constraints = brought.constraints;
    let cursor = listed.cursor;
    Asked {
        queue,
        sizes,
        constraints,
        listed,
        cursor,
    }
}

pub fn replay(text: &[u8], inputs: Cursor) -> Cursor {
    let mut ids = [0u64; 129];
    let mut ratings = [0.0f64; 129];
    let asked = before_columns(text, inputs);
    let first = columns::numbers(text, asked.cursor, &mut ids);
    let second = columns::of_floats(text, first.cursor, &mut ratings);
    let n = first.len;
    let m = second.len;
    after_ratings(text, second.cursor, asked, &ids[..n], &ratings[..m])
}

// Reads the other columns.
fn after_ratings(text: &[u8], from: Cursor, asked: Asked, ids: &[u64], ratings: &[f64]) -> Cursor {
    let mut parties = [0u64; 129];
    let mut roles = [0u32; 129];
    let mut regions = [0u8; 129];
    let first = columns::numbers(text, from, &mut parties);
    let second = columns::halves(text, first.cursor, &mut roles);
    let third = columns::bytes(text, second.cursor, &mut regions);
    let n = first.len;
    let m = second.len;
    let k = third.len;
    after_columns(
        text,
        third.cursor,
        asked,
        ids,
        ratings,
        &parties[..n],
        &roles[..m],
        &regions[..k],
    )
}

// Calls, unless a kind is unknown: that is refused as over limit.
fn after_columns(
    text: &[u8],
    from: Cursor,
    asked: Asked,
    ids: &[u64],
    ratings: &[f64],
    parties: &[u64],
    roles: &[u32],
    regions: &[u8],
) -> Cursor {
    let listed = asked.listed;
    if !listed.known {
        return expect_nothing(text, from, 1, 0);
    }
    let kinds = listed.kinds;
    let weights = listed.weights;
    let given = choice::best_choice(
        asked.queue,
        asked.sizes,
        asked.constraints,
        false,
        objectives::of_kinds(kinds, weights),
        listed.count,
        ids,
        ratings,
        parties,
        roles,
        regions,
    );
    expect(text, from, given)
}

// Past the next words, which have to be the choice.
fn expect(text: &[u8], from: Cursor, given: Result<Choice, Refusal>) -> Cursor {
    match given {
        Err(refusal) => expect_nothing(text, from, refusals::number(refusal), 0),
        Ok(choice) => match choice.best {
            Some(teams) => expect_chosen(text, from, teams, choice.tried),
            None => expect_nothing(text, from, 0, choice.tried),
        },
    }
}

fn expect_nothing(text: &[u8], from: Cursor, refusal: u64, tried: u64) -> Cursor {
    let cursor = words::expect_both(text, from, refusal, 0);
    words::expect(text, cursor, tried)
}

fn expect_chosen(text: &[u8], from: Cursor, teams: ProposedMatch, tried: u64) -> Cursor {
    let found = words::expect_both(text, from, 0, 1);
    let seated = teams::expect(text, found, teams);
    words::expect(text, seated, tried)
}
