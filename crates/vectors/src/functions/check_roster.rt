// six times n and n words (ids ratings deviations parties roles regions) -> refusal
use crate::{lists, refusals, words};
use words::Cursor;

pub fn replay(text: &[u8], inputs: Cursor) -> Cursor {
    let mut ids = [0u64; 256];
    let listed = lists::numbers(text, inputs, &mut ids);
    let n = listed.len;
    after_ids(text, listed.cursor, &ids[..n])
}

// Reads the columns of floats.
fn after_ids(text: &[u8], from: Cursor, ids: &[u64]) -> Cursor {
    let mut ratings = [0.0f64; 256];
    let mut deviations = [0.0f64; 256];
    let first = lists::of_floats(text, from, &mut ratings);
    let second = lists::of_floats(text, first.cursor, &mut deviations);
    let n = first.len;
    let m = second.len;
    after_floats(text, second.cursor, ids, &ratings[..n], &deviations[..m])
}

// Reads the other columns, and calls.
fn after_floats(
    text: &[u8],
    from: Cursor,
    ids: &[u64],
    ratings: &[f64],
    deviations: &[f64],
) -> Cursor {
    let mut parties = [0u64; 256];
    let mut roles = [0u32; 256];
    let mut regions = [0u8; 256];
    let first = lists::numbers(text, from, &mut parties);
    let second = lists::halves(text, first.cursor, &mut roles);
    let third = lists::bytes(text, second.cursor, &mut regions);
    let n = first.len;
    let m = second.len;
    let k = third.len;
    let given = roster::check_roster(
        ids,
        ratings,
        deviations,
        &parties[..n],
        &roles[..m],
        &regions[..k],
    );
    words::expect(text, third.cursor, refusals::answered(given))
}
