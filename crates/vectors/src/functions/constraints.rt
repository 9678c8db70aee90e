// constraints, match, columns ids, ratings, parties, roles and regions -> refusal, 0 or 1
use crate::{columns, constraints, teams, verdicts, words};
use constraint::Constraints;
use matchmaker::ProposedMatch;
use words::Cursor;

pub fn replay(text: &[u8], inputs: Cursor) -> Cursor {
    let mut ids = [0u64; 129];
    let brought = constraints::read(text, inputs);
    let teams = teams::proposed(text, brought.cursor);
    let listed = columns::numbers(text, teams.cursor, &mut ids);
    let n = listed.len;
    after_ids(
        text,
        listed.cursor,
        brought.constraints,
        teams.proposed,
        &ids[..n],
    )
}

// Reads the ratings and the parties.
fn after_ids(
    text: &[u8],
    from: Cursor,
    constraints: Constraints,
    proposed: ProposedMatch,
    ids: &[u64],
) -> Cursor {
    let mut ratings = [0.0f64; 129];
    let mut parties = [0u64; 129];
    let first = columns::of_floats(text, from, &mut ratings);
    let second = columns::numbers(text, first.cursor, &mut parties);
    let n = first.len;
    let m = second.len;
    after_parties(
        text,
        second.cursor,
        constraints,
        proposed,
        ids,
        &ratings[..n],
        &parties[..m],
    )
}

// Reads the other columns, and calls.
fn after_parties(
    text: &[u8],
    from: Cursor,
    constraints: Constraints,
    proposed: ProposedMatch,
    ids: &[u64],
    ratings: &[f64],
    parties: &[u64],
) -> Cursor {
    let mut roles = [0u32; 129];
    let mut regions = [0u8; 129];
    let first = columns::halves(text, from, &mut roles);
    let second = columns::bytes(text, first.cursor, &mut regions);
    let n = first.len;
    let m = second.len;
    let given = policy::satisfies_constraints(
        constraints,
        proposed,
        ids,
        ratings,
        parties,
        &roles[..n],
        &regions[..m],
    );
    verdicts::expect(text, second.cursor, given)
}
