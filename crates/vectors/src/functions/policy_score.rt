// constraints, objectives, match, columns ids, ratings, parties, roles and regions -> refusal, value
use crate::{columns, constraints, objectives, scores, teams, words};
use base::Refusal;
use constraint::Constraints;
use matchmaker::ProposedMatch;
use objectives::ReadObjectives;
use words::Cursor;

pub fn replay(text: &[u8], inputs: Cursor) -> Cursor {
    let mut ids = [0u64; 129];
    let brought = constraints::read(text, inputs);
    let listed = objectives::read(text, brought.cursor);
    let teams = teams::proposed(text, listed.cursor);
    let column = columns::numbers(text, teams.cursor, &mut ids);
    let n = column.len;
    after_ids(
        text,
        column.cursor,
        brought.constraints,
        listed,
        teams.proposed,
        &ids[..n],
    )
}

// Reads the ratings and the parties.
fn after_ids(
    text: &[u8],
    from: Cursor,
    constraints: Constraints,
    listed: ReadObjectives,
    proposed: ProposedMatch,
    ids: &[u64],
) -> Cursor {
    let mut ratings = [0.0f64; 129];
    let mut parties = [0u64; 129];
    let first = columns::of_floats(text, from, &mut ratings);
    let second = columns::numbers(text, first.cursor, &mut parties);
    let n = first.len;
    let m = second.len;
    after_parties(
        text,
        second.cursor,
        constraints,
        listed,
        proposed,
        ids,
        &ratings[..n],
        &parties[..m],
    )
}

// Reads the other columns.
fn after_parties(
    text: &[u8],
    from: Cursor,
    constraints: Constraints,
    listed: ReadObjectives,
    proposed: ProposedMatch,
    ids: &[u64],
    ratings: &[f64],
    parties: &[u64],
) -> Cursor {
    let mut roles = [0u32; 129];
    let mut regions = [0u8; 129];
    let first = columns::halves(text, from, &mut roles);
    let second = columns::bytes(text, first.cursor, &mut regions);
    let n = first.len;
    let m = second.len;
    after_columns(
        text,
        second.cursor,
        constraints,
        listed,
        proposed,
        ids,
        ratings,
        parties,
        &roles[..n],
        &regions[..m],
    )
}

// Calls, unless a kind is unknown: that is refused as over limit.
fn after_columns(
    text: &[u8],
    from: Cursor,
    constraints: Constraints,
    listed: ReadObjectives,
    proposed: ProposedMatch,
    ids: &[u64],
    ratings: &[f64],
    parties: &[u64],
    roles: &[u32],
    regions: &[u8],
) -> Cursor {
    if !listed.known {
        return scores::expect_refused(text, from, Refusal::OverLimit);
    }
    let kinds = listed.kinds;
    let weights = listed.weights;
    let given = policy::score(
        constraints,
        objectives::of_kinds(kinds, weights),
        listed.count,
        proposed,
        ids,
        ratings,
        parties,
        roles,
        regions,
    );
    scores::expect(text, from, given)
}
