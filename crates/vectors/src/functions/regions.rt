// pairs, match, columns ids and regions -> refusal, 0 or 1
use crate::{columns, pairs, teams, verdicts, words};
use words::Cursor;

pub fn replay(text: &[u8], inputs: Cursor) -> Cursor {
    let mut ids = [0u64; 129];
    let mut regions = [0u8; 129];
    let allowed = pairs::read(text, inputs);
    let teams = teams::proposed(text, allowed.cursor);
    let first = columns::numbers(text, teams.cursor, &mut ids);
    let second = columns::bytes(text, first.cursor, &mut regions);
    let n = first.len;
    let m = second.len;
    let constraint = allowed.regions;
    let given = constraint.is_satisfied(teams.proposed, &ids[..n], &regions[..m]);
    verdicts::expect(text, second.cursor, given)
}
