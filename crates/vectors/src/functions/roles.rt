// requirements, match, columns ids and roles -> refusal, 0 or 1
use crate::{columns, requirements, teams, verdicts, words};
use words::Cursor;

pub fn replay(text: &[u8], inputs: Cursor) -> Cursor {
    let mut ids = [0u64; 129];
    let mut roles = [0u32; 129];
    let required = requirements::read(text, inputs);
    let teams = teams::proposed(text, required.cursor);
    let first = columns::numbers(text, teams.cursor, &mut ids);
    let second = columns::halves(text, first.cursor, &mut roles);
    let n = first.len;
    let m = second.len;
    let constraint = required.roles;
    let given = constraint.is_satisfied(teams.proposed, &ids[..n], &roles[..m]);
    verdicts::expect(text, second.cursor, given)
}
