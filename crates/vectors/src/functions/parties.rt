// match, columns ids and parties -> refusal, 0 or 1
use crate::{columns, teams, verdicts, words};
use constraint::parties;
use words::Cursor;

pub fn replay(text: &[u8], inputs: Cursor) -> Cursor {
    let mut ids = [0u64; 129];
    let mut column = [0u64; 129];
    let teams = teams::proposed(text, inputs);
    let first = columns::numbers(text, teams.cursor, &mut ids);
    let second = columns::numbers(text, first.cursor, &mut column);
    let n = first.len;
    let m = second.len;
    let given = parties::is_satisfied(teams.proposed, &ids[..n], &column[..m]);
    verdicts::expect(text, second.cursor, given)
}
