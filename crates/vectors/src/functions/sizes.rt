// sizes, match -> refusal, 0 or 1
use crate::{constraints, teams, verdicts, words};
use words::Cursor;

pub fn replay(text: &[u8], inputs: Cursor) -> Cursor {
    let required = constraints::sizes(text, inputs);
    let teams = teams::proposed(text, required.cursor);
    let sizes = required.sizes;
    let given = sizes.is_satisfied(teams.proposed);
    verdicts::expect(text, teams.cursor, given)
}
