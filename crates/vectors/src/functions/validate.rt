// size, requirements, team, columns ids and roles -> refusal, place, fault
use crate::{columns, refusals, requirements, teams, words};
use base::Refusal;
use constraint::teams::{TeamConstraint, Validity};
use words::Cursor;

pub fn replay(text: &[u8], inputs: Cursor) -> Cursor {
    let mut ids = [0u64; 129];
    let mut roles = [0u32; 129];
    let size = words::next(text, inputs);
    let required = requirements::read(text, size.cursor);
    let seated = teams::team(text, required.cursor);
    let first = columns::numbers(text, seated.cursor, &mut ids);
    let second = columns::halves(text, first.cursor, &mut roles);
    let n = first.len;
    let m = second.len;
    let requirements = required.roles;
    let constraint = TeamConstraint {
        size: size.value as usize,
        roles: requirements,
    };
    let given = constraint.validate(seated.team, &ids[..n], &roles[..m]);
    expect_validity(text, second.cursor, given)
}

// Past the refusal, the place and the fault: 0 none, 1 the size, 2 too few, 3 too many.
fn expect_validity(text: &[u8], from: Cursor, given: Result<Validity, Refusal>) -> Cursor {
    match given {
        Err(refusal) => {
            let refused = words::expect(text, from, refusals::number(refusal));
            words::expect_both(text, refused, 0, 0)
        }
        Ok(Validity::Valid) => expect_fault(text, from, 0, 0),
        Ok(Validity::WrongSize) => expect_fault(text, from, 0, 1),
        Ok(Validity::TooFew(place)) => expect_fault(text, from, place, 2),
        Ok(Validity::TooMany(place)) => expect_fault(text, from, place, 3),
    }
}

fn expect_fault(text: &[u8], from: Cursor, place: usize, fault: u64) -> Cursor {
    let passed = words::expect(text, from, 0);
    words::expect_both(text, passed, place as u64, fault)
}
