// Role requirements, as n and n times role least bounded most.
ghost use Rattle.std.specs.Prelude.{◌≤◌};

use crate::words;
use constraint::roles;
use roles::{RoleConstraint, RoleRequirement};
use words::Cursor;

#[derive(Clone, Copy)]
struct ReadRequirement {
    requirement: RoleRequirement,
    cursor: Cursor,
}

#[derive(Clone, Copy)]
pub struct ReadRequirements {
    pub roles: RoleConstraint,
    pub cursor: Cursor,
}

// The last word counts only where it is bounded.
fn maximum(bounded: bool, most: usize) -> Option<usize> {
    if bounded { Some(most) } else { None }
}

fn requirement(text: &[u8], from: Cursor) -> ReadRequirement {
    let role = words::next(text, from);
    let least = words::next(text, role.cursor);
    let bounded = words::next_truth(text, least.cursor);
    let most = words::next(text, bounded.cursor);
    let fits = role.value < 4294967296;
    let maximum = maximum(bounded.value, most.value as usize);
    let requirement = RoleRequirement {
        role: words::low_half(role.value),
        least: least.value as usize,
        most: maximum,
    };
    let cursor = words::checked(most.cursor, fits);
    ReadRequirement {
        requirement,
        cursor,
    }
}

// Stands where nothing is read.
fn nothing() -> RoleRequirement {
    RoleRequirement {
        role: 0,
        least: 0,
        most: None,
    }
}

// n requirements.
fn listed(text: &[u8], from: Cursor, n: usize) -> ReadRequirements
    requires { n ≤ 8 }
{
    let mut requirements = [nothing(); 8];
    let mut cursor = from;
    for i in 0..n {
        let read = requirement(text, cursor);
        let next = read.requirement;
        requirements[i] = next;
        cursor = read.cursor;
    }
    ReadRequirements {
        roles: RoleConstraint {
            requirements,
            count: n,
        },
        cursor,
    }
}

// Requirements, of which a number above 8 stands alone.
pub fn read(text: &[u8], from: Cursor) -> ReadRequirements {
    let len = words::next(text, from);
    let n = len.value as usize;
    let cursor = len.cursor;
    if 8 < n {
        return ReadRequirements {
            roles: RoleConstraint {
                requirements: [nothing(); 8],
                count: n,
            },
            cursor,
        };
    }
    listed(text, cursor, n)
}
