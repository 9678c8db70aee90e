// Constraints, as brought sizes requirements pairs, all there whether brought or not.
use crate::{pairs, requirements, words};
use constraint::{Brought, Constraints, sizes};
use sizes::TeamSizeConstraint;
use words::Cursor;

#[derive(Clone, Copy)]
pub struct ReadSizes {
    pub sizes: TeamSizeConstraint,
    pub cursor: Cursor,
}

#[derive(Clone, Copy)]
struct ReadBrought {
    brought: Brought,
    cursor: Cursor,
}

#[derive(Clone, Copy)]
pub struct ReadConstraints {
    pub constraints: Constraints,
    pub cursor: Cursor,
}

// Sizes, as a b.
pub fn sizes(text: &[u8], from: Cursor) -> ReadSizes {
    let a = words::next(text, from);
    let b = words::next(text, a.cursor);
    let sizes = TeamSizeConstraint {
        a: a.value as usize,
        b: b.value as usize,
    };
    let cursor = b.cursor;
    ReadSizes { sizes, cursor }
}

// What is brought, as five times 0 or 1 (sizes roles parties latency regions).
fn brought(text: &[u8], from: Cursor) -> ReadBrought {
    let sizes = words::next_truth(text, from);
    let roles = words::next_truth(text, sizes.cursor);
    let parties = words::next_truth(text, roles.cursor);
    let latency = words::next_truth(text, parties.cursor);
    let regions = words::next_truth(text, latency.cursor);
    let brought = Brought {
        sizes: sizes.value,
        roles: roles.value,
        parties: parties.value,
        latency: latency.value,
        regions: regions.value,
    };
    let cursor = regions.cursor;
    ReadBrought { brought, cursor }
}

pub fn read(text: &[u8], from: Cursor) -> ReadConstraints {
    let first = brought(text, from);
    let second = sizes(text, first.cursor);
    let third = requirements::read(text, second.cursor);
    let fourth = pairs::read(text, third.cursor);
    let brought = first.brought;
    let sizes = second.sizes;
    let roles = third.roles;
    let regions = fourth.regions;
    let constraints = Constraints {
        brought,
        sizes,
        roles,
        regions,
    };
    let cursor = fourth.cursor;
    ReadConstraints {
        constraints,
        cursor,
    }
}
