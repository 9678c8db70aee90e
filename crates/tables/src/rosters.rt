// Rosters by value, and what a full round brings.
use capi::halls::RoundRules;
use capi::rules::{Constraints, RoleRequirement, RoleRequirements};
use constraint::Brought;
use constraint::regions::{RegionConstraint, RegionPair};
use constraint::sizes::TeamSizeConstraint;

// The soft objectives that are used here, as a full round takes them.
pub const SKILL: u8 = 0;

pub const WAIT: u8 = 2;

// Guests 1 to 128, by row.
#[derive(Clone, Copy)]
pub struct Roster {
    pub ids: [u64; 128],
    pub ratings: [f64; 128],
    pub deviations: [f64; 128],
    pub parties: [u64; 128],
}

pub fn nan() -> f64 {
    0.0 / 0.0
}

// Few values, so that many guests are rated alike, guests 1 to 4 among them.
pub fn rating(guest: u64) -> f64 {
    match guest % 8 {
        5 => 1010.0,
        6 => 1090.0,
        7 => nan(),
        _ => 1000.0,
    }
}

fn ids() -> [u64; 128] {
    let mut ids = [0u64; 128];
    for i in 0..128 {
        ids[i] = i as u64 + 1;
    }
    ids
}

fn ratings() -> [f64; 128] {
    let mut ratings = [0.0f64; 128];
    for i in 0..128 {
        ratings[i] = rating(i as u64 + 1);
    }
    ratings
}

// Guests 5 and 6 are a party.
pub fn guests() -> Roster {
    let mut parties = [0u64; 128];
    parties[4] = 1;
    parties[5] = 1;
    Roster {
        ids: ids(),
        ratings: ratings(),
        deviations: [50.0; 128],
        parties,
    }
}

// That parties of the roster sit together, that friends who wait do, both or neither.
pub fn rules(parties: bool, friends: bool) -> RoundRules {
    RoundRules {
        constraints: constraints(parties),
        waiting_friends: friends,
    }
}

// No constraint, or that parties sit together.
fn constraints(together: bool) -> Constraints {
    let requirement = RoleRequirement {
        role: 0,
        least: 0,
        bounded: false,
        most: 0,
    };
    let pair = RegionPair {
        first: 0,
        second: 0,
    };
    Constraints {
        brought: Brought {
            sizes: false,
            roles: false,
            parties: together,
            latency: false,
            regions: false,
        },
        sizes: TeamSizeConstraint { a: 0, b: 0 },
        roles: RoleRequirements {
            items: [requirement; 8],
            len: 0,
        },
        regions: RegionConstraint {
            pairs: [pair; 16],
            count: 0,
        },
    }
}
