// What is read once of each place before the choices are walked: sets of places, and counts, as numbers.
ghost use Rattle.std.specs.Prelude.{◌≡◌, not, cond, ◌&&◌, ◌||◌, [], map, ℕ, ◌+◌, ◌*◌, ◌≤◌, ◌<◌, ◌^◌, eqb, length, take, get_or};
ghost use Rattle.roster.specs.Roster.{of_ratings, of_parties, of_roles, of_regions, rating_of, party_of, region_of};
ghost use Rattle.constraint.specs.Constraints.{above_zero, party_together, may_meet, pairs_of, requirements_of};
ghost use Rattle.choice.specs.Reading.{marks, packed, one_each, counts_for, capped, most_of, bounds_of};

use crate::tally::Bounds;
use constraint::Brought;
use constraint::regions::RegionConstraint;
use constraint::roles::RoleConstraint;

// ---- sets of places

// A set of places with one more place before its first: in it or not.
fn marked_next(places: u64, is: bool) -> u64
    requires { places < 2 ^ 63 }
    ensures { result ≡ places * 2 + cond is 1 0 }
{
    if is {
        return places * 2 + 1;
    }
    places * 2
}

// The places of this key.
fn alike(keys: &[u64], key: u64) -> u64
    requires { length keys.now ≤ 64 }
    ensures { result ≡ marks (λ k. eqb k key) keys.now }
{
    let mut out: u64 = 0;
    for i in (0..keys.len()).rev() {
        out = marked_next(out, keys[i] == key);
    }
    out
}

// For each place those of the same player.
pub(crate) fn same_of(queued: &[u64]) -> [u64; 64]
    requires { length queued.now ≤ 64 }
    ensures { take (length queued.now) result ≡ map (λ p. marks (λ q. eqb q p) queued.now) queued.now }
{
    let mut out: [u64; 64] = [0; 64];
    for (i, player) in queued.iter().enumerate() {
        out[i] = alike(queued, *player);
    }
    out
}

// The places of this party; party 0 is none.
fn partners(parties: &[u64], party: u64) -> u64
    requires { length parties.now ≤ 64 }
    ensures { result ≡ marks (λ q. not (eqb party 0) && eqb q party) parties.now }
{
    if party == 0 {
        return 0;
    }
    alike(parties, party)
}

// For each place those of the same party.
pub(crate) fn partners_of(parties: &[u64]) -> [u64; 64]
    requires { length parties.now ≤ 64 }
    ensures { take (length parties.now) result ≡ map (λ p. marks (λ q. not (eqb p 0) && eqb q p) parties.now) parties.now }
{
    let mut out: [u64; 64] = [0; 64];
    for (i, party) in parties.iter().enumerate() {
        out[i] = partners(parties, *party);
    }
    out
}

// The places of the regions that may not meet this one.
fn strangers(allowed: RegionConstraint, codes: &[u8], code: u8) -> u64
    requires { length codes.now ≤ 64 }
    ensures { result ≡ marks (λ y. not (may_meet (pairs_of allowed) code y)) codes.now }
{
    let mut out: u64 = 0;
    for i in (0..codes.len()).rev() {
        let meet = allowed.may_meet(code, codes[i]);
        out = marked_next(out, !meet);
    }
    out
}

// For each place those of the regions that may not meet its own.
pub(crate) fn foes_of(allowed: RegionConstraint, codes: &[u8]) -> [u64; 64]
    requires { length codes.now ≤ 64 }
    ensures { take (length codes.now) result ≡ map (λ x. marks (λ y. not (may_meet (pairs_of allowed) x y)) codes.now) codes.now }
{
    let mut out: [u64; 64] = [0; 64];
    for (i, code) in codes.iter().enumerate() {
        out[i] = strangers(allowed, codes, *code);
    }
    out
}

// ---- what the roster says of each place

// The party that counts: 0 where parties are not brought.
fn party_in(brought: bool, ids: &[u64], parties: &[u64], player: u64) -> u64
    ensures { result ≡ cond brought (party_of (of_parties ids.now parties.now) player) 0 }
{
    if brought {
        return roster::party_of(ids, parties, player);
    }
    0
}

// The region that counts: 4 where regions are not brought.
fn region_in(brought: bool, ids: &[u64], regions: &[u8], player: u64) -> u8
    ensures { result ≡ cond brought (region_of (of_regions ids.now regions.now) player) 4 }
{
    if brought {
        return roster::region_of(ids, regions, player);
    }
    4
}

// The party of each place.
pub(crate) fn parties_of(brought: bool, queued: &[u64], ids: &[u64], parties: &[u64]) -> [u64; 64]
    requires { length queued.now ≤ 64 }
    ensures { take (length queued.now) result ≡ map (λ p. cond brought (party_of (of_parties ids.now parties.now) p) 0) queued.now }
{
    let mut out: [u64; 64] = [0; 64];
    for (i, player) in queued.iter().enumerate() {
        out[i] = party_in(brought, ids, parties, *player);
    }
    out
}

// The region of each place.
pub(crate) fn regions_of(brought: bool, queued: &[u64], ids: &[u64], regions: &[u8]) -> [u8; 64]
    requires { length queued.now ≤ 64 }
    ensures { take (length queued.now) result ≡ map (λ p. cond brought (region_of (of_regions ids.now regions.now) p) 4) queued.now }
{
    let mut out: [u8; 64] = [4; 64];
    for (i, player) in queued.iter().enumerate() {
        out[i] = region_in(brought, ids, regions, *player);
    }
    out
}

// May the player be seated, as far as rating and party go?
fn is_admitted(
    brought: Brought,
    queue: &[u64],
    ids: &[u64],
    ratings: &[f64],
    parties: &[u64],
    player: u64,
) -> bool
    ensures { result ≡ ((not brought.latency || above_zero (rating_of (of_ratings ids.now ratings.now) player)) && party_together (of_parties ids.now parties.now) queue.now (cond brought.parties (party_of (of_parties ids.now parties.now) player) 0)) }
{
    if brought.latency {
        if !constraint::latency::is_above_zero(ids, ratings, player) {
            return false;
        }
    }
    let party = party_in(brought.parties, ids, parties, player);
    constraint::parties::is_whole(queue, ids, parties, party)
}

// May the player of each place be seated?
pub(crate) fn admits_of(
    brought: Brought,
    queue: &[u64],
    ids: &[u64],
    ratings: &[f64],
    parties: &[u64],
) -> [bool; 64]
    requires { length queue.now ≤ 64 }
    ensures { take (length queue.now) result ≡ map (λ p. (not brought.latency || above_zero (rating_of (of_ratings ids.now ratings.now) p)) && party_together (of_parties ids.now parties.now) queue.now (cond brought.parties (party_of (of_parties ids.now parties.now) p) 0)) queue.now }
{
    let mut out = [false; 64];
    for (i, player) in queue.iter().enumerate() {
        out[i] = is_admitted(brought, queue, ids, ratings, parties, *player);
    }
    out
}

// ---- role requirements as digits

// The requirements that are brought.
pub(crate) fn required(brought: bool, roles: RoleConstraint) -> RoleConstraint
    ensures { requirements_of result ≡ cond brought (requirements_of roles) [] }
{
    if brought {
        return roles;
    }
    let mut none = roles;
    none.count = 0;
    none
}

// 1 where a role counts for a requirement of that role; role 0 counts for none.
fn one_if(asked: u32, role: u32) -> u64
    ensures { result ≡ cond (not (eqb asked 0) && eqb role asked) 1 0 }
{
    if asked == 0 {
        return 0;
    }
    if role == asked {
        return 1;
    }
    0
}

// 1 for each requirement that this role counts for.
fn counted(required: RoleConstraint, role: u32) -> u64
    ensures { (result ≡ packed (map (λ q. cond (not (eqb q.role 0) && eqb role q.role) 1 0) (requirements_of required))) × (result ≤ one_each) }
{
    let requirements = required.requirements;
    let mut out: u64 = 0;
    for i in (0..required.held()).rev() {
        let requirement = requirements[i];
        out = out * 256 + one_if(requirement.role, role);
    }
    out
}

// The counts that the player of each place adds.
pub(crate) fn counts_of(
    required: RoleConstraint,
    queued: &[u64],
    ids: &[u64],
    roles: &[u32],
) -> [u64; 64]
    requires { length queued.now ≤ 64 }
    ensures { (take (length queued.now) result ≡ map (λ p. packed (map (counts_for (of_roles ids.now roles.now) p) (requirements_of required))) queued.now) × ((i : ℕ) → get_or result i 0 ≤ one_each) }
{
    let mut out: [u64; 64] = [0; 64];
    for (i, player) in queued.iter().enumerate() {
        out[i] = counted(required, roster::role_of(ids, roles, *player));
    }
    out
}

// The limit, if it is below 255, which no count reaches.
fn cap(limit: usize) -> u64
    ensures { result ≡ capped limit }
{
    if 255 < limit {
        return 255;
    }
    limit as u64
}

fn cap_of(most: Option<usize>) -> u64
    ensures { result ≡ most_of most }
{
    match most {
        None => 255,
        Some(limit) => cap(limit),
    }
}

// The limits of all requirements.
pub(crate) fn bounds_of(required: RoleConstraint) -> Bounds
    ensures { result ≡ bounds_of (requirements_of required) }
{
    let requirements = required.requirements;
    let asked = required.held();
    let mut least: u64 = 0;
    let mut most: u64 = 0;
    for i in (0..asked).rev() {
        let requirement = requirements[i];
        let limit = requirement.most;
        least = least * 256 + cap(requirement.least);
        most = most * 256 + cap_of(limit);
    }
    Bounds { asked, least, most }
}
