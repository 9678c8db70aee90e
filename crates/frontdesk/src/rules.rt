// What full rounds must hold to: at most one constraint of each kind, and that friends who wait sit together.
use crate::fields::Fields;
use crate::numbers::Problem;
use crate::words::{Heard, Word};
use crate::{commands, complaints, fields, print, refusals, values, words};
use base::Refusal;
use capi::halls::RoundRules;
use capi::rules::{Constraints, RoleRequirement, RoleRequirements};
use check::same;
use constraint::Brought;
use constraint::regions::{RegionConstraint, RegionPair};
use constraint::sizes::TeamSizeConstraint;

// No rule at all.
pub fn none() -> RoundRules {
    RoundRules {
        constraints: no_constraints(),
        waiting_friends: false,
    }
}

fn no_constraints() -> Constraints {
    let nobody = RoleRequirement {
        role: 0,
        least: 0,
        bounded: false,
        most: 0,
    };
    let pair = RegionPair {
        first: 0,
        second: 0,
    };
    Constraints {
        brought: Brought {
            sizes: false,
            roles: false,
            parties: false,
            latency: false,
            regions: false,
        },
        sizes: TeamSizeConstraint { a: 0, b: 0 },
        roles: RoleRequirements {
            items: [nobody; 8],
            len: 0,
        },
        regions: RegionConstraint {
            pairs: [pair; 16],
            count: 0,
        },
    }
}

// `rule sizes 2+2` and so on.
pub fn rule(rules: RoundRules, text: &[u8], heard: Heard) -> RoundRules {
    let word = words::next(text, heard.behind());
    if same(words::bytes_of(text, word), b"friends") {
        return friends(rules, text, heard, word.to);
    }
    let mut next = rules;
    let constraints = rules.constraints;
    let more = with_constraint(constraints, text, heard, word);
    next.constraints = more;
    next
}

// The other five kinds, and a word that is none.
fn with_constraint(rules: Constraints, text: &[u8], heard: Heard, word: Word) -> Constraints {
    let kind = words::bytes_of(text, word);
    if same(kind, b"sizes") {
        return sizes(rules, text, heard, word.to);
    }
    if same(kind, b"role") {
        return role(rules, text, heard, word.from);
    }
    if same(kind, b"regions") {
        return regions(rules, text, heard, word.to);
    }
    if same(kind, b"parties") {
        return parties(rules, text, heard, word.to);
    }
    if same(kind, b"latency") {
        return latency(rules, text, heard, word.to);
    }
    complaints::word(
        text,
        heard,
        b"sizes, role, parties, friends, latency or regions",
        word,
    );
    rules
}

// The rules, of which these are brought.
fn set(rules: Constraints, brought: Brought) -> Constraints {
    let mut next = rules;
    next.brought = brought;
    print::text(b"rule set\n");
    next
}

// ---- the six kinds

fn sizes(rules: Constraints, text: &[u8], heard: Heard, at: usize) -> Constraints {
    let word = words::next(text, at);
    let read = values::sizes(words::bytes_of(text, word));
    let problem = read.problem;
    let Problem::Nothing = problem else {
        complaints::word(text, heard, b"team sizes such as 5+5", word);
        return rules;
    };
    if !fields::end(text, heard, word.to) {
        return rules;
    }
    let mut next = rules;
    let mut brought = rules.brought;
    brought.sizes = true;
    let wanted = TeamSizeConstraint {
        a: read.a as usize,
        b: read.b as usize,
    };
    next.sizes = wanted;
    set(next, brought)
}

fn parties(rules: Constraints, text: &[u8], heard: Heard, at: usize) -> Constraints {
    if !fields::end(text, heard, at) {
        return rules;
    }
    let mut brought = rules.brought;
    brought.parties = true;
    set(rules, brought)
}

// Stands beside the constraints: it goes by the bookings of those who wait, not by the roster.
fn friends(rules: RoundRules, text: &[u8], heard: Heard, at: usize) -> RoundRules {
    if !fields::end(text, heard, at) {
        return rules;
    }
    let mut next = rules;
    next.waiting_friends = true;
    print::text(b"rule set\n");
    next
}

fn latency(rules: Constraints, text: &[u8], heard: Heard, at: usize) -> Constraints {
    if !fields::end(text, heard, at) {
        return rules;
    }
    let mut brought = rules.brought;
    brought.latency = true;
    set(rules, brought)
}

const REQUIREMENT: u32 = fields::ROLE | fields::AT_LEAST | fields::AT_MOST;

// `role 2 at-least 1 at-most 2`: one requirement more.
fn role(rules: Constraints, text: &[u8], heard: Heard, at: usize) -> Constraints {
    let given = fields::read(text, heard, at, fields::ROLE, REQUIREMENT);
    if !given.ok {
        return rules;
    }
    let mut next = rules;
    let roles = rules.roles;
    let n = roles.len;
    if 8 <= n {
        refusals::refused(Refusal::OverLimit);
        return rules;
    }
    let mut brought = rules.brought;
    brought.roles = true;
    let more = with_requirement(roles, n, requirement(given));
    next.roles = more;
    set(next, brought)
}

fn requirement(given: Fields) -> RoleRequirement {
    RoleRequirement {
        role: commands::half(given.whole(fields::ROLE)),
        least: given.whole(fields::AT_LEAST) as usize,
        bounded: given.has(fields::AT_MOST),
        most: given.whole(fields::AT_MOST) as usize,
    }
}

fn with_requirement(
    roles: RoleRequirements,
    n: usize,
    requirement: RoleRequirement,
) -> RoleRequirements {
    let mut next = roles;
    if n < 8 {
        next.items[n] = requirement;
        next.len = n + 1;
    }
    next
}

// `regions EU NA`: one pair more that may meet.
fn regions(rules: Constraints, text: &[u8], heard: Heard, at: usize) -> Constraints {
    let one = words::next(text, at);
    let two = words::next(text, one.to);
    let first = values::region(words::bytes_of(text, one));
    let second = values::region(words::bytes_of(text, two));
    let wrong = first.problem;
    let Problem::Nothing = wrong else {
        complaints::word(text, heard, b"NA, EU, Asia, Other or none", one);
        return rules;
    };
    let amiss = second.problem;
    let Problem::Nothing = amiss else {
        complaints::word(text, heard, b"NA, EU, Asia, Other or none", two);
        return rules;
    };
    if !fields::end(text, heard, two.to) {
        return rules;
    }
    let pair = RegionPair {
        first: commands::byte(first.whole),
        second: commands::byte(second.whole),
    };
    add_pair(rules, pair)
}

fn add_pair(rules: Constraints, pair: RegionPair) -> Constraints {
    let mut next = rules;
    let regions = rules.regions;
    let n = regions.count;
    if 16 <= n {
        refusals::refused(Refusal::OverLimit);
        return rules;
    }
    let mut brought = rules.brought;
    brought.regions = true;
    let more = with_pair(regions, n, pair);
    next.regions = more;
    set(next, brought)
}

fn with_pair(regions: RegionConstraint, n: usize, pair: RegionPair) -> RegionConstraint {
    let mut next = regions;
    if n < 16 {
        next.pairs[n] = pair;
        next.count = n + 1;
    }
    next
}

// ---- what is set

// `rules` lists them, `rules none` drops them.
pub fn listed(rules: RoundRules, text: &[u8], heard: Heard) -> RoundRules {
    let word = words::next(text, heard.behind());
    if same(words::bytes_of(text, word), b"none") {
        if !fields::end(text, heard, word.to) {
            return rules;
        }
        print::text(b"no rules\n");
        return none();
    }
    if word.is_end() {
        list(rules);
        return rules;
    }
    complaints::word(text, heard, b"none or nothing more", word);
    rules
}

fn is_any(brought: Brought) -> bool {
    brought.sizes || brought.roles || brought.parties || brought.latency || brought.regions
}

fn list(rules: RoundRules) {
    let constraints = rules.constraints;
    let brought = constraints.brought;
    if !is_any(brought) && !rules.waiting_friends {
        print::text(b"no rules\n");
    }
    if brought.sizes {
        list_sizes(constraints.sizes);
    }
    list_roles(constraints.roles);
    if brought.parties {
        print::text(b"rule parties\n");
    }
    if rules.waiting_friends {
        print::text(b"rule friends\n");
    }
    if brought.latency {
        print::text(b"rule latency\n");
    }
    list_pairs(constraints.regions);
}

fn list_sizes(sizes: TeamSizeConstraint) {
    print::text(b"rule sizes ");
    print::sizes(sizes.a, sizes.b);
    print::text(b"\n");
}

fn list_role(requirement: RoleRequirement) {
    print::text(b"rule role ");
    io::print_decimal(1, requirement.role as u64);
    print::text(b" at-least ");
    io::print_decimal(1, requirement.least as u64);
    if requirement.bounded {
        print::text(b" at-most ");
        io::print_decimal(1, requirement.most as u64);
    }
    print::text(b"\n");
}

fn list_roles(roles: RoleRequirements) {
    let requirements = roles.items;
    let n = roles.len;
    for i in 0..n.min(8) {
        list_role(requirements[i]);
    }
}

fn region(code: u8) {
    match code {
        0 => print::text(b"NA"),
        1 => print::text(b"EU"),
        2 => print::text(b"Asia"),
        3 => print::text(b"Other"),
        _ => print::text(b"none"),
    }
}

fn list_pair(pair: RegionPair) {
    print::text(b"rule regions ");
    region(pair.first);
    print::text(b" ");
    region(pair.second);
    print::text(b"\n");
}

fn list_pairs(regions: RegionConstraint) {
    let pairs = regions.pairs;
    let n = regions.count;
    for i in 0..n.min(16) {
        list_pair(pairs[i]);
    }
}
