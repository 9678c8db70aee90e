// The best choice of a full round: every choice of the queue is tried, and the best of those that pass is kept.
#![tactic(auto)]

ghost use Rattle.std.specs.Prelude.{◌≡◌, cond, ◌&&◌, ltb, ℕ, ◌+◌, ◌*◌, ◌≤◌, ◌<◌, ◌^◌, [], map, length, take, get_or};
ghost use Rattle.std.specs.Float.Ieee.{lt};
ghost use Rattle.base.specs.Refusals.{gives, outcome_of};
ghost use Rattle.queue.specs.Queue.{queue_of};
ghost use Rattle.roster.specs.Roster.{of_rules};
ghost use Rattle.matchmaker.specs.Quality.{match_of, seated};
ghost use Rattle.seating.specs.Seating.{seats_of, lineup};
ghost use Rattle.candidate.specs.Choices.{ways};
ghost use Rattle.candidate.specs.Walks.{through};
ghost use Rattle.choice.specs.Full.{terms, terms_check, choice_check, choice_rule, choice_of};
ghost use Rattle.choice.specs.Reading.{one_each, columns};
ghost use Rattle.choice.specs.Steps.{so_far_of, passed, skipped, skipped_by, weighed, unweighed, concluding};
ghost use Rattle.choice.specs.Sums.{plus_row, sums_with, score_by, no_sums, idle_at, idle_from};
ghost use Rattle.choice.specs.Tallies.{Walked};

use crate::tally::{Bounds, Tally};
use base::Refusal;
use constraint::Constraints;
use matchmaker::ProposedMatch;
use objective::soft::SoftObjective;
use queue::Queue;
use seating::TeamComposition;

mod friends;
mod marks;
mod tally;

// The best so far: the last of those that score highest, where one passed; how many were tried; did two or more pass, and did one
// of them score NaN?
#[derive(Clone, Copy)]
pub struct Best {
    pub teams: ProposedMatch,
    pub score: f64,
    pub found: bool,
    pub many: bool,
    pub nan: bool,
    pub tried: u64,
}

// What the players of a choice are rated together: those of A, those of B, and all, A then B. A player without a row adds nothing.
#[derive(Clone, Copy)]
pub struct Sums {
    pub a: f64,
    pub b: f64,
    pub all: f64,
}

// The match, where one is chosen, and how many choices were tried. What stands in a team's array behind its players counts for nothing.
#[derive(Clone, Copy)]
pub struct Choice {
    pub best: Option<ProposedMatch>,
    pub tried: u64,
}

// One more choice that passes: it takes the place of the best unless it scores lower.
fn outdo(best: Best, teams: ProposedMatch, score: f64) -> Best
    requires { best.tried + 1 < 2 ^ 64 }
    ensures { so_far_of result ≡ passed (so_far_of best) (match_of teams) score }
{
    let tried = best.tried + 1;
    let many = best.many | best.found;
    let nan = best.nan | base::is_nan(score);
    let lower = score < best.score;
    if best.found & lower {
        let kept = best.teams;
        return Best {
            teams: kept,
            score: best.score,
            found: true,
            many,
            nan,
            tried,
        };
    }
    Best {
        teams,
        score,
        found: true,
        many,
        nan,
        tried,
    }
}

// One more choice that does not pass.
fn skip(best: Best) -> Best
    requires { best.tried + 1 < 2 ^ 64 }
    ensures { so_far_of result ≡ skipped (so_far_of best) }
{
    let mut next = best;
    next.tried = best.tried + 1;
    next
}

// As many more that do not change the best.
fn skip_all(best: Best, many: usize) -> Best
    requires { best.tried + many < 2 ^ 64 }
    ensures { so_far_of result ≡ skipped_by many (so_far_of best) }
{
    let mut next = best;
    next.tried = best.tried + many as u64;
    next
}

// One more choice: does it pass, and its score.
fn weigh(best: Best, passes: bool, teams: ProposedMatch, score: f64) -> Best
    requires { best.tried + 1 < 2 ^ 64 }
    ensures { so_far_of result ≡ cond passes (passed (so_far_of best) (match_of teams) score) (skipped (so_far_of best)) }
{
    if passes {
        return outdo(best, teams, score);
    }
    skip(best)
}

// ---- the score of a choice, from sums that grow with it

// The sum with the rating of the player at a place, if there is a row.
fn plus(sum: f64, row: bool, rating: f64) -> f64
    ensures { result ≡ plus_row row rating sum }
{
    if row {
        return sum + rating;
    }
    sum
}

// The sums with one more player, who joins A or B.
fn sums_with(sums: Sums, first: bool, row: bool, rating: f64) -> Sums
    ensures { result ≡ sums_with sums first row rating }
{
    let all = plus(sums.all, row, rating);
    if first {
        return Sums {
            a: plus(sums.a, row, rating),
            b: sums.b,
            all,
        };
    }
    Sums {
        a: sums.a,
        b: plus(sums.b, row, rating),
        all,
    }
}

// The score of teams of these sums and lengths.
fn score_of(objectives: [SoftObjective; 8], count: usize, sums: Sums, a: usize, b: usize) -> f64
    requires { (a ≤ 8) × (b ≤ 8) }
    ensures { result ≡ score_by (take count objectives) sums a b }
{
    let quality = matchmaker::quality_between(
        matchmaker::average(sums.a, a),
        matchmaker::average(sums.b, b),
    );
    let latency = objective::soft::latency_at(matchmaker::average(sums.all, a + b));
    objective::soft::weighted_sum(objectives, count, quality, latency)
}

// Two or more passed, and the best of them scores higher: whether this one passes or not, the best so far stays as it is.
fn is_idle(found: bool, many: bool, top: f64, score: f64) -> bool
    ensures { result ≡ (found && (many && lt score top)) }
{
    let worse = score < top;
    found & (many & worse)
}

// Is every choice idle whose last seat goes to one of the `rest` players from `from` on?
fn are_idle(
    sizes: TeamComposition,
    rows: &[bool; 64],
    rated: &[f64; 64],
    from: usize,
    rest: usize,
    sums: Sums,
    first: bool,
    objectives: [SoftObjective; 8],
    count: usize,
    found: bool,
    many: bool,
    top: f64,
) -> bool
    requires { (sizes.a ≤ 8) × ((sizes.b ≤ 8) × (from + rest ≤ 64)) }
    ensures { result ≡ idle_from (idle_at (take count objectives) sizes rows.now rated.now sums first found many top) from rest }
{
    for at in from..from + rest {
        let next = sums_with(sums, first, rows[at], rated[at]);
        let score = score_of(objectives, count, next, sizes.a, sizes.b);
        if !is_idle(found, many, top, score) {
            return false;
        }
    }
    true
}

// Does the next player join team A?
fn is_a_short(sizes: TeamComposition, teams: ProposedMatch) -> bool
    ensures { result ≡ ltb (length (match_of teams).a.players) sizes.a }
{
    let a = teams.a;
    a.held() < sizes.a
}

// Does the next but one join team A?
fn is_a_short_by_two(sizes: TeamComposition, teams: ProposedMatch) -> bool
    requires { length (match_of teams).a.players ≤ 16 }
    ensures { result ≡ ltb (length (match_of teams).a.players + 1) sizes.a }
{
    let a = teams.a;
    a.held() + 1 < sizes.a
}

// ---- the walk through all choices

// The last seat: it goes to each of the `rest` players from `from` on in turn. A choice that cannot change the best so far by its
// score is only counted; the others are weighed.
fn seat_last(
    sizes: TeamComposition,
    queued: &[u64; 64],
    rows: &[bool; 64],
    rated: &[f64; 64],
    admits: &[bool; 64],
    counts: &[u64; 64],
    same: &[u64; 64],
    expected: &[u64; 64],
    foes: &[u64; 64],
    from: usize,
    rest: usize,
    teams: ProposedMatch,
    sums: Sums,
    tally: Tally,
    bounds: Bounds,
    objectives: [SoftObjective; 8],
    count: usize,
    best: Best,
) -> Best
    requires a_bound { (sizes.a ≤ 8) × ((sizes.b ≤ 8) × ((from + rest ≤ 64) × (length (seated (match_of teams)) + 1 ≡ seats_of sizes))) }
    requires queued_len { length queued.now ≡ 64 }
    requires rest_bound { best.tried + ways rest 1 < 2 ^ 64 }
    requires one_each_bound { (tally.counts + 1 * one_each < 2 ^ 64) × ((i : ℕ) → get_or counts.now i 0 ≤ one_each) }
    ensures { (result.tried ≡ best.tried + ways rest 1) × Walked sizes (columns queued.now rows.now rated.now admits.now counts.now same.now expected.now foes.now) bounds from rest 1 (match_of teams) sums tally objectives count (so_far_of best) (so_far_of result) }
{
    let first = is_a_short(sizes, teams);
    let mut out = best;
    for at in from..from + rest {
        let next = sums_with(sums, first, rows[at], rated[at]);
        let score = score_of(objectives, count, next, sizes.a, sizes.b);
        if is_idle(out.found, out.many, out.score, score) {
            out = skip(out);
        } else {
            let full = tally::tally_with(tally, first, admits, counts, same, expected, foes, at);
            let passes = tally::passes(bounds, full);
            let with = candidate::exhaustive::seat(sizes, teams, queued[at]);
            out = weigh(out, passes, with, score);
        }
    }
    out
}

// The last two seats: each of the `rest` players from `from` on takes the first of them in turn. Where every choice with that player
// is idle, they are only counted.
fn seat_two(
    sizes: TeamComposition,
    queued: &[u64; 64],
    rows: &[bool; 64],
    rated: &[f64; 64],
    admits: &[bool; 64],
    counts: &[u64; 64],
    same: &[u64; 64],
    expected: &[u64; 64],
    foes: &[u64; 64],
    from: usize,
    rest: usize,
    teams: ProposedMatch,
    sums: Sums,
    tally: Tally,
    bounds: Bounds,
    objectives: [SoftObjective; 8],
    count: usize,
    best: Best,
) -> Best
    requires a_bound { (sizes.a ≤ 8) × ((sizes.b ≤ 8) × ((from + rest ≤ 64) × (length (seated (match_of teams)) + 2 ≡ seats_of sizes))) }
    requires queued_len { length queued.now ≡ 64 }
    requires rest_bound { best.tried + ways rest 2 < 2 ^ 64 }
    requires one_each_bound { (tally.counts + 2 * one_each < 2 ^ 64) × ((i : ℕ) → get_or counts.now i 0 ≤ one_each) }
    ensures { (result.tried ≡ best.tried + ways rest 2) × Walked sizes (columns queued.now rows.now rated.now admits.now counts.now same.now expected.now foes.now) bounds from rest 2 (match_of teams) sums tally objectives count (so_far_of best) (so_far_of result) }
{
    let first = is_a_short(sizes, teams);
    let second = is_a_short_by_two(sizes, teams);
    let mut out = best;
    for behind in (1..rest).rev() {
        let at = from + rest - 1 - behind;
        let next = sums_with(sums, first, rows[at], rated[at]);
        if are_idle(
            sizes,
            rows,
            rated,
            at + 1,
            behind,
            next,
            second,
            objectives,
            count,
            out.found,
            out.many,
            out.score,
        ) {
            out = skip_all(out, behind);
        } else {
            let with = candidate::exhaustive::seat(sizes, teams, queued[at]);
            let grown = tally::tally_with(tally, first, admits, counts, same, expected, foes, at);
            out = seat_last(
                sizes,
                queued,
                rows,
                rated,
                admits,
                counts,
                same,
                expected,
                foes,
                at + 1,
                behind,
                with,
                next,
                grown,
                bounds,
                objectives,
                count,
                out,
            );
        }
    }
    out
}

// Every choice of `left` of the `rest` players from `from` on, each seated behind those of `teams`, is weighed. It takes the first of
// them and then leaves that player, where enough are behind; the best so far passes through by value.
fn walk(
    sizes: TeamComposition,
    queued: &[u64; 64],
    rows: &[bool; 64],
    rated: &[f64; 64],
    admits: &[bool; 64],
    counts: &[u64; 64],
    same: &[u64; 64],
    expected: &[u64; 64],
    foes: &[u64; 64],
    from: usize,
    rest: usize,
    left: usize,
    teams: ProposedMatch,
    sums: Sums,
    tally: Tally,
    bounds: Bounds,
    objectives: [SoftObjective; 8],
    count: usize,
    best: Best,
) -> Best
    requires a_bound { (sizes.a ≤ 8) × ((sizes.b ≤ 8) × ((from + rest ≤ 64) × (length (seated (match_of teams)) + left ≡ seats_of sizes))) }
    requires queued_len { length queued.now ≡ 64 }
    requires left_bound { best.tried + ways rest left < 2 ^ 64 }
    requires one_each_bound { (tally.counts + left * one_each < 2 ^ 64) × ((i : ℕ) → get_or counts.now i 0 ≤ one_each) }
    ensures { (result.tried ≡ best.tried + ways rest left) × Walked sizes (columns queued.now rows.now rated.now admits.now counts.now same.now expected.now foes.now) bounds from rest left (match_of teams) sums tally objectives count (so_far_of best) (so_far_of result) }
{
    if rest < left {
        return best;
    }
    if left == 0 {
        let score = score_of(objectives, count, sums, sizes.a, sizes.b);
        return weigh(best, tally::passes(bounds, tally), teams, score);
    }
    if left == 2 {
        return seat_two(
            sizes, queued, rows, rated, admits, counts, same, expected, foes, from, rest, teams,
            sums, tally, bounds, objectives, count, best,
        );
    }
    let first = is_a_short(sizes, teams);
    let with = candidate::exhaustive::seat(sizes, teams, queued[from]);
    let next = sums_with(sums, first, rows[from], rated[from]);
    let grown = tally::tally_with(tally, first, admits, counts, same, expected, foes, from);
    let mid = walk(
        sizes,
        queued,
        rows,
        rated,
        admits,
        counts,
        same,
        expected,
        foes,
        from + 1,
        rest - 1,
        left - 1,
        with,
        next,
        grown,
        bounds,
        objectives,
        count,
        best,
    );
    if rest == left {
        return mid;
    }
    walk(
        sizes,
        queued,
        rows,
        rated,
        admits,
        counts,
        same,
        expected,
        foes,
        from + 1,
        rest - 1,
        left,
        teams,
        sums,
        tally,
        bounds,
        objectives,
        count,
        mid,
    )
}

// Nothing tried yet.
fn untried() -> Best
    ensures { so_far_of result ≡ unweighed }
{
    Best {
        teams: seating::nobody(),
        score: 0.0,
        found: false,
        many: false,
        nan: false,
        tried: 0,
    }
}

// Nobody's sums.
fn unsummed() -> Sums
    ensures { result ≡ no_sums }
{
    Sums {
        a: 0.0,
        b: 0.0,
        all: 0.0,
    }
}

// What all choices come to.
fn concluded(best: Best) -> Result<Choice, Refusal>
    ensures { choice_of result ≡ concluding (so_far_of best) }
{
    if best.many & best.nan {
        return Err(Refusal::Unranked);
    }
    Ok(Choice {
        best: best.found.then_some(best.teams),
        tried: best.tried,
    })
}

// Refusals 1 and 2 of what a full round brings.
pub fn check_terms(
    sizes: TeamComposition,
    constraints: Constraints,
    count: usize,
    ids: &[u64],
    ratings: &[f64],
    parties: &[u64],
    roles: &[u32],
    regions: &[u8],
) -> Result<(), Refusal>
    ensures { outcome_of result ≡ terms_check (of_rules ids.now ratings.now parties.now roles.now regions.now) constraints count sizes }
{
    if sizes.is_over() {
        return Err(Refusal::OverLimit);
    }
    if constraints.is_over() {
        return Err(Refusal::OverLimit);
    }
    if 8 < count {
        return Err(Refusal::OverLimit);
    }
    roster::check_rules(ids, ratings, parties, roles, regions)?;
    constraints.check_pairs()
}

// Refusals 1, 2, 4 and 6 of what a full round's choice is given.
fn check(
    queue: Queue,
    sizes: TeamComposition,
    constraints: Constraints,
    count: usize,
    ids: &[u64],
    ratings: &[f64],
    parties: &[u64],
    roles: &[u32],
    regions: &[u8],
) -> Result<(), Refusal>
    ensures { outcome_of result ≡ choice_check (of_rules ids.now ratings.now parties.now roles.now regions.now) constraints count sizes (queue_of queue) }
{
    if 64 < queue.len {
        return Err(Refusal::OverLimit);
    }
    check_terms(
        sizes,
        constraints,
        count,
        ids,
        ratings,
        parties,
        roles,
        regions,
    )?;
    if queue.has_joined_over() {
        return Err(Refusal::Clock);
    }
    if 20 < queue.len {
        return Err(Refusal::TooWide);
    }
    Ok(())
}

// The best of all choices of A + B players of the queue, which passed its check.
fn best_of(
    queue: Queue,
    sizes: TeamComposition,
    constraints: Constraints,
    friends: bool,
    objectives: [SoftObjective; 8],
    count: usize,
    ids: &[u64],
    ratings: &[f64],
    parties: &[u64],
    roles: &[u32],
    regions: &[u8],
) -> Best
    requires { choice_check (of_rules ids.now ratings.now parties.now roles.now regions.now) constraints count sizes (queue_of queue) ≡ gives tt }
    ensures { so_far_of result ≡ through sizes (weighed (terms (of_rules ids.now ratings.now parties.now roles.now regions.now) constraints friends objectives count) (take queue.len queue.entries)) (lineup [] []) (seats_of sizes) (take queue.len (map (λ e. e.player) queue.entries)) unweighed }
{
    let n = queue.len;
    let queued = queue.players();
    let waiting = &queued[..n];
    let brought = constraints.brought;
    let mut rows = [false; 64];
    roster::places::write_known(ids, ratings, waiting, &mut rows);
    let mut rated = [0.0; 64];
    roster::places::write_values(ids, ratings, waiting, &mut rated);
    let admits = marks::admits_of(brought, waiting, ids, ratings, parties);
    let required = marks::required(brought.roles, constraints.roles);
    let counts = marks::counts_of(required, waiting, ids, roles);
    let same = marks::same_of(waiting);
    let party = marks::parties_of(brought.parties, waiting, ids, parties);
    let partners = marks::partners_of(&party[..n]);
    let expected = friends::with_waiting(friends, queue, &queued, partners);
    let region = marks::regions_of(brought.regions, waiting, ids, regions);
    let foes = marks::foes_of(constraints.regions, &region[..n]);
    walk(
        sizes,
        &queued,
        &rows,
        &rated,
        &admits,
        &counts,
        &same,
        &expected,
        &foes,
        0,
        n,
        sizes.a + sizes.b,
        seating::nobody(),
        unsummed(),
        tally::begun(brought.sizes, constraints.sizes, sizes),
        marks::bounds_of(required),
        objectives,
        count,
        untried(),
    )
}

// The best choice of A + B players of the queue, if one passes. Waiting friends are brought or not, beside the constraints.
pub fn best_choice(
    queue: Queue,
    sizes: TeamComposition,
    constraints: Constraints,
    friends: bool,
    objectives: [SoftObjective; 8],
    count: usize,
    ids: &[u64],
    ratings: &[f64],
    parties: &[u64],
    roles: &[u32],
    regions: &[u8],
) -> Result<Choice, Refusal>
    ensures { choice_of result ≡ choice_rule (terms (of_rules ids.now ratings.now parties.now roles.now regions.now) constraints friends objectives count) sizes (queue_of queue) }
{
    check(
        queue,
        sizes,
        constraints,
        count,
        ids,
        ratings,
        parties,
        roles,
        regions,
    )?;
    concluded(best_of(
        queue,
        sizes,
        constraints,
        friends,
        objectives,
        count,
        ids,
        ratings,
        parties,
        roles,
        regions,
    ))
}
