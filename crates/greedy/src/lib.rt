// GreedySearch of search.rs: an anchor opens a match, and every seat goes to the nearest player who is left.
#![tactic(auto)]

ghost use Rattle.std.specs.Prelude.{◌≡◌, List, map, ◌+◌, ◌-◌, ◌≤◌, ◌<◌, min, length, take, get_or};
ghost use Rattle.std.specs.Float.{nan};
ghost use Rattle.base.specs.Lists.{All, places_from};
ghost use Rattle.queue.specs.declared.QueueEntry.{QueueEntry};
ghost use Rattle.queue.specs.Queue.{queue_of};
ghost use Rattle.roster.specs.Roster.{of_ratings};
ghost use Rattle.seating.specs.Seating.{leaving};
ghost use Rattle.seating.specs.Steps.{RatedOut};
ghost use Rattle.seating.specs.Turns.{seats_left};
ghost use Rattle.matchmaker.specs.Quality.{match_of};
ghost use Rattle.greedy.specs.Greedy.{greedy_matches, greedy_rule};
ghost use Rattle.greedy.specs.Steps.{columns, magnitude_of, near_of, nearer_free, nearer_of, nearest_free, struck, marked, free_of, fill_of, opening, picking, filling, running, unmarked, FromQueue, paper_of, forming, handing};

use base::Refusal;
use matchmaker::ProposedMatch;
use queue::Queue;
use seating::TeamComposition;

// The nearest so far: its place and its distance.
#[derive(Clone, Copy)]
pub struct Nearest {
    pub place: usize,
    pub distance: f64,
}

// The teams of an anchor while they fill, with A's running sum and the reference rating.
#[derive(Clone, Copy)]
pub struct Filling {
    pub teams: ProposedMatch,
    pub sum: f64,
    pub reference: f64,
}

// How far the sheets are written: so many seats, of so many matches.
#[derive(Clone, Copy)]
pub struct Written {
    pub seats: usize,
    pub count: usize,
}

// ---- what is read once

// The player, the entry's rating and the joined time at each place. Arrays that are lent need no copy.
fn read(queue: Queue, players: &mut [u64; 64], entered: &mut [f64; 64], joined: &mut [u64; 64])
    requires { queue.len ≤ 64 }
    ensures players_after { take queue.len players.new ≡ map (λ e. e.player) (queue_of queue).entries }
    ensures entered_after { take queue.len entered.new ≡ map (λ e. e.rating) (queue_of queue).entries }
    ensures joined_after { take queue.len joined.new ≡ map (λ e. e.joined) (queue_of queue).entries }
{
    for i in 0..queue.len {
        let entry = queue.entries[i];
        players[i] = entry.player;
        entered[i] = entry.rating;
        joined[i] = entry.joined;
    }
}

// What a column says in the order of some places.
fn arrange<T: Copy>(column: &[T; 64], places: &[usize], out: &mut [T; 64])
    requires { (length places.now ≤ 64) × All (λ p. p < 64) places.now }
    ensures { (nothing : _) → take (length places.now) out.new ≡ map (λ p. get_or column.now p nothing) places.now }
{
    for (k, &place) in places.iter().enumerate() {
        out[k] = column[place];
    }
}

// ---- one anchor

// A float without its sign. A -0.0 stays, which no comparison tells from 0.0: with the test for it, as in base::abs, a branch
// at each place would stand in the loop below.
fn magnitude(x: f64) -> f64
    ensures { result ≡ magnitude_of x }
{
    if x < 0.0 {
        return -x;
    }
    x
}

// The nearest so far, and the place i if that is nearer.
fn nearer(reference: f64, free: &[f64; 64], i: usize, best: Nearest) -> Nearest
    requires { i < 64 }
    ensures { near_of result ≡ nearer_free reference free.now i (near_of best) }
{
    let distance = magnitude(reference - free[i]);
    if distance < best.distance {
        return Nearest { place: i, distance };
    }
    best
}

// The place of the nearer of two, the first's among equals.
fn nearer_place(first: Nearest, second: Nearest) -> usize
    ensures { result ≡ (nearer_of (near_of first) (near_of second)).place }
{
    if second.distance < first.distance {
        return second.place;
    }
    first.place
}

// The place of the nearest among the first n who are free, or n. Where somebody is used the rating is NaN, so it is never below.
// Each half has a run of its own, in one pass: a comparison waits only for the one before it in its run.
fn pick_nearest(reference: f64, free: &[f64; 64], n: usize) -> usize
    requires { n ≤ 64 }
    ensures { result ≡ nearest_free reference free.now n }
{
    let half = n / 2;
    let nobody = Nearest {
        place: n,
        distance: 1.0 / 0.0,
    };
    let mut first = nobody;
    let mut second = nobody;
    for i in 0..half {
        first = nearer(reference, free, i, first);
        second = nearer(reference, free, half + i, second);
    }
    if half + half < n {
        return nearer_place(first, nearer(reference, free, n - 1, second));
    }
    nearer_place(first, second)
}

// Every place of the player is used, and free no longer.
fn mark(players: &[u64], used: &mut [bool; 64], free: &mut [f64; 64], player: u64)
    requires { length players.now ≤ 64 }
    ensures used_after { used.new ≡ marked player players.now used.old }
    ensures free_after { free.new ≡ struck nan player players.now free.old }
{
    let nobody = 0.0 / 0.0;
    for (i, &other) in players.iter().enumerate() {
        if other == player {
            used[i] = true;
            free[i] = nobody;
        }
    }
}

// The anchor at a place is used and opens team A.
fn open(
    players: &[u64],
    ratings: &[f64; 64],
    rostered: &[f64; 64],
    used: &mut [bool; 64],
    free: &mut [f64; 64],
    at: usize,
) -> Filling
    requires { (length players.now ≤ 64) × (at < length players.now) }
    ensures result_after { fill_of used.new result ≡ opening (columns players.now ratings.now rostered.now) used.old at }
    ensures free_after { free.new ≡ struck nan (get_or players.now at 0) players.now free.old }
{
    let player = players[at];
    mark(players, used, free, player);
    Filling {
        teams: seating::turns::opened(player),
        sum: 0.0 + rostered[at],
        reference: ratings[at],
    }
}

// The pick at a place takes a seat; after a pick of A's the reference becomes A's average.
fn pick(
    sizes: TeamComposition,
    players: &[u64],
    rostered: &[f64; 64],
    used: &mut [bool; 64],
    free: &mut [f64; 64],
    filling: Filling,
    at: usize,
) -> Filling
    requires sizes_bound { (sizes.a ≤ 8) × (sizes.b ≤ 8) }
    requires at_bound { (length players.now ≤ 64) × (at < length players.now) }
    ensures result_after { fill_of used.new result ≡ picking sizes players.now rostered.now (fill_of used.old filling) at }
    ensures free_after { free.new ≡ struck nan (get_or players.now at 0) players.now free.old }
{
    let player = players[at];
    mark(players, used, free, player);
    let before = filling.teams;
    let teams = seating::turns::seat_next(sizes, before, player);
    if seating::turns::takes_a(sizes, before) {
        let sum = filling.sum + rostered[at];
        let a = teams.a;
        return Filling {
            teams,
            sum,
            reference: matchmaker::average(sum, a.held()),
        };
    }
    Filling {
        teams,
        sum: filling.sum,
        reference: filling.reference,
    }
}

// The anchor at a place, with a pick for each seat that is left, as long as there is one.
fn fill(
    sizes: TeamComposition,
    players: &[u64],
    ratings: &[f64; 64],
    rostered: &[f64; 64],
    used: &mut [bool; 64],
    free: &mut [f64; 64],
    at: usize,
) -> Filling
    requires sizes_bound { (sizes.a ≤ 8) × (sizes.b ≤ 8) }
    requires at_bound { (length players.now ≤ 64) × (at < length players.now) }
    requires free_value { free.old ≡ free_of ratings.now used.old }
    ensures result_after { fill_of used.new result ≡ filling sizes (columns players.now ratings.now rostered.now) (length players.now) (seats_left sizes) (opening (columns players.now ratings.now rostered.now) used.old at) }
    ensures free_after { free.new ≡ free_of ratings.now used.new }
{
    let n = players.len();
    let mut out = open(players, ratings, rostered, used, free, at);
    for _ in 0..seating::turns::seats_left(sizes) {
        let next = pick_nearest(out.reference, free, n);
        if n <= next {
            return out;
        }
        out = pick(sizes, players, rostered, used, free, out, next);
    }
    out
}

// ---- all anchors

// The place behind so many seats more, or the end of the sheet.
fn behind(at: usize, seats: usize, places: usize) -> usize
    requires { at ≤ places }
    ensures { result ≡ at + min seats (places - at) }
{
    at + base::at_most(seats, places - at)
}

// A complete match goes onto the sheets with its quality, behind those that are written.
fn form(
    sizes: TeamComposition,
    teams: ProposedMatch,
    ids: &[u64],
    ratings: &[f64],
    written: Written,
    seats: &mut [u64],
    qualities: &mut [f64],
) -> Written
    requires seats_in_bounds { written.seats ≤ length seats.old }
    requires count_in_bounds { written.count < length qualities.old }
    ensures { paper_of result seats.new qualities.new ≡ forming sizes (of_ratings ids.now ratings.now) (match_of teams) (paper_of written seats.old qualities.old) }
{
    if !seating::turns::is_complete(sizes, teams) {
        return written;
    }
    let at = written.seats;
    let count = written.count;
    seating::write_match(teams, &mut seats[at..]);
    qualities[count] = teams.rated_quality(ids, ratings);
    Written {
        seats: behind(at, teams.seats(), seats.len()),
        count: count + 1,
    }
}

// The matches of n anchors, each at its place in the columns, on the sheets with their qualities, and their number.
fn match_all(
    sizes: TeamComposition,
    players: &[u64],
    entered: &[f64; 64],
    rostered: &[f64; 64],
    turns: &[usize; 64],
    ids: &[u64],
    ratings: &[f64],
    seats: &mut [u64],
    qualities: &mut [f64],
) -> usize
    requires sizes_bound { (sizes.a ≤ 8) × (sizes.b ≤ 8) }
    requires turns_bound { (length players.now ≤ 64) × All (λ p. p < length players.now) (take (length players.now) turns.now) }
    requires in_bounds { length players.now ≤ length qualities.old }
    ensures { RatedOut (of_ratings ids.now ratings.now) (running sizes (columns players.now entered.now rostered.now) turns.now (length players.now) unmarked).matches seats.old qualities.old result seats.new qualities.new }
{
    let mut used = [false; 64];
    let mut free = *entered;
    let mut written = Written { seats: 0, count: 0 };
    for i in 0..players.len() {
        let at = turns[i];
        if !used[at] {
            let filled = fill(sizes, players, entered, rostered, &mut used, &mut free, at);
            written = form(sizes, filled.teams, ids, ratings, written, seats, qualities);
        }
    }
    written.count
}

// Every place, as they come.
fn as_they_come() -> [usize; 64]
    ensures { result ≡ places_from 0 64 }
{
    std::array::from_fn(|place| place)
}

// The matches of a queue whose columns these are, picked in order of joining: there the earlier place of equal distances is the
// earlier joined time. The anchors keep the queue's order.
fn match_by_joining(
    sizes: TeamComposition,
    players: &[u64; 64],
    entered: &[f64; 64],
    rostered: &[f64; 64],
    joined: [u64; 64],
    n: usize,
    ids: &[u64],
    ratings: &[f64],
    seats: &mut [u64],
    qualities: &mut [f64],
) -> usize
    requires sizes_bound { (sizes.a ≤ 8) × (sizes.b ≤ 8) }
    requires n_bound { (n ≤ 64) × (n ≤ length qualities.old) }
    ensures { (queue : List QueueEntry) → FromQueue (of_ratings ids.now ratings.now) queue n players.now entered.now rostered.now joined → RatedOut (of_ratings ids.now ratings.now) (greedy_matches sizes (of_ratings ids.now ratings.now) queue) seats.old qualities.old result seats.new qualities.new }
{
    let order = ranking::times::by_time(joined, n);
    let places = &order.places[..n];
    let mut named = [0; 64];
    arrange(players, places, &mut named);
    let mut rated = [0.0; 64];
    arrange(entered, places, &mut rated);
    let mut known = [0.0; 64];
    arrange(rostered, places, &mut known);
    match_all(
        sizes,
        &named[..n],
        &rated,
        &known,
        &order.stands,
        ids,
        ratings,
        seats,
        qualities,
    )
}

// The matches of the queue on the sheets, or refusal 4. A queue that stands in order of joining is searched as it stands.
fn matches(
    sizes: TeamComposition,
    queue: Queue,
    ids: &[u64],
    ratings: &[f64],
    seats: &mut [u64],
    qualities: &mut [f64],
) -> Result<usize, Refusal>
    requires a_bound { (sizes.a ≤ 8) × ((sizes.b ≤ 8) × (queue.len ≤ 64)) }
    requires in_bounds { 64 ≤ length seats.old }
    requires in_bounds_2 { 64 ≤ length qualities.old }
    ensures { leaving result seats.new qualities.new ≡ handing sizes (of_ratings ids.now ratings.now) (queue_of queue).entries (record { players = seats.old; qualities = qualities.old }) }
{
    let n = queue.len;
    let mut players = [0; 64];
    let mut entered = [0.0; 64];
    let mut joined = [0; 64];
    read(queue, &mut players, &mut entered, &mut joined);
    if queue::time::any_over(&joined[..n]) {
        return Err(Refusal::Clock);
    }
    let mut rostered = [0.0; 64];
    roster::places::write_values(ids, ratings, &players[..n], &mut rostered);
    if ranking::times::never_falls(&joined[..n]) {
        let turns = as_they_come();
        return Ok(match_all(
            sizes,
            &players[..n],
            &entered,
            &rostered,
            &turns,
            ids,
            ratings,
            seats,
            qualities,
        ));
    }
    Ok(match_by_joining(
        sizes, &players, &entered, &rostered, joined, n, ids, ratings, seats, qualities,
    ))
}

// The search itself has nothing to set.
#[derive(Clone, Copy)]
pub struct GreedySearch {}

impl GreedySearch {
    // The matches of the queue, written to the sheets with their qualities.
    pub fn search(
        queue: Queue,
        sizes: TeamComposition,
        ids: &[u64],
        ratings: &[f64],
        players: &mut [u64],
        qualities: &mut [f64],
    ) -> Result<usize, Refusal>
        ensures { leaving result players.exit.now qualities.new ≡ greedy_rule sizes (of_ratings ids.now ratings.now) (queue_of queue) (record { players = players.entry.now; qualities = qualities.old }) }
    {
        seating::searching::check_first(
            queue.len,
            sizes,
            ids,
            ratings,
            players.len(),
            qualities.len(),
        )?;
        matches(sizes, queue, ids, ratings, players, qualities)
    }
}
