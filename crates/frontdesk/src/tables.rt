// The tables that a round or a search seats, each as a small block.
use crate::guests::Roster;
use crate::{counts, print};
use matchmaker::{ProposedMatch, Team};
use queue::Queue;
use seating::TeamComposition;

// What the blocks are made from: the queue as it was before the round, the roster and the clock.
#[derive(Clone, Copy)]
pub struct Before {
    pub waiting: Queue,
    pub roster: Roster,
    pub clock: u64,
}

// The guest at a place of the sheet.
fn guest_at(players: &[u64], at: usize) -> u64 {
    if at < players.len() {
        return players[at];
    }
    0
}

// The roster's rating, and - where the guest has no row.
fn rating(observed: Option<f64>, width: usize) {
    match observed {
        Some(x) => print::real(x, 2, width),
        None => print::right(b"-", width),
    }
}

// How long the guest had waited before the round.
fn waited(before: Before, guest: u64) {
    let waiting = before.waiting;
    match waiting.first_wait(guest, before.clock) {
        Some(nanos) => print::wait(nanos, 12),
        None => print::right(b"-", 12),
    }
}

// One guest's line.
fn guest(before: Before, player: u64) {
    let roster = before.roster;
    print::whole(player, 19);
    rating(roster.rating_of(player), 12);
    waited(before, player);
    print::text(b"\n");
}

// The team of `size` guests from a place of the sheet on.
fn team_at(players: &[u64], at: usize, size: usize) -> Team {
    let mut team = Team {
        players: [0; 8],
        len: 0,
    };
    for i in 0..size {
        let player = guest_at(players, std::num::wrapping_add_usize(at, i));
        team = seating::joined(team, player);
    }
    team
}

// The team's guests, a line for each.
fn guests(before: Before, team: Team) {
    let n = team.held();
    let players = team.players;
    for i in 0..n {
        guest(before, guest_at(&players, i));
    }
}

// A team's average rating, as its quality reads it.
fn average(roster: Roster, team: Team) {
    let ids = roster.ids;
    let ratings = roster.ratings;
    let n = counts::wholes(roster.rows, &ids);
    let m = counts::reals(roster.rows, &ratings);
    print::text(b"    average");
    print::real(team.average_rating(&ids[..n], &ratings[..m]), 2, 20);
    print::text(b"\n");
}

// A team's head, guests and average.
fn team(before: Before, name: u8, team: Team) {
    let roster = before.roster;
    print::text(b"  team ");
    print::byte(name);
    print::text(b"      guest      rating      waited\n");
    guests(before, team);
    average(roster, team);
}

// How even the teams are. It is worked out here for every table alike: on a full round's sheet stands 0.0, on the others this.
fn quality(roster: Roster, a: Team, b: Team) -> f64 {
    let ids = roster.ids;
    let ratings = roster.ratings;
    let n = counts::wholes(roster.rows, &ids);
    let m = counts::reals(roster.rows, &ratings);
    let seated = ProposedMatch { a: a, b: b };
    seated.rated_quality(&ids[..n], &ratings[..m])
}

// `table 1: quality 0.7500`, and both teams.
fn table(before: Before, number: usize, a: Team, b: Team) {
    let roster = before.roster;
    print::text(b"table ");
    io::print_decimal(1, number as u64);
    print::text(b": quality ");
    print::real(quality(roster, a, b), 4, 0);
    print::text(b"\n");
    team(before, b'A', a);
    team(before, b'B', b);
}

// The tables one after another, and how many guests they seat.
fn each(before: Before, sizes: TeamComposition, count: usize, players: &[u64]) -> u64 {
    let a = sizes.a;
    let b = sizes.b;
    let mut at: usize = 0;
    for i in 0..count {
        let middle = std::num::wrapping_add_usize(at, a);
        let first = team_at(players, at, a);
        let second = team_at(players, middle, b);
        table(before, std::num::wrapping_add_usize(i, 1), first, second);
        at = std::num::wrapping_add_usize(middle, b);
    }
    at as u64
}

// Every table, or that there is none; and how many guests they seat.
pub fn print(before: Before, sizes: TeamComposition, count: usize, players: &[u64]) -> u64 {
    if count == 0 {
        print::text(b"no table\n");
    }
    each(before, sizes, count, players)
}
