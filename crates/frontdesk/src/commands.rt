// The commands, by the first word of a line. A line that cannot be served changes nothing.
use crate::desk::Desk;
use crate::fields::Fields;
use crate::guests::Row;
use crate::numbers::Problem;
use crate::rounds::Round;
use crate::tally::Tally;
use crate::values::Kind;
use crate::words::Heard;
use crate::{
    clash, complaints, entries, fields, games, goals, help, listing, numbers, old, print, refusals,
    rounds, rules, words,
};
use base::Refusal;
use capi::halls;
use capi::halls::Keyed;
use check::same;
use hall::Hall;

// Serves a line, unless it is blank or a comment.
pub fn serve(desk: Desk, text: &[u8], number: u64) -> Desk {
    let command = words::next(text, 0);
    if command.is_end() {
        return desk;
    }
    let heard = Heard { number, command };
    let name = words::bytes_of(text, command);
    if same(name, b"open") {
        return games::open(desk, text, heard);
    }
    if same(name, b"guest") {
        return guest(desk, text, heard);
    }
    if same(name, b"book") {
        return book(desk, text, heard);
    }
    if same(name, b"withdraw") {
        return withdraw(desk, text, heard);
    }
    searches(desk, text, heard, name)
}

// Rounds, and what the old counter exported.
fn searches(desk: Desk, text: &[u8], heard: Heard, name: &[u8]) -> Desk {
    if same(name, b"greedy") {
        return rounds::serve(desk, text, heard, Round::Greedy);
    }
    if same(name, b"beam") {
        return rounds::serve(desk, text, heard, Round::Beam);
    }
    if same(name, b"full") {
        return rounds::serve(desk, text, heard, Round::Full);
    }
    if same(name, b"dispatch") {
        return rounds::serve(desk, text, heard, Round::Dispatch);
    }
    if same(name, b"old") {
        return old::serve(desk, text, heard);
    }
    settings(desk, text, heard, name)
}

// Commands for rules and goals, and the last one.
fn settings(desk: Desk, text: &[u8], heard: Heard, name: &[u8]) -> Desk {
    let rules = desk.rules;
    let goals = desk.goals;
    if same(name, b"rule") {
        return desk.with_rules(rules::rule(rules, text, heard));
    }
    if same(name, b"rules") {
        return desk.with_rules(rules::listed(rules, text, heard));
    }
    if same(name, b"goal") {
        return desk.with_goals(goals::goal(goals, text, heard));
    }
    if same(name, b"goals") {
        return desk.with_goals(goals::listed(goals, text, heard));
    }
    if same(name, b"quit") {
        return quit(desk, text, heard);
    }
    let hall = desk.hall;
    let tally = desk.tally;
    listings(hall, tally, text, heard, name);
    desk
}

fn quit(desk: Desk, text: &[u8], heard: Heard) -> Desk {
    if fields::end(text, heard, heard.behind()) {
        return desk.quit();
    }
    desk
}

// Commands that change nothing, and those that are none.
fn listings(hall: Hall, tally: Tally, text: &[u8], heard: Heard, name: &[u8]) {
    if same(name, b"queue") {
        listing::queue(hall, text, heard);
        return;
    }
    if same(name, b"keys") {
        listing::keys(hall, text, heard);
        return;
    }
    if same(name, b"totals") {
        listing::totals(hall, tally, text, heard);
        return;
    }
    if same(name, b"help") {
        help::help(text, heard);
        return;
    }
    complaints::unknown(text, heard);
}

// ---- the roster

const ROW: u32 = fields::RATING | fields::DEVIATION | fields::PARTY | fields::ROLE | fields::REGION;

// `guest 12 rating 1510.5 ..`: the guest's number, then fields.
fn guest(desk: Desk, text: &[u8], heard: Heard) -> Desk {
    let number = words::next(text, heard.behind());
    let read = numbers::whole(words::bytes_of(text, number), u64::MAX);
    let problem = read.problem;
    let Problem::Nothing = problem else {
        complaints::value(
            text,
            heard,
            Kind::Whole(u64::MAX),
            problem,
            heard.command,
            number,
        );
        return desk;
    };
    let given = fields::read(text, heard, number.to, 0, ROW);
    if !given.ok {
        return desk;
    }
    note_row(desk, row_of(read.value, given))
}

// The row that the fields give: 0, and no region, where they give nothing.
fn row_of(guest: u64, given: Fields) -> Row {
    Row {
        guest,
        rating: given.real(fields::RATING),
        deviation: given.real(fields::DEVIATION),
        party: given.whole(fields::PARTY),
        role: half(given.whole(fields::ROLE)),
        region: byte(given.whole_or(fields::REGION, 4)),
    }
}

fn note_row(desk: Desk, row: Row) -> Desk {
    let roster = desk.roster;
    if roster.is_full_for(row.guest) {
        refusals::refused(Refusal::OverLimit);
        return desk;
    }
    if roster.has(row.guest) {
        print::text(b"row replaced\n");
    } else {
        print::text(b"row added\n");
    }
    desk.with_roster(roster.with(row))
}

// A role's code, which is below 2^32.
pub fn half(value: u64) -> u32 {
    (value % 4294967296) as u32
}

// A region's code, which is below 5, or a game's number, which is below 256.
pub fn byte(value: u64) -> u8 {
    (value % 256) as u8
}

// ---- keyed calls

const NEEDED: u32 = fields::KEY | fields::GUEST;

const BOOKED: u32 = fields::KEY | entries::NEEDED;

const BOOKING: u32 = BOOKED | entries::ALLOWED | fields::GAME;

// `book key 7 guest 12 joined 30s ..`: for game 0 where none is given.
fn book(desk: Desk, text: &[u8], heard: Heard) -> Desk {
    if !games::is_open(desk.open, heard) {
        return desk;
    }
    let given = fields::read(text, heard, heard.behind(), BOOKED, BOOKING);
    let read = entries::entry_of(desk.roster, given, text, heard);
    let Some(entry) = read else {
        return desk;
    };
    let hall = desk.hall;
    let sizes = hall.sizes;
    let tally = desk.tally;
    let key = given.whole(fields::KEY);
    let game = byte(given.whole(fields::GAME));
    let booking = entries::booking_of(entry, game);
    let keyed = halls::yilgashe_hall_book(hall, key, booking);
    let next = told(desk, keyed, tally.with_accepted(game));
    if keyed.refusal == 0 {
        games::remark(game, sizes);
    }
    if keyed.refusal == 7 {
        clash::booking(hall, key, booking, entries::left_to_row(desk.roster, given));
    }
    next
}

fn withdraw(desk: Desk, text: &[u8], heard: Heard) -> Desk {
    if !games::is_open(desk.open, heard) {
        return desk;
    }
    let given = fields::read(text, heard, heard.behind(), NEEDED, NEEDED);
    if !given.ok {
        return desk;
    }
    let hall = desk.hall;
    let tally = desk.tally;
    let bookings = hall.bookings;
    let key = given.whole(fields::KEY);
    let guest = given.whole(fields::GUEST);
    let game = games::of_guest(bookings, hall.waiting, guest);
    let keyed = halls::yilgashe_hall_withdraw(hall, key, guest);
    let next = told(desk, keyed, tally.with_withdrawn(game));
    if keyed.refusal == 7 {
        clash::withdrawal(hall, key, guest);
    }
    next
}

// Says the answer of a keyed call, and keeps its hall. The tally counts the call unless as many wait as before: it was refused then, or a
// resend.
fn told(desk: Desk, keyed: Keyed, counted: Tally) -> Desk {
    let before = desk.hall;
    let after = keyed.hall;
    refusals::answer(keyed.refusal);
    let next = desk.with_hall(after);
    if after.waiting == before.waiting {
        return next;
    }
    next.with_tally(counted)
}
