// A queue that the old counter exported, doubles and all. Staff run the bare searches on it, and the hall is not touched.
use crate::desk::Desk;
use crate::fields::Fields;
use crate::guests::Roster;
use crate::numbers::Problem;
use crate::rounds::Asked;
use crate::tables::Before;
use crate::words::Heard;
use crate::{
    complaints, counts, entries, fields, listing, print, refusals, rounds, tables, values, words,
};
use base::Refusal;
use beam::BeamSearch;
use check::same;
use greedy::GreedySearch;
use queue::{Enqueued, Queue};
use seating::TeamComposition;

// `old entry ..` and so on. The word behind `old` is heard as the command, so that complaints name it.
pub fn serve(desk: Desk, text: &[u8], line: Heard) -> Desk {
    let word = words::next(text, line.behind());
    let heard = Heard {
        number: line.number,
        command: word,
    };
    let name = words::bytes_of(text, word);
    if same(name, b"entry") {
        return entry(desk, text, heard);
    }
    if same(name, b"clear") {
        return clear(desk, text, heard);
    }
    listings(desk, text, heard, name);
    desk
}

// Commands that change nothing, and those that are none.
fn listings(desk: Desk, text: &[u8], heard: Heard, name: &[u8]) {
    if same(name, b"queue") {
        listing::old_queue(desk.old, text, heard);
        return;
    }
    if same(name, b"greedy") {
        show(desk, Search::Greedy, read(text, heard, rounds::TIMED));
        return;
    }
    if same(name, b"beam") {
        show(desk, Search::Beam, read(text, heard, rounds::BEAM));
        return;
    }
    complaints::word(
        text,
        heard,
        b"entry, queue, greedy, beam or clear",
        heard.command,
    );
}

// ---- the queue

// `entry guest 12 joined 30s ..`: one entry more, also of a guest who has one.
fn entry(desk: Desk, text: &[u8], heard: Heard) -> Desk {
    let given = fields::read(
        text,
        heard,
        heard.behind(),
        entries::NEEDED,
        entries::ALLOWED,
    );
    let read = entries::entry_of(desk.roster, given, text, heard);
    let Some(entry) = read else {
        return desk;
    };
    let old = desk.old;
    added(desk, old.enqueue(entry))
}

// Says the answer, and keeps the queue.
fn added(desk: Desk, enqueued: Enqueued) -> Desk {
    let old = enqueued.queue;
    let answer = enqueued.answer;
    match answer {
        Ok(()) => print::text(b"entry added\n"),
        Err(refusal) => refusals::refused(refusal),
    }
    desk.with_old(old)
}

fn clear(desk: Desk, text: &[u8], heard: Heard) -> Desk {
    if !fields::end(text, heard, heard.behind()) {
        return desk;
    }
    print::text(b"cleared\n");
    desk.with_old(Queue::empty())
}

// ---- the searches

#[derive(Clone, Copy)]
enum Search {
    Greedy,
    Beam,
}

// The sizes that a search is asked for, and all else. An exported queue is of no game.
#[derive(Clone, Copy)]
struct Sought {
    sizes: TeamComposition,
    asked: Asked,
}

impl Sought {
    fn of(sizes: TeamComposition, given: Fields) -> Sought {
        Sought {
            sizes,
            asked: Asked::of(given),
        }
    }
}

// `5+5 at 120s ..`
fn read(text: &[u8], heard: Heard, allowed: u32) -> Sought {
    let word = words::next(text, heard.behind());
    let read = values::sizes(words::bytes_of(text, word));
    let sizes = TeamComposition {
        a: read.a as usize,
        b: read.b as usize,
    };
    let problem = read.problem;
    let Problem::Nothing = problem else {
        complaints::word(text, heard, b"team sizes such as 5+5", word);
        return Sought::of(sizes, Fields::bad());
    };
    Sought::of(
        sizes,
        fields::read(text, heard, word.to, rounds::TIMED, allowed),
    )
}

// The tables of a search. Nobody leaves the queue, so that it can be searched both ways.
fn show(desk: Desk, search: Search, sought: Sought) {
    let sizes = sought.sizes;
    let asked = sought.asked;
    if !asked.ok {
        return;
    }
    let roster = desk.roster;
    let old = desk.old;
    let mut players = [0u64; 64];
    let formed = found(roster, old, search, sizes, asked, &mut players);
    let before = Before {
        waiting: old,
        roster,
        clock: asked.clock,
    };
    match formed {
        Err(refusal) => refusals::refused(refusal),
        Ok(count) => {
            tables::print(before, sizes, count, &players);
        }
    }
}

fn found(
    roster: Roster,
    old: Queue,
    search: Search,
    sizes: TeamComposition,
    asked: Asked,
    players: &mut [u64],
) -> Result<usize, Refusal> {
    match search {
        Search::Greedy => greedy(roster, old, sizes, asked.clock, players),
        Search::Beam => beam(roster, old, sizes, asked, players),
    }
}

// The greedy search with the roster's columns lent.
fn greedy(
    roster: Roster,
    old: Queue,
    sizes: TeamComposition,
    clock: u64,
    players: &mut [u64],
) -> Result<usize, Refusal> {
    let ids = roster.ids;
    let ratings = roster.ratings;
    let n = counts::wholes(roster.rows, &ids);
    let m = counts::reals(roster.rows, &ratings);
    let mut qualities = [0.0f64; 64];
    let formed = GreedySearch::search(
        old,
        sizes,
        &ids[..n],
        &ratings[..m],
        players,
        &mut qualities,
    );
    timely(formed, clock)
}

// The greedy search takes no clock, but the waits that are shown do: one above 2^53 is refused after all else, as in a round.
fn timely(formed: Result<usize, Refusal>, clock: u64) -> Result<usize, Refusal> {
    let Ok(count) = formed else {
        return formed;
    };
    if queue::time::is_over(clock) {
        return Err(Refusal::Clock);
    }
    Ok(count)
}

// The beam search with the roster's columns lent.
fn beam(
    roster: Roster,
    old: Queue,
    sizes: TeamComposition,
    asked: Asked,
    players: &mut [u64],
) -> Result<usize, Refusal> {
    let ids = roster.ids;
    let ratings = roster.ratings;
    let deviations = roster.deviations;
    let n = counts::wholes(roster.rows, &ids);
    let m = counts::reals(roster.rows, &ratings);
    let k = counts::reals(roster.rows, &deviations);
    let objective = asked.objective;
    let search = BeamSearch { width: asked.width };
    let mut qualities = [0.0f64; 64];
    search.search(
        old,
        sizes,
        objective,
        &ids[..n],
        &ratings[..m],
        &deviations[..k],
        asked.clock,
        players,
        &mut qualities,
    )
}
