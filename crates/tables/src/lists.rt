// A list of calls is made whole and without its resends, side by side, and what the two give is compared.
use crate::{calls, check, draw, originals, rosters, story, tally, turns};
use calls::{Answer, Call};
use capi::halls;
use capi::halls::Games;
use hall::Hall;
use originals::{Mark, Originals};
use rosters::Roster;
use tally::Tally;
use turns::Turns;

// The two halls, and what the list comes to so far. A told list is written call by call.
#[derive(Clone, Copy)]
pub struct Run {
    pub whole: Hall,
    pub thinned: Hall,
    pub originals: Originals,
    pub accepted: u64,
    pub withdrawn: u64,
    pub seated: u64,
    pub turns: Turns,
    pub told: bool,
    pub tally: Tally,
}

fn start(told: bool, games: Games, tally: Tally) -> Run {
    Run {
        whole: halls::yilgashe_hall_empty(games),
        thinned: halls::yilgashe_hall_empty(games),
        originals: originals::none(),
        accepted: 0,
        withdrawn: 0,
        seated: 0,
        turns: turns::none(),
        told,
        tally,
    }
}

// A run, and the answer of the call that it came to.
#[derive(Clone, Copy)]
struct Stepped {
    run: Run,
    answer: Answer,
}

// The seats of so many matches of a game.
fn seats(hall: Hall, game: u8, matches: usize) -> usize {
    let sizes = hall.sizes;
    let own = hall::games::sizes_of(sizes, game);
    check::seats(matches, std::num::wrapping_add_usize(own.a, own.b))
}

// The refusal of a clash. Over its limits a hall gives 1 to all.
fn clash_in(hall: Hall) -> u8 {
    let sizes = hall.sizes;
    if hall::is_over(hall.waiting, hall.noted, sizes, hall.served) {
        return 1;
    }
    7
}

fn tell(run: Run, call: Call, resend: bool, answer: Answer, players: &[u64; 64]) {
    if run.told {
        let hall = run.whole;
        story::tell(call, resend, answer, players, hall);
    }
}

impl Run {
    // The call with its answer and those on its sheet, counted.
    fn counted(self, answer: Answer, seated: u64) -> Run {
        let tally = self.tally;
        let called = tally.called(answer.refusal);
        let more = called.matched(answer.matches, seated);
        let mut run = self;
        run.tally = more;
        run.seated = tally::add(self.seated, seated);
        run
    }

    fn checked(self, holds: bool) -> Run {
        let tally = self.tally;
        let more = tally.checked(holds);
        let mut run = self;
        run.tally = more;
        run
    }

    fn resends(self) -> Run {
        let tally = self.tally;
        let more = tally.resent();
        let mut run = self;
        run.tally = more;
        run
    }

    // A resend is made in the whole list only: it gets the answer of its original, and changes nothing in the hall.
    fn again(self, call: Call, roster: Roster, noted: u8) -> Run {
        let mut players = [check::BLANK; 64];
        let mut qualities = [0.0f64; 64];
        let before = self.whole;
        let made = calls::make(before, call, roster, &mut players, &mut qualities);
        let answer = made.answer;
        let after = made.hall;
        let mut run = self.resends();
        run.whole = after;
        tell(run, call, true, answer, &players);
        let counted = run.counted(answer, check::written(&players));
        let same = counted.checked(check::is_same_hall(before, after));
        same.checked(answer.refusal == noted)
    }

    // An original counts as accepted or withdrawn unless it was refused.
    fn noted(self, call: Call, answer: Answer) -> Run {
        let originals = self.originals;
        let longer = originals.with(call, answer.refusal);
        let mut run = self;
        run.originals = longer;
        if answer.refusal != 0 {
            return run;
        }
        if call.kind == calls::BOOKING {
            run.accepted = tally::add(self.accepted, 1);
        } else {
            run.withdrawn = tally::add(self.withdrawn, 1);
        }
        run
    }

    // Another call under an original's key gets 7, and changes nothing in the hall.
    fn clashed(self, before: Hall, answer: Answer, field: u8) -> Run {
        let after = self.whole;
        let tally = self.tally;
        let more = tally.clashed(field);
        let mut run = self;
        run.tally = more;
        let same = run.checked(check::is_same_hall(before, after));
        same.checked(answer.refusal == clash_in(before))
    }

    // The call in the whole list; its sheets are left for comparing.
    fn whole_steps(
        self,
        call: Call,
        roster: Roster,
        players: &mut [u64; 64],
        qualities: &mut [f64; 64],
    ) -> Stepped {
        let before = self.whole;
        let made = calls::make(before, call, roster, players, qualities);
        let answer = made.answer;
        let after = made.hall;
        let mut run = self;
        run.whole = after;
        tell(run, call, false, answer, players);
        let counted = run.counted(answer, check::written(players));
        let game = calls::game_of(call, answer);
        let places = seats(before, game, answer.matches);
        let seated = counted.checked(check::are_fair(before, game, players, places));
        Stepped {
            run: seated.dispatched(call, answer, before),
            answer,
        }
    }

    // After a dispatch that was not refused: it was the game's turn, and no game was passed over eight times in a row.
    fn dispatched(self, call: Call, answer: Answer, before: Hall) -> Run {
        if call.kind != calls::DISPATCH || answer.refusal != 0 {
            return self;
        }
        let after = self.whole;
        let turns = self.turns;
        let tally = self.tally;
        let next = turns.after(before, answer.served);
        let more = tally.dispatched(answer.served, next.longest());
        let mut run = self;
        run.turns = next;
        run.tally = more;
        let due = run.checked(turns::is_due(before, after, answer.served));
        due.checked(next.longest() < 8)
    }

    // The call in the list without resends.
    fn thinned_steps(
        self,
        call: Call,
        roster: Roster,
        players: &mut [u64; 64],
        qualities: &mut [f64; 64],
    ) -> Stepped {
        let hall = self.thinned;
        let made = calls::make(hall, call, roster, players, qualities);
        let answer = made.answer;
        let after = made.hall;
        let mut run = self;
        run.thinned = after;
        Stepped { run, answer }
    }

    // A call that is no resend is made in both lists, each time with sheets of its own, and gives the same.
    fn both(self, call: Call, roster: Roster) -> Stepped {
        let mut players = [check::BLANK; 64];
        let mut qualities = [0.0f64; 64];
        let mut other_players = [check::BLANK; 64];
        let mut other_qualities = [0.0f64; 64];
        let first = self.whole_steps(call, roster, &mut players, &mut qualities);
        let run = first.run;
        let second = run.thinned_steps(call, roster, &mut other_players, &mut other_qualities);
        let stepped = second.run;
        let answer = first.answer;
        let other = second.answer;
        let same_answer = stepped.checked(check::are_same(answer, other));
        let same_players = same_answer.checked(check::are_same_players(&players, &other_players));
        let same_qualities = check::are_same_qualities(&qualities, &other_qualities);
        Stepped {
            run: same_players.checked(same_qualities),
            answer,
        }
    }

    fn step(self, call: Call, roster: Roster) -> Run {
        let originals = self.originals;
        let mark = originals.mark(call);
        if let Mark::Resend(noted) = mark {
            return self.again(call, roster, noted);
        }
        let before = self.whole;
        let both = self.both(call, roster);
        let run = both.run;
        let answer = both.answer;
        match mark {
            Mark::Original => run.noted(call, answer),
            Mark::Clash(field) => run.clashed(before, answer, field),
            _ => run,
        }
    }

    // The halls after the list are alike, and those accepted wait, were withdrawn or are seated.
    fn finished(self) -> Run {
        let whole = self.whole;
        let thinned = self.thinned;
        let same = self.checked(check::is_same_hall(whole, thinned));
        let left = tally::add(self.withdrawn, self.seated);
        same.checked(self.accepted == tally::add(whole.waiting as u64, left))
    }
}

// The call at a place of a list; list 0 is the story.
fn call(list: u64, place: usize) -> Call {
    if list == 0 {
        return story::call(place);
    }
    draw::call(list, place)
}

fn len(list: u64) -> usize {
    if list == 0 {
        return story::CALLS;
    }
    let plan = draw::plan_of(list);
    plan.calls
}

fn games(list: u64) -> Games {
    if list == 0 {
        return story::games();
    }
    draw::games_of(list)
}

// All calls of a list, on top of what was counted before.
pub fn make(list: u64, before: Tally) -> Tally {
    let roster = rosters::guests();
    let mut run = start(list == 0, games(list), before.listed());
    let n = len(list);
    for i in 0..n {
        run = run.step(call(list, i), roster);
    }
    let finished = run.finished();
    finished.tally
}

// The lists from 1 to n.
pub fn make_all(n: u64) -> Tally {
    let mut tally = tally::empty();
    for list in 1..=n {
        tally = make(list, tally);
    }
    tally
}
