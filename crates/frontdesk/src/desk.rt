// What the desk keeps in the evening.
use crate::guests::Roster;
use crate::tally::Tally;
use capi::halls;
use capi::halls::{Games, RoundRules};
use capi::scores::SoftObjectives;
use hall::Hall;
use queue::Queue;
use seating::TeamComposition;

#[derive(Clone, Copy)]
pub struct Desk {
    pub hall: Hall,
    // Has the hall been opened, with the sizes of its games?
    pub open: bool,
    pub tally: Tally,
    pub roster: Roster,
    // For the next full rounds.
    pub rules: RoundRules,
    pub goals: SoftObjectives,
    // Exported by the old counter. No call of the hall looks at it.
    pub old: Queue,
    // True after quit.
    pub closed: bool,
}

// No game is used.
fn no_games() -> Games {
    Games {
        sizes: [TeamComposition { a: 0, b: 0 }; 8],
    }
}

impl Desk {
    // The evening begins.
    pub fn fresh() -> Desk {
        Desk {
            hall: halls::yilgashe_hall_empty(no_games()),
            open: false,
            tally: Tally::empty(),
            roster: Roster::empty(),
            rules: crate::rules::none(),
            goals: crate::goals::none(),
            old: Queue::empty(),
            closed: false,
        }
    }

    // The hall is opened with these games.
    pub fn opened(self, games: Games) -> Desk {
        let mut next = self;
        next.hall = halls::yilgashe_hall_empty(games);
        next.open = true;
        next
    }

    pub fn with_hall(self, hall: Hall) -> Desk {
        let mut next = self;
        next.hall = hall;
        next
    }

    pub fn with_tally(self, tally: Tally) -> Desk {
        let mut next = self;
        next.tally = tally;
        next
    }

    pub fn with_roster(self, roster: Roster) -> Desk {
        let mut next = self;
        next.roster = roster;
        next
    }

    pub fn with_rules(self, rules: RoundRules) -> Desk {
        let mut next = self;
        next.rules = rules;
        next
    }

    pub fn with_goals(self, goals: SoftObjectives) -> Desk {
        let mut next = self;
        next.goals = goals;
        next
    }

    pub fn with_old(self, old: Queue) -> Desk {
        let mut next = self;
        next.old = old;
        next
    }

    pub fn quit(self) -> Desk {
        let mut next = self;
        next.closed = true;
        next
    }
}
