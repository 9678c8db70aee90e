// What is counted over all lists.
ghost use Rattle.std.specs.Prelude.{◌<◌};

use crate::{text, turns};

#[derive(Clone, Copy)]
pub struct Tally {
    pub lists: u64,
    pub calls: u64,
    pub resends: u64,
    pub matches: u64,
    pub seated: u64,
    // Dispatches that served a game, and those that found none with enough.
    pub served: u64,
    pub idle: u64,
    // How often in a row a game with enough was passed over, at most.
    pub passed: u64,
    pub refusals: [u64; 16],
    // Clashes that are a booking with one field changed, by the field.
    pub changed: [u64; 7],
    pub checks: u64,
    pub failed: u64,
}

pub fn empty() -> Tally {
    Tally {
        lists: 0,
        calls: 0,
        resends: 0,
        matches: 0,
        seated: 0,
        served: 0,
        idle: 0,
        passed: 0,
        refusals: [0u64; 16],
        changed: [0u64; 7],
        checks: 0,
        failed: 0,
    }
}

pub fn add(x: u64, y: u64) -> u64 {
    std::num::wrapping_add_u64(x, y)
}

// A refusal's place among the counts; no refusal is at 0.
fn place(refusal: u8) -> usize
    ensures { result < 16 }
{
    if refusal < 16 {
        return refusal as usize;
    }
    0
}

impl Tally {
    // One more list.
    pub fn listed(self) -> Tally {
        let mut tally = self;
        tally.lists = add(self.lists, 1);
        tally
    }

    // One more call, with its refusal.
    pub fn called(self, refusal: u8) -> Tally {
        let mut tally = self;
        let i = place(refusal);
        let n = add(tally.refusals[i], 1);
        tally.refusals[i] = n;
        tally.calls = add(self.calls, 1);
        tally
    }

    // One more resend.
    pub fn resent(self) -> Tally {
        let mut tally = self;
        tally.resends = add(self.resends, 1);
        tally
    }

    // One more clash, of this field alone or of more.
    pub fn clashed(self, field: u8) -> Tally {
        let i = field as usize;
        let mut tally = self;
        if i < 7 {
            let n = add(tally.changed[i], 1);
            tally.changed[i] = n;
        }
        tally
    }

    // So many matches and guests more.
    pub fn matched(self, matches: usize, seated: u64) -> Tally {
        let mut tally = self;
        tally.matches = add(self.matches, matches as u64);
        tally.seated = add(self.seated, seated);
        tally
    }

    // One more dispatch, after which the game longest without a turn was passed over so often.
    pub fn dispatched(self, served: u8, passed: u64) -> Tally {
        let mut tally = self;
        tally.passed = turns::greater(self.passed, passed);
        if served < 8 {
            tally.served = add(self.served, 1);
        } else {
            tally.idle = add(self.idle, 1);
        }
        tally
    }

    // One more check, and one more that failed unless it holds.
    pub fn checked(self, holds: bool) -> Tally {
        let mut tally = self;
        tally.checks = add(self.checks, 1);
        if !holds {
            tally.failed = add(self.failed, 1);
        }
        tally
    }
}

// How often each refusal came, of those that came.
fn report_refusals(counts: [u64; 16]) {
    for i in 1..16 {
        if counts[i] != 0 {
            text::say(b", refusal ");
            text::number(i as u64);
            text::say(b" ");
            text::number(counts[i]);
            text::say(b" times");
        }
    }
}

fn report_one(n: u64, words: &[u8]) {
    text::number(n);
    text::say(words);
}

// How often a booking came with one field changed.
fn report_changed(counts: [u64; 7]) {
    text::say(b", a key with one field changed: ");
    report_one(counts[0], b" times the guest, ");
    report_one(counts[1], b" the game, ");
    report_one(counts[2], b" the joined time, ");
    report_one(counts[3], b" the rating, ");
    report_one(counts[6], b" its bits alone, ");
    report_one(counts[4], b" the party, ");
    report_one(counts[5], b" the role");
}

// The rest of a line.
pub fn report(tally: Tally) {
    report_one(tally.calls, b" calls, ");
    report_one(tally.resends, b" resends, ");
    report_one(tally.matches, b" matches, ");
    report_one(tally.seated, b" seated, ");
    report_one(tally.served, b" dispatches to a game, ");
    report_one(tally.idle, b" to none, a game passed over at most ");
    report_one(tally.passed, b" times in a row");
    let changed = tally.changed;
    report_changed(changed);
    let refusals = tally.refusals;
    report_refusals(refusals);
    text::say(b"; ");
    report_one(tally.checks, b" checks, ");
    report_one(tally.failed, b" failed\n");
}
