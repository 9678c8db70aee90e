// The two forms that lend: a queue as a list of entries, and a hall that is changed in place.
#![tactic(auto)]

ghost use Rattle.std.specs.Prelude.{◌≡◌};
ghost use Rattle.base.specs.Refusals.{outcome_of};
ghost use Rattle.queue.specs.Queue.{wait_rule, holding};
ghost use Rattle.hall.specs.Hall.{hall_of, keyed_rule, book};
ghost use Rattle.lent.specs.Reading.{readable, before_reading, entry_wait, followed, read};
ghost use Rattle.lent.specs.Lent.{lent_turn};

use base::Refusal;
use capi::halls::{Keyed, yilgashe_hall_book};
use hall::{Booking, Hall};
use queue::QueueEntry;

// How many entries are read: none of a list over 64.
fn readable(count: usize) -> usize
    ensures { result ≡ readable count }
{
    if 64 < count {
        return 0;
    }
    count
}

// The answer before an entry is read.
fn before_reading(len: usize, clock: u64) -> Result<Option<u64>, Refusal>
    ensures { outcome_of result ≡ before_reading len clock }
{
    if 64 < len {
        return Err(Refusal::OverLimit);
    }
    if queue::time::is_over(clock) {
        return Err(Refusal::Clock);
    }
    Ok(None)
}

// The answer of one entry alone.
fn entry_wait(entry: QueueEntry, player: u64, clock: u64) -> Result<Option<u64>, Refusal>
    ensures { outcome_of result ≡ entry_wait player clock entry }
{
    if queue::time::is_over(entry.joined) {
        return Err(Refusal::Clock);
    }
    if entry.player == player {
        return Ok(Some(queue::time::elapsed(clock, entry.joined)));
    }
    Ok(None)
}

// An answer and the next one: a refusal stays, and a wait stays unless a refusal comes.
fn followed(
    before: Result<Option<u64>, Refusal>,
    next: Result<Option<u64>, Refusal>,
) -> Result<Option<u64>, Refusal>
    ensures { outcome_of result ≡ followed (outcome_of before) (outcome_of next) }
{
    match (before, next) {
        (Err(_), _) => before,
        (Ok(None), _) => next,
        (Ok(Some(_)), Err(_)) => next,
        (Ok(Some(_)), Ok(_)) => before,
    }
}

// The answer when one more entry is read.
fn read(
    wait: Result<Option<u64>, Refusal>,
    entry: QueueEntry,
    player: u64,
    clock: u64,
) -> Result<Option<u64>, Refusal>
    ensures { outcome_of result ≡ read player clock (outcome_of wait) entry }
{
    followed(wait, entry_wait(entry, player, clock))
}

// How long the player has waited, by the first entry of a list that is lent.
pub fn waiting_time(queue: &[QueueEntry], player: u64, clock: u64) -> Result<Option<u64>, Refusal>
    ensures { outcome_of result ≡ wait_rule (holding queue.now) player clock }
{
    let n = readable(queue.len());
    let mut wait = before_reading(queue.len(), clock);
    for entry in &queue[..n] {
        wait = read(wait, *entry, player, clock);
    }
    wait
}

// What a keyed call left, taken by functions of their own, so that `book` handles whole values only.
fn hall_of(keyed: Keyed) -> Hall
    ensures { result ≡ keyed.hall }
{
    keyed.hall
}

fn refusal_of(keyed: Keyed) -> u8
    ensures { result ≡ keyed.refusal }
{
    keyed.refusal
}

// A booking under a key, over a hall that is lent and changed in place. Its answer: 0 is accepted, n is refusal n.
pub fn book(hall: &mut Hall, key: u64, booking: Booking) -> u8
    ensures { lent_turn hall.new result ≡ keyed_rule (hall_of hall.old) key (book booking) }
{
    let keyed = yilgashe_hall_book(*hall, key, booking);
    *hall = hall_of(keyed);
    refusal_of(keyed)
}
