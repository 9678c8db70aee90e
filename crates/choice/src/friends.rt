// Waiting friends: the places that a guest's friends wait at, by the parties of the entries. They are worked out once, before the walk.
ghost use Rattle.std.specs.Prelude.{◌≡◌, cond, map, ℕ, ◌≤◌, ◌<◌, length, take, get_or};
ghost use Rattle.std.specs.Int.Bits.{bit_or};
ghost use Rattle.choice.specs.Reading.{marks, invites, pooled};

use crate::marks;
use queue::Queue;

// The party of the entry at each place.
fn parties_in(queue: Queue) -> [u64; 64]
    ensures { result ≡ map (λ e. e.party) queue.entries }
{
    queue.entries.map(|e| e.party)
}

// A set of places with those of another, if these count.
fn with_if(places: u64, counts: bool, others: u64) -> u64
    ensures { result ≡ cond counts (bit_or others places) places }
{
    if counts {
        return others | places;
    }
    places
}

// The sets of all places of the guest together.
fn pool(queued: &[u64], sets: &[u64], guest: u64) -> u64
    requires { length queued.now ≡ length sets.now }
    ensures { result ≡ pooled guest queued.now sets.now }
{
    let mut out: u64 = 0;
    for i in (0..queued.len()).rev() {
        out = with_if(out, queued[i] == guest, sets[i]);
    }
    out
}

// For each place its set with those of all places of its guest.
fn pool_all(first: [u64; 64], queued: &[u64], sets: &[u64]) -> [u64; 64]
    requires { (length queued.now ≤ 64) × (length queued.now ≡ length sets.now) }
    ensures { (i : ℕ) → i < length queued.now → get_or result i 0 ≡ bit_or (get_or first i 0) (pooled (get_or queued.now i 0) queued.now sets.now) }
{
    let mut out = first;
    for (i, guest) in queued.iter().enumerate() {
        out[i] |= pool(queued, sets, *guest);
    }
    out
}

// For each place the set that it has, with the places of the guest's friends where waiting friends are brought.
pub(crate) fn with_waiting(
    brought: bool,
    queue: Queue,
    queued: &[u64; 64],
    sets: [u64; 64],
) -> [u64; 64]
    requires { (queue.len ≤ 64) × (queued.now ≡ map (λ e. e.player) queue.entries) }
    ensures { (i : ℕ) → i < queue.len → get_or result i 0 ≡ bit_or (get_or sets i 0) (marks (invites brought (take queue.len queue.entries) (get_or queued.now i 0)) (take queue.len queue.entries)) }
{
    if !brought {
        return sets;
    }
    let n = queue.len;
    let parties = parties_in(queue);
    let friends = marks::partners_of(&parties[..n]);
    pool_all(sets, &queued[..n], &friends[..n])
}
