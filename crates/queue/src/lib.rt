// The waiting queue (queue.rs), by value: a queue goes in and the changed one comes out.
#![tactic(auto)]

ghost use Rattle.std.specs.Prelude.{◌≡◌, ◌+◌, ◌<◌, ◌≤◌, [], ◌++◌, map, take, drop};
ghost use Rattle.base.specs.Refusals.{outcome_of};
ghost use Rattle.base.specs.Lists.{any, place};
ghost use Rattle.queue.specs.Queue.{queue_of, holding, is_of, joined_over, queue_check, enqueued_of, enqueue_rule, removed_of, taking, remove_rule, batch_of, parting, batch_rule, first_wait, wait_rule};
ghost use Rattle.queue.specs.Columns.{columns_of};

use base::Refusal;

// Times and waits.
pub mod time;

// One booking in the queue. Party 0 and role 0 mean none.
#[repr(C)]
#[derive(Clone, Copy)]
pub struct QueueEntry {
    pub player: u64,
    pub joined: u64,
    pub rating: f64,
    pub party: u64,
    pub role: u32,
}

// The first `len` entries wait, in this order. What stands behind them is free.
#[repr(C)]
#[derive(Clone, Copy)]
pub struct Queue {
    pub entries: [QueueEntry; 64],
    pub len: usize,
}

// The queue with the entry, or the refusal and the queue as it was: the length that it stated and what that holds.
#[derive(Clone, Copy)]
pub struct Enqueued {
    pub queue: Queue,
    pub answer: Result<(), Refusal>,
}

// The queue that a removal left, and the entry that it took, if there was one.
#[derive(Clone, Copy)]
pub struct Removed {
    pub queue: Queue,
    pub taken: Result<Option<QueueEntry>, Refusal>,
}

// Who stays and who leaves.
#[derive(Clone, Copy)]
pub struct Batch {
    pub kept: Queue,
    pub removed: Queue,
    pub answer: Result<(), Refusal>,
}

// The player and the joined time at each place.
#[derive(Clone, Copy)]
pub struct Columns {
    pub players: [u64; 64],
    pub joined: [u64; 64],
}

// Is a joined time above 2^53 among these?
fn any_joined_over(entries: &[QueueEntry]) -> bool
    ensures { result ≡ any joined_over entries.now }
{
    entries.iter().any(|entry| time::is_over(entry.joined))
}

// The place of the player's first entry, or their number.
fn place_of(entries: &[QueueEntry], player: u64) -> usize
    ensures { result ≡ place (is_of player) entries.now }
{
    entries
        .iter()
        .position(|entry| entry.player == player)
        .unwrap_or(entries.len())
}

// The first n entries without the one at `at`, moved up by one.
fn closed_up(entries: [QueueEntry; 64], n: usize, at: usize) -> Queue
    requires { (n ≤ 64) × (at < n) }
    ensures { queue_of result ≡ holding (take at (take n entries) ++ drop (at + 1) (take n entries)) }
{
    let mut out = entries;
    for k in at..n - 1 {
        out[k] = entries[k + 1];
    }
    Queue {
        entries: out,
        len: n - 1,
    }
}

impl Queue {
    // Nobody waits.
    pub fn empty() -> Queue
        ensures { queue_of result ≡ holding [] }
    {
        let entry = QueueEntry {
            player: 0,
            joined: 0,
            rating: 0.0,
            party: 0,
            role: 0,
        };
        Queue {
            entries: [entry; 64],
            len: 0,
        }
    }

    // Refusals 1 and 4 of a queue that is handed in.
    pub fn check(self) -> Result<(), Refusal>
        ensures { outcome_of result ≡ queue_check (queue_of self) }
    {
        let n = self.len;
        if 64 < n {
            return Err(Refusal::OverLimit);
        }
        if any_joined_over(&self.entries[..n]) {
            return Err(Refusal::Clock);
        }
        Ok(())
    }

    // The player at each place, read once.
    pub fn players(self) -> [u64; 64]
        ensures { result ≡ map (λ e. e.player) self.entries }
    {
        let mut ids = [0; 64];
        for i in 0..64 {
            ids[i] = self.entries[i].player;
        }
        ids
    }

    // The player and the joined time at each place, read once.
    pub fn columns(self) -> Columns
        ensures { result ≡ columns_of self }
    {
        let mut columns = Columns {
            players: [0; 64],
            joined: [0; 64],
        };
        for k in 0..64 {
            columns.players[k] = self.entries[k].player;
            columns.joined[k] = self.entries[k].joined;
        }
        columns
    }

    // Is a joined time above 2^53? Whatever length is stated.
    pub fn has_joined_over(self) -> bool
        ensures { result ≡ any joined_over (queue_of self).entries }
    {
        any_joined_over(&self.entries[..base::at_most(self.len, 64)])
    }

    // The wait of the player's first entry, and nothing asked of the times.
    pub fn first_wait(self, player: u64, clock: u64) -> Option<u64>
        ensures { result ≡ first_wait player clock (queue_of self).entries }
    {
        let n = base::at_most(self.len, 64);
        let at = place_of(&self.entries[..n], player);
        if n <= at {
            return None;
        }
        Some(time::elapsed(clock, self.entries[at].joined))
    }

    // Appends an entry.
    pub fn enqueue(self, entry: QueueEntry) -> Enqueued
        ensures { enqueued_of result ≡ enqueue_rule (queue_of self) entry }
    {
        let n = self.len;
        if 64 <= n {
            return Enqueued {
                queue: self,
                answer: Err(Refusal::OverLimit),
            };
        }
        if time::is_over(entry.joined) || any_joined_over(&self.entries[..n]) {
            return Enqueued {
                queue: self,
                answer: Err(Refusal::Clock),
            };
        }
        let mut longer = self;
        longer.entries[n] = entry;
        longer.len = n + 1;
        Enqueued {
            queue: longer,
            answer: Ok(()),
        }
    }

    // Takes the player's first entry, if there is one, and asks nothing of the times.
    pub fn take_first(self, player: u64) -> Removed
        ensures { removed_of result ≡ taking player (queue_of self).entries }
    {
        let entries = self.entries;
        let n = base::at_most(self.len, 64);
        let at = place_of(&entries[..n], player);
        if n <= at {
            return Removed {
                queue: Queue { entries, len: n },
                taken: Ok(None),
            };
        }
        Removed {
            queue: closed_up(entries, n, at),
            taken: Ok(Some(entries[at])),
        }
    }

    // Takes the player's first entry.
    pub fn remove(self, player: u64) -> Removed
        ensures { removed_of result ≡ remove_rule (queue_of self) player }
    {
        if let Err(refusal) = self.check() {
            return Removed {
                queue: self,
                taken: Err(refusal),
            };
        }
        self.take_first(player)
    }

    // Takes every entry of the named players, and asks nothing of the times.
    pub fn take_all(self, players: &[u64]) -> Batch
        ensures { batch_of result ≡ parting players.now (queue_of self).entries }
    {
        let n = base::at_most(self.len, 64);
        let mut stay = self.entries;
        let mut gone = self.entries;
        let mut k: usize = 0;
        let mut m: usize = 0;
        for i in 0..n {
            let entry = self.entries[i];
            if base::is_among(players, entry.player) {
                gone[m] = entry;
                m += 1;
            } else {
                stay[k] = entry;
                k += 1;
            }
        }
        Batch {
            kept: Queue {
                entries: stay,
                len: k,
            },
            removed: Queue {
                entries: gone,
                len: m,
            },
            answer: Ok(()),
        }
    }

    // Takes every entry of the named players.
    pub fn remove_batch(self, players: &[u64]) -> Batch
        ensures { batch_of result ≡ batch_rule (queue_of self) players.now }
    {
        if let Err(refusal) = self.check() {
            return Batch {
                kept: self,
                removed: Queue::empty(),
                answer: Err(refusal),
            };
        }
        self.take_all(players)
    }

    // How long the player has waited, by the first entry.
    pub fn waiting_time(self, player: u64, clock: u64) -> Result<Option<u64>, Refusal>
        ensures { outcome_of result ≡ wait_rule (queue_of self) player clock }
    {
        if 64 < self.len {
            return Err(Refusal::OverLimit);
        }
        if time::is_over(clock) || self.has_joined_over() {
            return Err(Refusal::Clock);
        }
        Ok(self.first_wait(player, clock))
    }
}
