// The queue (queue.rs) and times (time.rs), exported.
ghost use Rattle.std.specs.Prelude.{◌≡◌, []};
ghost use Rattle.queue.specs.Queue.{queue_of, holding, enqueue_rule, remove_rule, batch_rule, wait_rule};
ghost use Rattle.queue.specs.Time.{duration_rule, seconds_rule};
ghost use Rattle.base.specs.Numbers.{refusal_of};
ghost use Rattle.base.specs.Refusals.{outcome_of};
ghost use Rattle.capi.specs.Queues.{EnqueueNumbers, RemoveNumbers, BatchNumbers, wait_numbers, duration_numbers, seconds_numbers};

use base::Refusal;
use queue::{Queue, QueueEntry};

#[repr(C)]
#[derive(Clone, Copy)]
pub struct Enqueued {
    pub queue: Queue,
    pub refusal: u8,
}

// The entry is blank where none was found.
#[repr(C)]
#[derive(Clone, Copy)]
pub struct Removed {
    pub queue: Queue,
    pub entry: QueueEntry,
    pub found: bool,
    pub refusal: u8,
}

#[repr(C)]
#[derive(Clone, Copy)]
pub struct Batch {
    pub kept: Queue,
    pub removed: Queue,
    pub refusal: u8,
}

#[repr(C)]
#[derive(Clone, Copy)]
pub struct Wait {
    pub nanos: u64,
    pub found: bool,
    pub refusal: u8,
}

#[repr(C)]
#[derive(Clone, Copy)]
pub struct Duration {
    pub nanos: u64,
    pub refusal: u8,
}

#[repr(C)]
#[derive(Clone, Copy)]
pub struct Seconds {
    pub seconds: f64,
    pub refusal: u8,
}

// A check's answer as a number.
pub fn refusal_number(checked: Result<(), Refusal>) -> u8
    ensures { result ≡ refusal_of (outcome_of checked) }
{
    match checked {
        Ok(()) => 0,
        Err(refusal) => refusal.number(),
    }
}

pub fn yilgashe_queue_empty() -> Queue
    ensures { queue_of result ≡ holding [] }
{
    Queue::empty()
}

pub fn yilgashe_queue_enqueue(queue: Queue, entry: QueueEntry) -> Enqueued
    ensures { EnqueueNumbers (enqueue_rule (queue_of queue) entry) result }
{
    let answer = queue.enqueue(entry);
    Enqueued {
        queue: answer.queue,
        refusal: refusal_number(answer.answer),
    }
}

pub fn yilgashe_queue_remove(queue: Queue, player: u64) -> Removed
    ensures { RemoveNumbers (remove_rule (queue_of queue) player) result }
{
    let answer = queue.remove(player);
    let after = answer.queue;
    let taken = answer.taken;
    let blank = QueueEntry {
        player: 0,
        joined: 0,
        rating: 0.0,
        party: 0,
        role: 0,
    };
    match taken {
        Err(refusal) => Removed {
            queue: after,
            entry: blank,
            found: false,
            refusal: refusal.number(),
        },
        Ok(None) => Removed {
            queue: after,
            entry: blank,
            found: false,
            refusal: 0,
        },
        Ok(Some(entry)) => Removed {
            queue: after,
            entry,
            found: true,
            refusal: 0,
        },
    }
}

pub fn yilgashe_queue_remove_batch(queue: Queue, players: &[u64]) -> Batch
    ensures { BatchNumbers (batch_rule (queue_of queue) players.now) result }
{
    let answer = queue.remove_batch(players);
    let kept = answer.kept;
    let removed = answer.removed;
    let checked = answer.answer;
    Batch {
        kept,
        removed,
        refusal: refusal_number(checked),
    }
}

pub fn yilgashe_queue_waiting_time(queue: Queue, player: u64, clock: u64) -> Wait
    ensures { result ≡ wait_numbers (wait_rule (queue_of queue) player clock) }
{
    match queue.waiting_time(player, clock) {
        Err(refusal) => Wait {
            nanos: 0,
            found: false,
            refusal: refusal.number(),
        },
        Ok(None) => Wait {
            nanos: 0,
            found: false,
            refusal: 0,
        },
        Ok(Some(nanos)) => Wait {
            nanos,
            found: true,
            refusal: 0,
        },
    }
}

pub fn yilgashe_time_duration_since(later: u64, earlier: u64) -> Duration
    ensures { result ≡ duration_numbers (duration_rule later earlier) }
{
    match queue::time::duration_since(later, earlier) {
        Err(refusal) => Duration {
            nanos: 0,
            refusal: refusal.number(),
        },
        Ok(nanos) => Duration { nanos, refusal: 0 },
    }
}

pub fn yilgashe_time_as_secs_f64(nanos: u64) -> Seconds
    ensures { result ≡ seconds_numbers (seconds_rule nanos) }
{
    match queue::time::as_secs_f64(nanos) {
        Err(refusal) => Seconds {
            seconds: 0.0,
            refusal: refusal.number(),
        },
        Ok(seconds) => Seconds {
            seconds,
            refusal: 0,
        },
    }
}
