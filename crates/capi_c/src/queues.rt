// The exports of `capi::queues`: each is the function of its name there, and promises what that promises.
ghost use Rattle.std.specs.Prelude.{◌≡◌, []};
ghost use Rattle.queue.specs.Queue.{queue_of, holding, enqueue_rule, remove_rule, batch_rule, wait_rule};
ghost use Rattle.queue.specs.Time.{duration_rule, seconds_rule};
ghost use Rattle.capi.specs.Queues.{EnqueueNumbers, RemoveNumbers, BatchNumbers, wait_numbers, duration_numbers, seconds_numbers};

use capi::queues;
use capi::queues::{Batch, Duration, Enqueued, Removed, Seconds, Wait};
use queue::{Queue, QueueEntry};

#[unsafe(no_mangle)]
pub extern "C" fn yilgashe_queue_empty() -> Queue
    ensures { queue_of result ≡ holding [] }
{
    queues::yilgashe_queue_empty()
}

#[unsafe(no_mangle)]
pub extern "C" fn yilgashe_queue_enqueue(queue: Queue, entry: QueueEntry) -> Enqueued
    ensures { EnqueueNumbers (enqueue_rule (queue_of queue) entry) result }
{
    queues::yilgashe_queue_enqueue(queue, entry)
}

#[unsafe(no_mangle)]
pub extern "C" fn yilgashe_queue_remove(queue: Queue, player: u64) -> Removed
    ensures { RemoveNumbers (remove_rule (queue_of queue) player) result }
{
    queues::yilgashe_queue_remove(queue, player)
}

#[unsafe(no_mangle)]
pub extern "C" fn yilgashe_queue_remove_batch(queue: Queue, players: &[u64]) -> Batch
    ensures { BatchNumbers (batch_rule (queue_of queue) players.now) result }
{
    queues::yilgashe_queue_remove_batch(queue, players)
}

#[unsafe(no_mangle)]
pub extern "C" fn yilgashe_queue_waiting_time(queue: Queue, player: u64, clock: u64) -> Wait
    ensures { result ≡ wait_numbers (wait_rule (queue_of queue) player clock) }
{
    queues::yilgashe_queue_waiting_time(queue, player, clock)
}

#[unsafe(no_mangle)]
pub extern "C" fn yilgashe_time_duration_since(later: u64, earlier: u64) -> Duration
    ensures { result ≡ duration_numbers (duration_rule later earlier) }
{
    queues::yilgashe_time_duration_since(later, earlier)
}

#[unsafe(no_mangle)]
pub extern "C" fn yilgashe_time_as_secs_f64(nanos: u64) -> Seconds
    ensures { result ≡ seconds_numbers (seconds_rule nanos) }
{
    queues::yilgashe_time_as_secs_f64(nanos)
}
