// Entries, as player joined rating party role, and queues, as n and n entries.
ghost use Rattle.std.specs.Prelude.{◌≤◌};

use crate::{floats, words};
use queue::{Queue, QueueEntry};
use words::Cursor;

#[derive(Clone, Copy)]
pub struct ReadEntry {
    pub entry: QueueEntry,
    pub cursor: Cursor,
}

#[derive(Clone, Copy)]
pub struct ReadQueue {
    pub queue: Queue,
    pub cursor: Cursor,
}

pub fn entry(text: &[u8], from: Cursor) -> ReadEntry {
    let player = words::next(text, from);
    let joined = words::next(text, player.cursor);
    let rating = words::next(text, joined.cursor);
    let party = words::next(text, rating.cursor);
    let role = words::next(text, party.cursor);
    let fits = role.value < 4294967296;
    let entry = QueueEntry {
        player: player.value,
        joined: joined.value,
        rating: base::from_bits(rating.value),
        party: party.value,
        role: words::low_half(role.value),
    };
    let cursor = words::checked(role.cursor, fits);
    ReadEntry { entry, cursor }
}

// n entries.
fn entries(text: &[u8], from: Cursor, n: usize) -> ReadQueue
    requires { n ≤ 64 }
{
    let empty = Queue::empty();
    let mut entries = empty.entries;
    let mut cursor = from;
    for i in 0..n {
        let read = entry(text, cursor);
        let next = read.entry;
        entries[i] = next;
        cursor = read.cursor;
    }
    ReadQueue {
        queue: Queue { entries, len: n },
        cursor,
    }
}

// A queue, of which a length above 64 stands alone.
pub fn queue(text: &[u8], from: Cursor) -> ReadQueue {
    let len = words::next(text, from);
    let n = len.value as usize;
    let cursor = len.cursor;
    if 64 < n {
        let empty = Queue::empty();
        let entries = empty.entries;
        return ReadQueue {
            queue: Queue { entries, len: n },
            cursor,
        };
    }
    entries(text, cursor, n)
}

// Past the next five words, which have to be the entry.
pub fn expect_entry(text: &[u8], from: Cursor, entry: QueueEntry) -> Cursor {
    let player = words::expect(text, from, entry.player);
    let joined = words::expect(text, player, entry.joined);
    let rating = floats::expect(text, joined, entry.rating);
    let party = words::expect(text, rating, entry.party);
    words::expect(text, party, entry.role as u64)
}

fn expect_entries(text: &[u8], from: Cursor, entries: [QueueEntry; 64], n: usize) -> Cursor
    requires { n ≤ 64 }
{
    let mut cursor = from;
    for i in 0..n {
        cursor = expect_entry(text, cursor, entries[i]);
    }
    cursor
}

// Past the next words, which have to be the queue.
pub fn expect(text: &[u8], from: Cursor, queue: Queue) -> Cursor {
    let n = queue.len;
    let entries = queue.entries;
    let cursor = words::expect(text, from, n as u64);
    if 64 < n {
        return words::checked(cursor, false);
    }
    expect_entries(text, cursor, entries, n)
}

// A queue after a call: left out where the call brought one over limit.
pub fn expect_after(text: &[u8], from: Cursor, brought: Queue, after: Queue) -> Cursor {
    if 64 < brought.len {
        return from;
    }
    expect(text, from, after)
}
