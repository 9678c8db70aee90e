// Which calls of a list are originals and which are resends, by the calls alone: the hall is not asked.
use crate::{calls, check};
use calls::Call;
use hall::Booking;

// An original: its key, its kind and what it brings, and the answer that it got.
#[derive(Clone, Copy)]
pub struct Original {
    pub key: u64,
    pub booking: Booking,
    pub kind: u8,
    pub answer: u8,
}

// The first `len`, in the order of coming.
#[derive(Clone, Copy)]
pub struct Originals {
    pub calls: [Original; 1024],
    pub len: usize,
}

// A resend has the answer of its original. A clash is another call under an original's key, and has what it differs in.
#[derive(Clone, Copy)]
pub enum Mark {
    Original,
    Resend(u8),
    Clash(u8),
    Other,
}

pub fn none() -> Originals {
    let nothing = Original {
        key: 0,
        booking: calls::booking_of(calls::withdrawal(0, 0)),
        kind: 0,
        answer: 0,
    };
    Originals {
        calls: [nothing; 1024],
        len: 0,
    }
}

// The place of a key among the first n, or 1024.
fn place(calls: [Original; 1024], n: usize, key: u64) -> usize {
    for i in 0..1024 {
        if i < n && calls[i].key == key {
            return i;
        }
    }
    1024
}

// In which field alone two bookings differ, in the order of document 02: 0 the guest, 1 the game, 2 the joined time, 3 the rating, 4 the
// party, 5 the role. It is 6 where the ratings are two zeros or two NaNs, and 7 where more differs.
fn changed(x: Booking, y: Booking) -> u8 {
    let mut rest = y;
    rest.player = x.player;
    if check::is_same_booking(x, rest) {
        return 0;
    }
    rest = y;
    rest.game = x.game;
    if check::is_same_booking(x, rest) {
        return 1;
    }
    rest = y;
    rest.joined = x.joined;
    if check::is_same_booking(x, rest) {
        return 2;
    }
    rest = y;
    rest.rating_bits = x.rating_bits;
    if check::is_same_booking(x, rest) {
        return rating_changed(
            base::from_bits(x.rating_bits),
            base::from_bits(y.rating_bits),
        );
    }
    rest = y;
    rest.party = x.party;
    if check::is_same_booking(x, rest) {
        return 4;
    }
    rest = y;
    rest.role = x.role;
    if check::is_same_booking(x, rest) {
        return 5;
    }
    7
}

fn rating_changed(x: f64, y: f64) -> u8 {
    if check::is_same_float(x, y) {
        return 6;
    }
    3
}

// A later call with an original's key: a resend if it is the original's kind and brings the same in every field.
fn against(original: Original, call: Call) -> Mark {
    let first = original.booking;
    let booking = calls::booking_of(call);
    if original.kind != call.kind {
        return Mark::Clash(7);
    }
    if check::is_same_booking(first, booking) {
        return Mark::Resend(original.answer);
    }
    Mark::Clash(changed(first, booking))
}

impl Originals {
    pub fn mark(self, call: Call) -> Mark {
        let calls = self.calls;
        let at = place(calls, self.len, call.key);
        if !calls::is_keyed(call) {
            return Mark::Other;
        }
        if at < 1024 {
            return against(calls[at], call);
        }
        if self.len < 1024 {
            return Mark::Original;
        }
        Mark::Other
    }

    // One more original, unless there are 1,024.
    pub fn with(self, call: Call, answer: u8) -> Originals {
        let n = self.len;
        let mut longer = self;
        if n < 1024 {
            longer.calls[n] = Original {
                key: call.key,
                booking: calls::booking_of(call),
                kind: call.kind,
                answer,
            };
            longer.len = n + 1;
        }
        longer
    }
}
