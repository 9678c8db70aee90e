// Drawn lists of calls. A call is drawn from its list's number and its place alone, so that a resend can draw it again.
use crate::{calls, rosters};
use calls::Call;
use capi::halls::Games;
use seating::TeamComposition;

// How long a list is, among how many guests and keys, how many calls there are to a round, and how many games are drawn.
#[derive(Clone, Copy)]
pub struct Plan {
    pub calls: usize,
    pub guests: u64,
    pub keys: u64,
    pub rare: u64,
    pub games: u64,
}

// Most lists have few guests and keys. Every fifth fills the hall, and every hundredth the key log. In every twentieth all games wait for
// their turn.
pub fn plan_of(list: u64) -> Plan {
    let games = list / 5 % 8 + 1;
    if list % 20 == 3 {
        return Plan {
            calls: 600,
            guests: 60,
            keys: 1000,
            rare: 8,
            games: 8,
        };
    }
    if list % 100 == 0 {
        return Plan {
            calls: 2000,
            guests: 30,
            keys: 100000,
            rare: 12,
            games,
        };
    }
    if list % 5 == 0 {
        return Plan {
            calls: 300,
            guests: 120,
            keys: 1000,
            rare: 40,
            games: games % 3 + 1,
        };
    }
    Plan {
        calls: 100,
        guests: 6 + 3 * games,
        keys: 60,
        rare: 4,
        games,
    }
}

// Xorshift.
fn next(word: u64) -> u64 {
    let x = word ^ (word << 13);
    let y = x ^ (x >> 7);
    y ^ (y << 17)
}

// The word of a place of a list, never 0.
fn word(list: u64, place: usize) -> u64 {
    let many = (list % 4096) * 4096;
    next(next(next(next(std::num::wrapping_add_u64(many, place as u64 % 4096) + 1))))
}

// A number below n, or 0.
fn below(word: u64, n: u64) -> u64 {
    if n == 0 {
        return 0;
    }
    word % n
}

// One in sixteen is above 2^53.
fn time(word: u64) -> u64 {
    if word % 16 == 0 {
        return 9007199254740993;
    }
    word % 7 * 1000000000
}

// ---- games

// The size of a team, from 0 to 3.
fn size(word: u64) -> usize {
    match word % 12 {
        0 => 0,
        1 | 2 => 3,
        3 | 4 | 5 | 6 => 2,
        _ => 1,
    }
}

// The sizes of a game. No list has calls at these places.
fn sizes(list: u64, game: usize) -> TeamComposition {
    let word = word(list, game % 8 + 4000);
    TeamComposition {
        a: size(word),
        b: size(word / 16),
    }
}

// The sizes of a list's games, the others not used. In every fortieth list a team has 9.
pub fn games_of(list: u64) -> Games {
    let plan = plan_of(list);
    let mut drawn = [TeamComposition { a: 0, b: 0 }; 8];
    for i in 0..8 {
        if (i as u64) < plan.games {
            drawn[i] = sizes(list, i);
        }
    }
    if list % 40 == 7 {
        drawn[3] = TeamComposition { a: 1, b: 9 };
    }
    Games { sizes: drawn }
}

// Mostly one of the games drawn, at times another, and at times none.
fn game(word: u64, games: u64) -> u8 {
    let any = word / 16;
    match word % 16 {
        0 => (any % 248 + 8) as u8,
        1 => (any % 8) as u8,
        _ => (below(any, games) % 256) as u8,
    }
}

// ---- calls

// At most 4, at times 33.
fn width(word: u64) -> usize {
    match word % 16 {
        0 => 33,
        1 | 2 => 0,
        3 | 4 => 2,
        5 | 6 => 4,
        _ => 3,
    }
}

fn fault(word: u64) -> u8 {
    match word % 24 {
        0 => calls::FEW_RATINGS,
        1 => calls::SHORT_SHEETS,
        2 | 3 => calls::NO_WEIGHT,
        _ => calls::SOUND,
    }
}

fn round(plan: Plan, word: u64) -> Call {
    let second = next(word);
    let third = next(second);
    let kind = match word % 8 {
        0 => calls::GREEDY,
        1 => calls::BEAM,
        2 | 3 | 4 => calls::FULL,
        _ => {
            return calls::dispatch(time(third / 32), fault(third / 1024));
        }
    };
    calls::round(
        kind,
        game(second, plan.games),
        width(third),
        time(third / 32),
        fault(third / 1024),
    )
}

// Half of them book alone, the others with one of three parties, whatever the roster says.
fn party(word: u64) -> u64 {
    match word % 8 {
        0 | 1 => 1,
        2 => 2,
        3 => 3,
        _ => 0,
    }
}

// Mostly a rating that many have, at times one of two zeros or of two NaNs.
fn rating_bits(word: u64) -> u64 {
    match word % 16 {
        0 => 0,
        1 => 9223372036854775808,
        2 => 9221120237041090560,
        3 => 9221120237041090561,
        _ => base::to_bits(rosters::rating(word / 16)),
    }
}

// A booking, or one time in five a withdrawal.
fn keyed(plan: Plan, word: u64) -> Call {
    let second = next(word);
    let key = below(word, plan.keys);
    let player = below(second / 64, plan.guests);
    if second % 5 == 0 {
        return calls::withdrawal(key, player);
    }
    let third = next(second);
    let mut booking = calls::booking(key, player, 0.0, time(second / 8192));
    booking.rating_bits = rating_bits(third / 65536);
    booking.party = party(third);
    booking.role = (third / 1048576 % 3) as u32;
    booking.game = game(third / 8, plan.games);
    booking
}

fn fresh(list: u64, place: usize) -> Call {
    let plan = plan_of(list);
    let word = word(list, place);
    if below(next(word), plan.rare) == 0 {
        return round(plan, word);
    }
    keyed(plan, word)
}

// A rating with another sign or another last bit: the other zero, another NaN, a float beside it.
fn other_bits(bits: u64, word: u64) -> u64 {
    if word % 2 == 0 {
        return bits ^ 9223372036854775808;
    }
    bits ^ 1
}

// A booking with one field changed; any other call as it is.
fn changed(call: Call, word: u64) -> Call {
    let mut other = call;
    if call.kind != calls::BOOKING {
        return other;
    }
    match word % 6 {
        0 => other.player = call.player ^ 1,
        1 => other.game = call.game ^ 1,
        2 => other.time = call.time ^ 1,
        3 => other.rating_bits = other_bits(call.rating_bits, word / 8),
        4 => other.party = call.party ^ 1,
        _ => other.role = call.role ^ 1,
    }
    other
}

// One call in four is drawn as an earlier place draws it, and one in eight so but for a field.
pub fn call(list: u64, place: usize) -> Call {
    let word = next(next(next(word(list, place))));
    let earlier = below(word / 8, place as u64);
    match word % 8 {
        0 | 1 => fresh(list, earlier as usize),
        2 => changed(fresh(list, earlier as usize), next(word)),
        _ => fresh(list, place),
    }
}
