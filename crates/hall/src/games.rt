// The games under one roof: which sizes they have, and whose turn it is when a table is dispatched.
ghost use Rattle.std.specs.Prelude.{◌≡◌, take};
ghost use Rattle.std.specs.Prelude.{unwrap_or};
ghost use Rattle.base.specs.Lists.{any};
ghost use Rattle.base.specs.Numbers.{value_or, outcome_in};
ghost use Rattle.seating.specs.Seating.{sizes_over};
ghost use Rattle.hall.specs.Games.{no_game, game_in, sizes_for, games_over, enough_for, enough, next_game};

use crate::{Booking, waiting};
use seating::TeamComposition;

// Has a game a size over 8?
fn any_over(sizes: [TeamComposition; 8]) -> bool
    ensures { result ≡ any sizes_over sizes }
{
    for g in 0..8 {
        if sizes[g].is_over() {
            return true;
        }
    }
    false
}

// Is one of the sizes over 8, or the last game served neither 0 to 7 nor none?
pub fn are_over(sizes: [TeamComposition; 8], served: u8) -> bool
    ensures { result ≡ games_over sizes served }
{
    if any_over(sizes) {
        return true;
    }
    if served <= 7 {
        return false;
    }
    served != 255
}

// The sizes of a game, and 0 and 0 of a number that is none.
pub fn sizes_of(sizes: [TeamComposition; 8], game: u8) -> TeamComposition
    ensures { result ≡ sizes_for sizes game }
{
    if 7 < game {
        return TeamComposition { a: 0, b: 0 };
    }
    sizes[game as usize]
}

// Do so many fill a match, and does a match seat anybody? Sizes that are handed in may add up to more than a number holds, so they are not
// added.
fn is_enough(sizes: TeamComposition, waiting: usize) -> bool
    ensures { result ≡ enough_for sizes waiting }
{
    if waiting < sizes.a {
        return false;
    }
    if waiting - sizes.a < sizes.b {
        return false;
    }
    if 0 < sizes.a {
        return true;
    }
    0 < sizes.b
}

// Has the game enough among the first n bookings?
fn has_enough(bookings: [Booking; 64], n: usize, sizes: [TeamComposition; 8], game: u8) -> bool
    ensures { result ≡ enough sizes (take n bookings) game }
{
    is_enough(sizes_of(sizes, game), waiting::count(bookings, n, game))
}

// The next game in circular order behind the last one served that has enough, or 255.
pub fn next(bookings: [Booking; 64], n: usize, sizes: [TeamComposition; 8], last: u8) -> u8
    ensures { game_in result ≡ next_game (enough sizes (take n bookings)) last }
{
    for i in 0..8 {
        let game = (last % 8 + 1 + i) % 8;
        if has_enough(bookings, n, sizes, game) {
            return game;
        }
    }
    255
}

// The game that a dispatch served: its own, and none where it was refused.
pub fn served(game: u8, refusal: u8) -> u8
    ensures { result ≡ value_or no_game (outcome_in refusal game) }
{
    if refusal == 0 {
        return game;
    }
    255
}

// The last game served, when this one was, or none.
pub fn last_served(last: u8, served: u8) -> u8
    ensures { result ≡ unwrap_or (game_in served) last }
{
    if served == 255 {
        return last;
    }
    served
}
