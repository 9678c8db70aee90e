// The lines of document 01's table, of 2.3, of 2.4 and of 2.5, a list of calls that is told call by call, and drawn lists of calls: the program
// says what the proved functions answer to them, and how many checks of the answers fail.
#![tactic(auto)]

// What is written.
mod text;

// Rosters, and what a full round brings.
mod rosters;

// The six calls of a hall.
mod calls;

// The lines of the table.
mod lines;

// The lines of several games.
mod games;

// The lines of keys that stand for whole bookings.
mod keys;

// Originals and resends.
mod originals;

// What is checked.
mod check;

// What is checked of dispatches.
mod turns;

// What is counted.
mod tally;

// The list that is told.
mod story;

// The lists that are drawn.
mod draw;

// A list, made with its resends and without them.
mod lists;

fn main() {
    lines::all();
    games::all();
    keys::all();
    let story = lists::make(0, tally::empty());
    text::say(b"the list above: ");
    tally::report(story);
    let drawn = lists::make_all(200);
    text::number(drawn.lists);
    text::say(b" lists drawn: ");
    tally::report(drawn);
}
