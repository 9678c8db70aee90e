// The program that counter staff run: one command a line, from standard input or from the file that its argument names, and one
// hall for the evening.
#![tactic(auto)]

// Lines as they arrive.
mod input;

// Words of a line.
mod words;

// Numbers and times of a word.
mod numbers;

// Values by their kind.
mod values;

// Named fields of a line, in any order.
mod fields;

// What is said to a line that cannot be served.
mod complaints;

// What the desk keeps in the evening.
mod desk;

// What came of the bookings, game by game.
mod tally;

// The games of the evening.
mod games;

// The guests' roster rows.
mod guests;

// How much of an array is lent.
mod counts;

// The entry that a line asks for.
mod entries;

// The commands, by the first word of a line.
mod commands;

// Greedy, beam and full rounds, and dispatches.
mod rounds;

// The tables that a round seats.
mod tables;

// A queue that the old counter exported.
mod old;

// What full rounds must hold to.
mod rules;

// What full rounds rank the choices by.
mod goals;

// The queue, the key book and the totals.
mod listing;

// The refusals, in their words.
mod refusals;

// Why a key clashes.
mod clash;

// Numbers in columns.
mod print;

// The commands in brief.
mod help;

fn main(rt: HostRuntime) -> std::io::Result<()> {
    let mut words = std::env::args(&rt)?;
    let _program = words.next();
    let file = words.next();
    if words.next().is_some() {
        io::write_all(2, b"frontdesk: expected one file of commands, or none\n");
        return Ok(());
    }
    match file {
        None => {
            let mut input = rt.stdin();
            let served = input::serve_all(&mut input, false);
            say_unread(&rt, served)
        }
        Some(path) => from_file(&rt, path.as_str()),
    }
}

// Serves the file that the argument names, and shows each line before its answer.
fn from_file(rt: &HostRuntime, path: &str) -> std::io::Result<()> {
    match std::fs::File::open(rt, path) {
        Ok(file) => {
            let mut input = file;
            let served = input::serve_all(&mut input, true);
            say_unread(rt, served)
        }
        Err(error) => eprintln!(rt; "frontdesk: cannot open {path}: {error}"),
    }
}

// What ended the input before its end.
fn say_unread(rt: &HostRuntime, served: std::io::Result<()>) -> std::io::Result<()> {
    match served {
        Ok(()) => Ok(()),
        Err(error) => eprintln!(rt; "frontdesk: cannot read: {error}"),
    }
}
