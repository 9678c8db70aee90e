// Replays stored answers with the proved functions: reads the lines from standard input, and says how many of each function's
// answers differ. The head of the input says what stands on a line; one that is malformed, or of no known function, differs.
#![tactic(auto)]

ghost use Rattle.std.specs.Prelude.{◌≡◌, length};

// Words of a line.
mod words;

// Floats of a line.
mod floats;

// Entries and queues of a line.
mod queues;

// Lists of a line.
mod lists;

// Columns of a line.
mod columns;

// Teams and matches of a line.
mod teams;

// Objective vectors of a line.
mod coordinates;

// Soft objectives of a line.
mod objectives;

// Role requirements of a line.
mod requirements;

// Pairs of regions of a line.
mod pairs;

// Constraints of a line.
mod constraints;

// Candidates of a line.
mod candidates;

// Refusals of a line.
mod refusals;

// Scores of a line.
mod scores;

// Verdicts of a line.
mod verdicts;

// Chosen places of a line.
mod places;

// Weights of a match's score.
mod weights;

// Sizes, sheets and matches of a line.
mod sheets;

// Counts and what is written.
mod tally;

// The functions, by the first word of their lines.
mod functions;

use words::Cursor;

// Room for the input. A function of its own, so that no proof looks at half a million places.
fn room() -> [u8; 524288]
    ensures { 524288 ≡ length result }
{
    [0; 524288]
}

// Reads all of the input.
fn main() {
    let mut input = room();
    let n = io::read_full(0, &mut input);
    replay(&input[..n]);
}

// Every line, then the counts. A text that fills its room may have lost its end, and that is one more that differs.
fn replay(text: &[u8]) {
    let mut replayed = [0u64; 32];
    let mut differ = [0u64; 32];
    if 524287 < text.len() {
        io::write_all(1, b"the input does not fit, and differs\n");
        tally::count(&mut differ, 0);
    }
    lines(text, &mut replayed, &mut differ);
    tally::report(&replayed, &differ);
}

// Counts each line that is no comment. Lines are numbered from 1.
fn lines(text: &[u8], replayed: &mut [u64; 32], differ: &mut [u64; 32]) {
    let mut told: u64 = 0;
    let mut number: u64 = 1;
    let mut at: usize = 0;
    // No count: the end of a line says where the next begins.
    while at < text.len() {
        told = line(text, at, number, told, replayed, differ);
        number = tally::one_more(number);
        at = words::next_line(text, at);
    }
}

// Counts the line at `at`, and gives how many differing lines are told by now.
fn line(
    text: &[u8],
    at: usize,
    number: u64,
    told: u64,
    replayed: &mut [u64; 32],
    differ: &mut [u64; 32],
) -> u64 {
    if words::is_comment(text, at) {
        return told;
    }
    let first = words::number(text, at);
    let code = first.value;
    tally::count(replayed, code);
    if is_same(text, code, first.cursor) {
        return told;
    }
    tally::count(differ, code);
    tally::tell(number, told)
}

// Does the rest of the line say what the function says, and no more?
fn is_same(text: &[u8], code: u64, inputs: Cursor) -> bool {
    let end = functions::replay(text, code, inputs);
    let at = end.at;
    if !end.ok {
        return false;
    }
    words::ends_line(text, at)
}
