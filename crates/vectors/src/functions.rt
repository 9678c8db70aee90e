// The functions, by the first word of their lines. Each has a module with a `replay`, which reads the inputs, calls the proved
// function, and goes past the outputs, which have to be what the function gives. A new one: its module, its name, its arm.
use crate::words;
use words::Cursor;

mod as_secs_f64;
mod beam_search;
mod best_choice;
mod check_roster;
mod constraints;
mod dominates;
mod duration_since;
mod enqueue;
mod exhaustive;
mod greedy_search;
mod greedy_selection;
mod latency;
mod lexicographic;
mod match_quality;
mod match_score;
mod nearest;
mod parties;
mod policy_score;
mod regions;
mod remove;
mod remove_batch;
mod roles;
mod scalarize;
mod sizes;
mod soft_score;
mod threshold;
mod validate;
mod waiting_time;
mod weighted;

// The name of a function, by the file of the Rust that has it.
pub fn write_name(code: u64) -> bool {
    if code < 8 {
        return write_queue_name(code);
    }
    if code < 13 {
        return write_match_name(code);
    }
    if code < 21 {
        return write_constraint_name(code);
    }
    if code < 25 {
        return write_selection_name(code);
    }
    write_search_name(code)
}

// queue.rs and time.rs, and the roster.
fn write_queue_name(code: u64) -> bool {
    match code {
        1 => io::write_all(1, b"enqueue"),
        2 => io::write_all(1, b"remove"),
        3 => io::write_all(1, b"remove_batch"),
        4 => io::write_all(1, b"waiting_time"),
        5 => io::write_all(1, b"duration_since"),
        6 => io::write_all(1, b"as_secs_f64"),
        7 => io::write_all(1, b"check_roster"),
        _ => write_unknown(code),
    }
}

// matchmaker.rs and objective.rs.
fn write_match_name(code: u64) -> bool {
    match code {
        8 => io::write_all(1, b"match_quality"),
        9 => io::write_all(1, b"match_score"),
        10 => io::write_all(1, b"soft_score"),
        11 => io::write_all(1, b"scalarize"),
        12 => io::write_all(1, b"dominates"),
        _ => write_unknown(code),
    }
}

// constraint.rs and policy.rs.
fn write_constraint_name(code: u64) -> bool {
    match code {
        13 => io::write_all(1, b"sizes"),
        14 => io::write_all(1, b"roles"),
        15 => io::write_all(1, b"parties"),
        16 => io::write_all(1, b"latency"),
        17 => io::write_all(1, b"regions"),
        18 => io::write_all(1, b"constraints"),
        19 => io::write_all(1, b"validate"),
        20 => io::write_all(1, b"policy_score"),
        _ => write_unknown(code),
    }
}

// selection.rs.
fn write_selection_name(code: u64) -> bool {
    match code {
        21 => io::write_all(1, b"greedy"),
        22 => io::write_all(1, b"threshold"),
        23 => io::write_all(1, b"lexicographic"),
        24 => io::write_all(1, b"weighted"),
        _ => write_unknown(code),
    }
}

// search.rs and candidate.rs.
fn write_search_name(code: u64) -> bool {
    match code {
        25 => io::write_all(1, b"greedy_search"),
        26 => io::write_all(1, b"nearest"),
        27 => io::write_all(1, b"beam_search"),
        28 => io::write_all(1, b"exhaustive"),
        29 => io::write_all(1, b"best_choice"),
        _ => write_unknown(code),
    }
}

// `code-30`, or `other` for 0, where lines are counted whose code can't be read or is 32 or more.
fn write_unknown(code: u64) -> bool {
    if code == 0 {
        return io::write_all(1, b"other");
    }
    io::write_all(1, b"code-");
    io::print_decimal(1, code)
}

pub fn replay(text: &[u8], code: u64, inputs: Cursor) -> Cursor {
    match code {
        1 => enqueue::replay(text, inputs),
        2 => remove::replay(text, inputs),
        3 => remove_batch::replay(text, inputs),
        4 => waiting_time::replay(text, inputs),
        5 => duration_since::replay(text, inputs),
        6 => as_secs_f64::replay(text, inputs),
        7 => check_roster::replay(text, inputs),
        8 => match_quality::replay(text, inputs),
        9 => match_score::replay(text, inputs),
        10 => soft_score::replay(text, inputs),
        11 => scalarize::replay(text, inputs),
        12 => dominates::replay(text, inputs),
        13 => sizes::replay(text, inputs),
        14 => roles::replay(text, inputs),
        15 => parties::replay(text, inputs),
        16 => latency::replay(text, inputs),
        17 => regions::replay(text, inputs),
        18 => constraints::replay(text, inputs),
        19 => validate::replay(text, inputs),
        20 => policy_score::replay(text, inputs),
        21 => greedy_selection::replay(text, inputs),
        22 => threshold::replay(text, inputs),
        23 => lexicographic::replay(text, inputs),
        24 => weighted::replay(text, inputs),
        25 => greedy_search::replay(text, inputs),
        26 => nearest::replay(text, inputs),
        27 => beam_search::replay(text, inputs),
        28 => exhaustive::replay(text, inputs),
        29 => best_choice::replay(text, inputs),
        _ => words::checked(inputs, false),
    }
}
