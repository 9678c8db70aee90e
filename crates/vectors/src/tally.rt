// Counts for each code below 32, those of all other codes at 0, and what is written of them.
ghost use Rattle.std.specs.Prelude.{◌<◌};

use crate::functions;

// Never wraps.
pub fn one_more(n: u64) -> u64 {
    if n < 18446744073709551615 {
        return n + 1;
    }
    n
}

// The place of a code in the counts.
fn slot(code: u64) -> usize
    ensures { result < 32 }
{
    if code < 32 {
        return code as usize;
    }
    0
}

pub fn count(counts: &mut [u64; 32], code: u64) {
    let i = slot(code);
    counts[i] = one_more(counts[i]);
}

// Names the line, if few were named before, and gives how many differ by now.
pub fn tell(number: u64, told: u64) -> u64 {
    if told < 5 {
        io::write_all(1, b"line ");
        io::print_decimal(1, number);
        io::write_all(1, b" differs\n");
    }
    one_more(told)
}

// `40 replayed, 0 differ` and the line's end.
fn write_counts(replayed: u64, differ: u64) {
    io::print_decimal(1, replayed);
    io::write_all(1, b" replayed, ");
    io::print_decimal(1, differ);
    io::write_all(1, b" differ\n");
}

// A line for a function that has lines.
fn report_one(code: u64, replayed: u64, differ: u64) {
    if replayed == 0 {
        return;
    }
    functions::write_name(code);
    io::write_all(1, b" ");
    write_counts(replayed, differ);
}

// The sum of the counts.
fn total(counts: &[u64; 32]) -> u64 {
    let mut sum: u64 = 0;
    for i in 0..32 {
        sum = std::num::wrapping_add_u64(sum, counts[i]);
    }
    sum
}

// A line for each function, and one for all.
pub fn report(replayed: &[u64; 32], differ: &[u64; 32]) {
    for i in 0..32 {
        report_one(i as u64, replayed[i], differ[i]);
    }
    io::print_decimal(1, total(replayed));
    io::write_all(1, b" answers replayed, ");
    io::print_decimal(1, total(differ));
    io::write_all(1, b" differ\n");
}
