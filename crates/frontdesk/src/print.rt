// Numbers in columns, on standard output. A width of 0 is no column; in any other a blank at least stands before the text.
ghost use Rattle.std.specs.Prelude.{◌≤◌};

pub fn text(bytes: &[u8]) {
    io::write_all(1, bytes);
}

pub fn byte(b: u8) {
    io::write_all(1, &[b]);
}

// So many blanks, 40 at most.
fn blanks(count: usize) {
    let spaces = b"                                        ";
    io::write_all(1, crate::words::part(spaces, 0, base::at_most(count, 40)));
}

// How much is left of `width`.
fn rest(width: usize, taken: usize) -> usize {
    if width < taken {
        return 0;
    }
    width - taken
}

// The blanks before a text of `taken` bytes.
fn fill(width: usize, taken: usize) {
    if width == 0 {
        return;
    }
    if width <= taken {
        blanks(1);
        return;
    }
    blanks(width - taken);
}

// A text at the right end of its column.
pub fn right(bytes: &[u8], width: usize) {
    fill(width, bytes.len());
    text(bytes);
}

// A whole number at the right end of its column.
pub fn whole(n: u64, width: usize) {
    let mut digits = [0u8; 20];
    let k = io::decimal(n, &mut digits);
    right(&digits[..k], width);
}

// `2+1`
pub fn sizes(a: usize, b: usize) {
    io::print_decimal(1, a as u64);
    text(b"+");
    io::print_decimal(1, b as u64);
}

// A float as it is printed: its sign, its whole part and its digits behind the point.
#[derive(Clone, Copy)]
struct Printed {
    minus: bool,
    whole: u64,
    digits: u64,
}

// The whole part of x, 0 where it is below 0 or does not fit.
fn truncated(x: f64) -> u64 {
    if x > -1.0 {
        if x < 18446744073709551616.0 {
            return std::num::truncating_f64_to_u64(x);
        }
    }
    0
}

// 10^places, for up to 4 places.
fn scale_of(places: usize) -> u64 {
    match places {
        0 => 1,
        1 => 10,
        2 => 100,
        3 => 1000,
        _ => 10000,
    }
}

// The last 30 bits times 10^places.
fn scaled(n: u64, places: usize) -> u64
    ensures { result ≤ 10737418240000 }
{
    let bits = n % 1073741824;
    match places {
        0 => bits,
        1 => bits * 10,
        2 => bits * 100,
        3 => bits * 1000,
        _ => bits * 10000,
    }
}

// The fraction times 10^places, rounded to the nearest whole number and upwards in the middle. The fraction comes in parts of
// 2^-60, in two halves; what is finer can't move it past the middle.
fn rounded(fraction: f64, places: usize) -> u64 {
    let parts = truncated(fraction * 1152921504606846976.0);
    let low = scaled(parts, places) / 1073741824;
    let sum = scaled(parts / 1073741824, places) + low;
    (sum + 536870912) / 1073741824
}

// x from 0.0 on, rounded to so many places.
fn fixed(x: f64, places: usize) -> Printed {
    let scale = scale_of(places);
    let whole = truncated(x);
    let digits = rounded(x - std::num::nearest_u64_to_f64(whole), places);
    if digits < scale {
        return Printed {
            minus: false,
            whole,
            digits,
        };
    }
    Printed {
        minus: false,
        whole: std::num::wrapping_add_u64(whole, 1),
        digits: 0,
    }
}

// Is it printed in digits? Not where it is NaN, infinite or has too many.
fn is_plain(x: f64) -> bool {
    -18446744073709551616.0 < x && x < 18446744073709551616.0
}

// Such a float in its digits. What is printed as 0 has no sign.
fn in_digits(x: f64, places: usize) -> Printed {
    let mut shown = fixed(base::abs(x), places);
    if shown.whole != 0 || shown.digits != 0 {
        shown.minus = x < 0.0;
    }
    shown
}

// Do so many places tell two floats apart? Only where both are printed in digits.
pub fn tell_apart(x: f64, y: f64, places: usize) -> bool {
    if !is_plain(x) || !is_plain(y) {
        return false;
    }
    let one = in_digits(x, places);
    let other = in_digits(y, places);
    one.minus != other.minus || one.whole != other.whole || one.digits != other.digits
}

// Every digit behind the point, with its zeros: those of 10^places + digits without the first.
fn behind_point(digits: u64, places: usize) {
    let mut spelled = [0u8; 20];
    let k = io::decimal(
        std::num::wrapping_add_u64(scale_of(places), digits),
        &mut spelled,
    );
    text(b".");
    text(crate::words::part(&spelled[..k], 1, k));
}

// A float with so many places, 1 to 4, at the right end of its column.
pub fn real(x: f64, places: usize, width: usize) {
    if !is_plain(x) {
        named(x, width);
        return;
    }
    let shown = in_digits(x, places);
    signed(shown.minus, shown.whole, rest(rest(width, 1), places));
    behind_point(shown.digits, places);
}

fn signed(minus: bool, n: u64, width: usize) {
    let mut digits = [0u8; 20];
    let k = io::decimal(n, &mut digits);
    if minus {
        fill(rest(width, 1), k);
        text(b"-");
    } else {
        fill(width, k);
    }
    text(&digits[..k]);
}

// What has too many digits, or none.
fn named(x: f64, width: usize) {
    if x != x {
        right(b"nan", width);
    } else if x == 1.0 / 0.0 {
        right(b"inf", width);
    } else if x == -1.0 / 0.0 {
        right(b"-inf", width);
    } else if x < 0.0 {
        right(b"-huge", width);
    } else {
        right(b"huge", width);
    }
}

// Nanoseconds as seconds with one place, at the right end of its column.
pub fn wait(nanos: u64, width: usize) {
    real(queue::time::in_seconds(nanos), 1, rest(width, 1));
    text(b"s");
}

// A time as it may be typed, with nothing left out: 90s, 1.5s, or in nanoseconds where it is finer.
pub fn time(nanos: u64, width: usize) {
    let tenths = nanos / 100000000;
    if nanos % 100000000 != 0 {
        whole(nanos, rest(width, 2));
        text(b"ns");
        return;
    }
    if tenths % 10 == 0 {
        whole(tenths / 10, rest(width, 1));
        text(b"s");
        return;
    }
    whole(tenths / 10, rest(width, 3));
    text(b".");
    whole(tenths % 10, 0);
    text(b"s");
}
