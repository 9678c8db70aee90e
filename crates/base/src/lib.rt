// What every crate shares: the refusals of documents 01 and 02; `abs`, `min`, the test for NaN and the bits of floats; a number with a limit, and whether one
// is among others.
#![tactic(auto)]

ghost use Rattle.std.specs.Prelude.{◌≡◌};
ghost use Prim.Native.Nat as Nat;
ghost use Rattle.std.specs.Float.{binary64};
ghost use Rattle.std.specs.Float.Ieee.{is_nan, of_bits, to_bits};
ghost use Rattle.base.specs.Refusals.{refusal_number};
ghost use Rattle.base.specs.Floats.{abs_of, min_of};
ghost use Rattle.base.specs.Lists.{member};

// Document 01's twelve refusals, in the order of its table, and those that document 02 added.
#[derive(Clone, Copy)]
pub enum Refusal {
    OverLimit,
    BadRoster,
    ShortSheet,
    Clock,
    Unranked,
    TooWide,
    KeyClash,
    BookFull,
    AlreadyWaiting,
    HallFull,
    NotWaiting,
    NoSeats,
    NoGame,
}

impl Refusal {
    // The refusal's number in the table.
    pub fn number(self) -> u8
        ensures { result ≡ refusal_number self }
    {
        match self {
            Refusal::OverLimit => 1,
            Refusal::BadRoster => 2,
            Refusal::ShortSheet => 3,
            Refusal::Clock => 4,
            Refusal::Unranked => 5,
            Refusal::TooWide => 6,
            Refusal::KeyClash => 7,
            Refusal::BookFull => 8,
            Refusal::AlreadyWaiting => 9,
            Refusal::HallFull => 10,
            Refusal::NotWaiting => 11,
            Refusal::NoSeats => 12,
            Refusal::NoGame => 13,
        }
    }
}

// `x` without its sign: +0.0 for either zero, and NaN for NaN.
pub fn abs(x: f64) -> f64
    ensures { result ≡ abs_of x }
{
    if x < 0.0 {
        return -x;
    }
    if x == 0.0 {
        return 0.0;
    }
    x
}

// The smaller of the two, as Rust's f64::min has it: a NaN is passed over.
pub fn min(x: f64, y: f64) -> f64
    ensures { result ≡ min_of x y }
{
    if x < y {
        return x;
    }
    if y != y {
        return x;
    }
    y
}

// Is the float no number?
pub fn is_nan(x: f64) -> bool
    ensures { result ≡ is_nan x }
{
    x != x
}

// The float of these bits, and one NaN for all patterns of a NaN: but for the sign, those above the bits of infinity.
pub fn from_bits(bits: u64) -> f64
    ensures { result ≡ of_bits binary64 bits }
{
    let magnitude = bits % 9223372036854775808;
    if 9218868437227405312 < magnitude {
        return 0.0 / 0.0;
    }
    f64::from_bits(bits)
}

// The bits of a float, and one pattern for all NaNs.
pub fn to_bits(x: f64) -> u64
    ensures { result ≡ to_bits binary64 x }
{
    if x != x {
        return 9221120237041090560;
    }
    f64::to_bits(x)
}

// So many, or the limit where they are more.
pub fn at_most(n: usize, limit: usize) -> usize
    ensures { result ≡ Nat.min n limit }
{
    if limit < n {
        return limit;
    }
    n
}

// Is the number among these?
pub fn is_among(numbers: &[u64], number: u64) -> bool
    ensures { result ≡ member number numbers.now }
{
    for &other in numbers {
        if other == number {
            return true;
        }
    }
    false
}
