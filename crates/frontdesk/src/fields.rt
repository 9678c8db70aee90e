// Named fields of a line, as name and value, in any order. Each is a bit, so that a command says in one number which it takes.
use crate::numbers::Problem;
use crate::values::{Kind, Value};
use crate::words::Heard;
use crate::{complaints, values, words};
use check::same;

pub const KEY: u32 = 1;

pub const GUEST: u32 = 2;

pub const JOINED: u32 = 4;

pub const RATING: u32 = 8;

pub const PARTY: u32 = 16;

pub const ROLE: u32 = 32;

pub const DEVIATION: u32 = 64;

pub const REGION: u32 = 128;

pub const AT: u32 = 256;

pub const WIDTH: u32 = 512;

pub const QUALITY: u32 = 1024;

pub const WAIT: u32 = 2048;

pub const PING: u32 = 4096;

pub const UNCERTAINTY: u32 = 8192;

pub const AT_LEAST: u32 = 16384;

pub const AT_MOST: u32 = 32768;

pub const GAME: u32 = 65536;

// What a line gives, a value at each field's place, and 0 where it gives none.
#[derive(Clone, Copy)]
pub struct Fields {
    // Behind the last field that was read.
    pub at: usize,
    pub seen: u32,
    pub wholes: [u64; 17],
    pub reals: [f64; 17],
    // False once a complaint was made.
    pub ok: bool,
}

// A field's place: that of its bit.
fn place_of(field: u32) -> usize {
    (u32::trailing_zeros(field) % 32) as usize
}

impl Fields {
    fn none(at: usize) -> Fields {
        Fields {
            at,
            seen: 0,
            wholes: [0; 17],
            reals: [0.0; 17],
            ok: true,
        }
    }

    // Where a complaint was made before there was any field.
    pub fn bad() -> Fields {
        let none = Fields::none(0);
        none.failed()
    }

    fn failed(self) -> Fields {
        let mut next = self;
        next.ok = false;
        next
    }

    pub fn has(self, field: u32) -> bool {
        self.seen & field != 0
    }

    // A whole number, a time or a region's code.
    pub fn whole(self, field: u32) -> u64 {
        let wholes = self.wholes;
        let i = place_of(field);
        if i < 17 {
            return wholes[i];
        }
        0
    }

    // A decimal number.
    pub fn real(self, field: u32) -> f64 {
        let reals = self.reals;
        let i = place_of(field);
        if i < 17 {
            return reals[i];
        }
        0.0
    }

    // The number that is given, or this one.
    pub fn whole_or(self, field: u32, other: u64) -> u64 {
        if self.has(field) {
            return self.whole(field);
        }
        other
    }

    pub fn real_or(self, field: u32, other: f64) -> f64 {
        if self.has(field) {
            return self.real(field);
        }
        other
    }

    // One field more, which ends at `at`.
    fn with(self, field: u32, value: Value, at: usize) -> Fields {
        let i = place_of(field);
        let mut next = self;
        next.at = at;
        next.seen = self.seen | field;
        if i < 17 {
            next.wholes[i] = value.whole;
            next.reals[i] = value.real;
        }
        next
    }
}

// The fields of bookings, withdrawals and roster rows, 0 for any other name.
fn guests_field(name: &[u8]) -> u32 {
    if same(name, b"key") {
        return KEY;
    }
    if same(name, b"guest") {
        return GUEST;
    }
    if same(name, b"joined") {
        return JOINED;
    }
    if same(name, b"rating") {
        return RATING;
    }
    if same(name, b"party") {
        return PARTY;
    }
    if same(name, b"role") {
        return ROLE;
    }
    if same(name, b"deviation") {
        return DEVIATION;
    }
    if same(name, b"region") {
        return REGION;
    }
    if same(name, b"game") {
        return GAME;
    }
    0
}

// The fields of rounds and rules, 0 for any other name.
fn rounds_field(name: &[u8]) -> u32 {
    if same(name, b"at") {
        return AT;
    }
    if same(name, b"width") {
        return WIDTH;
    }
    if same(name, b"quality") {
        return QUALITY;
    }
    if same(name, b"wait") {
        return WAIT;
    }
    if same(name, b"ping") {
        return PING;
    }
    if same(name, b"uncertainty") {
        return UNCERTAINTY;
    }
    if same(name, b"at-least") {
        return AT_LEAST;
    }
    if same(name, b"at-most") {
        return AT_MOST;
    }
    0
}

fn kind_of(field: u32) -> Kind {
    if field == ROLE {
        return Kind::Whole(4294967295);
    }
    if field == GAME {
        return Kind::Whole(255);
    }
    if field == REGION {
        return Kind::Region;
    }
    if field & (JOINED | AT) != 0 {
        return Kind::Time;
    }
    if field & (RATING | DEVIATION | QUALITY | WAIT | PING | UNCERTAINTY) != 0 {
        return Kind::Decimal;
    }
    Kind::Whole(u64::MAX)
}

// The next field, which has to be one of those allowed and new.
fn one_more(text: &[u8], heard: Heard, fields: Fields, allowed: u32) -> Fields {
    let name = words::next(text, fields.at);
    let spelled = words::bytes_of(text, name);
    let field = (guests_field(spelled) | rounds_field(spelled)) & allowed;
    if field == 0 {
        complaints::no_field(text, heard, name, allowed);
        return fields.failed();
    }
    if fields.has(field) {
        complaints::twice(text, heard, name);
        return fields.failed();
    }
    let found = words::next(text, name.to);
    let kind = kind_of(field);
    let value = values::read(kind, words::bytes_of(text, found));
    let problem = value.problem;
    if let Problem::Nothing = problem {
        return fields.with(field, value, found.to);
    }
    complaints::value(text, heard, kind, problem, name, found);
    fields.failed()
}

fn goes_on(text: &[u8], fields: Fields) -> bool {
    if !fields.ok {
        return false;
    }
    let next = words::next(text, fields.at);
    !next.is_end()
}

// Every field from `at` to the line's end. Each turn reads a new one of seventeen, so that eighteen are enough.
fn read_all(text: &[u8], heard: Heard, at: usize, allowed: u32) -> Fields {
    let mut fields = Fields::none(at);
    for _ in 0..18 {
        if !goes_on(text, fields) {
            return fields;
        }
        fields = one_more(text, heard, fields, allowed);
    }
    fields
}

// Is the field needed and not given?
fn is_missing(fields: Fields, needed: u32, field: u32) -> bool {
    if needed & field == 0 {
        return false;
    }
    !fields.has(field)
}

// A field that is needed and not given, 0 for none.
fn missing(fields: Fields, needed: u32) -> u32 {
    if is_missing(fields, needed, KEY) {
        return KEY;
    }
    if is_missing(fields, needed, GUEST) {
        return GUEST;
    }
    if is_missing(fields, needed, JOINED) {
        return JOINED;
    }
    if is_missing(fields, needed, ROLE) {
        return ROLE;
    }
    if is_missing(fields, needed, AT) {
        return AT;
    }
    0
}

// Does the line end at `at`? A complaint is made where it doesn't.
pub fn end(text: &[u8], heard: Heard, at: usize) -> bool {
    let rest = read_all(text, heard, at, 0);
    rest.ok
}

// The fields from `at` to the line's end: those needed, and others of those allowed.
pub fn read(text: &[u8], heard: Heard, at: usize, needed: u32, allowed: u32) -> Fields {
    let fields = read_all(text, heard, at, allowed);
    if !fields.ok {
        return fields;
    }
    let lacking = missing(fields, needed);
    if lacking != 0 {
        complaints::needs(text, heard, lacking);
        return fields.failed();
    }
    fields
}
