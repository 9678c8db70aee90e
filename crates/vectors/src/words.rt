// Words in hex, one space between. A read that fails gives a cursor that is not ok, and it stays so: whoever reads a line asks
// once, at its end.
ghost use Rattle.std.specs.Prelude.{◌<◌, ◌≤◌, length};

// The place after the last word that was read. It is not ok where a word was missing, malformed or not as expected.
#[derive(Clone, Copy)]
pub struct Cursor {
    pub at: usize,
    pub ok: bool,
}

#[derive(Clone, Copy)]
pub struct Word {
    pub value: u64,
    pub cursor: Cursor,
}

#[derive(Clone, Copy)]
pub struct Truth {
    pub value: bool,
    pub cursor: Cursor,
}

// The byte at `at`, a line end where there is none.
fn byte(text: &[u8], at: usize) -> u8 {
    if at < text.len() {
        return text[at];
    }
    b'\n'
}

pub fn is_comment(text: &[u8], at: usize) -> bool {
    byte(text, at) == b'#'
}

pub fn ends_line(text: &[u8], at: usize) -> bool {
    byte(text, at) == b'\n'
}

// Does a word end before `at`?
fn ends_word(text: &[u8], at: usize) -> bool {
    if byte(text, at) == b' ' {
        return true;
    }
    ends_line(text, at)
}

// The start of the line after `from`, or the end of the text.
pub fn next_line(text: &[u8], from: usize) -> usize
    requires { from < length text.now }
    ensures { (from < result) × (result ≤ length text.now) }
{
    for at in from..text.len() {
        if text[at] == b'\n' {
            return at + 1;
        }
    }
    text.len()
}

fn wide(b: u8) -> u64
    ensures { result ≤ b }
{
    b as u64
}

// The value of a hex digit, 16 for any other byte.
fn digit(b: u8) -> u64
    ensures { result ≤ 16 }
{
    match b {
        b'0'..=b'9' => wide(b - b'0'),
        b'a'..=b'f' => wide(b - b'a' + 10),
        _ => 16,
    }
}

// The word from `from` to `at`.
fn word_of(text: &[u8], from: usize, at: usize, value: u64) -> Word {
    let some = from < at;
    let ends = ends_word(text, at);
    Word {
        value,
        cursor: Cursor {
            at,
            ok: some && ends,
        },
    }
}

// The word that starts at `from`, of at least one digit and below 2^64.
pub fn number(text: &[u8], from: usize) -> Word {
    let mut value: u64 = 0;
    for at in from..text.len() {
        let d = digit(text[at]);
        if 15 < d {
            return word_of(text, from, at, value);
        }
        // From 2^60 on one digit more does not fit.
        if 1152921504606846975 < value {
            return word_of(text, at, at, 0);
        }
        value = value * 16 + d;
    }
    word_of(text, from, from.max(text.len()), value)
}

fn nothing(at: usize) -> Word {
    Word {
        value: 0,
        cursor: Cursor { at: at, ok: false },
    }
}

// The next word, after one space.
pub fn next(text: &[u8], cursor: Cursor) -> Word {
    let at = cursor.at;
    if !cursor.ok {
        return nothing(at);
    }
    if text.len() <= at {
        return nothing(at);
    }
    if text[at] != b' ' {
        return nothing(at);
    }
    number(text, at + 1)
}

// The cursor, not ok unless `ok`.
pub fn checked(cursor: Cursor, ok: bool) -> Cursor {
    let at = cursor.at;
    if !ok {
        return Cursor { at: at, ok: false };
    }
    cursor
}

// Past the next word, which has to be `value`.
pub fn expect(text: &[u8], cursor: Cursor, value: u64) -> Cursor {
    let read = next(text, cursor);
    let same = read.value == value;
    checked(read.cursor, same)
}

// Past the next two words, which have to be `a` and `b`.
pub fn expect_both(text: &[u8], cursor: Cursor, a: u64, b: u64) -> Cursor {
    let first = expect(text, cursor, a);
    expect(text, first, b)
}

// The next word as a truth, which has to be 0 or 1.
pub fn next_truth(text: &[u8], cursor: Cursor) -> Truth {
    let read = next(text, cursor);
    let known = read.value < 2;
    let end = checked(read.cursor, known);
    Truth {
        value: read.value == 1,
        cursor: end,
    }
}

// The word as a `u32`, whose upper half is left out.
pub fn low_half(value: u64) -> u32 {
    (value % 4294967296) as u32
}

// The word as a `u8`, of which all but the last byte is left out.
pub fn low_byte(value: u64) -> u8 {
    (value % 256) as u8
}
