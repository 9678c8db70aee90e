// Lines as they arrive. What is there is read and each whole line served at once, so that staff can type.
use crate::desk::Desk;
use crate::{commands, complaints, counts, print};
use std::io::Read;

// The line so far, of which 256 bytes are kept.
#[derive(Clone, Copy)]
pub struct Line {
    pub bytes: [u8; 256],
    pub len: usize,
    pub long: bool,
    pub number: u64,
}

#[derive(Clone, Copy)]
pub struct Session {
    pub desk: Desk,
    pub line: Line,
    // Is each line shown before its answer?
    pub shown: bool,
    // False where the input has ended.
    pub more: bool,
}

impl Line {
    fn first() -> Line {
        Line {
            bytes: [0; 256],
            len: 0,
            long: false,
            number: 1,
        }
    }

    // One byte more. Tabs and carriage returns are blanks.
    fn with(self, b: u8) -> Line {
        let n = self.len;
        let mut next = self;
        if n < 256 {
            next.bytes[n] = plain(b);
            next.len = n + 1;
            return next;
        }
        next.long = true;
        next
    }

    // The line after this one.
    fn next(self) -> Line {
        let mut next = self;
        next.len = 0;
        next.long = false;
        next.number = std::num::wrapping_add_u64(self.number, 1);
        next
    }
}

fn plain(b: u8) -> u8 {
    match b {
        b'\t' | b'\r' => b' ',
        _ => b,
    }
}

// A line as it was read, so that a file's answers can be told apart. Staff see what they type.
fn show(shown: bool, text: &[u8]) {
    if shown {
        print::text(b"> ");
        print::text(text);
        print::text(b"\n");
    }
}

// A whole line.
fn serve(desk: Desk, line: Line, shown: bool) -> Desk {
    if desk.closed {
        return desk;
    }
    if line.long {
        complaints::too_long(line.number);
        return desk;
    }
    let bytes = line.bytes;
    let n = counts::bytes(line.len, &bytes);
    show(shown, &bytes[..n]);
    commands::serve(desk, &bytes[..n], line.number)
}

// Every line that ends in this part of the input.
fn serve_lines(part: &[u8], session: Session) -> Session {
    let mut desk = session.desk;
    let mut line = session.line;
    let shown = session.shown;
    for &b in part {
        if b == b'\n' {
            desk = serve(desk, line, shown);
            line = line.next();
        } else {
            line = line.with(b);
        }
    }
    Session {
        desk,
        line,
        shown,
        more: !desk.closed,
    }
}

// The input has ended, where a line may be under way.
fn ended(session: Session) -> Session {
    let desk = session.desk;
    let line = session.line;
    if !desk.closed && 0 < line.len {
        complaints::cut_short(line.number);
    }
    Session {
        desk,
        line,
        shown: session.shown,
        more: false,
    }
}

// Reads once. A read that fails ends the input.
fn read_some<R: Read>(input: &mut R, session: Session) -> std::io::Result<Session> {
    let mut part = io::buffer();
    match input.read(&mut part) {
        Ok(n) => {
            if n == 0 {
                return Ok(ended(session));
            }
            Ok(serve_lines(&part[..n], session))
        }
        Err(error) => {
            ended(session);
            Err(error)
        }
    }
}

fn start(shown: bool) -> Session {
    Session {
        desk: Desk::fresh(),
        line: Line::first(),
        shown,
        more: true,
    }
}

// All of the input. A proved loop has to end, and nothing says that the input does: it counts up to a number that no run reaches.
pub fn serve_all<R: Read>(input: &mut R, shown: bool) -> std::io::Result<()> {
    let mut session = start(shown);
    for _ in 0..u64::MAX {
        session = read_some(input, session)?;
        if !session.more {
            break;
        }
    }
    Ok(())
}
