// Words of a line, with blanks between. From a word that starts with # on, the line is a comment.
ghost use Rattle.std.specs.Prelude.{◌≤◌, length};

// The bytes of the line from `from` to before `to`. An empty word is the line's end.
#[derive(Clone, Copy)]
pub struct Word {
    pub from: usize,
    pub to: usize,
}

// The place of the first byte from `from` on that is no blank, or the line's end.
fn past_blanks(text: &[u8], from: usize) -> usize
    ensures { result ≤ length text.now }
{
    for at in from..text.len() {
        if text[at] != b' ' {
            return at;
        }
    }
    text.len()
}

// The place of the first such byte from `from` on, or the text's end.
pub fn place_of(text: &[u8], from: usize, byte: u8) -> usize {
    for at in from..text.len() {
        if text[at] == byte {
            return at;
        }
    }
    text.len()
}

// The place of the first blank from `from` on, or the line's end.
fn word_end(text: &[u8], from: usize) -> usize {
    place_of(text, from, b' ')
}

// The first word from `from` on.
pub fn next(text: &[u8], from: usize) -> Word {
    let start = past_blanks(text, from);
    if is_comment(text, start) {
        return Word {
            from: start,
            to: start,
        };
    }
    Word {
        from: start,
        to: word_end(text, start),
    }
}

fn is_comment(text: &[u8], at: usize) -> bool {
    if at < text.len() {
        return text[at] == b'#';
    }
    false
}

// The line's number, and its first word: the command.
#[derive(Clone, Copy)]
pub struct Heard {
    pub number: u64,
    pub command: Word,
}

impl Heard {
    // The place behind the command.
    pub fn behind(self) -> usize {
        let command = self.command;
        command.to
    }
}

impl Word {
    // Is it the line's end?
    pub fn is_end(self) -> bool {
        self.to <= self.from
    }
}

// The bytes from `from` to before `to`, none where these are no places of the text.
pub fn part(text: &[u8], from: usize, to: usize) -> &[u8] {
    if to < from {
        return &text[..0];
    }
    if text.len() < to {
        return &text[..0];
    }
    &text[from..to]
}

// The bytes of a word.
pub fn bytes_of(text: &[u8], word: Word) -> &[u8] {
    let from = word.from;
    let to = word.to;
    part(text, from, to)
}
