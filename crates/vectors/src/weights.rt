// Weights of a match's score, as quality wait ping uncertainty.
use crate::words;
use objective::score;
use score::MatchObjective;
use words::Cursor;

#[derive(Clone, Copy)]
pub struct ReadWeights {
    pub weights: MatchObjective,
    pub cursor: Cursor,
}

pub fn read(text: &[u8], from: Cursor) -> ReadWeights {
    let quality = words::next(text, from);
    let wait = words::next(text, quality.cursor);
    let ping = words::next(text, wait.cursor);
    let uncertainty = words::next(text, ping.cursor);
    let weights = MatchObjective {
        quality: base::from_bits(quality.value),
        wait: base::from_bits(wait.value),
        ping: base::from_bits(ping.value),
        uncertainty: base::from_bits(uncertainty.value),
    };
    let cursor = uncertainty.cursor;
    ReadWeights { weights, cursor }
}
