// Refusals as the numbers of document 01, 0 for none.
use base::Refusal;

// The number of a refusal.
pub fn number(refusal: Refusal) -> u64 {
    let n = refusal.number();
    n as u64
}

// The number of what a check answers.
pub fn answered(answer: Result<(), Refusal>) -> u64 {
    match answer {
        Ok(()) => 0,
        Err(refusal) => number(refusal),
    }
}
