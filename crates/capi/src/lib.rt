// What C and Rust programs link, as functions of a library: numbers, slices and #[repr(C)] structs by value. Every function promises what the
// crates below it promise, in numbers: a refusal is document 01's number, 0 where there is none. They are thin; the hall's calls stand here whole.
// The crate `capi_c` exports them.
#![tactic(auto)]

// The queue and times.
pub mod queues;

// The roster's checks.
pub mod rosters;

// Quality, scores, soft objectives and objective vectors.
pub mod scores;

// Constraints and policy.
pub mod rules;

// The four selections.
pub mod selections;

// Searches and generators.
pub mod searches;

// The best choice of a full round.
pub mod rounds;

// The hall's calls.
pub mod halls;
