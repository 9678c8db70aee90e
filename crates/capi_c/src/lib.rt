// The static library that C and Rust programs link: the functions of `capi` under their names, with the C calling convention.
#![tactic(auto)]

// The queue and times.
mod queues;

// The roster's checks.
mod rosters;

// Quality, scores, soft objectives and objective vectors.
mod scores;

// Constraints and policy.
mod rules;

// The four selections.
mod selections;

// Searches and generators.
mod searches;

// The best choice of a full round.
mod rounds;

// The hall's calls.
mod halls;
