// Objective vectors, as skill role latency party wait utilization.
use crate::words;
use objective::pareto;
use pareto::{MatchObjectiveVector, ObjectiveWeights};
use words::Cursor;

#[derive(Clone, Copy)]
pub struct ReadVector {
    pub vector: MatchObjectiveVector,
    pub cursor: Cursor,
}

pub fn vector(text: &[u8], from: Cursor) -> ReadVector {
    let skill = words::next(text, from);
    let role = words::next(text, skill.cursor);
    let latency = words::next(text, role.cursor);
    let party = words::next(text, latency.cursor);
    let wait = words::next(text, party.cursor);
    let utilization = words::next(text, wait.cursor);
    let vector = MatchObjectiveVector {
        skill: base::from_bits(skill.value),
        role: base::from_bits(role.value),
        latency: base::from_bits(latency.value),
        party: base::from_bits(party.value),
        wait: base::from_bits(wait.value),
        utilization: base::from_bits(utilization.value),
    };
    let cursor = utilization.cursor;
    ReadVector { vector, cursor }
}

// Weights are read as a vector.
pub fn as_weights(vector: MatchObjectiveVector) -> ObjectiveWeights {
    ObjectiveWeights {
        skill: vector.skill,
        role: vector.role,
        latency: vector.latency,
        party: vector.party,
        wait: vector.wait,
        utilization: vector.utilization,
    }
}
