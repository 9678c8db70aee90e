// Objective vectors, their weighted sum and Pareto dominance.
ghost use Rattle.std.specs.Prelude.{◌≡◌};
ghost use Rattle.objective.specs.Pareto.{scalarized, any_below, dominates_of, zeros, default_weights};

// Of all but the wait, more is better.
#[repr(C)]
#[derive(Clone, Copy)]
pub struct MatchObjectiveVector {
    pub skill: f64,
    pub role: f64,
    pub latency: f64,
    pub party: f64,
    pub wait: f64,
    pub utilization: f64,
}

#[repr(C)]
#[derive(Clone, Copy)]
pub struct ObjectiveWeights {
    pub skill: f64,
    pub role: f64,
    pub latency: f64,
    pub party: f64,
    pub wait: f64,
    pub utilization: f64,
}

impl ObjectiveWeights {
    pub const SKILL: f64 = 1.0;

    pub const ROLE: f64 = 0.5;

    pub const LATENCY: f64 = 0.3;

    pub const PARTY: f64 = 0.2;

    pub const WAIT: f64 = 0.8;

    pub const UTILIZATION: f64 = 0.0;

    // The default weights.
    pub fn default() -> ObjectiveWeights
        ensures { result ≡ default_weights }
    {
        ObjectiveWeights {
            skill: ObjectiveWeights::SKILL,
            role: ObjectiveWeights::ROLE,
            latency: ObjectiveWeights::LATENCY,
            party: ObjectiveWeights::PARTY,
            wait: ObjectiveWeights::WAIT,
            utilization: ObjectiveWeights::UTILIZATION,
        }
    }
}

// Is a float of the first below its counterpart of the second?
fn any_below(xs: [f64; 6], ys: [f64; 6]) -> bool
    ensures { result ≡ any_below xs ys }
{
    xs.iter().zip(ys.iter()).any(|(&x, &y)| x < y)
}

impl MatchObjectiveVector {
    // All zeros.
    pub fn default() -> MatchObjectiveVector
        ensures { result ≡ zeros }
    {
        MatchObjectiveVector {
            skill: 0.0,
            role: 0.0,
            latency: 0.0,
            party: 0.0,
            wait: 0.0,
            utilization: 0.0,
        }
    }

    // The weighted sum, the wait subtracted.
    pub fn scalarize(self, weights: ObjectiveWeights) -> f64
        ensures { result ≡ scalarized weights self }
    {
        weights.skill * self.skill
            + weights.role * self.role
            + weights.latency * self.latency
            + weights.party * self.party
            - weights.wait * self.wait
            + weights.utilization * self.utilization
    }

    // Is no coordinate worse than the other's, and one better? A lower wait is better.
    pub fn dominates(self, other: MatchObjectiveVector) -> bool
        ensures { result ≡ dominates_of self other }
    {
        let mine = [
            self.skill,
            self.role,
            self.latency,
            self.party,
            self.utilization,
            other.wait,
        ];
        let theirs = [
            other.skill,
            other.role,
            other.latency,
            other.party,
            other.utilization,
            self.wait,
        ];
        !any_below(mine, theirs) && any_below(theirs, mine)
    }
}
