// The sizes that the teams must have.
ghost use Rattle.std.specs.Prelude.{◌≡◌};
ghost use Rattle.base.specs.Refusals.{outcome_of};
ghost use Rattle.matchmaker.specs.Quality.{match_of};
ghost use Rattle.constraint.specs.Constraints.{sizes_hold};
ghost use Rattle.constraint.specs.Refusing.{both_sizes_over, sizes_rule};

use base::Refusal;
use matchmaker::ProposedMatch;

#[repr(C)]
#[derive(Clone, Copy)]
pub struct TeamSizeConstraint {
    pub a: usize,
    pub b: usize,
}

impl TeamSizeConstraint {
    // Is a size over 8?
    pub(crate) fn is_over(self) -> bool
        ensures { result ≡ both_sizes_over self }
    {
        8 < self.a || 8 < self.b
    }

    // Do the stated lengths equal the sizes?
    pub(crate) fn holds(self, proposed: ProposedMatch) -> bool
        ensures { result ≡ sizes_hold self (match_of proposed) }
    {
        proposed.a.len == self.a && proposed.b.len == self.b
    }

    pub fn is_satisfied(self, proposed: ProposedMatch) -> Result<bool, Refusal>
        ensures { outcome_of result ≡ sizes_rule self (match_of proposed) }
    {
        if proposed.is_overfull() || self.is_over() {
            return Err(Refusal::OverLimit);
        }
        Ok(self.holds(proposed))
    }
}
