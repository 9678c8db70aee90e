// Times in nanoseconds (time.rs).
ghost use Rattle.std.specs.Prelude.{◌≡◌};
ghost use Rattle.base.specs.Lists.{any};
ghost use Rattle.base.specs.Refusals.{outcome_of};
ghost use Rattle.queue.specs.Time.{time_over, since, seconds_of, duration_rule, seconds_rule};

use base::Refusal;

// Is this time above 2^53 ns?
pub fn is_over(t: u64) -> bool
    ensures { result ≡ time_over t }
{
    9007199254740992 < t
}

// Is one of these times above 2^53? It runs to the end, since that is the quicker.
pub fn any_over(times: &[u64]) -> bool
    ensures { result ≡ any time_over times.now }
{
    let mut found = false;
    for t in times {
        found |= is_over(*t);
    }
    found
}

// From `earlier` to `later`, 0 where that is negative.
pub fn elapsed(later: u64, earlier: u64) -> u64
    ensures { result ≡ since later earlier }
{
    later.saturating_sub(earlier)
}

// Nanoseconds in seconds.
#[tactic(auto, unfolding(crate::specs::Time::seconds_of))]
pub fn in_seconds(nanos: u64) -> f64
    ensures { result ≡ seconds_of nanos }
{
    std::num::nearest_u64_to_f64(nanos) / 1000000000.0
}

// Refuses with 4 where a time is above 2^53.
pub fn duration_since(later: u64, earlier: u64) -> Result<u64, Refusal>
    ensures { outcome_of result ≡ duration_rule later earlier }
{
    if is_over(later) || is_over(earlier) {
        return Err(Refusal::Clock);
    }
    Ok(elapsed(later, earlier))
}

// Refuses with 4 where the time is above 2^53.
pub fn as_secs_f64(nanos: u64) -> Result<f64, Refusal>
    ensures { outcome_of result ≡ seconds_rule nanos }
{
    if is_over(nanos) {
        return Err(Refusal::Clock);
    }
    Ok(in_seconds(nanos))
}
