// The four selections, exported.
ghost use Rattle.std.specs.Prelude.{◌≡◌};
ghost use Rattle.roster.specs.Roster.{of_ratings};
ghost use Rattle.selection.specs.Selection.{selected_of};
ghost use Rattle.capi.specs.Selections.{SelectNumbers, greedy_numbers, threshold_numbers, lexicographic_numbers, weighted_numbers};

use crate::scores::SoftObjectives;
use base::Refusal;
use matchmaker::ProposedMatch;
use objective::pareto::ObjectiveWeights;

// The first `len` candidates.
#[repr(C)]
#[derive(Clone, Copy)]
pub struct Candidates {
    pub items: [ProposedMatch; 64],
    pub len: usize,
}

// The first `len` places; what stands behind them is free.
#[repr(C)]
#[derive(Clone, Copy)]
pub struct Selected {
    pub places: [usize; 64],
    pub len: usize,
    pub refusal: u8,
}

// A refusal, and no place.
fn refused(refusal: u8) -> Selected
    ensures { (result.len ≡ 0) × (result.refusal ≡ refusal) }
{
    Selected {
        places: [0; 64],
        len: 0,
        refusal,
    }
}

fn selected_numbers(selected: selection::Selected) -> Selected
    ensures { SelectNumbers (selected_of selected).places result }
{
    let places = selected.places;
    let answer = selected.answer;
    match answer {
        Err(refusal) => refused(refusal.number()),
        Ok(()) => Selected {
            places,
            len: base::at_most(selected.count, 64),
            refusal: 0,
        },
    }
}

pub fn yilgashe_select_greedy(
    objectives: SoftObjectives,
    candidates: Candidates,
    ids: &[u64],
    ratings: &[f64],
) -> Selected
    ensures { SelectNumbers (greedy_numbers (of_ratings ids.now ratings.now) objectives candidates) result }
{
    if objectives.has_no_kind() {
        return refused(1);
    }
    let softs = objectives.objectives();
    let items = candidates.items;
    let count = objectives.len;
    let n = candidates.len;
    selected_numbers(selection::greedy::select(softs, count, items, n, ids, ratings))
}

pub fn yilgashe_select_threshold(
    minimum: f64,
    objectives: SoftObjectives,
    candidates: Candidates,
    ids: &[u64],
    ratings: &[f64],
) -> Selected
    ensures { SelectNumbers (threshold_numbers (of_ratings ids.now ratings.now) minimum objectives candidates) result }
{
    if objectives.has_no_kind() {
        return refused(1);
    }
    let softs = objectives.objectives();
    let items = candidates.items;
    let count = objectives.len;
    let n = candidates.len;
    selected_numbers(selection::threshold::select(minimum, softs, count, items, n, ids, ratings))
}

pub fn yilgashe_select_lexicographic(
    objectives: SoftObjectives,
    candidates: Candidates,
    ids: &[u64],
    ratings: &[f64],
) -> Selected
    ensures { SelectNumbers (lexicographic_numbers (of_ratings ids.now ratings.now) objectives candidates) result }
{
    if objectives.has_no_kind() {
        return refused(1);
    }
    let softs = objectives.objectives();
    let items = candidates.items;
    let count = objectives.len;
    let n = candidates.len;
    selected_numbers(selection::lexicographic::select(softs, count, items, n, ids, ratings))
}

pub fn yilgashe_select_weighted(
    weights: ObjectiveWeights,
    candidates: Candidates,
    ids: &[u64],
    ratings: &[f64],
) -> Selected
    ensures { SelectNumbers (weighted_numbers (of_ratings ids.now ratings.now) weights candidates) result }
{
    let items = candidates.items;
    let n = candidates.len;
    selected_numbers(selection::weighted::select(weights, items, n, ids, ratings))
}
