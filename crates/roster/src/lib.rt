// The roster, which stands for the Rust's World: columns that the caller lends.
#![tactic(auto)]

ghost use Rattle.std.specs.Prelude.{◌≡◌, true, [], map, ◌≤◌, ◌+◌, ◌*◌, eqb, length, take, drop};
ghost use Rattle.base.specs.Refusals.{outcome_of};
ghost use Rattle.std.specs.Prelude.{unwrap_or};
ghost use Rattle.base.specs.Floats as Floats;
ghost use Rattle.base.specs.Lists.{any, every, distinct};
ghost use Rattle.std.specs.Prelude.{is_some};
ghost use Rattle.base.specs.Sheets.{laid};
ghost use Rattle.roster.specs.Ascending.{ascends};
ghost use Rattle.roster.specs.Roster.{of_ratings, of_deviations, of_parties, of_roles, of_regions, of_rules, party_of, role_of, region_of, rules_check, too_long, is_region, columns_check, ratings_check, deviations_check, roster_check, row_of, observe};
ghost use Rattle.roster.specs.Rows.{found_rows, value_at};
ghost use Rattle.roster.specs.Steps.{lengths_check};

use base::Refusal;

// Rows by their ids, in a table.
mod table;

// What a column says of many players.
pub mod places;

// ---- are the ids all different?

// Each id against all later ones.
fn differ_pairwise(ids: &[u64]) -> bool
    ensures { result ≡ distinct ids.now }
{
    for i in 0..ids.len() {
        if base::is_among(&ids[i + 1..], ids[i]) {
            return false;
        }
    }
    true
}

// In one pass that runs to the end, since that is the quicker: is each id above the one before?
fn ascend(ids: &[u64]) -> bool
    ensures { result ≡ ascends ids.now }
{
    if ids.len() == 0 {
        return true;
    }
    let mut last = ids[0];
    let mut rising = true;
    for &id in &ids[1..] {
        rising &= last < id;
        last = id;
    }
    rising
}

// Do the first ids rise? Few that are in no order do so.
fn rise_at_first(ids: &[u64]) -> bool {
    ids.len() < 4 || (ids[0] < ids[1] && ids[1] < ids[2] && ids[2] < ids[3])
}

// Are the ids seen to differ by a glance and a pass, since they ascend?
fn differ_by_order(ids: &[u64]) -> bool
    ensures { result ≡ true → distinct ids.now ≡ true }
{
    rise_at_first(ids) && ascend(ids)
}

// Ascending ids differ, and that takes one pass; others go into a table, or are held against each other where they are too many for it.
pub fn all_different(ids: &[u64]) -> bool
    ensures { result ≡ distinct ids.now }
{
    if differ_by_order(ids) {
        return true;
    }
    if ids.len() <= 128 {
        return table::differ(ids);
    }
    differ_pairwise(ids)
}

// ---- refusals 1 and 2

// Is one of the lengths over 128?
fn any_too_long(lengths: &[usize]) -> bool
    ensures { result ≡ any too_long lengths.now }
{
    lengths.iter().any(|&n| 128 < n)
}

// Are the lengths all `rows`?
fn all_of_length(lengths: &[usize], rows: usize) -> bool
    ensures { result ≡ every (λ n. eqb n rows) lengths.now }
{
    lengths.iter().all(|&n| n == rows)
}

// Are these all region codes?
pub fn are_regions(codes: &[u8]) -> bool
    ensures { result ≡ every is_region codes.now }
{
    codes.iter().all(|&code| code <= 4)
}

// The checks of the lengths of the ids and of the other columns.
fn check_lengths(rows: usize, lengths: &[usize]) -> Result<(), Refusal>
    ensures { outcome_of result ≡ lengths_check rows lengths.now }
{
    if 128 < rows || any_too_long(lengths) {
        return Err(Refusal::OverLimit);
    }
    if !all_of_length(lengths, rows) {
        return Err(Refusal::BadRoster);
    }
    Ok(())
}

// The checks of the ids and of the lengths of the other columns.
pub fn check_columns(ids: &[u64], lengths: &[usize]) -> Result<(), Refusal>
    ensures { outcome_of result ≡ columns_check ids.now lengths.now [] }
{
    check_lengths(ids.len(), lengths)?;
    if !all_different(ids) {
        return Err(Refusal::BadRoster);
    }
    Ok(())
}

// The same with a column of regions, whose length is among `lengths`.
pub fn check_columns_with_regions(
    ids: &[u64],
    lengths: &[usize],
    regions: &[u8],
) -> Result<(), Refusal>
    ensures { outcome_of result ≡ columns_check ids.now lengths.now regions.now }
{
    check_columns(ids, lengths)?;
    if !are_regions(regions) {
        return Err(Refusal::BadRoster);
    }
    Ok(())
}

// A roster of ids and ratings.
pub fn check_ratings(ids: &[u64], ratings: &[f64]) -> Result<(), Refusal>
    ensures { outcome_of result ≡ ratings_check (of_ratings ids.now ratings.now) }
{
    check_columns(ids, &[ratings.len()])
}

// A roster of ids, ratings and deviations.
pub fn check_deviations(ids: &[u64], ratings: &[f64], deviations: &[f64]) -> Result<(), Refusal>
    ensures { outcome_of result ≡ deviations_check (of_deviations ids.now ratings.now deviations.now) }
{
    check_columns(ids, &[ratings.len(), deviations.len()])
}

// The columns that constraints read.
pub fn check_rules(
    ids: &[u64],
    ratings: &[f64],
    parties: &[u64],
    roles: &[u32],
    regions: &[u8],
) -> Result<(), Refusal>
    ensures { outcome_of result ≡ rules_check (of_rules ids.now ratings.now parties.now roles.now regions.now) }
{
    let lengths = [ratings.len(), parties.len(), roles.len(), regions.len()];
    check_columns_with_regions(ids, &lengths, regions)
}

// A whole roster.
pub fn check_roster(
    ids: &[u64],
    ratings: &[f64],
    deviations: &[f64],
    parties: &[u64],
    roles: &[u32],
    regions: &[u8],
) -> Result<(), Refusal>
    ensures { outcome_of result ≡ roster_check (record { ids = ids.now; ratings = ratings.now; deviations = deviations.now; parties = parties.now; roles = roles.now; regions = regions.now }) }
{
    let lengths = [
        ratings.len(),
        deviations.len(),
        parties.len(),
        roles.len(),
        regions.len(),
    ];
    check_columns_with_regions(ids, &lengths, regions)
}

// ---- the row of a player

// The player's first row, or the number of rows, one row a turn.
fn row_one_by_one(ids: &[u64], player: u64) -> usize
    ensures { result ≡ row_of player ids.now }
{
    ids.iter().position(|&id| id == player).unwrap_or(ids.len())
}

// The player's first row, or the number of rows. Four rows a turn, which is twice as quick as one.
pub fn row_of(ids: &[u64], player: u64) -> usize
    ensures { result ≡ row_of player ids.now }
{
    let fours = ids.len() / 4;
    for turn in 0..fours {
        let first = 4 * turn;
        if ids[first] == player {
            return first;
        }
        let second = first + 1;
        if ids[second] == player {
            return second;
        }
        let third = second + 1;
        if ids[third] == player {
            return third;
        }
        let fourth = third + 1;
        if ids[fourth] == player {
            return fourth;
        }
    }
    4 * fours + row_one_by_one(&ids[4 * fours..], player)
}

// ---- the row of a player where nobody has two rows

// The step, where the id is not above the player.
fn step_past(id: u64, player: u64, step: usize) -> usize
    ensures { result ≤ step }
{
    if player < id {
        return 0;
    }
    step
}

// The same of the id in a row, where there is such a row.
fn step_past_row(ids: &[u64], row: usize, player: u64, step: usize) -> usize
    ensures { result ≤ step }
{
    if ids.len() <= row {
        return 0;
    }
    step_past(ids[row], player, step)
}

// From a row on by up to three steps, one for each of the next three ids at this distance that is not above the player. All three are
// read whatever the first says, so that no branch has to be predicted.
fn three_steps(ids: &[u64], from: usize, player: u64, step: usize) -> usize
    requires { (from ≤ 128) × (step ≤ 64) }
    ensures { result ≤ from + 3 * step }
{
    let first = from + step;
    let second = first + step;
    let third = second + step;
    if ids.len() <= third {
        return from
            + step_past_row(ids, first, player, step)
            + step_past_row(ids, second, player, step)
            + step_past_row(ids, third, player, step);
    }
    from + step_past(ids[first], player, step)
        + step_past(ids[second], player, step)
        + step_past(ids[third], player, step)
}

// Where the player stands if the ids ascend. The caller looks there, so nothing rests on this but time.
fn guessed_row(ids: &[u64], player: u64) -> usize
    ensures { result ≤ 127 }
{
    let of_64 = step_past_row(ids, 64, player, 64);
    let of_16 = three_steps(ids, of_64, player, 16);
    let of_4 = three_steps(ids, of_16, player, 4);
    three_steps(ids, of_4, player, 1)
}

// The player's row, or the number of rows, where nobody has two.
fn row_by_guess(ids: &[u64], player: u64) -> usize
    requires { distinct ids.now ≡ true }
    ensures { result ≡ row_of player ids.now }
{
    let guess = guessed_row(ids, player);
    if guess < ids.len() && ids[guess] == player {
        return guess;
    }
    row_of(ids, player)
}

// Each player's row onto the sheet, as far as both go.
fn write_rows(ids: &[u64], players: &[u64], rows: &mut [usize])
    requires { distinct ids.now ≡ true }
    ensures { rows.new ≡ laid rows.old 0 (take (length rows.old) (map (λ p. row_of p ids.now) players.now)) }
{
    for i in 0..players.len().min(rows.len()) {
        rows[i] = row_by_guess(ids, players[i]);
    }
}

// The check of the columns, and where they pass each player's row onto the sheet: one check for many look-ups.
pub fn checked_rows(
    ids: &[u64],
    lengths: &[usize],
    players: &[u64],
    rows: &mut [usize],
) -> Result<(), Refusal>
    ensures result_value { outcome_of result ≡ columns_check ids.now lengths.now [] }
    ensures rows_after { rows.new ≡ found_rows (columns_check ids.now lengths.now []) ids.now players.now rows.old }
{
    check_lengths(ids.len(), lengths)?;
    if differ_by_order(ids) {
        write_rows(ids, players, rows);
        return Ok(());
    }
    if !table::find(ids, players, rows) {
        return Err(Refusal::BadRoster);
    }
    Ok(())
}

// ---- what a column says of a player

// What a column of floats says in this row.
pub fn observed_at(column: &[f64], row: usize) -> Option<f64>
    ensures { result ≡ value_at column.now row }
{
    if row < column.len() {
        return Some(column[row]);
    }
    None
}

// What a column says of the player.
fn told<T: Copy>(ids: &[u64], column: &[T], player: u64) -> Option<T>
    ensures { result ≡ observe ids.now column.now player }
{
    let row = row_of(ids, player);
    if ids.len() <= row || column.len() <= row {
        return None;
    }
    Some(column[row])
}

// What a column of floats says of the player.
pub fn observation(ids: &[u64], column: &[f64], player: u64) -> Option<f64>
    ensures { result ≡ observe ids.now column.now player }
{
    told(ids, column, player)
}

// The player's party, 0 where there is none.
pub fn party_of(ids: &[u64], parties: &[u64], player: u64) -> u64
    ensures { result ≡ party_of (of_parties ids.now parties.now) player }
{
    told(ids, parties, player).unwrap_or(0)
}

// The player's role, 0 where there is none.
pub fn role_of(ids: &[u64], roles: &[u32], player: u64) -> u32
    ensures { result ≡ role_of (of_roles ids.now roles.now) player }
{
    told(ids, roles, player).unwrap_or(0)
}

// The player's region, 4 where there is none.
pub fn region_of(ids: &[u64], regions: &[u8], player: u64) -> u8
    ensures { result ≡ region_of (of_regions ids.now regions.now) player }
{
    told(ids, regions, player).unwrap_or(4)
}
