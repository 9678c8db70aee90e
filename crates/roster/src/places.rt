// What a column of floats says of each of some players, onto a sheet, as far as both go.
ghost use Rattle.std.specs.Prelude.{◌≡◌, map, length, take, is_some, unwrap_or};
ghost use Rattle.base.specs.Floats as Floats;
ghost use Rattle.base.specs.Sheets.{laid};
ghost use Rattle.roster.specs.Roster.{observe};

// Does it say something?
pub fn write_known(ids: &[u64], column: &[f64], players: &[u64], known: &mut [bool])
    ensures { known.new ≡ laid known.old 0 (take (length known.old) (map (λ p. is_some (observe ids.now column.now p)) players.now)) }
{
    for i in 0..players.len().min(known.len()) {
        known[i] = crate::observation(ids, column, players[i]).is_some();
    }
}

// What does it say, or 0.0?
pub fn write_values(ids: &[u64], column: &[f64], players: &[u64], values: &mut [f64])
    ensures { values.new ≡ laid values.old 0 (take (length values.old) (map (λ p. unwrap_or (observe ids.now column.now p) Floats.zero) players.now)) }
{
    for i in 0..players.len().min(values.len()) {
        values[i] = crate::observation(ids, column, players[i]).unwrap_or(0.0);
    }
}
