// Rows by their ids. One pass over the ids tells whether they all differ, and a player's row is then found by a look or two.
//
// Each bucket has the last row that fell into it, and each row the one before it in its bucket. Both are counted from 1: 0 is none.
ghost use Rattle.std.specs.Prelude.{◌≡◌, true, cond, map, ◌≤◌, ◌<◌, ◌+◌, length, take, get_or};
ghost use Rattle.base.specs.Lists.{distinct};
ghost use Rattle.base.specs.Sheets.{laid};
ghost use Rattle.roster.specs.Roster.{row_of};
ghost use Rattle.roster.specs.Steps.{bucket_of, last_of, last_in, Chained, Noted};

fn wide(x: u8) -> usize
    ensures { result ≡ x }
{
    x as usize
}

// The bucket of an id. Both halves count, since some number their guests by time or place in the upper one.
fn bucket(id: u64) -> usize
    ensures { (result ≡ bucket_of id) × (result < 1024) }
{
    ((id % 1024 + id / 0x1_0000_0000 % 1024) % 1024) as usize
}

// The row falls into its bucket. Says which was the last there before it.
fn note(ids: &[u64], row: usize, last: &mut [u8; 1024], before: &mut [u8; 128]) -> usize
    requires row_in_bounds { (row < length ids.now) × (length ids.now ≤ 128) }
    requires noted { Noted ids.now row last.old before.old }
    ensures value { (result ≡ last_in (bucket_of (get_or ids.now row 0)) ids.now row) × (result ≤ row) }
    ensures noted_2 { Noted ids.now (row + 1) last.new before.new }
{
    let at = bucket(ids[row]);
    let earlier = last[at];
    before[row] = earlier;
    last[at] = (row + 1) as u8;
    wide(earlier)
}

// From the last row of its bucket down: the last row that has the id.
fn last_of(ids: &[u64], before: &[u8; 128], from: usize, id: u64) -> usize
    requires from_in_bounds { (from ≤ length ids.now) × (length ids.now ≤ 128) }
    requires before_len { (length before.now ≡ 128) × Chained ids.now from before.now }
    requires from_value { from ≡ last_in (bucket_of id) ids.now from }
    ensures { result ≡ last_of id ids.now from }
{
    let mut k = from;
    // No plain count: each turn goes on to the row that the chain names.
    while 0 < k {
        let row = k - 1;
        if ids[row] == id {
            return k;
        }
        k = wide(before[row]);
    }
    0
}

// ---- are the ids all different?

// The ids above a row differ: do they with those up to `to`?
fn still_differ(ids: &[u64], before: &[u8; 128], from: usize, to: usize) -> bool
    requires from_le_to { (from ≤ to) × ((to ≤ length ids.now) × (length ids.now ≤ 128)) }
    requires before_len { (length before.now ≡ 128) × Chained ids.now to before.now }
    requires ids_value { distinct (take from ids.now) ≡ true }
    ensures { result ≡ distinct (take to ids.now) }
{
    for i in from..to {
        if 0 < last_of(ids, before, wide(before[i]), ids[i]) {
            return false;
        }
    }
    true
}

// The ids above a row differ: do they with the next four? These are looked at again only where one fell into a bucket in use.
fn note_four(ids: &[u64], row: usize, last: &mut [u8; 1024], before: &mut [u8; 128]) -> bool
    requires row_in_bounds { (row + 3 < length ids.now) × (length ids.now ≤ 128) }
    requires noted { Noted ids.now row last.old before.old }
    requires ids_value { distinct (take row ids.now) ≡ true }
    ensures value { result ≡ distinct (take (row + 4) ids.now) }
    ensures noted_2 { Noted ids.now (row + 4) last.new before.new }
{
    let second = row + 1;
    let third = second + 1;
    let fourth = third + 1;
    let of_first = note(ids, row, last, before);
    let of_second = note(ids, second, last, before);
    let of_third = note(ids, third, last, before);
    let of_fourth = note(ids, fourth, last, before);
    if of_first + of_second + of_third + of_fourth == 0 {
        return true;
    }
    still_differ(ids, before, row, row + 4)
}

// The ids above a row differ: do they all?
fn note_from(ids: &[u64], from: usize, last: &mut [u8; 1024], before: &mut [u8; 128]) -> bool
    requires from_in_bounds { (from ≤ length ids.now) × (length ids.now ≤ 128) }
    requires noted { Noted ids.now from last.old before.old }
    requires ids_value { distinct (take from ids.now) ≡ true }
    ensures value { result ≡ distinct ids.now }
    ensures noted_2 { result ≡ true → Noted ids.now (length ids.now) last.new before.new }
{
    for i in from..ids.len() {
        let earlier = note(ids, i, last, before);
        if 0 < last_of(ids, before, earlier, ids[i]) {
            return false;
        }
    }
    true
}

// Every row into an empty table, four a turn, as long as the ids differ: do they all?
fn note_all(ids: &[u64], last: &mut [u8; 1024], before: &mut [u8; 128]) -> bool
    requires ids_len_bound { length ids.now ≤ 128 }
    requires noted { Noted ids.now 0 last.old before.old }
    ensures value { result ≡ distinct ids.now }
    ensures noted_2 { result ≡ true → Noted ids.now (length ids.now) last.new before.new }
{
    let fours = ids.len() / 4;
    for turn in 0..fours {
        if !note_four(ids, 4 * turn, last, before) {
            return false;
        }
    }
    note_from(ids, 4 * fours, last, before)
}

// Do all ids differ?
pub(crate) fn differ(ids: &[u64]) -> bool
    requires { length ids.now ≤ 128 }
    ensures { result ≡ distinct ids.now }
{
    let mut last = [0; 1024];
    let mut before = [0; 128];
    note_all(ids, &mut last, &mut before)
}

// ---- the row of a player where nobody has two rows

// The player's row, or the number of rows.
fn row_in(ids: &[u64], last: &[u8; 1024], before: &[u8; 128], player: u64) -> usize
    requires ids_len_bound { length ids.now ≤ 128 }
    requires ids_value { distinct ids.now ≡ true }
    requires noted { Noted ids.now (length ids.now) last.now before.now }
    ensures { result ≡ row_of player ids.now }
{
    let at = bucket(player);
    let k = last_of(ids, before, wide(last[at]), player);
    if k == 0 {
        return ids.len();
    }
    k - 1
}

// Each player's row onto the sheet, as far as both go.
fn write_rows(
    ids: &[u64],
    last: &[u8; 1024],
    before: &[u8; 128],
    players: &[u64],
    rows: &mut [usize],
)
    requires ids_len_bound { length ids.now ≤ 128 }
    requires ids_value { distinct ids.now ≡ true }
    requires noted { Noted ids.now (length ids.now) last.now before.now }
    ensures { rows.new ≡ laid rows.old 0 (take (length rows.old) (map (λ p. row_of p ids.now) players.now)) }
{
    for i in 0..players.len().min(rows.len()) {
        rows[i] = row_in(ids, last, before, players[i]);
    }
}

// Do all ids differ? Where they do, each player's row onto the sheet.
pub(crate) fn find(ids: &[u64], players: &[u64], rows: &mut [usize]) -> bool
    requires { length ids.now ≤ 128 }
    ensures value { result ≡ distinct ids.now }
    ensures rows_after { rows.new ≡ cond result (laid rows.old 0 (take (length rows.old) (map (λ p. row_of p ids.now) players.now))) rows.old }
{
    let mut last = [0; 1024];
    let mut before = [0; 128];
    if !note_all(ids, &mut last, &mut before) {
        return false;
    }
    write_rows(ids, &last, &before, players, rows);
    true
}
