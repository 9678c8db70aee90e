// The guests' roster rows, kept as the columns that the hall is lent.
use crate::counts;

// The first `rows` of each column.
#[derive(Clone, Copy)]
pub struct Roster {
    pub ids: [u64; 128],
    pub ratings: [f64; 128],
    pub deviations: [f64; 128],
    pub parties: [u64; 128],
    pub roles: [u32; 128],
    pub regions: [u8; 128],
    pub rows: usize,
}

// One guest's row.
#[derive(Clone, Copy)]
pub struct Row {
    pub guest: u64,
    pub rating: f64,
    pub deviation: f64,
    pub party: u64,
    pub role: u32,
    pub region: u8,
}

impl Roster {
    pub fn empty() -> Roster {
        Roster {
            ids: [0; 128],
            ratings: [0.0; 128],
            deviations: [0.0; 128],
            parties: [0; 128],
            roles: [0; 128],
            regions: [4; 128],
            rows: 0,
        }
    }

    // The guest's row, or the first free one.
    pub fn row_of(self, guest: u64) -> usize {
        let ids = self.ids;
        let n = counts::wholes(self.rows, &ids);
        roster::row_of(&ids[..n], guest)
    }

    pub fn has(self, guest: u64) -> bool {
        self.row_of(guest) < self.rows
    }

    // The roster's rating of a guest.
    pub fn rating_of(self, guest: u64) -> Option<f64> {
        let ids = self.ids;
        let ratings = self.ratings;
        let n = counts::wholes(self.rows, &ids);
        let m = counts::reals(self.rows, &ratings);
        roster::observation(&ids[..n], &ratings[..m], guest)
    }

    pub fn party_of(self, guest: u64) -> u64 {
        let ids = self.ids;
        let parties = self.parties;
        let n = counts::wholes(self.rows, &ids);
        let m = counts::wholes(self.rows, &parties);
        roster::party_of(&ids[..n], &parties[..m], guest)
    }

    pub fn role_of(self, guest: u64) -> u32 {
        let ids = self.ids;
        let roles = self.roles;
        let n = counts::wholes(self.rows, &ids);
        let m = counts::halves(self.rows, &roles);
        roster::role_of(&ids[..n], &roles[..m], guest)
    }

    // The row at a place below 128; a new one where the place is the first free one.
    fn with_row(self, at: usize, row: Row) -> Roster {
        let mut next = self;
        if at < 128 {
            next.ids[at] = row.guest;
            next.ratings[at] = row.rating;
            next.deviations[at] = row.deviation;
            next.parties[at] = row.party;
            next.roles[at] = row.role;
            next.regions[at] = row.region;
            if at == self.rows {
                next.rows = at + 1;
            }
        }
        next
    }

    // Is there no room for this guest's row?
    pub fn is_full_for(self, guest: u64) -> bool {
        128 <= self.row_of(guest)
    }

    // The guest's row, new or replaced.
    pub fn with(self, row: Row) -> Roster {
        let at = self.row_of(row.guest);
        self.with_row(at, row)
    }
}
