// ExhaustiveGenerator: every choice of players from the queue.
ghost use Rattle.std.specs.Prelude.{◌≡◌, ◌+◌, ◌*◌, ◌≤◌, ◌<◌, length, take, drop};
ghost use Rattle.queue.specs.Queue.{queue_of};
ghost use Rattle.matchmaker.specs.Quality.{match_of, seated};
ghost use Rattle.seating.specs.Seating.{seats_of, leaving};
ghost use Rattle.candidate.specs.Choices as Choices;
ghost use Rattle.candidate.specs.Exhaustive.{exhaustive_rule};
ghost use Rattle.candidate.specs.Walks.{seated_next, through, listing, listed};

use base::Refusal;
use matchmaker::ProposedMatch;
use queue::Queue;
use seating::TeamComposition;

// Where the next match goes: its players from `at` on, its quality at `done`.
#[derive(Clone, Copy)]
pub struct Marks {
    pub at: usize,
    pub done: usize,
}

// How many choices of k of n there are.
fn ways(n: usize, k: usize) -> usize
    requires { n ≤ 20 }
    ensures { result ≡ Choices.ways n k }
{
    if k == 0 {
        return 1;
    }
    if n < k {
        return 0;
    }
    ways(n - 1, k - 1) + ways(n - 1, k)
}

// One more player: in team A while it is short, then in B.
pub fn seat(sizes: TeamComposition, teams: ProposedMatch, player: u64) -> ProposedMatch
    ensures { match_of result ≡ seated_next sizes (match_of teams) player }
{
    let a = teams.a;
    let b = teams.b;
    if a.held() < sizes.a {
        return ProposedMatch {
            a: seating::joined(a, player),
            b,
        };
    }
    ProposedMatch {
        a: a,
        b: seating::joined(b, player),
    }
}

// Every choice of `left` of the `rest` players from `from` on, each seated behind those of `teams`, written one after another.
// It takes the first player and then leaves it.
fn combinations(
    sizes: TeamComposition,
    queued: &[u64; 64],
    from: usize,
    rest: usize,
    left: usize,
    teams: ProposedMatch,
    marks: Marks,
    players: &mut [u64],
    qualities: &mut [f64],
) -> Marks
    requires a_bound { (sizes.a ≤ 8) × ((sizes.b ≤ 8) × ((from + rest ≤ 64) × (length (seated (match_of teams)) + left ≡ seats_of sizes))) }
    requires queued_len { length queued.now ≡ 64 }
    requires sizes_in_bounds { marks.at + Choices.ways rest left * seats_of sizes ≤ length players.old }
    requires left_in_bounds { marks.done + Choices.ways rest left ≤ length qualities.old }
    ensures { listing players.new qualities.new result ≡ through sizes listed (match_of teams) left (take rest (drop from queued.now)) (listing players.old qualities.old marks) }
{
    if left == 0 {
        let at = marks.at;
        let done = marks.done;
        seating::write_match(teams, &mut players[at..]);
        qualities[done] = 0.0;
        return Marks {
            at: at + teams.seats(),
            done: done + 1,
        };
    }
    if rest < left {
        return marks;
    }
    let with = seat(sizes, teams, queued[from]);
    let mid = combinations(
        sizes,
        queued,
        from + 1,
        rest - 1,
        left - 1,
        with,
        marks,
        players,
        qualities,
    );
    combinations(
        sizes,
        queued,
        from + 1,
        rest - 1,
        left,
        teams,
        mid,
        players,
        qualities,
    )
}

// The generator has nothing to set.
#[derive(Clone, Copy)]
pub struct ExhaustiveGenerator {}

impl ExhaustiveGenerator {
    // Every choice of A + B players of the queue, written to the sheets with quality 0.0.
    pub fn generate_candidates(
        queue: Queue,
        sizes: TeamComposition,
        players: &mut [u64],
        qualities: &mut [f64],
    ) -> Result<usize, Refusal>
        ensures { leaving result players.exit.now qualities.new ≡ exhaustive_rule sizes (queue_of queue) (record { players = players.entry.now; qualities = qualities.old }) }
    {
        let n = queue.len;
        if 64 < n {
            return Err(Refusal::OverLimit);
        }
        if sizes.is_over() {
            return Err(Refusal::OverLimit);
        }
        if queue.has_joined_over() {
            return Err(Refusal::Clock);
        }
        if 20 < n {
            return Err(Refusal::TooWide);
        }
        let seats = sizes.a + sizes.b;
        let many = ways(n, seats);
        if players.len() < many * seats {
            return Err(Refusal::ShortSheet);
        }
        if qualities.len() < many {
            return Err(Refusal::ShortSheet);
        }
        let queued = queue.players();
        let start = Marks { at: 0, done: 0 };
        combinations(
            sizes,
            &queued,
            0,
            n,
            seats,
            seating::nobody(),
            start,
            players,
            qualities,
        );
        Ok(many)
    }
}
