// The commands in brief.
use crate::words::Heard;
use crate::{fields, print};

pub fn help(text: &[u8], heard: Heard) {
    if fields::end(text, heard, heard.behind()) {
        all();
    }
}

fn all() {
    print::text(b"one command a line; named fields in any order; what is in [ ] may be left out\n");
    calls();
    rounds();
    rules();
    old();
    others();
}

fn calls() {
    print::text(b"  open 5+5 2+2\n");
    print::text(
        b"      opens the hall, once an evening: the team sizes of game 0, game 1 and so on, up to game 7\n",
    );
    print::text(b"  guest 12 [rating 1510.5] [deviation 80] [party 3] [role 2] [region EU]\n");
    print::text(
        b"      a guest's roster row, new or replaced; regions are NA EU Asia Other none\n",
    );
    print::text(b"  book key 7 guest 12 joined 30s [game 1] [rating 1510.5] [party 3] [role 2]\n");
    print::text(b"      game 0 where none is given; a guest waits for one game at a time\n");
    print::text(b"      rating, party and role are else those of the guest's row\n");
    print::text(b"  withdraw key 8 guest 12\n");
    print::text(
        b"      each booking and withdrawal has a key of its own; a resend with its key is safe\n",
    );
    print::text(
        b"      a key stands for the whole booking: with any field changed, be it by a new row, it clashes\n",
    );
    print::text(
        b"      a changed booking takes a new key; where the guest waits, withdraw first\n",
    );
}

fn rounds() {
    print::text(b"  greedy [game 1] at 120s\n");
    print::text(
        b"  beam [game 1] at 120s [width 8] [quality 1] [wait 0.5] [ping 0] [uncertainty 0.2]\n",
    );
    print::text(b"  full [game 1] at 120s\n");
    print::text(
        b"      a round seats guests who wait for its game, with its sizes; game 0 where none is given\n",
    );
    print::text(b"      a full round holds to the rules and ranks by the goals that are set\n");
    print::text(b"  dispatch at 120s\n");
    print::text(
        b"      a greedy round of the game whose turn it is: the next one that has a table's guests waiting\n",
    );
}

fn rules() {
    print::text(
        b"  rule sizes 2+2    rule role 2 [at-least 1] [at-most 2]    rule regions EU NA\n",
    );
    print::text(
        b"  rule parties      a table seats all of the roster with the same party, or none of them\n",
    );
    print::text(
        b"  rule friends      a table seats all who wait for its game with the same party, or none of them\n",
    );
    print::text(b"  rule latency      rules      rules none\n");
    print::text(
        b"  goal skill 1      goal latency 0.5      goal wait 0.3      goals      goals none\n",
    );
}

fn old() {
    print::text(b"  old entry guest 12 joined 30s [rating 1510.5] [party 3] [role 2]\n");
    print::text(b"  old queue at 120s     old greedy 5+5 at 120s     old clear\n");
    print::text(
        b"  old beam 5+5 at 120s [width 8] [quality 1] [wait 0.5] [ping 0] [uncertainty 0.2]\n",
    );
    print::text(
        b"      a queue that the old counter exported, entry by entry; a guest may stand in it twice\n",
    );
    print::text(b"      the searches remove nobody, and the hall is not touched\n");
}

fn others() {
    print::text(b"  queue at 120s     keys      totals      help      quit\n");
    print::text(b"      queue and totals go game by game\n");
    print::text(b"      times are 90s, 1.5s or 90000000000ns; # starts a comment\n");
}
