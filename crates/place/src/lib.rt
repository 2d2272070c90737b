// The place around a centre: the perfect subgraph in the centre's ball that contains every other.
#![tactic(auto)]

ghost use Rattle.std.specs.Prelude.{◌≡◌};
ghost use Rattle.table.specs.Reply.{no_counts};

use file_format::Refusal;
use table::{Counts, Rest};

pub mod parts;

// Why a call has no place to show: the refusal, and the four counts, which are the ball's where there is no place around
// the centre, and 0 where nothing was searched.
#[derive(Clone, Copy)]
pub struct NoPlace {
    pub refusal: Refusal,
    pub counts: Counts,
}

impl From<Refusal> for NoPlace {
    ghost from_gives = { λ x e. e ≡ record { refusal = x; counts = no_counts } };

    fn from(refusal: Refusal) -> NoPlace {
        NoPlace {
            refusal,
            counts: Counts {
                started: 0,
                kept: 0,
                struck: 0,
                rounds: 0,
            },
        }
    }
}

// Around which node a place is asked for, and at which radius.
#[derive(Clone, Copy)]
pub struct Around {
    pub centre: u16,
    pub radius: u16,
}

// What a call is asked for: a centre, which may be none of the board's nodes, and a radius.
#[derive(Clone, Copy)]
pub struct Asked {
    pub centre: usize,
    pub radius: u16,
}

// How many nodes the place has, if there is one, and where the rounds ended in the ball.
#[derive(Clone, Copy)]
pub struct PlaceFound {
    pub size: Option<usize>,
    pub rest: Rest,
}
