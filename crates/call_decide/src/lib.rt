// What a call decides by numbers alone once its files are read: the radius that is asked for, and whether it is turned
// away for its centre or for the length of what is lent to it.
#![tactic(auto)]

ghost use Rattle.std.specs.Prelude.{cond, ◌≡◌};
ghost use Rattle.file_format.specs.Refusals.{accept, refuse, first};
ghost use Rattle.file_format.specs.Reply.{verdict_of};
ghost use Rattle.call_decide.specs.Decide.{radius_for, too_short, room_conditions, place_conditions};

use file_format::{OUTSIDE, Refusal, TOO_SHORT};

pub mod ball;
pub mod bytes;

// The radius at which a place is asked for: the one given, or the pattern's own where none is given.
#[tactic(auto, unfolding(crate::specs::Decide::radius_for))]
pub fn radius_for(reach: Option<u16>, own: u16) -> u16
    ensures { result ≡ radius_for reach own }
{
    reach.unwrap_or(own)
}

// How many entries each of the four tables has that are lent to a place call.
#[derive(Clone, Copy)]
pub struct Lengths {
    pub nodes: usize,
    pub links: usize,
    pub table: usize,
    pub distances: usize,
}

// Whether all four have what a board of n nodes and m links needs.
fn tables_fit(n: usize, m: usize, lent: Lengths) -> bool
    ensures { first (room_conditions n m lent.nodes lent.links lent.table lent.distances)
        ≡ cond result accept (refuse too_short) }
{
    if lent.nodes < n {
        return false;
    }
    if lent.links < m {
        return false;
    }
    if lent.table < n {
        return false;
    }
    if lent.distances < n {
        return false;
    }
    true
}

// The verdict on a place call: 7 for the centre, then 8 for the tables.
pub fn place_verdict(n: usize, m: usize, centre: usize, lent: Lengths) -> Result<(), Refusal>
    ensures { verdict_of result
        ≡ first (place_conditions n m centre lent.nodes lent.links lent.table lent.distances) }
{
    let room = tables_fit(n, m, lent);
    if n <= centre {
        return Err(OUTSIDE);
    }
    if !room {
        return Err(TOO_SHORT);
    }
    Ok(())
}
