// Directed graphs: what walks, distances, balls and the radius are, and what neighbour tables and the search over them
// come to. The code here reads the entries that a search leaves, and the bytes that choose links.
#![tactic(auto)]

ghost use Rattle.std.specs.Prelude.{◌≡◌};
ghost use Rattle.graph.specs.Search.{reached};

pub mod marked;

// The entry of a node that a search does not reach. (A number and no Option: C is handed the
// tables, and `far` is their number.)
pub const UNREACHED: u16 = 65535;

// Whether an entry is a distance: the search has reached its node.
pub fn is_reached(entry: u16) -> bool
    ensures { result ≡ reached entry }
{
    entry != UNREACHED
}
