// The match table: what it is, the masks of a pattern and the counts; the all-0 rule (`rule`).
#![tactic(auto)]

ghost use Rattle.std.specs.Prelude.{◌≡◌, ◌≤◌};
ghost use Rattle.table.specs.Refine.{counts_from};

pub mod rule;

// The masks of a pattern: for each of 32 parts the parts that it drives, and then for each those that drive it.
pub const MASKS: usize = 64;

pub const FORWARD_MASKS: usize = 32;

// The links along which a pair needs partners: what a part drives and what drives it, or what it drives alone.
#[derive(Clone, Copy)]
pub enum Ways {
    Both,
    Forward,
}

// The pairs at first, those left and those struck, and how many rounds struck a pair.
#[derive(Clone, Copy)]
pub struct Counts {
    pub started: u32,
    pub kept: u32,
    pub struck: u32,
    pub rounds: u32,
}

// Where the rounds end: the pairs left, and how many rounds struck a pair.
#[derive(Clone, Copy)]
pub struct Rest {
    pub kept: u32,
    pub rounds: u32,
}

// The four counts, from the pairs at first and where the rounds end.
pub fn counted(started: u32, end: Rest) -> Counts
    requires { end.kept ≤ started }
    ensures { result ≡ counts_from started end }
{
    Counts {
        started,
        kept: end.kept,
        struck: started - end.kept,
        rounds: end.rounds,
    }
}
