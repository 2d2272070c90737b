// Circuit files: the roles, what is in a role's range, and what refuses a file.
#![tactic(auto)]

ghost use Rattle.std.specs.Prelude.{◌≡◌, ◌&&◌, ◌≤◌, leb};
ghost use Rattle.file_format.specs.Layout.{package_count};
ghost use Rattle.file_format.specs.Role.{in_range};

// Which file a refusal means.
#[derive(Clone, Copy)]
pub enum File {
    Pattern,
    Board,
    Neither,
}

// Why a call was turned away: the number of the condition, and the file that it means. (A number and no enum: the
// conditions of specs/Refusals have theirs, and C and the report get it.)
#[derive(Clone, Copy)]
pub struct Refusal {
    pub number: u8,
    pub file: File,
}

// A centre that is no node of the board.
pub const OUTSIDE: Refusal = Refusal {
    number: 7,
    file: File::Neither,
};

// A lent table or buffer that is too short.
pub const TOO_SHORT: Refusal = Refusal {
    number: 8,
    file: File::Neither,
};

// What a file is read or written as. A pattern is connected; the whole-board match tables take any pattern, connected
// or not.
#[derive(Clone, Copy)]
pub enum Role {
    Pattern,
    Board,
    AnyPattern,
}

// Which edition of the circuit file a file is: the first has no packages, the second has one for each node.
#[derive(Clone, Copy)]
pub enum Edition {
    First,
    Second,
}

// The editions of a pattern file and of a board file.
#[derive(Clone, Copy)]
pub struct Editions {
    pub pattern: Edition,
    pub board: Edition,
}

// How many packages a file of n nodes has.
pub fn package_count(edition: Edition, n: usize) -> usize
    ensures { (result ≡ package_count edition n) × (result ≤ n) }
{
    match edition {
        Edition::First => 0,
        Edition::Second => n,
    }
}

// The size of a circuit: N and M.
#[derive(Clone, Copy)]
pub struct Size {
    pub nodes: usize,
    pub links: usize,
}

impl Size {
    pub fn new(nodes: usize, links: usize) -> Self
        ensures { result ≡ record { nodes = nodes; links = links } }
    {
        Self { nodes, links }
    }
}

// An accepted file that was read for a call: N and M, and of a pattern the radius.
#[derive(Clone, Copy)]
pub struct FileRead {
    pub nodes: usize,
    pub links: usize,
    pub radius: u16,
}

// What a pattern's file may have: from so many nodes (parts, as document 01 calls them) to so many, and so many links;
// and how wide it may be.
#[derive(Clone, Copy)]
pub struct Pattern;

impl Pattern {
    pub const MIN_NODES: usize = 1;

    pub const MAX_NODES: usize = 32;

    pub const MAX_LINKS: usize = 256;

    pub const MAX_RADIUS: u16 = 12;
}

// What a board's file may have.
#[derive(Clone, Copy)]
pub struct Board;

impl Board {
    pub const MIN_NODES: usize = 0;

    pub const MAX_NODES: usize = 512;

    pub const MAX_LINKS: usize = 4096;
}

// From `least` to `most` nodes, and at most `links` links.
fn within(nodes: usize, links: usize, least: usize, most: usize, most_links: usize) -> bool
    ensures { result ≡ (leb least nodes && (leb nodes most && leb links most_links)) }
{
    least <= nodes && nodes <= most && links <= most_links
}

// N and M are in the role's range.
pub fn in_range(role: Role, nodes: usize, links: usize) -> bool
    ensures { result ≡ in_range role nodes links }
{
    match role {
        Role::Board => within(
            nodes,
            links,
            Board::MIN_NODES,
            Board::MAX_NODES,
            Board::MAX_LINKS,
        ),
        Role::Pattern | Role::AnyPattern => within(
            nodes,
            links,
            Pattern::MIN_NODES,
            Pattern::MAX_NODES,
            Pattern::MAX_LINKS,
        ),
    }
}
