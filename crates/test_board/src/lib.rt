// The numbers that a test board is asked for by, and those that it draws.
#![tactic(auto)]

ghost use Rattle.std.specs.Prelude.{◌≡◌, ◌*◌, ◌/◌, ◌%◌, ◌^◌, ◌<◌, ◌≤◌, ◌++◌, length, drop};
ghost use Rattle.test_board.specs.Generator.{step, draw, stepped, draws};
ghost use Rattle.test_board.specs.Board.{sizes_in_range, kinds_drawn, pairs_drawn};

const FACTOR: u32 = 1664525;

const ADDED: u32 = 1013904223;

// Whether the numbers of nodes, links and kinds are in their ranges.
pub fn in_range(n: u32, m: u32, k: u32) -> bool
    ensures { result ≡ sizes_in_range n m k }
{
    if n < 1 {
        return false;
    }
    if n > 512 {
        return false;
    }
    if m > 4096 {
        return false;
    }
    if k < 1 {
        return false;
    }
    k <= 65536
}

// The next state of the generator.
fn step(s: u32) -> u32
    ensures { result ≡ step s }
{
    FACTOR.wrapping_mul(s).wrapping_add(ADDED)
}

// The top 16 bits of a state.
fn top(s: u32) -> u16
    ensures { result ≡ s / 2 ^ 16 }
{
    (s / 65536) as u16
}

// A state, and what was drawn in reaching it.
#[derive(Clone, Copy)]
struct Drawn {
    state: u32,
    value: u16,
}

// One draw below k: the state steps, and what is drawn is of the new one.
fn draw(s: u32, k: usize) -> Drawn
    requires { 0 < k }
    ensures { (result.state ≡ step s) × (result.value ≡ draw k (step s)) }
{
    let state = step(s);
    Drawn {
        state,
        value: (top(state) as usize % k) as u16,
    }
}

// Draws below k, `count` of them, at the front of a table; returns the state after them.
fn draw_all(s: u32, k: usize, count: usize, out: &mut [u16]) -> u32
    requires { (0 < k) × (count ≤ length out.old) }
    ensures value { result ≡ stepped s count }
    ensures out_after { out.new ≡ draws s k count ++ drop count out.old }
{
    let mut state = s;
    for i in 0..count {
        let drawn = draw(state, k);
        out[i] = drawn.value;
        state = drawn.state;
    }
    state
}

// The kinds of a test board's n nodes, below k, and then m times a start and an end, below n.
pub fn draw_test_board(
    seed: u32,
    n: usize,
    m: usize,
    k: usize,
    kinds: &mut [u16],
    pairs: &mut [u16],
)
    requires { (0 < n) × (0 < k) × (n ≤ length kinds.old) × (2 * m ≤ length pairs.old) }
    ensures kinds_after { kinds.new ≡ kinds_drawn seed n k ++ drop n kinds.old }
    ensures pairs_after { pairs.new ≡ pairs_drawn seed n m ++ drop (2 * m) pairs.old }
{
    let state = draw_all(seed, k, n, kinds);
    draw_all(state, n, 2 * m, pairs);
}
