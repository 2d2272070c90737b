// Filling the tables of a session: the pattern's masks, and the board's links by their numbers.
#![tactic(auto)]

ghost use Rattle.std.specs.Prelude.{◌≡◌, ◌≤◌, T, ltb, length};
ghost use Rattle.base_lists.specs.List.{all, Below};
ghost use Rattle.graph.specs.Net.{NetRoom};
ghost use Rattle.session_open.specs.Open.{padded, LinksNumbered, Ended, Fixed};

use base_lists::{copy, fill};
use file_format::Board;
use graph::UNREACHED;
use graph_neighbours::tables::{FORWARD_TARGETS, group_both};
use table::MASKS;
use table_prepare::masks::pattern_masks;
use table_prepare::nodes::list_all;

// Fills the numbers of the links of each node: of those that start there, and of those that end there. `order` has room
// for the numbers of all links.
fn order_links(
    n: usize,
    starts: &[u16],
    ends: &[u16],
    order: &mut [u16],
    offsets: &mut [u16],
    numbers: &mut [u16],
)
    requires net_room { NetRoom offsets.old numbers.old }
    requires n_bound { n ≤ 512 }
    requires starts_len { (length starts.now ≡ length ends.now) × (length starts.now ≤ 4096) }
    requires t { T (all (λ v. ltb v n) starts.now) × T (all (λ v. ltb v n) ends.now) }
    requires order_len { length order.old ≡ 4096 }
    ensures { LinksNumbered n starts.now ends.now offsets.old
        numbers.old offsets.new numbers.new }
{
    let m = starts.len();
    list_all(&mut order[..m]);
    let listed = &order[..m];
    group_both(n, starts, ends, listed, listed, offsets, numbers);
}

// Fills a table with values, and past these with no node.
fn store_values(values: &[u16], out: &mut [u16])
    requires { length values.now ≤ length out.old }
    ensures { out.new ≡ padded (length out.old) values.now }
{
    fill(out, UNREACHED);
    copy(values, out);
}

// Fills each link's end, and then each one's start.
fn store_ends(starts: &[u16], ends: &[u16], out: &mut [u16])
    requires { (length starts.now ≤ 4096) × (length ends.now ≤ 4096) × (length out.old ≡ 8192) }
    ensures { Ended starts.now ends.now out.new }
{
    store_values(ends, &mut out[..FORWARD_TARGETS]);
    store_values(starts, &mut out[4096..8192]);
}

// Fills the links of a board of n nodes: by their numbers, with the two ends of each.
pub fn store_links(
    n: usize,
    starts: &[u16],
    ends: &[u16],
    offsets: &mut [u16],
    numbers: &mut [u16],
    out: &mut [u16],
)
    requires net_room { NetRoom offsets.old numbers.old × (length out.old ≡ 8192) }
    requires n_bound { n ≤ 512 }
    requires starts_len { (length starts.now ≡ length ends.now) × (length starts.now ≤ 4096) }
    requires t { T (all (λ v. ltb v n) starts.now) × T (all (λ v. ltb v n) ends.now) }
    ensures links_numbered { LinksNumbered n starts.now ends.now offsets.old
        numbers.old offsets.new numbers.new }
    ensures ended { Ended starts.now ends.now out.new }
{
    let mut order = [0u16; Board::MAX_LINKS];
    order_links(n, starts, ends, &mut order, offsets, numbers);
    store_ends(starts, ends, out);
}

// Fills what stays: the masks of the pattern's links, and how many parts and nodes there are.
pub fn store_fixed(starts: &[u16], ends: &[u16], parts: usize, nodes: usize, fixed: &mut [u32])
    requires starts_len { (length starts.now ≡ length ends.now) × Below 32 starts.now × Below 32 ends.now }
    requires parts_bound { (parts ≤ 32) × (nodes ≤ 512) }
    requires fixed_len { length fixed.old ≡ 66 }
    ensures { Fixed starts.now ends.now parts nodes fixed.new }
{
    pattern_masks(starts, ends, &mut fixed[..MASKS]);
    fixed[64] = parts as u32;
    fixed[65] = nodes as u32;
}
