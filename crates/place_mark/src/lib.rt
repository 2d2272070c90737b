// Marking the place in the lent tables from the list of its nodes. Each table is cleared, and then written at the nodes
// of the list and at their links only: a node's links are a stretch of the file's order.
#![tactic(auto)]

ghost use Rattle.std.specs.Prelude.{cond, ◌≡◌, suc, ◌≤◌, ◌<◌, length, get_or};
ghost use Rattle.base_bits.specs.Bits.{intersects};
ghost use Rattle.base_lists.specs.List.{Below};
ghost use Rattle.graph.specs.Net.{forward_offsets};
ghost use Rattle.table.specs.Fill.{marks_of, NodeList, table_at};
ghost use Rattle.table.specs.Prepared.{tables, Ready};
ghost use Rattle.place.specs.Bytes.{LinksFit, marked_ends, mark_start, link_marks};

use base_lists::fill;
use graph_neighbours::neighbours::{Direction, neighbours_in};
use place::parts::driven_parts;
use table_first::copy;

// A byte for each node, 1 for those of the list. (place_components stores numbers of 16 bits so: one function for both
// would need `fill_at` over any type, and is no shorter than the loop.)
fn mark_nodes(list: &[u16], nodes: &mut [u8])
    requires { Below (length nodes.old) list.now }
    ensures { nodes.new ≡ marks_of (length nodes.old) list.now }
{
    fill(nodes, 0);
    for &v in list {
        nodes[v as usize] = 1;
    }
}

// A link's byte: 1 where what its start's parts drive has a part of its end's set, and else as it was.
fn link_byte(driven: u32, set: u32, byte: u8) -> u8
    ensures { result ≡ cond (intersects driven set) 1 byte }
{
    if base_bits::meets(driven, set) {
        return 1;
    }
    byte
}

// The bytes of one node's links.
fn mark_ends(ends: &[u16], driven: u32, sets: &[u32], bytes: &mut [u8])
    requires ends_len { length ends.now ≡ length bytes.old }
    requires below { Below (length sets.now) ends.now }
    ensures { bytes.new ≡ marked_ends driven sets.now ends.now
        bytes.old }
{
    for (k, &w) in ends.iter().enumerate() {
        bytes[k] = link_byte(driven, sets[w as usize], bytes[k]);
    }
}

// The links that start at node v.
fn mark_start(
    masks: &[u32],
    offsets: &[u16],
    targets: &[u16],
    sets: &[u32],
    v: usize,
    bytes: &mut [u8],
)
    requires ready { Ready (tables masks.now offsets.now targets.now) sets.now }
    requires v_in_bounds { v < length sets.now }
    requires v_in_bounds_2 { get_or (forward_offsets offsets.now) (suc v) 0 ≤ length bytes.old }
    ensures { bytes.new ≡ mark_start
        (tables masks.now offsets.now targets.now) sets.now v
        bytes.old }
{
    let ends = neighbours_in(Direction::Forward, offsets, targets, v);
    let driven = driven_parts(masks, sets[v]);
    let from = offsets[v] as usize;
    let to = from + ends.len();
    mark_ends(ends, driven, sets, &mut bytes[from..to]);
}

// A byte for each link, 1 for those that start at a node of the list and match.
fn mark_links(
    masks: &[u32],
    offsets: &[u16],
    targets: &[u16],
    sets: &[u32],
    list: &[u16],
    bytes: &mut [u8],
)
    requires ready { Ready (tables masks.now offsets.now targets.now) sets.now }
    requires node_list { NodeList (length sets.now) list.now }
    requires links_fit { LinksFit (length sets.now) offsets.now bytes.old }
    ensures { bytes.new ≡ link_marks (length bytes.old)
        (tables masks.now offsets.now targets.now) sets.now
        list.now }
{
    fill(bytes, 0);
    for &v in list {
        mark_start(masks, offsets, targets, sets, v as usize, bytes);
    }
}

// All three tables: a byte for each node, a byte for each link, and a set for each node.
pub fn mark(
    masks: &[u32],
    offsets: &[u16],
    targets: &[u16],
    sets: &[u32],
    list: &[u16],
    nodes: &mut [u8],
    bytes: &mut [u8],
    table: &mut [u32],
)
    requires ready { Ready (tables masks.now offsets.now targets.now) sets.now }
    requires node_list { NodeList (length sets.now) list.now }
    requires links_fit { LinksFit (length sets.now) offsets.now bytes.old }
    requires nodes_len { (length nodes.old ≡ length sets.now) × (length table.old ≡ length sets.now) }
    ensures nodes_after { nodes.new ≡ marks_of (length sets.now) list.now }
    ensures bytes_after { bytes.new ≡ link_marks (length bytes.old)
        (tables masks.now offsets.now targets.now) sets.now
        list.now }
    ensures table_after { table.new ≡ table_at (length sets.now) (λ v. get_or sets.now v 0)
        list.now }
{
    mark_nodes(list, nodes);
    mark_links(masks, offsets, targets, sets, list, bytes);
    copy(list, sets, table);
}
