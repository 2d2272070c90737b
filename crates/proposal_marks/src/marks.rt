// Tests of the bytes that were proposed, one per node and one per link.
ghost use Rattle.std.specs.Prelude.{◌&&◌, List, ◌≡◌, ℕ, ◌<◌, length};
ghost use Rattle.base_lists.specs.List.{all_below, Below};
ghost use Rattle.graph.specs.Circuit.{circuit};
ghost use Rattle.graph.specs.Search.{inside};
ghost use Rattle.table.specs.Prepared.{succ_of};
ghost use Rattle.place.specs.Bytes.{bytes_of_nodes, bytes_of_links};
ghost use Rattle.proposal.specs.Check.{bits, ends_marked, marks_subgraph, in_row};
ghost use Rattle.proposal_marks.specs.Link.{link_placed};

use graph::UNREACHED;
use place::parts::driven_parts;

// Whether every byte is 0 or 1.
fn bits(bytes: &[u8]) -> bool
    ensures { result ≡ bits bytes.now }
{
    bytes.iter().all(|&byte| byte <= 1)
}

// Whether two nodes are both marked.
fn both_marked(nodes: &[u8], v: u16, w: u16) -> bool
    requires { (v < length nodes.now) × (w < length nodes.now) }
    ensures { result ≡ inside nodes.now v && inside nodes.now w }
{
    let i = v as usize;
    let j = w as usize;
    if nodes[i] == 1 {
        return nodes[j] == 1;
    }
    false
}

// Whether every marked link has both its ends marked.
fn ends_marked(starts: &[u16], ends: &[u16], nodes: &[u8], link_bytes: &[u8]) -> bool
    requires link_bytes_len { (length link_bytes.now ≡ length starts.now) × (length link_bytes.now ≡ length ends.now) }
    requires below { Below (length nodes.now) starts.now × Below (length nodes.now) ends.now }
    ensures { result ≡ ends_marked starts.now ends.now nodes.now
        link_bytes.now }
{
    for (i, &byte) in link_bytes.iter().enumerate() {
        if byte == 1 && !both_marked(nodes, starts[i], ends[i]) {
            return false;
        }
    }
    true
}

// Whether the bytes mark a subgraph that has the centre.
pub fn marks_subgraph(
    starts: &[u16],
    ends: &[u16],
    centre: usize,
    nodes: &[u8],
    link_bytes: &[u8],
) -> bool
    requires link_bytes_len { (length link_bytes.now ≡ length starts.now) × (length link_bytes.now ≡ length ends.now) }
    requires below { Below (length nodes.now) starts.now × Below (length nodes.now) ends.now }
    requires centre_in_bounds { centre < length nodes.now }
    ensures { (kinds : List ℕ) → result
        ≡ marks_subgraph (circuit kinds starts.now ends.now) centre nodes.now
        link_bytes.now }
{
    if !bits(nodes) {
        return false;
    }
    if !bits(link_bytes) {
        return false;
    }
    if nodes[centre] != 1 {
        return false;
    }
    ends_marked(starts, ends, nodes, link_bytes)
}

// Whether a search reached every marked node.
pub fn in_row(dist: &[u16], nodes: &[u8]) -> bool
    requires { length nodes.now ≡ length dist.now }
    ensures { result ≡ in_row (bytes_of_nodes dist.now) nodes.now }
{
    for (v, &byte) in nodes.iter().enumerate() {
        if byte == 1 && dist[v] == UNREACHED {
            return false;
        }
    }
    true
}

// Whether a link is in the place that was found: its start was reached, and what its start's parts drive has a part of
// its end's set.
fn link_placed(masks: &[u32], dist: &[u16], sets: &[u32], v: u16, w: u16) -> bool
    requires masks_len { (length masks.now ≡ 64) × (length dist.now ≡ length sets.now) }
    requires v_in_bounds { (v < length sets.now) × (w < length sets.now) }
    ensures { result ≡ link_placed (succ_of masks.now) dist.now sets.now v w }
{
    let i = v as usize;
    let j = w as usize;
    if dist[i] == UNREACHED {
        return false;
    }
    base_bits::meets(driven_parts(masks, sets[i]), sets[j])
}

// Whether every link is in the place.
pub fn links_placed(masks: &[u32], starts: &[u16], ends: &[u16], dist: &[u16], sets: &[u32]) -> bool
    requires masks_len { (length masks.now ≡ 64) × (length dist.now ≡ length sets.now) }
    requires starts_len { length starts.now ≡ length ends.now }
    requires below { Below (length sets.now) starts.now × Below (length sets.now) ends.now }
    ensures { result ≡ all_below (length starts.now)
        (inside (bytes_of_links starts.now ends.now (succ_of masks.now) dist.now
        sets.now)) }
{
    for (i, &start) in starts.iter().enumerate() {
        if !link_placed(masks, dist, sets, start, ends[i]) {
            return false;
        }
    }
    true
}
