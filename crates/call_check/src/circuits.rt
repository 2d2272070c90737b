// Checking a proposed place on a pattern and a board that were read.
ghost use Rattle.std.specs.Prelude.{◌≡◌, ◌<◌, length};
ghost use Rattle.file_format.specs.Circuit.{Drawn};
ghost use Rattle.graph.specs.Circuit.{circuit};
ghost use Rattle.proposal.specs.Check.{checks};

use graph::marked::choose;
use graph_neighbours::tables::{OFFSETS, TARGETS};
use place::Around;
use proposal_check::{fills, near};
use proposal_marks::marks::marks_subgraph;
use table::Ways;
use table_prepare::lookups::prepare_along;

// Whether the node bytes and the link bytes mark a perfect subgraph around the centre at the radius, largest or not.
// The board's links are left with the marked ones in front: those are matched as a board of their own.
pub fn check_circuits(
    part_labels: &[u32],
    part_starts: &[u16],
    part_ends: &[u16],
    node_labels: &[u32],
    node_starts: &mut [u16],
    node_ends: &mut [u16],
    around: Around,
    nodes: &[u8],
    bytes: &[u8],
) -> bool
    requires drawn { let p = circuit part_labels.now part_starts.now part_ends.now in let b = circuit node_labels.now node_starts.old node_ends.old in Drawn p b }
    requires centre_in_bounds { around.centre < length node_labels.now }
    requires nodes_len { (length nodes.now ≡ length node_labels.now) ×
        (length bytes.now ≡ length node_starts.old) }
    ensures { let p = circuit part_labels.now part_starts.now part_ends.now in let b = circuit node_labels.now node_starts.old node_ends.old in result ≡ checks p b around.centre around.radius nodes.now
        bytes.now }
{
    let n = node_labels.len();
    let c = around.centre;
    if !marks_subgraph(node_starts, node_ends, c as usize, nodes, bytes) {
        return false;
    }
    let mut masks = [0u32; 64];
    let mut offsets = [0u16; OFFSETS];
    let mut targets = [0u16; TARGETS];
    if !near(
        node_starts,
        node_ends,
        around,
        nodes,
        &mut offsets,
        &mut targets,
    ) {
        return false;
    }
    let m = choose(bytes, node_starts);
    let k = choose(bytes, node_ends);
    prepare_along(
        Ways::Both,
        n,
        part_starts,
        part_ends,
        &node_starts[..m],
        &node_ends[..k],
        &mut masks,
        &mut offsets,
        &mut targets,
    );
    fills(
        part_labels,
        node_labels,
        &masks,
        &offsets,
        &targets,
        &node_starts[..m],
        &node_ends[..k],
        c,
        nodes,
    )
}
