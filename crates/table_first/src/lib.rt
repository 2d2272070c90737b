// First tables, which striking begins with: the parts that agree with each node, or what another table has.
#![tactic(auto)]

ghost use Rattle.std.specs.Prelude.{◌≡◌, ℕ, ◌≤◌, ◌<◌, length, get_or};
ghost use Rattle.base_bits.specs.Bits.{number_of};
ghost use Rattle.base_lists.specs.List.{Below};
ghost use Rattle.table.specs.Fill.{NodeList};
ghost use Rattle.table.specs.First.{start_node, Written};
ghost use Rattle.table.specs.Row.{kinds_agree};

use base_lists::fill;

// A part agrees with a node, each given by its label: it is of the node's package and of kind 0, any part of that
// package, or has the same label.
fn kinds_agree(part: u32, node: u32) -> bool
    ensures { result ≡ kinds_agree part node }
{
    let any = node / 65536 * 65536;
    if part == any {
        return true;
    }
    part == node
}

// The set of the parts that agree with a node of this label.
fn alike(part_labels: &[u32], kind: u32) -> u32
    requires { length part_labels.now ≤ 32 }
    ensures { result ≡ number_of (length part_labels.now)
        (λ u. kinds_agree (get_or part_labels.now u 0) kind) }
{
    let mut set: u32 = 0;
    for (u, &label) in part_labels.iter().enumerate() {
        if kinds_agree(label, kind) {
            set |= base_bits::single(u as u32);
        }
    }
    set
}

// Writes at each node of the list the set that a rule gives it, in a table that is empty elsewhere. Returns how many
// pairs it has.
fn write_sets<F: Fn(usize) -> u32>(nodes: &[u16], set_of: F, table: &mut [u32]) -> u32
    requires node_list { NodeList (length table.old) nodes.now }
    requires callable { (i : ℕ) → i < length nodes.now → F.pre set_of (get_or nodes.now i 0) }
    ensures { (rule : ℕ → ℕ) → ((v set : ℕ) → F.post set_of v set → set ≡ rule v)
        → Written (length table.old) rule nodes.now table.new result }
{
    fill(table, 0);
    let mut started: u32 = 0;
    for &node in nodes {
        let v = node as usize;
        let set = set_of(v);
        table[v] = set;
        started += base_bits::size(set);
    }
    started
}

// The table that has at each node of the list the parts that agree with it, and is empty elsewhere. Returns how many
// pairs it has.
pub fn start(nodes: &[u16], part_labels: &[u32], node_labels: &[u32], table: &mut [u32]) -> u32
    requires part_labels_len_bound { length part_labels.now ≤ 32 }
    requires node_list { NodeList (length table.old) nodes.now }
    requires below { Below (length node_labels.now) nodes.now }
    ensures { Written (length table.old)
        (start_node part_labels.now node_labels.now) nodes.now table.new
        result }
{
    write_sets(nodes, |v| alike(part_labels, node_labels[v]), table)
}

// The table that has at each node of the list the set that another table has there, and is empty elsewhere. Returns how
// many pairs it has.
pub fn copy(nodes: &[u16], from: &[u32], table: &mut [u32]) -> u32
    requires node_list { NodeList (length table.old) nodes.now }
    requires below { Below (length from.now) nodes.now }
    ensures { Written (length table.old) (λ v. get_or from.now v 0) nodes.now
        table.new result }
{
    write_sets(nodes, |v| from[v], table)
}
