// A circuit's radius, by sets of nodes as 32-bit numbers: the balls around all its nodes grow by one link a round,
// until each has every node.
#![tactic(auto)]

ghost use Rattle.std.specs.Prelude.{◌≡◌, ◌^◌, ◌≤◌, ◌<◌, T, ltb, length};
ghost use Rattle.base_lists.specs.List.{all, tabulate, Below};
ghost use Rattle.graph.specs.Search.{radius};
ghost use Rattle.graph_radius.specs.Balls.{balls, every_node, spanning, with_node, grown, FindsRadius};

use base_bits::{single, union_of};

// The set of all numbers below n.
fn every_node(n: usize) -> u32
    requires { n ≤ 32 }
    ensures { result ≡ every_node n }
{
    ((1u64 << n) - 1) as u32
}

// Makes each set that of its own number alone: the balls at radius 0.
fn singles(sets: &mut [u32])
    requires { length sets.old ≤ 32 }
    ensures { sets.new ≡ tabulate (length sets.old) (λ u. 2 ^ u) }
{
    for (u, set) in sets.iter_mut().enumerate() {
        *set = single(u as u32);
    }
}

// Puts v into the set of u.
fn join(sets: &mut [u32], u: u16, v: u16)
    requires { (u < length sets.old) × (v < 32) }
    ensures { sets.new ≡ with_node sets.old u v }
{
    let at = u as usize;
    sets[at] |= single(v as u32);
}

// The balls at radius 1, one for each entry of the table: the node, and what a link joins it to.
fn neighbourhoods(starts: &[u16], ends: &[u16], near: &mut [u32])
    requires starts_len { (length starts.now ≡ length ends.now) × (length near.old ≤ 32) }
    requires t { T (all (λ v. ltb v (length near.old)) starts.now)
        × T (all (λ v. ltb v (length near.old)) ends.now) }
    ensures { near.new
        ≡ balls (length near.old) starts.now ends.now 1 }
{
    singles(near);
    for i in 0..starts.len() {
        join(near, starts[i], ends[i]);
        join(near, ends[i], starts[i]);
    }
}

// One round: the ball around each node takes in the balls around the nodes near it.
fn grow(near: &[u32], old: &[u32], new: &mut [u32])
    requires len { (length old.now ≡ length near.now) × (length new.old ≡ length near.now) }
    requires below { Below (2 ^ length near.now) near.now }
    ensures { new.new ≡ grown near.now old.now }
{
    for (u, set) in new.iter_mut().enumerate() {
        *set = union_of(old, near[u]);
    }
}

// Every one of the sets is `full`.
fn all_full(sets: &[u32], full: u32) -> bool
    ensures { result ≡ spanning full sets.now }
{
    sets.iter().all(|set| *set == full)
}

// The first radius at which every ball has every node, from the balls at radius 1 and those at radius 0; 65535 where
// none has up to radius n. The two tables take turns.
fn first_spanning(near: &[u32], old: &mut [u32], new: &mut [u32]) -> u16
    requires near_len_bound { (length near.now ≤ 32) × Below (2 ^ length near.now) near.now }
    requires len { (length old.old ≡ length near.now) × (length new.old ≡ length near.now) }
    ensures { FindsRadius near.now old.old result }
{
    let n = near.len();
    let full = every_node(n);
    let mut k: u16 = 0;
    // A while: a turn has two rounds, one for each table, and returns after either.
    while k as usize <= n {
        if all_full(old, full) {
            return k;
        }
        grow(near, old, new);
        if all_full(new, full) {
            return k + 1;
        }
        grow(near, new, old);
        k += 2;
    }
    65535
}

// The radius of a circuit with a node for each entry of the tables, which are scratch.
fn measure(starts: &[u16], ends: &[u16], near: &mut [u32], old: &mut [u32], new: &mut [u32]) -> u16
    requires starts_len { (length starts.now ≡ length ends.now) × (length near.old ≤ 32) }
    requires t { T (all (λ v. ltb v (length near.old)) starts.now)
        × T (all (λ v. ltb v (length near.old)) ends.now) }
    requires len { (length old.old ≡ length near.old) × (length new.old ≡ length near.old) }
    ensures { result ≡ radius (length near.old) starts.now ends.now }
{
    neighbourhoods(starts, ends, near);
    singles(old);
    first_spanning(near, old, new)
}

// The radius of a circuit of at most 32 nodes: the largest distance between two of them, 65535 where two are not
// joined. (A number and no Option: it is a distance, and `radius` of graph's specs/Search is this number.)
pub fn radius(n: usize, starts: &[u16], ends: &[u16]) -> u16
    requires starts_len { (length starts.now ≡ length ends.now) × (n ≤ 32) }
    requires t { T (all (λ v. ltb v n) starts.now) × T (all (λ v. ltb v n) ends.now) }
    ensures { result ≡ radius n starts.now ends.now }
{
    let mut near = [0u32; 32];
    let mut old = [0u32; 32];
    let mut new = [0u32; 32];
    measure(starts, ends, &mut near[..n], &mut old[..n], &mut new[..n])
}
