// Looking a node's neighbours up in the forward or the backward link table.
ghost use Rattle.std.specs.Prelude.{◌≡◌, suc, ◌≤◌, ◌<◌, length, get_or};
ghost use Rattle.graph.specs.Neighbours.{stretch};
ghost use Rattle.graph.specs.Net.{NodeOf};
ghost use Rattle.graph_neighbours.specs.Lookup.{neighbours_of, neighbours_in};

use crate::tables::{FORWARD_OFFSETS, FORWARD_TARGETS, OFFSETS, TARGETS};

// Which neighbours of a node are meant: what it drives, or what drives it.
#[derive(Clone, Copy)]
pub enum Direction {
    Forward,
    Backward,
}

// The stretch of one link table that belongs to node v: from offset v up to offset v + 1. It is empty where v has no
// two offsets, or where they fall back or pass the table's end, so every input has an answer.
pub fn stretch<'a>(offsets: &[u16], table: &'a [u16], v: usize) -> &'a [u16]
    ensures { result.now ≡ stretch offsets.now table.now v }
{
    if v >= offsets.len() {
        return &table[0..0];
    }
    let next = v + 1;
    if next >= offsets.len() {
        return &table[0..0];
    }
    let from = offsets[v] as usize;
    let to = offsets[next] as usize;
    if to < from {
        return &table[0..0];
    }
    if table.len() < to {
        return &table[0..0];
    }
    &table[from..to]
}

// The neighbours of node v in the direction asked for: a part of the forward or of the backward table.
pub fn neighbours<'a>(
    direction: Direction,
    forward_offsets: &[u16],
    forward: &'a [u16],
    backward_offsets: &[u16],
    backward: &'a [u16],
    v: usize,
) -> &'a [u16]
    ensures { result.now ≡ neighbours_of direction forward_offsets.now forward.now
        backward_offsets.now backward.now v }
{
    match direction {
        Direction::Forward => stretch(forward_offsets, forward, v),
        Direction::Backward => stretch(backward_offsets, backward, v),
    }
}

// The stretch of one link table that belongs to node v, where its two offsets are known to be sound.
fn sound_stretch<'a>(offsets: &[u16], table: &'a [u16], v: usize) -> &'a [u16]
    requires { (suc v < length offsets.now) × (get_or offsets.now v 0 ≤ get_or offsets.now (suc v) 0)
        × (get_or offsets.now (suc v) 0 ≤ length table.now) }
    ensures { result.now ≡ stretch offsets.now table.now v }
{
    let end = v + 1;
    let from = offsets[v] as usize;
    let to = offsets[end] as usize;
    &table[from..to]
}

// The neighbours of node v in the direction asked for, from tables that are handed on as two lists. No test is made: v
// is a node.
pub fn neighbours_in<'a>(
    direction: Direction,
    offsets: &[u16],
    targets: &'a [u16],
    v: usize,
) -> &'a [u16]
    requires { NodeOf offsets.now targets.now v }
    ensures { result.now ≡ neighbours_in direction offsets.now targets.now v }
{
    match direction {
        Direction::Forward => sound_stretch(
            &offsets[0..FORWARD_OFFSETS],
            &targets[0..FORWARD_TARGETS],
            v,
        ),
        Direction::Backward => sound_stretch(
            &offsets[FORWARD_OFFSETS..OFFSETS],
            &targets[FORWARD_TARGETS..TARGETS],
            v,
        ),
    }
}
