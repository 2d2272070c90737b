// The pieces of a line of the report, each put into a table of bytes from an offset on; the offset after the piece is
// returned. A line has a head, the nodes and the links of its place. For another centre its head is put anew, and what
// follows is copied from where it stands in the buffer.
#![tactic(auto)]

ghost use Rattle.std.specs.Prelude.{cond, ◌++◌, ◌≡◌, ◌+◌, ◌-◌, ◌≤◌, ◌<◌, length, get_or};
ghost use Rattle.base_lists.specs.List.{Below, part};
ghost use Rattle.base_text.specs.Text.{Put, Fits, Names};
ghost use Rattle.report_texts.specs.Texts.{node_text, link_text, driven_text, head_text, under, noting};

use base_lists::copy;
use base_text::{put_byte, put_name, put_numbered};
use file_format::Board;
use graph::is_reached;

// The largest number of 32 bits.
const FURTHEST: usize = 4294967295;

// The line of the centre c up to its colon.
pub fn put_head(c: usize, out: &mut [u8], at: usize) -> usize
    requires { Fits out.old at (head_text c) }
    ensures { Put out.old at (head_text c) out.new result }
{
    let colon = put_numbered(b"place ", c, out, at);
    put_byte(b':', out, colon)
}

// How many bytes that has.
pub fn head_bytes(c: usize) -> usize
    requires { c < 1000 }
    ensures { result ≡ length (head_text c) }
{
    if c < 10 {
        return 8;
    }
    if c < 100 {
        return 9;
    }
    10
}

// Node v, if the search reached it. `names` has a name for each node.
pub fn put_node(names: &[u32], dist: &[u16], v: usize, out: &mut [u8], at: usize) -> usize
    requires names { Names names.now × (length dist.now ≤ length names.now) }
    requires v_in_bounds { v < length dist.now }
    requires fits { Fits out.old at (node_text dist.now v) }
    ensures { Put out.old at (node_text dist.now v) out.new result }
{
    if !is_reached(dist[v]) {
        return at;
    }
    put_name(names, b' ', v, out, at)
}

// The link from v to w, if what the parts of v's set drive has a part of w's set.
fn put_link(
    names: &[u32],
    driven: u32,
    set: u32,
    v: usize,
    w: usize,
    out: &mut [u8],
    at: usize,
) -> usize
    requires names { Names names.now × (v < length names.now) × (w < length names.now) }
    requires fits { Fits out.old at (link_text driven set v w) }
    ensures { Put out.old at (link_text driven set v w) out.new result }
{
    if !base_bits::meets(driven, set) {
        return at;
    }
    let hyphen = put_name(names, b' ', v, out, at);
    put_name(names, b'-', w, out, hyphen)
}

// The i-th node of a list. (A function, so that a wrong order is refused as such.)
fn node_at(nodes: &[u16], i: usize) -> u16
    requires { i < length nodes.now }
    ensures { result ≡ get_or nodes.now i 0 }
{
    nodes[i]
}

// The links from v to the nodes of a list.
pub fn put_driven(
    names: &[u32],
    nodes: &[u16],
    driven: u32,
    sets: &[u32],
    v: usize,
    out: &mut [u8],
    at: usize,
) -> usize
    requires names { Names names.now × (length sets.now ≤ length names.now) × (v < length names.now) }
    requires below { Below (length sets.now) nodes.now }
    requires fits { let text = driven_text driven sets.now v nodes.now in Fits out.old at text }
    ensures { let text = driven_text driven sets.now v nodes.now in Put out.old at text out.new result }
{
    let mut end = at;
    for i in 0..nodes.len() {
        let w = node_at(nodes, i) as usize;
        end = put_link(names, driven, sets[w], v, w, out, end);
    }
    end
}

// The bytes from `from` up to `to` once more, after them.
pub fn put_copy(from: usize, to: usize, out: &mut [u8], at: usize) -> usize
    requires { (from ≤ to) × (to ≤ at) × (at + (to - from) ≤ length out.old) }
    ensures { Put out.old at (part from (to - from) out.old) out.new result }
{
    let size = to - from;
    let (text, rest) = out.split_at_mut(at);
    copy(&text[from..to], rest);
    at + size
}

// Where text stands in the buffer: from `from` up to `to`. There is none where `to` is 0.
#[derive(Clone, Copy)]
pub struct Span {
    pub from: usize,
    pub to: usize,
}

// The line of the centre c by that text.
pub fn put_again(c: usize, text: Span, out: &mut [u8], at: usize) -> usize
    requires from_le_to { (text.from ≤ text.to) × (text.to ≤ at) }
    requires fits { Fits out.old at (head_text c ++ part text.from (text.to - text.from) out.old) }
    ensures { Put out.old at
        (head_text c ++ part text.from (text.to - text.from) out.old) out.new result }
{
    let body = put_head(c, out, at);
    put_copy(text.from, text.to, out, body)
}

// The text that a centre's line has after its colon, as far as it is known: where the ball holds the centre's
// component, that which is noted under its number.
pub fn known(all: bool, number: usize, texts: &[u32]) -> Span
    requires { (number < 512) × (length texts.now ≡ 1024) }
    ensures { result ≡ cond all (under texts.now number) (record { from = 0; to = 0 }) }
{
    if !all {
        return Span { from: 0, to: 0 };
    }
    let from = texts[number] as usize;
    let to = texts[Board::MAX_NODES + number] as usize;
    Span { from, to }
}

// A component's text noted under its number, where its end is a number of 32 bits.
pub fn note_text(number: usize, text: Span, texts: &mut [u32])
    requires { (number < 512) × (length texts.old ≡ 1024) × (text.from ≤ text.to) }
    ensures { texts.new ≡ noting texts.old number text }
{
    if FURTHEST < text.to {
        return;
    }
    texts[number] = text.from as u32;
    texts[Board::MAX_NODES + number] = text.to as u32;
}
