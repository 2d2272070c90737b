// The report's lines, each put into a table of bytes from an offset on; the offset after the line is returned. `names`
// has a name for each node.
ghost use Rattle.std.specs.Prelude.{◌≡◌, ◌+◌, ◌≤◌, ◌<◌, length};
ghost use Rattle.base_text.specs.Text.{Put, Fits, Names};
ghost use Rattle.table.specs.Prepared.{tables, Ready};
ghost use Rattle.report.specs.Report.{end_line, refusal_line, file_word};
ghost use Rattle.report.specs.Lines.{longest_line, longest_refusal};
ghost use Rattle.report_texts.specs.Texts.{nodes_text, start_text, links_text, line_text};

use base_text::{put_byte, put_bytes, put_numbered};
use file_format::{File, Refusal};
use graph::is_reached;
use graph_neighbours::neighbours::{Direction, neighbours_in};
use place::parts::driven_parts;
use report_texts::{put_driven, put_head, put_node};

// Each node that the search reached.
fn put_nodes(names: &[u32], dist: &[u16], out: &mut [u8], at: usize) -> usize
    requires names { Names names.now × (length dist.now ≤ length names.now) }
    requires fits { Fits out.old at (nodes_text dist.now) }
    ensures { Put out.old at (nodes_text dist.now) out.new result }
{
    let mut end = at;
    for v in 0..dist.len() {
        end = put_node(names, dist, v, out, end);
    }
    end
}

// The links that start at v, if the search reached it. What its parts drive is one union, which serves all of them.
fn put_start(
    names: &[u32],
    masks: &[u32],
    offsets: &[u16],
    targets: &[u16],
    dist: &[u16],
    sets: &[u32],
    v: usize,
    out: &mut [u8],
    at: usize,
) -> usize
    requires names { Names names.now × (length dist.now ≤ length names.now) }
    requires sets_len { length sets.now ≡ length dist.now }
    requires ready { Ready (tables masks.now offsets.now targets.now) sets.now }
    requires v_in_bounds { v < length dist.now }
    requires fits { let text = start_text (tables masks.now offsets.now targets.now) dist.now sets.now v in Fits out.old at text }
    ensures { let text = start_text (tables masks.now offsets.now targets.now) dist.now sets.now v in Put out.old at text out.new result }
{
    let there = is_reached(dist[v]);
    if !there {
        return at;
    }
    let driven = driven_parts(masks, sets[v]);
    let ends = neighbours_in(Direction::Forward, offsets, targets, v);
    put_driven(names, ends, driven, sets, v, out, at)
}

// Each link of the place: a file's links rise by their starts, so that its order is node by node.
fn put_links(
    names: &[u32],
    masks: &[u32],
    offsets: &[u16],
    targets: &[u16],
    dist: &[u16],
    sets: &[u32],
    out: &mut [u8],
    at: usize,
) -> usize
    requires names { Names names.now × (length dist.now ≤ length names.now) }
    requires sets_len { length sets.now ≡ length dist.now }
    requires ready { Ready (tables masks.now offsets.now targets.now) sets.now }
    requires fits { let text = links_text (tables masks.now offsets.now targets.now) dist.now sets.now in Fits out.old at text }
    ensures { let text = links_text (tables masks.now offsets.now targets.now) dist.now sets.now in Put out.old at text out.new result }
{
    let mut end = at;
    for v in 0..dist.len() {
        end = put_start(names, masks, offsets, targets, dist, sets, v, out, end);
    }
    end
}

// The line of the centre c, around which there is a place.
pub fn put_line(
    names: &[u32],
    masks: &[u32],
    offsets: &[u16],
    targets: &[u16],
    dist: &[u16],
    sets: &[u32],
    c: usize,
    out: &mut [u8],
    at: usize,
) -> usize
    requires names { Names names.now × (length dist.now ≤ length names.now) }
    requires sets_len { length sets.now ≡ length dist.now }
    requires ready { Ready (tables masks.now offsets.now targets.now) sets.now }
    requires fits { let text = line_text (tables masks.now offsets.now targets.now) dist.now sets.now c in Fits out.old at text }
    ensures { let text = line_text (tables masks.now offsets.now targets.now) dist.now sets.now c in Put out.old at text out.new result }
{
    let nodes = put_head(c, out, at);
    let slash = put_nodes(names, dist, out, nodes);
    let after = put_bytes(b" /", out, slash);
    let end = put_links(names, masks, offsets, targets, dist, sets, out, after);
    put_byte(b'\n', out, end)
}

// The last line: k of n centres have a place.
pub fn put_end(k: usize, n: usize, out: &mut [u8], at: usize) -> usize
    requires k_bound { (k < 100000) × (n < 100000) }
    requires longest_line_in_bounds { at + longest_line ≤ length out.old }
    ensures { Put out.old at (end_line k n) out.new result }
{
    let of = put_numbered(b"end ", k, out, at);
    let end = put_numbered(b" of ", n, out, of);
    put_byte(b'\n', out, end)
}

// Which file is meant.
fn put_file(file: File, out: &mut [u8], at: usize) -> usize
    requires { at + 8 ≤ length out.old }
    ensures { Put out.old at (file_word file) out.new result }
{
    match file {
        File::Pattern => put_bytes(b" pattern", out, at),
        File::Board => put_bytes(b" board", out, at),
        File::Neither => at,
    }
}

// The line of a refused file.
pub fn put_refusal(x: Refusal, out: &mut [u8], at: usize) -> usize
    requires { at + longest_refusal ≤ length out.old }
    ensures { Put out.old at (refusal_line x) out.new result }
{
    let file = put_numbered(b"refused ", x.number as usize, out, at);
    let meant = x.file;
    let end = put_file(meant, out, file);
    put_byte(b'\n', out, end)
}
