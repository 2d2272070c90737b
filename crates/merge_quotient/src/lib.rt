// A pattern's quotient by its classes of parts that match each other: the merged pattern.
#![tactic(auto)]

ghost use Rattle.std.specs.Prelude.{[], ◌≡◌, ◌≤◌, length};
ghost use Rattle.file_format.specs.declared.Edition.TheVariants as editions;
ghost use Rattle.file_format.specs.declared.Role.TheVariants as role;
ghost use Rattle.file_format.specs.Refusals.{Verdict, first};
ghost use Rattle.graph.specs.Circuit.{circuit};
ghost use Rattle.file_write.specs.Writing.{circuit_conditions};
ghost use Rattle.merge_classes.specs.Passes.{Quotient};

use file_format::{Pattern, Size};
use merge_classes::{leader_labels, number_classes};
use merge_links::{mark_rows, scan};
use table::Ways;
use table_whole::match_circuits;

// The quotient, through two tables: the pattern's table on itself and the rows of linked classes.
fn through(
    labels: &[u32],
    starts: &[u16],
    ends: &[u16],
    classes: &mut [u8],
    table: &mut [u32],
    rows: &mut [u32],
    mk: &mut [u32],
    ms: &mut [u16],
    me: &mut [u16],
) -> Size
    requires ends_value { first (circuit_conditions role.Pattern editions.First labels.now [] starts.now ends.now)
        ≡ Verdict.accept }
    requires classes_len { (length classes.old ≡ length labels.now) × (length table.old ≡ length labels.now)
        × (length rows.old ≡ 32) }
    requires in_bounds { (32 ≤ length mk.old) × (256 ≤ length ms.old) × (256 ≤ length me.old) }
    ensures { Quotient (circuit labels.now starts.now ends.now)
        classes.new mk.new ms.new me.new result }
{
    match_circuits(
        Ways::Both,
        labels,
        starts,
        ends,
        labels,
        starts,
        ends,
        table,
    );
    let count = number_classes(table, classes);
    leader_labels(table, labels, mk);
    mark_rows(classes, starts, ends, rows);
    let links = scan(rows, count, ms, me);
    Size::new(count, links)
}

// The class of each part of a pattern, and the merged pattern at the front of three tables; returns its size.
pub fn quotient(
    labels: &[u32],
    starts: &[u16],
    ends: &[u16],
    classes: &mut [u8],
    mk: &mut [u32],
    ms: &mut [u16],
    me: &mut [u16],
) -> Size
    requires ends_value { first (circuit_conditions role.Pattern editions.First labels.now [] starts.now ends.now)
        ≡ Verdict.accept }
    requires classes_len { length classes.old ≡ length labels.now }
    requires in_bounds { (32 ≤ length mk.old) × (256 ≤ length ms.old) × (256 ≤ length me.old) }
    ensures { Quotient (circuit labels.now starts.now ends.now)
        classes.new mk.new ms.new me.new result }
{
    let mut table = [0u32; Pattern::MAX_NODES];
    let mut rows = [0u32; Pattern::MAX_NODES];
    let n = labels.len();
    through(
        labels,
        starts,
        ends,
        classes,
        &mut table[..n],
        &mut rows,
        mk,
        ms,
        me,
    )
}
