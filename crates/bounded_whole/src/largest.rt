// Striking round after round until a round strikes nothing, as table_largest does without bounds.
ghost use Rattle.std.specs.Prelude.{◌≡◌, length};
ghost use Rattle.table.specs.Prepared.{tables};
ghost use Rattle.table.specs.Row.{pairs};
ghost use Rattle.bounded_strike.specs.Round.{BoundedReady, BoundedSettled};

use bounded_strike::round::strike;
use table::Rest;

// The last table of the row that begins with `table`, which has `started` pairs. The two tables take turns: each round
// reads one whole and writes the other. At the end they are equal, so that nothing is copied. `spare` and the tables
// for layers are scratch.
pub fn refine(
    masks: &[u32],
    offsets: &[u16],
    targets: &[u16],
    top: usize,
    table: &mut [u32],
    spare: &mut [u32],
    layer: &mut [u32],
    next: &mut [u32],
    started: u32,
) -> Rest
    requires bounded_ready { BoundedReady (tables masks.now offsets.now targets.now) top table.old }
    requires spare_len { (length spare.old ≡ length table.old) × (length layer.old ≡ length table.old)
        × (length next.old ≡ length table.old) }
    requires started_value { started ≡ pairs table.old }
    ensures { BoundedSettled (tables masks.now offsets.now targets.now) top
        table.old table.new result.kept result.rounds }
{
    let mut kept = started;
    let mut rounds: u32 = 0;
    // A loop: it ends with the round that strikes nothing, of either table, and how many come before it is not known.
    loop {
        let left = strike(masks, offsets, targets, top, table, layer, next, spare);
        if left == kept {
            return Rest { kept, rounds };
        }
        rounds += 1;
        kept = strike(masks, offsets, targets, top, spare, layer, next, table);
        if kept == left {
            return Rest { kept, rounds };
        }
        rounds += 1;
    }
}
