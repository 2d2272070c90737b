// The merged file of a pattern that was read.
#![tactic(auto)]

ghost use Rattle.std.specs.Prelude.{[], ◌≡◌, ◌≤◌, length};
ghost use Rattle.file_format.specs.declared.Edition.TheVariants as editions;
ghost use Rattle.file_format.specs.declared.Role.TheVariants as role;
ghost use Rattle.file_format.specs.Layout.{length_of};
ghost use Rattle.file_format.specs.Refusals.{Verdict, first};
ghost use Rattle.graph.specs.Circuit.{circuit};
ghost use Rattle.file_write.specs.Bytes.{LabelsFit};
ghost use Rattle.file_write.specs.Writing.{circuit_conditions};
ghost use Rattle.merge_file.specs.Merged.{MergedFrom};

use file_format::{Edition, Pattern, Role};
use file_write::write_circuit;
use merge_quotient::quotient;

// How many classes a pattern has, and the length of its merged file.
#[derive(Clone, Copy)]
pub struct Merged {
    pub classes: usize,
    pub size: usize,
}

// The class of each part, and the merged file at the front of bytes that have room for the pattern's own file. A merged
// pattern is a pattern, so that writing it is not refused.
pub fn merge_circuit(
    edition: Edition,
    labels: &[u32],
    starts: &[u16],
    ends: &[u16],
    classes: &mut [u8],
    out: &mut [u8],
) -> Merged
    requires ends_value { first (circuit_conditions role.Pattern editions.First labels.now [] starts.now ends.now)
        ≡ Verdict.accept }
    requires classes_len { (length classes.old ≡ length labels.now)
        × (length_of edition (length labels.now) (length starts.now) ≤ length out.old) }
    requires labels_fit { LabelsFit edition labels.now }
    ensures { MergedFrom edition (circuit labels.now starts.now ends.now) result
        classes.new out.old out.new }
{
    let mut mk = [0u32; Pattern::MAX_NODES];
    let mut ms = [0u16; Pattern::MAX_LINKS];
    let mut me = [0u16; Pattern::MAX_LINKS];
    let merged = quotient(labels, starts, ends, classes, &mut mk, &mut ms, &mut me);
    let count = merged.nodes;
    let links = merged.links;
    let written = write_circuit(
        Role::Pattern,
        edition,
        &mk[..count],
        &ms[..links],
        &me[..links],
        out,
    );
    Merged {
        classes: count,
        size: written.unwrap(),
    }
}
