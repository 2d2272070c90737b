// The classes of a pattern's parts, from its match table on itself.
#![tactic(auto)]

ghost use Rattle.std.specs.Prelude.{◌≡◌, ◌≤◌, ◌<◌, length};
ghost use Rattle.std.proofs.lemmas.List.Edits.{sets};
ghost use Rattle.merge.specs.Merged.{leader};
ghost use Rattle.merge_classes.specs.Passes.{SelfTable, leader_count, class_numbers, leader_labels};

// The smallest part of u's class: the first of the parts that u's set has whose own set has u.
fn leader(table: &[u32], u: usize) -> usize
    requires self_table { SelfTable table.now }
    requires u_in_bounds { u < length table.now }
    ensures { result ≡ leader (length table.now) table.now u }
{
    let mut left = table[u];
    // A while: it goes over the bits that are set.
    while left != 0 {
        let v = base_bits::first(left) as usize;
        if base_bits::has(table[v], u as u32) {
            return v;
        }
        left = base_bits::without_first(left);
    }
    table.len()
}

// Numbers the classes by their smallest part: a part that leads its class has the next number, another part that of its
// leader. Returns how many classes there are.
pub fn number_classes(table: &[u32], classes: &mut [u8]) -> usize
    requires self_table { SelfTable table.now }
    requires classes_len { length classes.old ≡ length table.now }
    ensures value { result ≡ leader_count table.now }
    ensures classes_after { classes.new ≡ class_numbers table.now }
{
    let mut next = 0;
    for u in 0..table.len() {
        let v = leader(table, u);
        if v == u {
            classes[u] = next as u8;
            next += 1;
        } else {
            classes[u] = classes[v];
        }
    }
    next
}

// The kind of each class, that of its smallest part, at the front of a table.
pub fn leader_labels(table: &[u32], labels: &[u32], out: &mut [u32])
    requires self_table { SelfTable table.now }
    requires labels_len { (length labels.now ≡ length table.now) × (length table.now ≤ length out.old) }
    ensures { out.new
        ≡ sets out.old 0 (leader_labels table.now labels.now) }
{
    let mut next = 0;
    for (u, &label) in labels.iter().enumerate() {
        if leader(table, u) == u {
            out[next] = label;
            next += 1;
        }
    }
}
