// The list of all nodes, for a table of the whole circuit.
ghost use Rattle.std.specs.Prelude.{◌≡◌, ◌≤◌, length};
ghost use Rattle.table.specs.Fill.{all_nodes};

// Lists the nodes 0, 1, 2, .. as far as there is room.
pub fn list_all(nodes: &mut [u16])
    requires { length nodes.old ≤ 65536 }
    ensures { nodes.new ≡ all_nodes (length nodes.old) }
{
    for (v, node) in nodes.iter_mut().enumerate() {
        *node = v as u16;
    }
}
