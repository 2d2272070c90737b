// What the parts of a set drive, and what drives them, from the pattern's masks. (Two functions: a direction told to one
// would be a constant at every call, and the masks have two names in the specs, `succ_of` and `pred_of`.)
ghost use Rattle.std.specs.Prelude.{◌≡◌, length};
ghost use Rattle.base_bits.specs.Bits.{union_over};
ghost use Rattle.table.specs.Prepared.{succ_of, pred_of};

// The parts that some part of the set drives.
pub fn driven_parts(masks: &[u32], set: u32) -> u32
    requires { length masks.now ≡ 64 }
    ensures { result ≡ union_over (succ_of masks.now) set }
{
    base_bits::union_of(&masks[..32], set)
}

// The parts that drive some part of the set.
pub fn driving_parts(masks: &[u32], set: u32) -> u32
    requires { length masks.now ≡ 64 }
    ensures { result ≡ union_over (pred_of masks.now) set }
{
    base_bits::union_of(&masks[32..64], set)
}
