// Sets of pattern parts as 32-bit numbers: part u is in the set when bit u is 1.
#![tactic(auto)]

ghost use Rattle.std.specs.Prelude.{◌≡◌, ◌^◌, ◌<◌, length};
ghost use Rattle.base_lists.specs.List.{Below};
ghost use Rattle.base_bits.specs.Bits.{bit, subset_of, intersects, first_of, without_first, size_of, union_at};
ghost use Rattle.base_bits.specs.Bits.{union_over};

// Whether part u is in the set.
pub fn has(set: u32, u: u32) -> bool
    requires { u < 32 }
    ensures { result ≡ bit set u }
{
    (set >> u) % 2 == 1
}

// The set of part u alone.
pub fn single(u: u32) -> u32
    requires { u < 32 }
    ensures { result ≡ 2 ^ u }
{
    1 << u
}

// Whether every part of a is in b.
pub fn subset(a: u32, b: u32) -> bool
    ensures { result ≡ subset_of a b }
{
    a & b == a
}

// Whether some part is in both.
pub fn meets(a: u32, b: u32) -> bool
    ensures { result ≡ intersects a b }
{
    a & b != 0
}

// The least part of the set, 32 where it is empty.
pub fn first(set: u32) -> u32
    ensures { result ≡ first_of set }
{
    set.trailing_zeros()
}

// The set without its least part.
pub fn without_first(set: u32) -> u32
    requires { 0 < set }
    ensures { result ≡ without_first set }
{
    set & (set - 1)
}

// How many parts the set has.
pub fn size(set: u32) -> u32
    ensures { result ≡ size_of set }
{
    set.count_ones()
}

// The union of masks[u] over the parts u of the set, each of which has a mask.
pub fn union_of(masks: &[u32], set: u32) -> u32
    requires { set < 2 ^ length masks.now }
    ensures { result ≡ union_over masks.now set }
{
    let mut union: u32 = 0;
    let mut left = set;
    // A while: it goes by the parts that are left, and not by a counter.
    while left != 0 {
        union |= masks[left.trailing_zeros() as usize];
        left &= left - 1;
    }
    union
}

// The union of sets[w] over the numbers w of a list.
pub fn union_at(sets: &[u32], numbers: &[u16]) -> u32
    requires { Below (length sets.now) numbers.now }
    ensures { result ≡ union_at sets.now numbers.now }
{
    let mut union: u32 = 0;
    for &w in numbers {
        union |= sets[w as usize];
    }
    union
}
