// The conditions 4 and 5 on links: each end is a node, and the links rise. Nothing is written.
#![tactic(auto)]

ghost use Rattle.std.specs.Prelude.{◌≡◌, ltb, length};
ghost use Rattle.base_lists.specs.List.{all};
ghost use Rattle.file_format.specs.Links.{packed, numbers_rise};
ghost use Rattle.file_format.specs.Refusals.{by_number, link_order_number};
ghost use Rattle.file_format.specs.Reply.{verdict_of};

use file_format::{Refusal, Role};
use file_role::refusal;

// Each number is below n: the greatest is. (All are looked at, so that the compiler looks at several at a time.)
fn all_below(numbers: &[u16], n: usize) -> bool
    ensures { result ≡ all (λ v. ltb v n) numbers.now }
{
    match numbers.iter().copied().max() {
        Some(most) => (most as usize) < n,
        None => true,
    }
}

// One number of a link: its start times 65,536 plus its end.
fn number_of(start: u16, end: u16) -> u32
    ensures { result ≡ packed start end }
{
    start as u32 * 65536 + end as u32
}

// The links rise strictly: the number of each is below that of the next. Each is made once, and compared once with the
// one before.
fn links_rise(starts: &[u16], ends: &[u16]) -> bool
    requires { length starts.now ≡ length ends.now }
    ensures { result ≡ numbers_rise starts.now ends.now }
{
    if starts.len() == 0 {
        return true;
    }
    let mut last = number_of(starts[0], ends[0]);
    for i in 1..starts.len() {
        let next = number_of(starts[i], ends[i]);
        if next <= last {
            return false;
        }
        last = next;
    }
    true
}

// 4 or 5, the first that the links of a circuit in a role give.
pub fn check_order(role: Role, n: usize, starts: &[u16], ends: &[u16]) -> Result<(), Refusal>
    requires { length starts.now ≡ length ends.now }
    ensures { verdict_of result ≡ by_number role (link_order_number n starts.now ends.now) }
{
    if !all_below(starts, n) {
        return Err(refusal(role, 4));
    }
    if !all_below(ends, n) {
        return Err(refusal(role, 4));
    }
    if !links_rise(starts, ends) {
        return Err(refusal(role, 5));
    }
    Ok(())
}
