// The comparison of two second-edition patterns, and a shelf of them.
ghost use Rattle.std.specs.Prelude.{◌≡◌};
ghost use Rattle.call_shelf.specs.Compare.{which_number, order_number, comparing};
ghost use Rattle.call_shelf.specs.Shelf.{shelving};
ghost use Rattle.heronditch.specs.Host.{host_compare, host_shelf};

use call_shelf::compare::{FileRefusal, Which};
use heronditch_reply::{HostReply, of_number, refused};
use std::cmp::Ordering;

// The same as a reply without values, with which of the two files is meant (1 the first, 2 the second) and the order
// found (1 less, 2 equal, 3 greater).
#[repr(C)]
#[derive(Clone, Copy)]
pub struct Comparison {
    pub number: u32,
    pub file: u32,
    pub which: u32,
    pub order: u32,
}

// The number that stands for one of two files. (No `From` here and below: the enums are other crates'.)
fn which_number(which: Which) -> u32
    ensures { result ≡ which_number which }
{
    match which {
        Which::First => 1,
        Which::Second => 2,
    }
}

// The number that stands for an order.
fn order_number(order: Ordering) -> u32
    ensures { result ≡ order_number order }
{
    match order {
        Ordering::Less => 1,
        Ordering::Equal => 2,
        Ordering::Greater => 3,
    }
}

fn of_compare(answer: Result<Ordering, FileRefusal>) -> Comparison
    ensures { result ≡ host_compare answer }
{
    match answer {
        Ok(order) => Comparison {
            number: 0,
            file: 0,
            which: 0,
            order: order_number(order),
        },
        Err(x) => {
            let reply = refused(x.refusal);
            Comparison {
                number: reply.number,
                file: reply.file,
                which: which_number(x.which),
                order: 0,
            }
        }
    }
}

// Compares the circuits of two second-edition patterns; which of the two a refusal means is told beside it.
#[unsafe(no_mangle)]
pub extern "C" fn heronditch_compare(first: &[u8], second: &[u8]) -> Comparison
    ensures { result ≡ host_compare (comparing first.now second.now) }
{
    of_compare(call_shelf::compare::compare(first, second))
}

// Puts a shelf of second-edition patterns in order, by their numbers; those that are refused are passed over. Replies
// with how many are accepted.
#[unsafe(no_mangle)]
pub extern "C" fn heronditch_shelf(bytes: &[u8], lengths: &[u32], order: &mut [u8]) -> HostReply
    ensures { record { reply = result; out = order.new } ≡ host_shelf
        (shelving bytes.now lengths.now order.old) }
{
    of_number(call_shelf::shelf(bytes, lengths, order))
}
