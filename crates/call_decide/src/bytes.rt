// What is decided of a place from elsewhere, by its centre and how many bytes it has.
ghost use Rattle.std.specs.Prelude.{◌≡◌};
ghost use Rattle.file_format.specs.Refusals.{first};
ghost use Rattle.file_format.specs.Reply.{verdict_of};
ghost use Rattle.call_decide.specs.Decide.{bytes_conditions};

use file_format::{File, OUTSIDE, Refusal};

// Bytes of another length than N or M, which mean neither file.
const OTHER_LENGTH: Refusal = Refusal {
    number: 3,
    file: File::Neither,
};

// The verdict on a proposal of so many node bytes and link bytes: 7 for the centre, then 3 for the bytes.
pub fn bytes_verdict(
    n: usize,
    m: usize,
    centre: usize,
    nodes: usize,
    links: usize,
) -> Result<(), Refusal>
    ensures { verdict_of result ≡ first (bytes_conditions n m centre nodes links) }
{
    if n <= centre {
        return Err(OUTSIDE);
    }
    if nodes != n {
        return Err(OTHER_LENGTH);
    }
    if links != m {
        return Err(OTHER_LENGTH);
    }
    Ok(())
}
