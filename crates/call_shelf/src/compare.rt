// Comparing the circuits of two second-edition pattern files.
ghost use Rattle.std.specs.Prelude.{◌≡◌};
ghost use Rattle.file_format.specs.declared.Role.TheVariants as role;
ghost use Rattle.file_format.specs.Refusals.{first, file_conditions};
ghost use Rattle.file_format.specs.Reply.{verdict_of};
ghost use Rattle.order.specs.Files.{second_edition};
ghost use Rattle.call_shelf.specs.Compare.{comparing};

use file_format::{Edition, Pattern, Refusal, Role};
use file_read::load;
use order::files::compare_fields;
use std::cmp::Ordering;

// Which of two files is meant: both are patterns.
#[derive(Clone, Copy)]
pub enum Which {
    First,
    Second,
}

// Why one of two files was turned away, and which.
#[derive(Clone, Copy)]
pub struct FileRefusal {
    pub refusal: Refusal,
    pub which: Which,
}

// Whether a file is accepted as a pattern of the second edition, or why it was turned away.
pub fn judge(file: &[u8]) -> Result<(), Refusal>
    ensures { verdict_of result ≡ first (file_conditions role.Pattern (second_edition file.now)) }
{
    let mut labels = [0u32; Pattern::MAX_NODES];
    let mut starts = [0u16; Pattern::MAX_LINKS];
    let mut ends = [0u16; Pattern::MAX_LINKS];
    load(
        Role::Pattern,
        Edition::Second,
        file,
        &mut labels,
        &mut starts,
        &mut ends,
    )?;
    Ok(())
}

// Compares the circuits of two second-edition pattern files: how they rank. The first file's refusal comes before the
// second's.
pub fn compare(first: &[u8], second: &[u8]) -> Result<Ordering, FileRefusal>
    ensures { result ≡ comparing first.now second.now }
{
    if let Err(refusal) = judge(first) {
        return Err(FileRefusal {
            refusal,
            which: Which::First,
        });
    }
    if let Err(refusal) = judge(second) {
        return Err(FileRefusal {
            refusal,
            which: Which::Second,
        });
    }
    Ok(compare_fields(first, second))
}
