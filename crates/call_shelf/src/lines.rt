// The shelf's text: a line for each number.
ghost use Rattle.base_text.specs.Text.{Put, Fits};
ghost use Rattle.call_shelf.specs.Text.{line_of, shelf_text};

use base_text::put_byte;

// A number in two digits, and the end of the line.
fn put_line(x: u8, out: &mut [u8], at: usize) -> usize
    requires { Fits out.old at (line_of x) }
    ensures { Put out.old at (line_of x) out.new result }
{
    let tens = put_byte(48 + x / 10, out, at);
    let ones = put_byte(48 + x % 10, out, tens);
    put_byte(b'\n', out, ones)
}

// The lines of all numbers, one after another.
pub fn put_numbers(numbers: &[u8], out: &mut [u8]) -> usize
    requires { Fits out.old 0 (shelf_text numbers.now) }
    ensures { Put out.old 0 (shelf_text numbers.now) out.new result }
{
    let mut end = 0;
    for &number in numbers {
        end = put_line(number, out, end);
    }
    end
}
