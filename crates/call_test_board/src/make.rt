// The file of a test board.
ghost use Rattle.std.specs.Prelude.{◌≤◌, length};
ghost use Rattle.file_format.specs.declared.Edition.TheVariants as editions;
ghost use Rattle.file_format.specs.Layout.{length_of};
ghost use Rattle.test_board.specs.Board.{InRange};
ghost use Rattle.call_test_board.specs.Call.{MadeFrom};

use file_format::{Board, Role};
use test_board::draw_test_board;
use test_board_links::collect_links;

// Draws a test board and writes its file to the front of bytes that have room for the file of as many links as are
// drawn: the file's length. A test board is a board, so that writing it is not refused.
pub fn make(seed: u32, n: usize, m: usize, k: usize, out: &mut [u8]) -> usize
    requires { InRange n m k × (length_of editions.First n m ≤ length out.old) }
    ensures { MadeFrom seed n m k result out.old out.new }
{
    let mut kinds = [0u16; Board::MAX_NODES];
    let mut starts = [0u16; Board::MAX_LINKS];
    let mut ends = [0u16; 2 * Board::MAX_LINKS];
    draw_test_board(seed, n, m, k, &mut kinds, &mut ends);
    let links = collect_links(n, m, &mut starts, &mut ends);
    let written = file_write::write_first(
        Role::Board,
        &kinds[..n],
        &starts[..links],
        &ends[..links],
        out,
    );
    written.unwrap()
}
