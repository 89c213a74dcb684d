// Boards kept as bytes, 24 for each, as C and Rust keep them: specs/Boards.antt has the offsets.
#![tactic(auto)]

ghost use Rattle.std.specs.Prelude.{◌≡◌, [], ◌∷◌, ◌+◌, ◌*◌, ◌≤◌, length};
ghost use Rattle.boards_layout.specs.Boards.{board_from, boards_from, boards_bytes};

use boards::NO_BOARD;
use layout::store_words;
use settings::Board;
use word::bytes::load_at;

// The board at a place.
fn load_board(bytes: &[u8], place: usize) -> Board
    requires { place + 24 ≤ length bytes.now }
    ensures { result ≡ board_from bytes.now place }
{
    Board {
        size: load_at(bytes, place, 8),
        version: load_at(bytes, place + 8, 8),
        misaligned: load_at(bytes, place + 16, 8),
    }
}

// The first sixteen boards, or all if there are fewer.
pub fn load_boards(bytes: &[u8], count: usize) -> [Board; 16]
    requires { 24 * count ≤ length bytes.now }
    ensures { result ≡ boards_from bytes.now count }
{
    let mut boards = [NO_BOARD; 16];
    // By index: of what an adapter of iter_mut() goes over std promises nothing afterwards.
    for k in 0..count.min(16) {
        boards[k] = load_board(bytes, 24 * k);
    }
    boards
}

// The three numbers of a board.
fn board_words(board: Board) -> [u64; 3]
    ensures { result ≡ board.size ∷ board.version ∷ board.misaligned ∷ [] }
{
    [board.size, board.version, board.misaligned]
}

// Writes sixteen boards.
pub fn store_boards(bytes: &mut [u8], boards: [Board; 16])
    requires { length bytes.old ≡ 384 }
    ensures { bytes.new ≡ boards_bytes boards }
{
    for (k, &board) in boards.iter().enumerate() {
        store_words(bytes, 24 * k, &board_words(board));
    }
}
