// Settings files read and written, with the boards as bytes.
ghost use Rattle.std.specs.Prelude.{◌≡◌};
ghost use Rattle.capi.specs.Boards.{SettingsRead, SettingsWritten};

use crate::BAD_SIZE;
use crate::steps::tell;
use boards::NO_BOARD;
use boards_layout::{load_boards, store_boards};
use word::bytes::store_le;

// A settings file read: sixteen boards, those that it has and zeros behind them.
pub fn floecavern_read_settings(file: &[u8], boards: &mut [u8], told: &mut [u8]) -> u64
    ensures { SettingsRead file.now boards.old told.old result boards.new told.new }
{
    if boards.len() != 384 || told.len() != 16 {
        return BAD_SIZE;
    }
    match boards::read_settings(file) {
        Ok(f) => {
            store_boards(boards, f.boards);
            tell(told, &[f.format as u64, f.count as u64]);
            0
        }
        Err(r) => {
            store_boards(boards, [NO_BOARD; 16]);
            tell(told, &[r.place as u64, 0]);
            512 + r.number
        }
    }
}

// The settings file of boards, 24 bytes each.
#[tactic(auto, using(crate::proofs::BoardLaws::small_written))]
pub fn floecavern_write_settings(boards: &[u8], out: &mut [u8], told: &mut [u8]) -> u64
    ensures { SettingsWritten boards.now out.old told.old result out.new told.new }
{
    if boards.len() % 24 != 0 || told.len() != 8 {
        return BAD_SIZE;
    }
    let count = boards.len() / 24;
    match boards::write_settings(count, load_boards(boards, count), out) {
        Ok(n) => {
            store_le(told, n as u64);
            0
        }
        Err(r) => {
            store_le(told, r.place as u64);
            512 + r.number
        }
    }
}
