//! The squares of a rank.

ghost use Rattle.std.specs.Prelude.{◌≡◌, IfSome, IfNone, None, replicate};
ghost use Rattle.chess_fen.specs.ties.Runs.{RankIsRead, NoRankIsRead};

use crate::letters::run_of;
use chess_base::Man;

// Reads the eight squares of a rank, from file a to file h, as by `4P3`, into `row`, whose squares are still empty.
// Returns the text after them; `None` if no eight squares are at the front of the text.
pub(crate) fn read_rank<'t>(text: &'t [u8], row: &mut [Option<Man>]) -> Option<&'t [u8]>
    requires empty { row.old ≡ replicate 8 None }
    ensures read { IfSome result (λ rest. RankIsRead text.now row.new rest.now) }
    ensures none { IfNone result (NoRankIsRead text.now) }
{
    let mut file = 0;
    for (index, &byte) in text.iter().enumerate() {
        let run = run_of(byte);
        row[file] = run.first;
        file += run.squares as usize;
        if file >= 8 {
            return if file == 8 {
                Some(text.split_at(index + 1).1)
            } else {
                None
            };
        }
    }
    None
}
