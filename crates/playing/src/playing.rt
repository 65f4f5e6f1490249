// Playing a sheet.
ghost use Rattle.std.specs.Prelude.{◌≡◌};
ghost use Rattle.codec.specs.Codec.{current};
ghost use Rattle.protocol.specs.Answers.{played_says};
ghost use Rattle.sheet.specs.Playing.{playing};

use codec::value::Value;
use printer::printing::print_boards;
use protocol::answers::Refused;
use protocol::limits::{CELLS, OUTPUT, SHEET};
use reader::reading::{Sheet, read_sheet};
use refusals::refusal::Refusal;
use session::rounds::play_rounds;

// Playing a sheet: 20, 17, 11, then line by line.
pub fn play(text: &[u8], cells: &mut [Value], out: &mut [u8]) -> Result<usize, Refused>
    ensures { record { answer = played_says result; cells = cells.new; out = out.new } ≡ playing current text.now cells.old out.old }
{
    if SHEET < text.len() {
        return Err(Refused {
            why: Refusal::LongSheet,
            line: 0,
        });
    }
    if out.len() < OUTPUT {
        return Err(Refused {
            why: Refusal::ShortOutput,
            line: 0,
        });
    }
    if cells.len() < CELLS {
        return Err(Refused {
            why: Refusal::ShortCells,
            line: 0,
        });
    }
    match read_sheet(text) {
        Ok(Sheet { head, frames }) => {
            let records = play_rounds(head, frames, cells);
            Ok(print_boards(head, records, out))
        }
        Err(refused) => Err(Refused {
            why: refused.why,
            line: refused.line as u16,
        }),
    }
}
