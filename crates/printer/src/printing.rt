// The lines of the boards, in uppercase hexadecimal.
ghost use Rattle.std.specs.Prelude.{◌≡◌, [], ◌+◌, ◌*◌, ◌≤◌, length};
ghost use Rattle.std.proofs.lemmas.List.Edits.{sets};
ghost use Rattle.codec.specs.Codec.{current, value_size};
ghost use Rattle.protocol.specs.Limits.{line_length};
ghost use Rattle.sheet.specs.Playing.{hex_value, printed};
ghost use Rattle.printer.specs.Printed.{healthy_line, board_lines, at_front};

use codec::value::{VALUE_SIZE, Value};
use digits::writing::print_byte;
use listing::listing::as_set;
use protocol::limits::{LINE, OUTPUT};
use protocol::records::Record;
use sets::boards::member;
use sheet::head::Head;
use tables::listed::held_at;

// A value as the digits of its bytes.
fn print_value(out: &mut [u8], at: usize, v: Value)
    requires { at + 2 * value_size current ≤ length out.old }
    ensures { out.new ≡ sets out.old at (hex_value current v []) }
{
    let [high, low] = v.to_be_bytes();
    print_byte(out, at, high);
    print_byte(out, at + 2, low);
}

// Where a line's decision stands, its list, its place, and its newline.
const DECISION: usize = 2;

const LIST: usize = DECISION + 2 * VALUE_SIZE;

const PLACE: usize = LIST + 2;

const NEWLINE: usize = LINE - 1;

// A board's line: its number, its decision, its list as a set, and the list's place.
#[derive(Clone, Copy)]
struct Line {
    board: u8,
    decision: Value,
    list: u8,
    place: u8,
}

impl Line {
    // The line of board i, which is outside F: the dealer has its own value, an empty list and place 0.
    fn of(head: Head, i: u8, r: Record) -> Line
        ensures { printed current result.board result.decision result.list result.place [] ≡ healthy_line head i r [] }
    {
        if i == head.plan.dealer {
            return Line {
                board: i,
                decision: head.word,
                list: 0,
                place: 0,
            };
        }
        let list = as_set(r.list);
        Line {
            board: i,
            decision: r.decision,
            list,
            place: held_at(head.plan, list),
        }
    }

    fn print(self, out: &mut [u8], at: usize)
        requires { at + line_length current ≤ length out.old }
        ensures { out.new ≡ sets out.old at (printed current self.board self.decision self.list self.place []) }
    {
        print_byte(out, at, self.board);
        print_value(out, at + DECISION, self.decision);
        print_byte(out, at + LIST, self.list);
        print_byte(out, at + PLACE, self.place);
        out[at + NEWLINE] = 10;
    }
}

// The lines of all boards outside F, rising; how many bytes.
pub fn print_boards(head: Head, records: [Record; 7], out: &mut [u8]) -> usize
    ensures { record { count = result; out = out.new } ≡ at_front (board_lines head records out.old) out.old }
{
    let n = head.plan.n;
    if 7 < n {
        return 0;
    }
    if out.len() < OUTPUT {
        return 0;
    }
    let mut used = 0;
    for i in 0..n {
        if !member(head.faulty, i) {
            Line::of(head, i, records[usize::from(i)]).print(out, used);
            used += LINE;
        }
    }
    used
}
