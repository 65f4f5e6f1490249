// A step that is a change.
use crate::cells::change_cells;
use crate::record::{change_entry, change_field};
use codec::value::Value;
use protocol::records::Record;
use script::steps::Change;

// A change of the record, or of the cells from the first of these on.
pub fn change(change: Change, r: &mut Record, values: &[u8], cells: &mut [Value]) {
    match change {
        Change::Field(field, value) => change_field(r, field, value),
        Change::Entry(board, entry) => change_entry(r, board, entry),
        Change::Cells => change_cells(cells, values),
    }
}
