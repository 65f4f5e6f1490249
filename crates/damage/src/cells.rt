// Changes of the cells.
use codec::value::{Value, value_at, value_count};

// The cells from a place on become these values; what does not fit is dropped.
pub fn change_cells(cells: &mut [Value], values: &[u8]) {
    for (i, cell) in cells.iter_mut().enumerate().take(value_count(values)) {
        *cell = value_at(values, i);
    }
}
