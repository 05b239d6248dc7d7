//! What is saved of the cells of a net.
//!
//! Until cells are saved or a limit changes, that is the limits with no flow, and the memory for it isn't touched.
ghost use Rattle.std.specs.Prelude.{◌≡◌, ◌≤◌, length, vec_capacity};
ghost use Rattle.residual_net.specs.Start.{saved_cells};

use crate::place::Cell;

/// Writes what is saved, where it isn't written yet.
pub fn write_saved(saved: &mut Vec<Cell>, cells: &[Cell], is_saved: bool)
    requires { length cells.now ≤ vec_capacity saved.old }
    ensures saved { saved.new.items ≡ saved_cells is_saved cells.now saved.old.items }
    ensures capacity { vec_capacity saved.new ≡ vec_capacity saved.old }
{
    if is_saved {
        return;
    }
    saved.clear();
    for cell in cells {
        let limit = cell.limit;
        saved.push_reserved(Cell { flow: 0, limit });
    }
}

/// Saves cells in place of those that were saved, if any were.
pub fn save_cells(saved: &mut Vec<Cell>, cells: &[Cell])
    requires room { length cells.now ≤ vec_capacity saved.old }
    ensures saved { saved.new.items ≡ cells.now }
    ensures capacity { vec_capacity saved.old ≤ vec_capacity saved.new }
{
    saved.clear();
    if saved.extend_from_slice(cells).is_err() {
        unreachable!()
    }
}
