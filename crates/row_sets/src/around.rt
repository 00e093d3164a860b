// A row of cells and the four rows beside it.
ghost use Rattle.std.specs.Prelude.{◌≡◌, true};
ghost use Rattle.face.specs.Face.{number};
ghost use Rattle.util.specs.Grid.{size_of, Within, Starts};
ghost use Rattle.row_sets.specs.Around.{is_row_face, RowBeside, RowsOf};

use face::{Cell, Face, bit_if};
use util::{Coordinates, Dimensions, Row, neighbor_at};

// Where a row starts and the rows beside it start, and the sides that those are on. Where there is none, the row stands for it: it is read
// all the same and not kept, so that nothing branches, as on an Option.
#[derive(Clone, Copy)]
pub(crate) struct Around {
    pub at: usize,
    pub up: usize,
    pub down: usize,
    pub back: usize,
    pub forward: usize,
    pub sides: u8,
}

// Where the row beside a row starts, or the row itself where there is none.
fn row_beside(dims: Dimensions, row: Row, face: Face) -> usize
    requires { Within (size_of dims) × Starts (size_of dims) row.first row.y row.z }
    ensures { is_row_face (number face) ≡ true → RowBeside (size_of dims) row.first (number face) result }
{
    let at = Coordinates {
        x: 0,
        y: row.y,
        z: row.z,
    };
    match neighbor_at(Cell(row.first), at, face, dims) {
        Some(cell) => cell.0 as usize,
        None => row.first as usize,
    }
}

pub(crate) fn rows_around(dims: Dimensions, row: Row) -> Around
    requires { Within (size_of dims) × Starts (size_of dims) row.first row.y row.z }
    ensures { RowsOf (size_of dims) result × (result.at ≡ row.first) }
{
    let at = row.first as usize;
    let up = row_beside(dims, row, Face::Top);
    let down = row_beside(dims, row, Face::Bottom);
    let back = row_beside(dims, row, Face::Back);
    let forward = row_beside(dims, row, Face::Forward);
    let sides = bit_if(up != at, 1)
        + bit_if(down != at, 2)
        + bit_if(back != at, 16)
        + bit_if(forward != at, 32);
    Around {
        at,
        up,
        down,
        back,
        forward,
        sides,
    }
}
