// Which sides of a cell culling draws, as a side set, and those of a row of cells one by one.
#![tactic(auto)]

ghost use Rattle.std.specs.Prelude.{◌≡◌, List, ℕ, ◌≤◌, ◌<◌, length, get_or};
ghost use Rattle.rules.specs.Cells.{cells, set_of, coordinates};
ghost use Rattle.rules.specs.Mesh.{drawn};
ghost use Rattle.face.specs.Face.{number};
ghost use Rattle.util.specs.Grid.{size_of, triple_of, Starts};
ghost use Rattle.culling.specs.Culling.{world_of, outer_set, shown_at, Whole, RowShown};

use face::{Cell, Face, bit_if, has, side_set};
use util::{Coordinates, Dimensions, Row, neighbor_at};

// A whole grid, whose codes are types, with the kind and the covering set of each type.
#[derive(Clone, Copy)]
pub struct Ground<'a> {
    pub dims: Dimensions,
    pub grid: &'a [u8],
    pub kinds: &'a [u8],
    pub covers: &'a [u8],
    ghost whole: { Whole (size_of dims) grid.now (length covers.now) },
    ghost both: { length covers.now ≡ length kinds.now },
}

// The faces of the outer list.
pub fn outer_set(outer: &[u8]) -> u8
    requires { (i : ℕ) → i < length outer.now → get_or outer.now i 0 ≤ 5 }
    ensures { result ≡ outer_set outer.now }
{
    let mut set: u8 = 0;
    for face in outer {
        set = set | (1 << *face);
    }
    set
}

// Whether the neighbour leaves the side to be seen, or the outer list at the grid's edge.
fn is_shown(ground: Ground<'_>, outer: u8, cell: Cell, at: Coordinates, face: Face) -> bool
    requires { (cell.0 < cells (size_of ground.dims)) × (triple_of at ≡ coordinates (size_of ground.dims) cell.0) }
    ensures { (faces : List ℕ) → outer ≡ outer_set faces → result ≡ shown_at (size_of ground.entry.dims) ground.entry.covers.now faces ground.entry.grid.now cell.0 (number face) }
{
    match neighbor_at(cell, at, face, ground.dims) {
        Some(beside) => {
            let code = ground.grid[beside.0 as usize];
            let facing = face.opposite();
            !has(ground.covers[usize::from(code)], facing)
        }
        None => !has(outer, face),
    }
}

// The sides of a cell that culling draws. The kind is no branch: among mixed types it would be guessed wrong.
fn drawn_set(ground: Ground<'_>, outer: u8, cell: Cell, at: Coordinates) -> u8
    requires { (cell.0 < cells (size_of ground.dims)) × (triple_of at ≡ coordinates (size_of ground.dims) cell.0) }
    ensures { (faces : List ℕ) → outer ≡ outer_set faces → result ≡ set_of (drawn (world_of (size_of ground.entry.dims) ground.entry.kinds.now ground.entry.covers.now) faces ground.entry.grid.now cell.0) }
{
    let code = ground.grid[cell.0 as usize];
    let shown = side_set(|face| is_shown(ground, outer, cell, at, face));
    bit_if(ground.kinds[usize::from(code)] == 1, shown)
}

// The side sets of a row, cell by cell.
pub fn row_by_cells(sets: &mut [u8], ground: Ground<'_>, outer: u8, row: Row)
    requires { Starts (size_of ground.dims) row.first row.y row.z × (ground.dims.width ≤ length sets.old) }
    ensures { (faces : List ℕ) → outer ≡ outer_set faces → RowShown (size_of ground.entry.dims) ground.entry.kinds.now ground.entry.covers.now faces ground.entry.grid.now row.first sets.new }
{
    for x in 0..ground.dims.width {
        let at = Coordinates {
            x,
            y: row.y,
            z: row.z,
        };
        sets[x as usize] = drawn_set(ground, outer, Cell(row.first + x), at);
    }
}
