// The grid: its dimensions, its cells by number and by coordinates, its rows, and the neighbours of a cell.
#![tactic(auto)]

ghost use Rattle.std.specs.Prelude.{◌≡◌, not, ◌&&◌, ℕ, ◌+◌, ◌-◌, ◌*◌, ◌/◌, ◌^◌, ◌≤◌, ◌<◌, leb, ltb};
ghost use Rattle.rules.specs.Cells.{cells, cell_at, coordinates, neighbour, only_if};
ghost use Rattle.rules.specs.Answers.{bad_limits, out_of};
ghost use Rattle.face.specs.Face.{number};
ghost use Rattle.util.specs.Grid.{inverse_of, Inverts, size_of, triple_of, cords_of, cell_in, Sides, Within, Starts};

use face::{Cell, Face};

// Width goes along x, height along y and length along z. They are any three numbers, as C lends them, and bad_limits tests them: so Within stays a clause.
#[derive(Clone, Copy, Debug, PartialEq, Eq)]
pub struct Dimensions {
    pub width: u32,
    pub height: u32,
    pub length: u32,
}

#[derive(Clone, Copy, Debug, PartialEq, Eq)]
pub struct Coordinates {
    pub x: u32,
    pub y: u32,
    pub z: u32,
}

// A row of cells: its first, and its y and z. It holds no dimensions, so that it starts a row of some stays a clause.
#[derive(Clone, Copy, Debug, PartialEq, Eq)]
pub struct Row {
    pub first: u32,
    pub y: u32,
    pub z: u32,
}

pub fn in_range(x: u32, bot: u32, top: u32) -> bool
    ensures { result ≡ (leb bot x && ltb x top) }
{
    (bot..top).contains(&x)
}

impl Dimensions {
    pub const MAX_SIDE: u32 = 1_024;

    pub const MAX_CELLS: u32 = 1_048_576;

    fn is_side(side: u32) -> bool
        ensures { result ≡ not (out_of side 1 1024) }
    {
        in_range(side, 1, Dimensions::MAX_SIDE + 1)
    }

    pub fn cell_count(self) -> u32
        requires { Sides (size_of self) }
        ensures { result ≡ cells (size_of self) }
    {
        self.height * self.length * self.width
    }

    // Takes any three numbers.
    pub fn bad_limits(self) -> bool
        ensures { result ≡ bad_limits (size_of self) }
    {
        if Dimensions::is_side(self.width)
            & Dimensions::is_side(self.height)
            & Dimensions::is_side(self.length)
        {
            Dimensions::MAX_CELLS < self.cell_count()
        } else {
            true
        }
    }
}

pub fn three_d_cords(cell: Cell, dims: Dimensions) -> Coordinates
    requires { Within (size_of dims) }
    ensures { triple_of result ≡ coordinates (size_of dims) cell.0 }
{
    let row = cell.0 / dims.width;
    Coordinates {
        x: cell.0 % dims.width,
        y: row / dims.length,
        z: row % dims.length,
    }
}

// 2³² over a width and a length, rounded up: what multiplies in place of a division. Of which sizes it is stays a clause: the scene has them.
#[derive(Clone, Copy, Debug, PartialEq, Eq)]
pub struct Inverse {
    pub width: u64,
    pub length: u64,
}

fn inverse_of(n: u32) -> u64
    requires { (1 ≤ n) × (n ≤ 1024) }
    ensures { result ≡ inverse_of n }
{
    (4_294_967_295 + u64::from(n)) / u64::from(n)
}

pub fn inverted(dims: Dimensions) -> Inverse
    requires { Sides (size_of dims) }
    ensures { Inverts (size_of dims) result }
{
    Inverse {
        width: inverse_of(dims.width),
        length: inverse_of(dims.length),
    }
}

// How often what was inverted goes into a number of cells.
fn goes_into(c: u32, inverse: u64) -> u32
    requires { (c < 1048576) × (inverse ≤ 8589934592) }
    ensures { (n : ℕ) → 1 ≤ n → n ≤ 1024 → inverse ≡ inverse_of n → result ≡ c / n }
{
    (u64::from(c) * inverse / 4_294_967_296) as u32
}

// The coordinates of a cell, without a division.
pub fn cords_of(cell: Cell, dims: Dimensions, inverse: Inverse) -> Coordinates
    requires { Within (size_of dims) × (cell.0 < cells (size_of dims)) × Inverts (size_of dims) inverse }
    ensures { triple_of result ≡ coordinates (size_of dims) cell.0 }
{
    let row = goes_into(cell.0, inverse.width);
    let y = goes_into(row, inverse.length);
    Coordinates {
        x: cell.0 - row * dims.width,
        y,
        z: row - y * dims.length,
    }
}

pub fn one_d_cords(cords: Coordinates, dims: Dimensions) -> Cell
    requires { Within (size_of dims) × (cords.x < dims.width) × (cords.y < dims.height) × (cords.z < dims.length) }
    ensures { result.0 ≡ cell_at (size_of dims) cords.x cords.y cords.z }
{
    Cell(cords.y * dims.length * dims.width + cords.z * dims.width + cords.x)
}

// The cell that lies `step` cells on, unless the coordinate along that axis is the last.
fn ahead(cell: u32, step: u32, at: u32, size: u32) -> Option<Cell>
    requires { (cell + step < 2 ^ 32) × (at + 1 < 2 ^ 32) }
    ensures { cell_in result ≡ only_if (ltb (at + 1) size) (cell + step) }
{
    if at + 1 < size {
        Some(Cell(cell + step))
    } else {
        None
    }
}

// The cell that lies `step` cells back, unless the coordinate along that axis is 0.
fn behind(cell: u32, step: u32, at: u32) -> Option<Cell>
    requires { 0 < at → step ≤ cell }
    ensures { cell_in result ≡ only_if (ltb 0 at) (cell - step) }
{
    if 0 < at {
        Some(Cell(cell - step))
    } else {
        None
    }
}

impl Row {
    // The row after it, in its layer or the next.
    pub fn next(self, dims: Dimensions) -> Row
        requires { Within (size_of dims) × Starts (size_of dims) self.first self.y self.z }
        ensures { (result.first ≡ self.first + dims.width) × (cords_of 0 result.y result.z ≡ coordinates (size_of dims) result.first) }
    {
        let first = self.first + dims.width;
        if self.z + 1 < dims.length {
            return Row {
                first,
                y: self.y,
                z: self.z + 1,
            };
        }
        Row {
            first,
            y: self.y + 1,
            z: 0,
        }
    }
}

// The neighbour of a cell whose coordinates are known.
pub fn neighbor_at(cell: Cell, at: Coordinates, face: Face, dims: Dimensions) -> Option<Cell>
    requires { Within (size_of dims) × (cell.0 < cells (size_of dims)) × (triple_of at ≡ coordinates (size_of dims) cell.0) }
    ensures { cell_in result ≡ neighbour (size_of dims) cell.0 (number face) }
{
    let row = dims.width;
    let layer = dims.length * row;
    match face {
        Face::Top => ahead(cell.0, layer, at.y, dims.height),
        Face::Bottom => behind(cell.0, layer, at.y),
        Face::Right => ahead(cell.0, 1, at.x, dims.width),
        Face::Left => behind(cell.0, 1, at.x),
        Face::Back => ahead(cell.0, row, at.z, dims.length),
        Face::Forward => behind(cell.0, row, at.z),
    }
}

pub fn get_neighbor(cell: Cell, face: Face, dims: Dimensions) -> Option<Cell>
    requires { Within (size_of dims) × (cell.0 < cells (size_of dims)) }
    ensures { cell_in result ≡ neighbour (size_of dims) cell.0 (number face) }
{
    neighbor_at(cell, three_d_cords(cell, dims), face, dims)
}
