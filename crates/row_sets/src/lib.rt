// The side sets of a row of cells: by bytes, sixteen cells at a time, where the types there are plainly clear or full; else cell by cell.
#![tactic(auto)]

ghost use Rattle.std.specs.Prelude.{◌≡◌, true, List, ℕ, ◌+◌, ◌≤◌, ◌<◌, length, get_or};
ghost use Rattle.face.specs.Face.{number};
ghost use Rattle.util.specs.Grid.{size_of, Starts};
ghost use Rattle.culling.specs.Culling.{outer_set, RowShown};
ghost use Rattle.row_sets.specs.Plainly.{Plain};
ghost use Rattle.row_sets.specs.Around.{RowsOf};
ghost use Rattle.row_sets.specs.Rows.{PlainAround, code_of, plain_set, plain_in, PlainRow, Beside};

use around::{Around, rows_around};
use culling::row_by_cells;
use face::{Face, bit_if, side_set};
pub use look::{Look, clear_types, full_from, sides_along};
use util::Row;

mod around; // around.rt: a row and the rows beside it
mod look; // look.rt: what is the same for every row of a call

// The codes of the cells beside a cell.
#[derive(Clone, Copy)]
struct Codes {
    up: u8,
    down: u8,
    right: u8,
    left: u8,
    back: u8,
    forward: u8,
}

impl Codes {
    fn at(self, face: Face) -> u8
        ensures { result ≡ code_of self (number face) }
    {
        match face {
            Face::Top => self.up,
            Face::Bottom => self.down,
            Face::Right => self.right,
            Face::Left => self.left,
            Face::Back => self.back,
            Face::Forward => self.forward,
        }
    }
}

// The side set of a cell by its code and those beside it, with no branch, so that it can be done for many cells at once. There are cells on the sides in `keep`.
fn plain_set(own: u8, codes: Codes, keep: u8, outer: u8, full: u8) -> u8
    requires { (keep < 64) × (outer < 64) }
    ensures { result ≡ plain_set full keep outer own (code_of codes) }
{
    let open = side_set(|face| codes.at(face) < full);
    let edge = 63 - (keep | outer);
    bit_if(full <= own, (open & keep) | edge)
}

// A row to draw, and the rows beside it.
#[derive(Clone, Copy)]
struct Rows<'a> {
    look: Look<'a>,
    around: Around,
    ghost are: { RowsOf (size_of look.ground.dims) around },
}

impl Rows<'_> {
    fn width(self) -> usize
        ensures { result ≡ self.entry.look.ground.dims.width }
    {
        self.look.ground.dims.width as usize
    }

    // The side set of a cell of the row, its neighbours in the row given.
    fn cell_set(self, x: usize, right: usize, left: usize) -> u8
        requires { Beside (size_of self.look.ground.dims) self.around x right left }
        ensures { result ≡ plain_in self.entry.look self.entry.around x }
    {
        let grid = self.look.ground.grid;
        let codes = Codes {
            up: grid[self.around.up + x],
            down: grid[self.around.down + x],
            right: grid[right],
            left: grid[left],
            back: grid[self.around.back + x],
            forward: grid[self.around.forward + x],
        };
        let keep = self.around.sides + self.look.along[x];
        plain_set(
            grid[self.around.at + x],
            codes,
            keep,
            self.look.outer,
            self.look.full,
        )
    }

    // The side set of any cell of the row. A neighbour that is not there is read as the cell itself.
    fn lone_set(self, x: usize) -> u8
        requires { x < self.look.ground.dims.width }
        ensures { result ≡ plain_in self.entry.look self.entry.around x }
    {
        let here = self.around.at + x;
        let right = here + usize::from(x + 1 < self.width());
        let left = here - usize::from(0 < x);
        self.cell_set(x, right, left)
    }

    // The side sets of sixteen cells of the row, apart from the list they go to: so they are done at once. The cells before and after them are read even where
    // they are of another row, and then not kept.
    fn block_of(self, x: usize) -> [u8; 16]
        requires { (0 < self.around.at) × (x + 16 ≤ self.look.ground.dims.width) × (self.around.at + self.look.ground.dims.width < length self.look.ground.grid.now) }
        ensures { (i : ℕ) → i < 16 → get_or result i 0 ≡ plain_in self.entry.look self.entry.around (x + i) }
    {
        let mut block: [u8; 16] = [0; 16];
        for i in 0..16 {
            let on = x + i;
            let here = self.around.at + on;
            block[i] = self.cell_set(on, here + 1, here - 1);
        }
        block
    }
}

fn store_block(sets: &mut [u8], x: usize, block: [u8; 16])
    requires { x + 16 ≤ length sets.old }
    ensures { (length sets.new ≡ length sets.old)
        × ((k : ℕ) → k < x → get_or sets.new k 0 ≡ get_or sets.old k 0)
        × ((i : ℕ) → i < 16 → get_or sets.new (x + i) 0 ≡ get_or block i 0) }
{
    sets[x..x + 16].copy_from_slice(&block);
}

// Where the next block starts: at x, or so that it ends with the row.
fn block_start(x: usize, end: usize) -> usize
    requires { (x < end) × (16 ≤ end) × (end ≤ 1024) }
    ensures { (result ≤ x) × (x < result + 16) × (result + 16 ≤ end) }
{
    x.min(end - 16)
}

// Whether a row has room for a block, and the grid has cells before and after the row.
fn has_blocks(at: usize, width: usize, cells: usize) -> bool
    requires { (at ≤ 1048576) × (width ≤ 1024) }
    ensures { result ≡ true → (16 ≤ width) × (0 < at) × (at + width < cells) }
{
    (16 <= width) & (0 < at) & (at + width < cells)
}

// The side sets of a row, sixteen cells at a time. The last block goes over cells of the one before it, so no range or `chunks` steps as x does.
fn block_row(sets: &mut [u8], rows: Rows<'_>)
    requires { (rows.look.ground.dims.width ≤ length sets.old)
        × (16 ≤ rows.look.ground.dims.width) × (0 < rows.around.at) × (rows.around.at + rows.look.ground.dims.width < length rows.look.ground.grid.now) }
    ensures { PlainRow rows.entry.look rows.entry.around sets.new }
{
    let width = rows.width();
    let mut x: usize = 0;
    while x < width {
        let start = block_start(x, width);
        let block = rows.block_of(start);
        store_block(sets, start, block);
        x = start + 16;
    }
}

// The side sets of a row whose codes and whose neighbours' are all plain. One that has no room for a block, and the grid's first and last, go a cell at a time.
fn plain_row(sets: &mut [u8], rows: Rows<'_>)
    requires { rows.look.ground.dims.width ≤ length sets.old }
    ensures { PlainRow rows.entry.look rows.entry.around sets.new }
{
    let width = rows.width();
    if has_blocks(rows.around.at, width, rows.look.ground.grid.len()) {
        block_row(sets, rows);
        return;
    }
    for x in 0..width {
        sets[x] = rows.lone_set(x);
    }
}

// Whether each of n codes is plainly clear or full. The loop goes on to the end, so that many are tested at once.
fn are_plain(look: Look<'_>, at: usize) -> bool
    requires { at + look.ground.dims.width ≤ length look.ground.grid.now }
    ensures { result ≡ true → (k : ℕ) → k < look.entry.ground.dims.width → Plain look.entry.clear look.entry.full (get_or look.entry.ground.grid.now (at + k) 0) }
{
    let n = look.ground.dims.width as usize;
    let mut plain = true;
    for code in &look.ground.grid[at..at + n] {
        plain = plain & ((*code < look.clear) | (look.full <= *code));
    }
    plain
}

// Whether the codes of a row and of the rows beside it are plain.
fn is_plain_row(rows: Rows<'_>) -> bool
    ensures { result ≡ true → PlainAround rows.entry.look rows.entry.around }
{
    let look = rows.look;
    if look.full <= look.clear {
        return true;
    }
    if !are_plain(look, rows.around.at) {
        return false;
    }
    are_plain(look, rows.around.up)
        & are_plain(look, rows.around.down)
        & are_plain(look, rows.around.back)
        & are_plain(look, rows.around.forward)
}

// The side sets of a row of cells.
pub fn drawn_row(sets: &mut [u8], look: Look<'_>, row: Row)
    requires { Starts (size_of look.ground.dims) row.first row.y row.z × (look.ground.dims.width ≤ length sets.old) }
    ensures { (faces : List ℕ) → look.entry.outer ≡ outer_set faces
        → RowShown (size_of look.entry.ground.dims) look.entry.ground.kinds.now look.entry.ground.covers.now faces look.entry.ground.grid.now row.first sets.new }
{
    let around = rows_around(look.ground.dims, row);
    let rows = Rows { look, around };
    if is_plain_row(rows) {
        plain_row(sets, rows);
        return;
    }
    row_by_cells(sets, look.ground, look.outer, row);
}
