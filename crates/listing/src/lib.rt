// The faces of a fresh mesh: the side sets of a row by either algorithm, how many quads they ask for, and their faces in the index and in a list.
#![tactic(auto)]

ghost use Rattle.std.specs.Prelude.{◌≡◌, false, List, ℕ, ◌+◌, ◌*◌, ◌%◌, ◌≤◌, ◌<◌, length, get_or};
ghost use Rattle.rules.specs.Cells.{cells, quads_of};
ghost use Rattle.face.specs.Face.{Ranked};
ghost use Rattle.drawing.specs.Written.{side_of};
ghost use Rattle.util.specs.Grid.{size_of, Starts};
ghost use Rattle.culling.specs.Culling.{world_of};
ghost use Rattle.listing.specs.Fresh.{set_at, faces_of, RowOf, sets_from, asked, cell_keys, keys_of, Roomy, Entered};

use culling::Ground;
use face::{Cell, Quad, bit_if, face_at, lowest_side, quads_of, rank};
use mesh_metadata::insert;
use row_sets::{Look, drawn_row};
use util::Row;

// All six sides of each NormalCube of a row.
fn cube_row(sets: &mut [u8], ground: Ground<'_>, first: u32)
    requires { (first + ground.dims.width ≤ cells (size_of ground.dims)) × (ground.dims.width ≤ length sets.old) }
    ensures { (covers outer : List ℕ) → RowOf (set_at false (world_of (size_of ground.entry.dims) ground.entry.kinds.now covers) outer ground.entry.grid.now) first ground.entry.dims.width sets.new }
{
    let at = first as usize;
    for x in 0..ground.dims.width as usize {
        let code = usize::from(ground.grid[at + x]);
        sets[x] = bit_if(ground.kinds[code] == 1, 63);
    }
}

// The sides of each cell of a row to draw. The algorithm is a flag: one branch a row.
pub fn side_row(sets: &mut [u8], look: Look<'_>, culling: bool, row: Row)
    requires { Starts (size_of look.ground.dims) row.first row.y row.z × (look.ground.dims.width ≤ length sets.old) }
    ensures { RowOf (set_at culling (world_of (size_of look.entry.ground.dims) look.entry.ground.kinds.now look.entry.ground.covers.now) (faces_of look.entry.outer) look.entry.ground.grid.now) row.first look.entry.ground.dims.width sets.new }
{
    if culling {
        drawn_row(sets, look, row);
        return;
    }
    cube_row(sets, look.ground, row.first);
}

// How many quads few sets ask for: a byte holds it, so that they are added up many at once.
fn quads_in_few(sets: &[u8]) -> u8
    requires { (length sets.now ≤ 32) × ((x : ℕ) → x < length sets.now → get_or sets.now x 0 < 64) }
    ensures { result ≡ asked (sets_from 0 sets.now) 0 (length sets.now) }
{
    let mut n: u8 = 0;
    for set in sets {
        n += quads_of(*set) as u8;
    }
    n
}

// How many quads the sets of a row ask for.
fn quads_in(sets: &[u8]) -> u32
    requires { (length sets.now ≤ 1024) × ((x : ℕ) → x < length sets.now → get_or sets.now x 0 < 64) }
    ensures { result ≡ asked (sets_from 0 sets.now) 0 (length sets.now) }
{
    let mut n: u32 = 0;
    for few in sets.chunks(32) {
        n += u32::from(quads_in_few(few));
    }
    n
}

// How many quads the cells ask for; `sets` is room for a row.
pub fn count_quads(look: Look<'_>, culling: bool, sets: &mut [u8]) -> usize
    requires { look.ground.dims.width ≤ length sets.old }
    ensures { result ≡ asked (set_at culling (world_of (size_of look.entry.ground.dims) look.entry.ground.kinds.now look.entry.ground.covers.now) (faces_of look.entry.outer) look.entry.ground.grid.now) 0 (cells (size_of look.entry.ground.dims)) }
{
    let dims = look.ground.dims;
    let width = dims.width as usize;
    let end = dims.cell_count();
    let mut n: usize = 0;
    let mut row = Row {
        first: 0,
        y: 0,
        z: 0,
    };
    // A row's first cell, y and z go on together (Row::next), so no range counts the rows.
    while row.first < end {
        side_row(sets, look, culling, row);
        n += quads_in(&sets[..width]) as usize;
        row = row.next(dims);
    }
    n
}

// The faces of a cell that are in its set, from the lowest on. Each goes at its rank past the first n of the row: into the index, where the row starts at
// `base`, and into the list of the row's faces, as a word that adds the face to `side`. Answers how many of the row there are then.
fn index_cell(
    links: &mut [u32],
    slots: &mut [u32],
    sides: &mut [u32],
    ranks: &[u8; 384],
    cell: Cell,
    set: u8,
    side: u32,
    base: usize,
    n: usize,
) -> usize
    requires { (cell.0 < 1048576) × (6 * cell.0 + 6 ≤ length slots.old) × (base + n + quads_of set ≤ length links.old) × (base + n + quads_of set ≤ 6291456)
        × (n + quads_of set ≤ length sides.old) × (set < 64) × (side < 2097152) × Ranked ranks.now }
    ensures { (result ≡ n + quads_of set) × Entered base (λ k. side + 1024 * (k % 6)) (cell_keys set cell.0)
        links.old slots.old sides.old links.new slots.new sides.new n result }
{
    let mut next = n;
    let mut rest = u32::from(set);
    // By the lowest side that is left: a `for` over all six would test and guess each.
    while rest != 0 {
        let f = lowest_side(rest);
        let face = face_at(f);
        let at = n + rank(ranks, set, face) as usize;
        insert(links, slots, face, cell, Quad((base + at) as u32));
        sides[at] = side + 1024 * f;
        next = at + 1;
        rest = rest & (rest - 1);
    }
    next
}

// The word of a cell's first face in the list of its row's faces: its type, and where along the row it is. It stays a word: the laws of the row's faces (`side_of`,
// `Side` in drawing) speak of it.
fn side_at(code: u8, x: usize) -> u32
    requires { x < 1024 }
    ensures { (result ≡ 6144 * code + x) × (result < 2097152) }
{
    6144 * u32::from(code) + x as u32
}

// The faces of a row's cells that are in their sets, into the index from place `base` on, and into the list of the row's faces. Answers how many there are.
pub fn index_row(
    links: &mut [u32],
    slots: &mut [u32],
    sides: &mut [u32],
    ranks: &[u8; 384],
    sets: &[u8],
    grid: &[u8],
    first: u32,
    base: usize,
) -> usize
    requires { Roomy first base sets.now (length links.old) (length slots.old) (length sides.old) × (first + length sets.now ≤ length grid.now) × Ranked ranks.now }
    ensures { (result ≡ asked (sets_from first sets.now) first (length sets.now))
        × Entered base (side_of grid.now first) (keys_of (sets_from first sets.now) first (length sets.now))
        links.old slots.old sides.old links.new slots.new sides.new 0 result }
{
    let start = first as usize;
    let mut n: usize = 0;
    for (x, set) in sets.iter().enumerate() {
        let side = side_at(grid[start + x], x);
        let cell = Cell(first + x as u32);
        n = index_cell(links, slots, sides, ranks, cell, *set, side, base, n);
    }
    n
}
