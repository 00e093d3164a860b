// What an entry of a log means: four side sets, and the faces that they stand for. No list of the mesh is lent.
#![tactic(auto)]

ghost use Rattle.std.specs.Prelude.{Bool, ◌≡◌, cond, [], ℕ, ◌+◌, ◌*◌, ◌/◌, ◌%◌, ◌<◌, get_or};
ghost use Rattle.rules.specs.Cells.{cells, coordinates, neighbour, set_of};
ghost use Rattle.rules.specs.Update.{given_at, is_open};
ghost use Rattle.face.specs.declared.Face.{Face};
ghost use Rattle.face.specs.Face.{number};
ghost use Rattle.util.specs.Grid.{size_of, triple_of, Within, Inverts};
ghost use Rattle.entries.specs.Log.{change_in, entry_in};
ghost use Rattle.terms.specs.Modes.{tested_by};
ghost use Rattle.works.specs.Sets.{types_by, is_shown, is_breaking, is_adding, meant, set_in, packed, key_or, keys_around, cutting, type_drawn};

use entries::{Entry, Side, VoxelChange};
use face::{Cell, Face, NONE, has, key, side_set};
use terms::Tested;
use util::{Coordinates, Dimensions, Inverse, cords_of, neighbor_at};

// Side sets, done in this order: own sides cut, neighbours' facing sides drawn, own sides drawn, neighbours' facing sides cut. What Sides hides is cut
// as own.
#[derive(Clone, Copy, Debug, PartialEq, Eq)]
pub struct Work {
    pub own: u8,
    pub shown: u8,
    pub drawn: u8,
    pub hidden: u8,
}

// What a table has for a code; 0 for one that is no type's, which is of no NormalCube and covers nothing.
fn code_of(table: &[u8], voxel: u8) -> u8
    ensures { result ≡ get_or table.now voxel 0 }
{
    table.get(usize::from(voxel)).copied().unwrap_or(0)
}

// The neighbour's byte: a type, or outside.
fn given(entry: Entry, face: u32) -> u8
    requires { face < 6 }
    ensures { result ≡ given_at (entry_in entry) face }
{
    entry.neighbours[face as usize]
}

// Whether the voxel that comes shows this side: outside, or beside one that doesn't cover it.
fn is_open(covers: &[u8], entry: Entry, face: Face) -> bool
    ensures { result ≡ is_open (types_by [] covers.now) (entry_in entry) (number face) }
{
    match entry.neighbour(face) {
        None => true,
        Some(given) => !has(code_of(covers, given), face.opposite()),
    }
}

// Whether the voxel that goes covers this side, and what is given there is a NormalCube.
fn is_shown(kinds: &[u8], cover: u8, entry: Entry, face: Face) -> bool
    ensures { result ≡ is_shown kinds.now cover (entry_in entry) (number face) }
{
    has(cover, face) & (code_of(kinds, given(entry, face.number())) == 1)
}

// The set of the sides of which the test holds, where it is asked for.
fn set_if<F: Fn(Face) -> bool>(asked: bool, holds: F) -> u8
    requires { F.IsAlwaysCallable holds }
    ensures { (sides : ℕ → Bool) → ((face : Face) (b : Bool) → F.post holds face b → b ≡ sides (number face)) → result ≡ cond asked (set_of sides) 0 }
{
    if asked { side_set(holds) } else { 0 }
}

// Whether what stands in the cell goes.
fn breaks(change: VoxelChange) -> bool
    ensures { result ≡ is_breaking (change_in change) }
{
    matches!(change, VoxelChange::Broken | VoxelChange::Replaced)
}

// Whether something is put there.
fn adds(change: VoxelChange) -> bool
    ensures { result ≡ is_adding (change_in change) }
{
    matches!(change, VoxelChange::Added | VoxelChange::Replaced)
}

// The type that goes.
fn gone(both: bool, entry: Entry) -> u8
    ensures { result ≡ cond both entry.former entry.voxel }
{
    if both { entry.former } else { entry.voxel }
}

// The work of an entry. Of the types it reads these two lists alone.
pub fn work_of(kinds: &[u8], covers: &[u8], tested: Tested, entry: Entry) -> Work
    ensures { result ≡ meant (tested_by tested) (types_by kinds.now covers.now) (entry_in entry) }
{
    let cube = code_of(kinds, entry.voxel) == 1;
    let goes = breaks(entry.change);
    let put = adds(entry.change);
    // Sides.
    if !(goes | put) {
        return Work {
            own: side_set(|face| entry.side(face) == Side::Hide),
            shown: 0,
            drawn: side_set(|face| cube & (entry.side(face) == Side::Draw)),
            hidden: 0,
        };
    }
    let comes = put & cube;
    let was = code_of(covers, gone(goes & put, entry));
    let cover = code_of(covers, entry.voxel);
    Work {
        own: set_if(goes | comes, |_| true),
        shown: set_if(goes, |face| is_shown(kinds, was, entry, face)),
        drawn: set_if(comes, |face| is_open(covers, entry, face)),
        hidden: set_if(comes, |face| has(cover, tested.side(face))),
    }
}

impl Work {
    // The four sets as one of 24: 6 · part + face.
    pub fn word(self) -> u32
        requires { (j : ℕ) → set_in self j < 64 }
        ensures { result ≡ packed self }
    {
        u32::from(self.own)
            + 64 * (u32::from(self.shown)
                + 64 * (u32::from(self.drawn) + 64 * u32::from(self.hidden)))
    }
}

// The key of the neighbour's facing side, NONE where the grid has none.
fn facing_key(dims: Dimensions, cell: Cell, at: Coordinates, face: Face) -> u32
    requires { Within (size_of dims) × (cell.0 < cells (size_of dims)) × (triple_of at ≡ coordinates (size_of dims) cell.0) }
    ensures { result ≡ key_or (number face) (neighbour (size_of dims) cell.0 (number face)) }
{
    match neighbor_at(cell, at, face, dims) {
        Some(next) => key(next, face.opposite()),
        None => NONE,
    }
}

// The keys of a cell's sides, then of the sides facing them. Words with NONE among them, and no options, which are twice as long: the loop over the
// entries reads them.
pub fn keys_around(dims: Dimensions, inverse: Inverse, cell: Cell) -> [u32; 12]
    requires { Within (size_of dims) × (cell.0 < cells (size_of dims)) × Inverts (size_of dims) inverse }
    ensures { result ≡ keys_around (size_of dims) cell.0 }
{
    let at = cords_of(cell, dims, inverse);
    let first = 6 * cell.0;
    [
        first,
        first + 1,
        first + 2,
        first + 3,
        first + 4,
        first + 5,
        facing_key(dims, cell, at, Face::Top),
        facing_key(dims, cell, at, Face::Bottom),
        facing_key(dims, cell, at, Face::Right),
        facing_key(dims, cell, at, Face::Left),
        facing_key(dims, cell, at, Face::Back),
        facing_key(dims, cell, at, Face::Forward),
    ]
}

// Of the 24, by number, as the bits of the four sets are: whether it is a cut.
pub fn does_cut(i: u32) -> bool
    requires { i < 24 }
    ensures { result ≡ cutting (i / 6) }
{
    (i < 6) | (17 < i)
}

// The type that is drawn there.
pub fn type_of(entry: Entry, i: u32) -> u8
    ensures { result ≡ type_drawn (entry_in entry) (i / 6) (i % 6) }
{
    if (5 < i) & (i < 12) {
        given(entry, i - 6)
    } else {
        entry.voxel
    }
}

// Where its key stands among those around the cell.
pub fn key_place(i: u32) -> usize
    requires { i < 24 }
    ensures { (result ≡ 6 * (i / 6 % 2) + i % 6) × (result < 12) }
{
    // No remainder by 12, which takes longer.
    if i < 12 {
        i as usize
    } else {
        (i - 12) as usize
    }
}
