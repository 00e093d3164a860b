// Cells, quads and vertices, the six faces, the link word of a cell and a face, and side sets.
#![tactic(auto)]

ghost use Rattle.std.specs.Prelude.{ℕ, Bool, ◌≡◌, cond, ◌+◌, ◌*◌, ◌/◌, ◌^◌, ◌≤◌, ◌<◌};
ghost use Rattle.std.specs.Int.Count.{count_trailing_zeros};
ghost use Rattle.rules.specs.Cells.{UNIT, set_of, opposite, code, link_word, cell_in, code_in, key_of, key_in, first_vertex, has, quads_of, rank};
ghost use Rattle.face.specs.declared.Face.{Face};
ghost use Rattle.face.specs.Face.{number, face_at, face_of_code, face_of_word, Ranked};

// The slot of a face with no quad, a word as C reads it; zero is vertex 0.
pub const NONE: u32 = 4_294_967_295;

#[derive(Clone, Copy, Debug, PartialEq, Eq)]
pub struct Cell(pub u32);

#[derive(Clone, Copy, Debug, PartialEq, Eq)]
pub struct Quad(pub u32);

#[derive(Clone, Copy, Debug, PartialEq, Eq)]
pub struct Vertex(pub u32);

impl Quad {
    pub fn first_vertex(self) -> Vertex
        requires { self.0 < 2 ^ 30 }
        ensures { result.0 ≡ first_vertex self.0 }
    {
        Vertex(4 * self.0)
    }
}

impl Vertex {
    pub fn quad(self) -> Quad
        ensures { result.0 ≡ self.0 / 4 }
    {
        Quad(self.0 / 4)
    }
}

#[derive(Clone, Copy, Debug, PartialEq, Eq)]
pub enum Face {
    Top,
    Bottom,
    Right,
    Left,
    Back,
    Forward,
}

impl Face {
    pub const OFFSET_CONST: u32 = 0x1fff_ffff;

    pub const REVERSE_OFFSET_CONST: u32 = 0xe000_0000;

    pub const TOP_CODE: u32 = 2_684_354_560;

    pub const BOTTOM_CODE: u32 = 2_147_483_648;

    pub const RIGHT_CODE: u32 = 1_610_612_736;

    pub const LEFT_CODE: u32 = 1_073_741_824;

    pub const BACK_CODE: u32 = 536_870_912;

    pub const FORWARD_CODE: u32 = 0;

    pub fn number(self) -> u32
        ensures { result ≡ number self }
    {
        self as u32
    }

    pub fn from_number(n: u32) -> Option<Face>
        ensures { result ≡ face_at n }
    {
        // By name, not by TryFrom: a u32 is a face's number or its code.
        match n {
            0 => Some(Face::Top),
            1 => Some(Face::Bottom),
            2 => Some(Face::Right),
            3 => Some(Face::Left),
            4 => Some(Face::Back),
            5 => Some(Face::Forward),
            _ => None,
        }
    }

    pub fn to_u32(self) -> u32
        ensures { result ≡ code (number self) * UNIT }
    {
        match self {
            Face::Top => Face::TOP_CODE,
            Face::Bottom => Face::BOTTOM_CODE,
            Face::Right => Face::RIGHT_CODE,
            Face::Left => Face::LEFT_CODE,
            Face::Back => Face::BACK_CODE,
            Face::Forward => Face::FORWARD_CODE,
        }
    }

    pub fn from_u32(u: u32) -> Option<Face>
        ensures { result ≡ face_of_word u }
    {
        match u {
            Face::TOP_CODE => Some(Face::Top),
            Face::BOTTOM_CODE => Some(Face::Bottom),
            Face::RIGHT_CODE => Some(Face::Right),
            Face::LEFT_CODE => Some(Face::Left),
            Face::BACK_CODE => Some(Face::Back),
            Face::FORWARD_CODE => Some(Face::Forward),
            _ => None,
        }
    }

    pub fn opposite(self) -> Face
        ensures { number result ≡ opposite (number self) }
    {
        match self {
            Face::Top => Face::Bottom,
            Face::Bottom => Face::Top,
            Face::Right => Face::Left,
            Face::Left => Face::Right,
            Face::Back => Face::Forward,
            Face::Forward => Face::Back,
        }
    }
}

pub fn face_at(n: u32) -> Face
    requires { n < 6 }
    ensures { number result ≡ n }
{
    Face::from_number(n).unwrap()
}

// The link word of a quad: its cell, and its face's code in the top three bits.
pub fn link(cell: Cell, face: Face) -> u32
    requires { cell.0 < UNIT }
    ensures { result ≡ link_word cell.0 (number face) }
{
    cell.0 | face.to_u32()
}

pub fn cell_of(link: u32) -> Cell
    ensures { result.0 ≡ cell_in link }
{
    Cell(link & Face::OFFSET_CONST)
}

// A link whose code is over 5 is of no face.
pub fn face_of(link: u32) -> Option<Face>
    ensures { result ≡ face_of_code (code_in link) }
{
    Face::from_u32(link & Face::REVERSE_OFFSET_CONST)
}

pub fn code_of(link: u32) -> u32
    ensures { result ≡ code_in link }
{
    link >> 29
}

// The number of a face of a cell among all faces of the grid, which is its slot's index.
pub fn key(cell: Cell, face: Face) -> u32
    requires { cell.0 < UNIT }
    ensures { result ≡ key_of cell.0 (number face) }
{
    6 * cell.0 + face.number()
}

pub fn key_of(link: u32) -> u32
    requires { code_in link ≤ 5 }
    ensures { result ≡ key_in link }
{
    6 * cell_of(link).0 + (5 - code_of(link))
}

// A side set stays a byte: rows of them are bytes that are tested many at once.
pub fn has(set: u8, face: Face) -> bool
    ensures { result ≡ has set (number face) }
{
    (set >> face.number()) % 2 == 1
}

// A side's bit in a set, or none.
pub fn bit_if(on: bool, weight: u8) -> u8
    ensures { (result ≡ cond on weight 0) × (result ≤ weight) }
{
    weight * u8::from(on)
}

// The set of the sides of which the test holds.
pub fn side_set<F: Fn(Face) -> bool>(holds: F) -> u8
    requires { F.IsAlwaysCallable holds }
    ensures { (sides : ℕ → Bool) → ((face : Face) (b : Bool) → F.post holds face b → b ≡ sides (number face)) → result ≡ set_of sides }
{
    // All tests before the bits: between them the compiler would jump on each side.
    let top = holds(Face::Top);
    let bottom = holds(Face::Bottom);
    let right = holds(Face::Right);
    let left = holds(Face::Left);
    let back = holds(Face::Back);
    let forward = holds(Face::Forward);
    bit_if(top, 1)
        + bit_if(bottom, 2)
        + bit_if(right, 4)
        + bit_if(left, 8)
        + bit_if(back, 16)
        + bit_if(forward, 32)
}

// The lowest side of a set that is not empty. The last side is put in, so that the compiler knows that there is one of the six.
pub fn lowest_side(set: u32) -> u32
    requires { (set < 64) × (set ≡ 0 → ⊥) }
    ensures { result ≡ count_trailing_zeros 8 set }
{
    u32::trailing_zeros(set | 32)
}

// As many quads as the set has ones.
pub fn quads_of(set: u8) -> u32
    requires { set < 64 }
    ensures { result ≡ quads_of set }
{
    u8::count_ones(set)
}

// The count of smaller faces in the set, at 6 · set + face.
const RANKS: [u8; 384] = [
    0, 0, 0, 0, 0, 0, 0, 1, 1, 1, 1, 1, 0, 0, 1, 1, 1, 1, 0, 1, 2, 2, 2, 2, 0, 0, 0, 1, 1, 1, 0, 1,
    1, 2, 2, 2, 0, 0, 1, 2, 2, 2, 0, 1, 2, 3, 3, 3, 0, 0, 0, 0, 1, 1, 0, 1, 1, 1, 2, 2, 0, 0, 1, 1,
    2, 2, 0, 1, 2, 2, 3, 3, 0, 0, 0, 1, 2, 2, 0, 1, 1, 2, 3, 3, 0, 0, 1, 2, 3, 3, 0, 1, 2, 3, 4, 4,
    0, 0, 0, 0, 0, 1, 0, 1, 1, 1, 1, 2, 0, 0, 1, 1, 1, 2, 0, 1, 2, 2, 2, 3, 0, 0, 0, 1, 1, 2, 0, 1,
    1, 2, 2, 3, 0, 0, 1, 2, 2, 3, 0, 1, 2, 3, 3, 4, 0, 0, 0, 0, 1, 2, 0, 1, 1, 1, 2, 3, 0, 0, 1, 1,
    2, 3, 0, 1, 2, 2, 3, 4, 0, 0, 0, 1, 2, 3, 0, 1, 1, 2, 3, 4, 0, 0, 1, 2, 3, 4, 0, 1, 2, 3, 4, 5,
    0, 0, 0, 0, 0, 0, 0, 1, 1, 1, 1, 1, 0, 0, 1, 1, 1, 1, 0, 1, 2, 2, 2, 2, 0, 0, 0, 1, 1, 1, 0, 1,
    1, 2, 2, 2, 0, 0, 1, 2, 2, 2, 0, 1, 2, 3, 3, 3, 0, 0, 0, 0, 1, 1, 0, 1, 1, 1, 2, 2, 0, 0, 1, 1,
    2, 2, 0, 1, 2, 2, 3, 3, 0, 0, 0, 1, 2, 2, 0, 1, 1, 2, 3, 3, 0, 0, 1, 2, 3, 3, 0, 1, 2, 3, 4, 4,
    0, 0, 0, 0, 0, 1, 0, 1, 1, 1, 1, 2, 0, 0, 1, 1, 1, 2, 0, 1, 2, 2, 2, 3, 0, 0, 0, 1, 1, 2, 0, 1,
    1, 2, 2, 3, 0, 0, 1, 2, 2, 3, 0, 1, 2, 3, 3, 4, 0, 0, 0, 0, 1, 2, 0, 1, 1, 1, 2, 3, 0, 0, 1, 1,
    2, 3, 0, 1, 2, 2, 3, 4, 0, 0, 0, 1, 2, 3, 0, 1, 1, 2, 3, 4, 0, 0, 1, 2, 3, 4, 0, 1, 2, 3, 4, 5, // Forward, in the set of all six
];

// The table, to be lent: a constant that is read at an index is written out anew at each read.
pub fn ranks() -> [u8; 384]
    ensures { Ranked result }
{
    RANKS
}

// The place of a kept face among the kept ones, by the table.
pub fn rank(ranks: &[u8; 384], set: u8, face: Face) -> u8
    requires { (set < 64) × Ranked ranks.now }
    ensures { result ≡ rank set (number face) }
{
    let at = 6 * (set as usize) + (face.number() as usize);
    ranks[at]
}
