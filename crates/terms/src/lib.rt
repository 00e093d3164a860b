// The words that the calls share: what is told of the grid and the types, the two modes, how long the lists are, and how many quads there are.
#![tactic(auto)]

ghost use Rattle.std.specs.Prelude.{◌≡◌};
ghost use Rattle.face.specs.Face.{number};
ghost use Rattle.terms.specs.Modes.{is_culling, tested_by};

use face::Face;
use floats::Triple;
use types::Types;
use util::Dimensions;

// What mesh, update and check are told of the grid and the types.
#[derive(Clone, Copy)]
pub struct Scene<'a> {
    pub dims: Dimensions,
    pub types: Types<'a>,
    pub d: Triple,
    pub centre: Triple,
}

// The lists of a mesh that is only read. Those that are written go one by one: a struct of `&mut` would owe each contract a clause on each field's borrow.
#[derive(Clone, Copy)]
pub struct Lists<'a> {
    pub positions: &'a [u32],
    pub normals: &'a [u32],
    pub uvs: &'a [u32],
    pub colours: &'a [u32],
    pub triangles: &'a [u32],
    pub links: &'a [u32],
    pub slots: &'a [u32],
}

// How many words the lists of a mesh have.
#[derive(Clone, Copy, Debug, PartialEq, Eq)]
pub struct Lengths {
    pub positions: usize,
    pub normals: usize,
    pub uvs: usize,
    pub colours: usize,
    pub triangles: usize,
    pub links: usize,
    pub slots: usize,
}

// The number of quads, and how many have changed their place.
#[derive(Clone, Copy, Debug, PartialEq, Eq)]
pub struct Count {
    pub quads: usize,
    pub moved: u64,
}

#[derive(Clone, Copy, Debug, PartialEq, Eq)]
pub enum MeshingAlgorithm {
    Naive,
    Culling,
}

impl MeshingAlgorithm {
    pub fn is_culling(self) -> bool
        ensures { result ≡ is_culling self }
    {
        self == MeshingAlgorithm::Culling
    }
}

// Which side of a voxel that comes, by Added or Replaced, decides whether the neighbour at a face loses its facing quad: the opposite of the face,
// as the source has it, or the face itself.
#[derive(Clone, Copy, Debug, PartialEq, Eq)]
pub enum Tested {
    Opposite,
    Itself,
}

impl Tested {
    pub fn side(self, face: Face) -> Face
        ensures { number result ≡ tested_by self (number face) }
    {
        match self {
            Tested::Opposite => face.opposite(),
            Tested::Itself => face,
        }
    }
}
