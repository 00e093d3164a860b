// The attributes of a quad: those of its four vertices, taken from the corners of a face, and positions moved to their cell. A face's corners are its four
// vertices in a cube of the registry.
#![tactic(auto)]

ghost use Rattle.std.specs.Prelude.{◌≡◌, ◌+◌, ◌*◌, ◌≤◌, ◌<◌, length, get_or};
ghost use Rattle.rules.specs.Cells.{along};
ghost use Rattle.rules.specs.Types.{order, quad_word};
ghost use Rattle.rules.specs.Mesh.{normal, attribute_in};
ghost use Rattle.util.specs.Grid as grid;
ghost use Rattle.floats.specs.Triples.{triple_of};
ghost use Rattle.vav.specs.Attributes.{attribute_of};
ghost use Rattle.vav.specs.Rows.{put, four};
ghost use Rattle.quads.specs.Quads.{Has, Corners};

use floats::{Triple, moved_word};
use util::Coordinates;
use vav::{Attribute, copy_four, select, write_four};

// The order in which a quad takes the corners of its face.
const ORDER: [usize; 4] = [0, 1, 3, 2];

fn corner_of(i: usize) -> usize
    requires { i < 4 }
    ensures { result ≡ get_or order i 0 }
{
    ORDER[i]
}

// A `From` would have to stand in a crate of either type, and neither stands on the other.
fn coordinate(at: Coordinates, axis: usize) -> u32
    ensures { result ≡ along (grid.triple_of at) axis }
{
    let cell = Triple {
        x: at.x,
        y: at.y,
        z: at.z,
    };
    cell.along(axis)
}

// A quad that can be drawn: its face's corners, how many floats a vertex has, and what moves their positions, the coordinates of its cell by d.
#[derive(Clone, Copy)]
pub struct Quad<'a> {
    pub corners: &'a [u32],
    pub floats: usize,
    pub at: Coordinates,
    pub d: Triple,
    pub ghost is_drawable: { Corners corners.now floats (grid.triple_of at) (triple_of d) },
}

impl Quad<'_> {
    ghost use Rattle.quads.specs.Words.{words_of};

    // Word k of a corner.
    fn corner_word(self, corner: usize, k: usize) -> u32
        requires { (corner < 4) × (k < self.floats) }
        ensures { result ≡ get_or self.entry.corners.now (self.entry.floats * corner + k) 0 }
    {
        self.corners[self.floats * corner + k]
    }

    // Float k of an attribute of the i-th vertex. Positions alone are moved.
    pub fn word(self, attribute: Attribute, i: usize, k: usize) -> u32
        requires { Has self.floats (attribute_of attribute) × (i < 4) × (k < (attribute_of attribute).width) }
        ensures { result ≡ quad_word self.entry.corners.now self.entry.floats (triple_of self.entry.d) 0
            (grid.triple_of self.entry.at) i ((attribute_of attribute).start + k) }
    {
        let corner = corner_of(i);
        let word = self.corner_word(corner, attribute.start() + k);
        if attribute == Attribute::Position {
            return moved_word(word, coordinate(self.at, k), self.d.along(k));
        }
        word
    }

    // Word j of an attribute, the vertices one after the other.
    fn attribute_word(self, attribute: Attribute, j: usize) -> u32
        requires { Has self.floats (attribute_of attribute) × (j < 4 * (attribute_of attribute).width) }
        ensures { result ≡ get_or (attribute_in self.entry.floats (attribute_of attribute) 4 (words_of self.entry)) j 0 }
    {
        let width = attribute.width();
        self.word(attribute, j / width, j % width)
    }

    // Writes the words of an attribute from word j on, four of them. Read before they are written, they go at once.
    fn write_words(self, out: &mut [u32], attribute: Attribute, j: usize)
        requires { Has self.floats (attribute_of attribute)
            × (j + 4 ≤ 4 * (attribute_of attribute).width) × (length out.old ≡ 4 * (attribute_of attribute).width) }
        ensures { out.new ≡ put j (four (attribute_in self.entry.floats (attribute_of attribute) 4 (words_of self.entry)) j) out.old }
    {
        let a = self.attribute_word(attribute, j);
        let b = self.attribute_word(attribute, j + 1);
        let c = self.attribute_word(attribute, j + 2);
        let d = self.attribute_word(attribute, j + 3);
        write_four(out, j, a, b, c, d);
    }

    // Writes the normals. Those of a vertex go with the word after them at once, over which the next vertex's are written.
    fn write_normals(self, out: &mut [u32])
        requires { length out.old ≡ 12 }
        ensures { out.new ≡ attribute_in self.entry.floats normal 4 (words_of self.entry) }
    {
        let floats = self.floats;
        for i in 0..3 {
            copy_four(out, 3 * i, self.corners, floats * corner_of(i) + 3);
        }
        select(
            out,
            self.corners,
            floats,
            Attribute::Normal,
            corner_of(3),
            3,
        );
    }

    // Writes an attribute into the quad's own stretch of the attribute's list, its vertices in the order 0, 1, 3, 2. It is taken in where it is
    // called, so that the compiler knows the attribute.
    #[inline(always)]
    pub fn write(self, out: &mut [u32], attribute: Attribute)
        requires { Has self.floats (attribute_of attribute) × (length out.old ≡ 4 * (attribute_of attribute).width) }
        ensures { out.new ≡ attribute_in self.entry.floats (attribute_of attribute) 4 (words_of self.entry) }
    {
        if attribute == Attribute::Normal {
            self.write_normals(out);
            return;
        }
        for g in 0..attribute.width() {
            self.write_words(out, attribute, 4 * g);
        }
    }
}
