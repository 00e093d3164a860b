// Quads written into each list by itself: an attribute of a quad at its place, the patterns of a stretch of places, the attributes of faces that are drawn
// one after the other.
#![tactic(auto)]

ghost use Rattle.std.specs.Prelude.{◌≡◌, ℕ, ◌+◌, ◌-◌, ◌*◌, ◌≤◌, ◌<◌, length, get_or};
ghost use Rattle.rules.specs.Lists.{each};
ghost use Rattle.rules.specs.Cube.{floats_of};
ghost use Rattle.rules.specs.Mesh.{attribute_in, vertices_of, NONE, pattern};
ghost use Rattle.util.specs.Grid.{size_of, Within, Starts};
ghost use Rattle.terms.specs.Scenes.{scene_of};
ghost use Rattle.vav.specs.Attributes.{attribute_of};
ghost use Rattle.vav.specs.Rows.{put};
ghost use Rattle.quads.specs.Quads.{Has};
ghost use Rattle.quads.specs.Words.{words_of};
ghost use Rattle.drawing.specs.Written.{quad_written, side_words, rows_written, Long, Side};

use quads::Quad;
use terms::Scene;
use util::{Coordinates, Row};
use vav::Attribute;

// Writes an attribute of a quad at place q. It is taken in where it is called, so that the compiler knows the attribute and each length.
#[inline(always)]
fn write_place(list: &mut [u32], quad: Quad<'_>, attribute: Attribute, q: usize)
    requires { Has quad.floats (attribute_of attribute) × (4 * (attribute_of attribute).width * (q + 1) ≤ length list.old) }
    ensures { list.new ≡ put (4 * (attribute_of attribute).width * q)
        (attribute_in quad.entry.floats (attribute_of attribute) 4 (words_of quad.entry)) list.old }
{
    let words = 4 * attribute.width();
    let start = words * q;
    let end = start + words;
    quad.write(&mut list[start..end], attribute);
}

// Writes each attribute that the vertices have of a quad, at place q of its own list. It is taken in where it is called, so that the compiler knows each number of floats.
#[inline(always)]
pub fn write_places(
    positions: &mut [u32],
    normals: &mut [u32],
    uvs: &mut [u32],
    colours: &mut [u32],
    quad: Quad<'_>,
    coloured: bool,
    q: usize,
)
    requires { (quad.floats ≡ floats_of coloured) × Long coloured (q + 1) (vertices_of positions.old normals.old uvs.old colours.old) }
    ensures { vertices_of positions.new normals.new uvs.new colours.new
        ≡ quad_written coloured q (words_of quad.entry) (vertices_of positions.old normals.old uvs.old colours.old) }
{
    write_place(positions, quad, Attribute::Position, q);
    write_place(normals, quad, Attribute::Normal, q);
    write_place(uvs, quad, Attribute::Uv, q);
    if coloured {
        write_place(colours, quad, Attribute::Colour, q);
    }
}

// Writes the triangle words of place q.
pub fn write_pattern(triangles: &mut [u32], q: usize)
    requires { (6 * (q + 1) ≤ length triangles.old) × (4 * (q + 1) ≤ NONE) }
    ensures { triangles.new ≡ put (6 * q) (pattern q) triangles.old }
{
    // Six writes: a copy of an array of the six is no plainer.
    let first = (4 * q) as u32;
    let at = 6 * q;
    triangles[at] = first;
    triangles[at + 1] = first + 1;
    triangles[at + 2] = first + 2;
    triangles[at + 3] = first + 3;
    triangles[at + 4] = first + 2;
    triangles[at + 5] = first + 1;
}

// Writes the triangle words of the places from `from` up to `to`.
pub fn write_patterns(triangles: &mut [u32], from: usize, to: usize)
    requires { (6 * to ≤ length triangles.old) × (4 * to ≤ NONE) }
    ensures { triangles.new ≡ put (6 * from) (each (to - from) from pattern) triangles.old }
{
    for q in from..to {
        write_pattern(triangles, q);
    }
}

// Writes the quad of a face of a row at place q of each list, from its corners in the registry. With the number of floats told apart here the compiler has every
// length at hand.
fn write_side(
    positions: &mut [u32],
    normals: &mut [u32],
    uvs: &mut [u32],
    colours: &mut [u32],
    scene: Scene<'_>,
    row: Row,
    side: u32,
    q: usize,
)
    requires { Within (size_of scene.dims) × Starts (size_of scene.dims) row.first row.y row.z
        × Side (scene_of scene) row.first side
        × Long scene.types.coloured (q + 1) (vertices_of positions.old normals.old uvs.old colours.old) }
    ensures { vertices_of positions.new normals.new uvs.new colours.new
        ≡ quad_written scene.entry.types.coloured q (side_words (scene_of scene.entry) row.first side)
        (vertices_of positions.old normals.old uvs.old colours.old) }
{
    let at = Coordinates {
        x: side % 1024,
        y: row.y,
        z: row.z,
    };
    let d = scene.d;
    let face = (side / 1024) as usize;
    if scene.types.coloured {
        let start = 48 * face;
        let end = start + 48;
        let quad = Quad {
            corners: &scene.types.cubes[start..end],
            floats: 12,
            at,
            d,
        };
        write_places(positions, normals, uvs, colours, quad, true, q);
        return;
    }
    let start = 32 * face;
    let end = start + 32;
    let quad = Quad {
        corners: &scene.types.cubes[start..end],
        floats: 8,
        at,
        d,
    };
    write_places(positions, normals, uvs, colours, quad, false, q);
}

// Writes the quads of faces of a row at the places from `base` on.
pub fn vertex_row(
    positions: &mut [u32],
    normals: &mut [u32],
    uvs: &mut [u32],
    colours: &mut [u32],
    scene: Scene<'_>,
    row: Row,
    sides: &[u32],
    base: usize,
)
    requires { Within (size_of scene.dims) × Starts (size_of scene.dims) row.first row.y row.z
        × ((i : ℕ) → i < length sides.now → Side (scene_of scene) row.first (get_or sides.now i 0))
        × Long scene.types.coloured (base + length sides.now) (vertices_of positions.old normals.old uvs.old colours.old)
        × (4 * (base + length sides.now) ≤ NONE) }
    ensures { vertices_of positions.new normals.new uvs.new colours.new
        ≡ rows_written (scene_of scene.entry) row.first sides.now base (vertices_of positions.old normals.old uvs.old colours.old) }
{
    for (i, side) in sides.iter().enumerate() {
        write_side(
            positions,
            normals,
            uvs,
            colours,
            scene,
            row,
            *side,
            base + i,
        );
    }
}
