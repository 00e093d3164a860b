// One cube's vertices: 24 of 8 words, or of 12 with colour, each word the bits of an f32.
#![tactic(auto)]

ghost use Rattle.std.specs.Prelude.{◌≡◌, cond, not, ◌&&◌, [], ◌++◌, ℕ, ◌+◌, ◌-◌, ◌*◌, ◌/◌, ◌<◌, ◌≤◌, length, get_or, drop, T, ltb, IfSome};
ghost use Rattle.rules.specs.Lists.{each, every, lowest, table};
ghost use Rattle.rules.specs.Cells.{along};
ghost use Rattle.rules.specs.Floats.{finite, finite3};
ghost use Rattle.rules.specs.Cube.{floats_of, is_high, is_end, last_naming, uv_in, atlas_along, axes, normal_of, cube_word, cube_words, cube_triangles};
ghost use Rattle.rules.specs.Answers.{entries, bad_tile, bad_atlas, BAD_TEXTURE};
ghost use Rattle.answers.specs.Verdicts.{verdict_of};
ghost use Rattle.floats.specs.Triples.{triple_of};
ghost use Rattle.voxel_mesh.specs.Outcome.{shape_of, verdict_in, Cubes, Accepted};
ghost use Rattle.voxel_mesh.specs.Parts.{naming_in, corner_in, tile_word, Tiled, Cornered, part_word};

use answers::{Refusal, Verdict, refuse_if, refuse_lowest};
use floats::{Triple, corner_word, is_finite_bits, uv_word};
use vav::write_four;

// What a cube is made from, but for its texture, which is lent; each float is its bits.
#[derive(Clone, Copy)]
pub struct Shape {
    pub d: Triple,
    pub centre: Triple,
    pub atlas_width: u32,
    pub atlas_height: u32,
    pub padding: u32,
    pub coloured: bool,
    pub colour: u32,
    pub alpha: u32,
}

// Bit v: vertex v is on the high side of x, y, z.
const HIGH: [u32; 3] = [0x990f66, 0xc3c30f, 0x0f66c3];

// Bit v: vertex v is at the tile's end of u, v.
const END: [u32; 2] = [0x969696, 0x3c3c3c];

// The triangles of the cube's faces.
const TRIANGLES: [usize; 36] = [
    0, 1, 3, 2, 3, 1, 4, 5, 7, 6, 7, 5, 8, 9, 11, 10, 11, 9, 12, 13, 15, 14, 15, 13, 16, 17, 19,
    18, 19, 17, 20, 21, 23, 22, 23, 21,
];

// Them, to be lent: a constant that is read at an index is written out anew at each read.
pub fn triangle_words() -> [usize; 36]
    ensures { result ≡ cube_triangles }
{
    TRIANGLES
}

// Corner i of a face's two triangles, three a triangle.
pub fn corner_of(triangles: &[usize; 36], face: usize, i: usize) -> usize
    requires { (face < 6) × (i < 6) × (triangles.now ≡ cube_triangles) }
    ensures { (result ≡ get_or cube_triangles (6 * face + i) 0) × (result < 24) }
{
    triangles[6 * face + i]
}

// The words of a vertex.
pub fn floats_of(coloured: bool) -> usize
    ensures { result ≡ floats_of coloured }
{
    if coloured { 12 } else { 8 }
}

// Vertices, faces and axes go by number in this file: the tables are read by it, and the rules' are too.
fn is_high(vertex: usize, axis: usize) -> bool
    requires { (vertex < 24) × (axis < 3) }
    ensures { result ≡ is_high vertex axis }
{
    (HIGH[axis] >> vertex) % 2 == 1
}

fn is_end(vertex: usize, axis: usize) -> bool
    requires { (vertex < 24) × (axis < 2) }
    ensures { result ≡ is_end vertex axis }
{
    (END[axis] >> vertex) % 2 == 1
}

// The axis of a face: y for the first two, x for the next.
fn axis_of(face: usize) -> usize
    requires { face < 6 }
    ensures { result ≡ get_or axes face 0 }
{
    if face < 2 {
        return 1;
    }
    if face < 4 { 0 } else { 2 }
}

fn normal_word(face: usize, axis: usize) -> u32
    requires { face < 6 }
    ensures { result ≡ normal_of face axis }
{
    if axis_of(face) != axis {
        return 0;
    }
    if face % 2 == 0 {
        0x3f80_0000
    } else {
        0xbf80_0000
    }
}

impl Shape {
    fn has_numbers(self) -> bool
        ensures { result ≡ (finite3 (triple_of self.d) && finite3 (triple_of self.centre) && finite self.padding) }
    {
        let d = self.d;
        let centre = self.centre;
        d.is_finite() & centre.is_finite() & is_finite_bits(self.padding)
    }

    fn atlas_along(self, axis: usize) -> u32
        ensures { result ≡ atlas_along (shape_of self []) axis }
    {
        if axis == 0 {
            self.atlas_width
        } else {
            self.atlas_height
        }
    }

    // The corner on the low or on the high side of all three axes.
    fn corner(self, high: bool) -> Triple
        requires { T (finite3 (triple_of self.d)) × T (finite3 (triple_of self.centre)) }
        ensures { triple_of result ≡ corner_in (shape_of self []) high }
    {
        let d = self.d;
        let centre = self.centre;
        Triple {
            x: corner_word(high, d.x, centre.x),
            y: corner_word(high, d.y, centre.y),
            z: corner_word(high, d.z, centre.z),
        }
    }
}

// Whether the tiles of the whole entries are below 4,096.
fn has_tiles(texture: &[u32]) -> bool
    ensures { result ≡ every (entries texture.now) (λ i. not (bad_tile texture.now i)) }
{
    let mut ok = true;
    for i in 0..texture.len() / 3 {
        let a = texture[3 * i + 1];
        let b = texture[3 * i + 2];
        ok = ok & !((4095 < a) | (4095 < b));
    }
    ok
}

fn is_bad_atlas(shape: Shape, texture: &[u32]) -> bool
    ensures { result ≡ bad_atlas (shape_of shape texture.now) }
{
    let wide = shape.atlas_width;
    let tall = shape.atlas_height;
    (wide < 1) | (4096 < wide) | ((tall < 1) | (4096 < tall)) | !has_tiles(texture)
}

// BAD_TEXTURE: the lowest whole entry with a bad face, else a list of another length than six entries'.
fn texture_verdict(texture: &[u32]) -> Verdict
    ensures { verdict_of result ≡ BAD_TEXTURE texture.now }
{
    refuse_lowest(Refusal::BadFace, texture.len() / 3, |i| 5 < texture[3 * i])?;
    refuse_if(texture.len() != 18, Refusal::BadFace, 6)
}

// The refusals in their order, for room for that many words.
fn verdict(shape: Shape, texture: &[u32], room: usize) -> Verdict
    ensures { verdict_of result ≡ verdict_in (shape_of shape texture.now) room }
{
    refuse_if(!shape.has_numbers(), Refusal::BadNumber, 0)?;
    refuse_if(is_bad_atlas(shape, texture), Refusal::BadAtlas, 0)?;
    texture_verdict(texture)?;
    refuse_if(room < 24 * floats_of(shape.coloured), Refusal::ShortRoom, 0)
}

// Where the tile of a face starts and ends: left and right along u, top and bottom along v.
#[derive(Clone, Copy)]
struct Tile {
    left: u32,
    right: u32,
    top: u32,
    bottom: u32,
}

impl Tile {
    // Its end or its start, along u (0) or v (1).
    fn word(self, end: bool, axis: usize) -> u32
        ensures { result ≡ tile_word self end axis }
    {
        match (axis, end) {
            (0, true) => self.right,
            (0, false) => self.left,
            (_, true) => self.bottom,
            (_, false) => self.top,
        }
    }
}

// A shape that nothing speaks against, with its texture and its corners on the low and on the high side of all three axes.
#[derive(Clone, Copy)]
struct Cube<'a> {
    shape: Shape,
    texture: &'a [u32],
    low: Triple,
    high: Triple,
    ghost is_accepted: { Accepted (shape_of shape texture.now) },
    ghost is_cornered: { Cornered (shape_of shape texture.now) low high },
}

impl<'a> Cube<'a> {
    fn new(shape: Shape, texture: &'a [u32]) -> Self
        requires { Accepted (shape_of shape texture.now) }
        ensures { (result.shape ≡ shape) × (result.texture.now ≡ texture.now) }
    {
        let low = shape.corner(false);
        let high = shape.corner(true);
        Cube {
            shape,
            texture,
            low,
            high,
        }
    }

    // The last entry that names the face.
    fn last_naming(self, face: usize) -> Option<usize>
        requires { face < 6 }
        ensures is_last { naming_in result ≡ last_naming self.entry.texture.now face 6 }
        ensures below { IfSome result (λ n. n < 6) }
    {
        for n in (0..6).rev() {
            if self.texture[3 * n] == face as u32 {
                return Some(n);
            }
        }
        None
    }

    // Where the tile of an entry, or of an unnamed face, starts or ends, along u (0) or v (1).
    fn uv(self, naming: Option<usize>, end: bool, axis: usize) -> u32
        requires { (axis < 2) × IfSome naming (λ n. n < 6) }
        ensures { result ≡ uv_in (shape_of self.entry.shape self.entry.texture.now) (naming_in naming) end axis }
    {
        let atlas = self.shape.atlas_along(axis);
        let padding = self.shape.padding;
        match naming {
            Some(n) => uv_word(end, Some(self.texture[3 * n + 1 + axis]), atlas, padding),
            None => uv_word(end, None, atlas, padding),
        }
    }

    fn tile(self, face: usize) -> Tile
        requires { face < 6 }
        ensures { Tiled (shape_of self.entry.shape self.entry.texture.now) face result }
    {
        let naming = self.last_naming(face);
        Tile {
            left: self.uv(naming, false, 0),
            right: self.uv(naming, true, 0),
            top: self.uv(naming, false, 1),
            bottom: self.uv(naming, true, 1),
        }
    }

    // A vertex's coordinate on one axis.
    fn coordinate(self, vertex: usize, axis: usize) -> u32
        requires { (vertex < 24) × (axis < 3) }
        ensures { result ≡ cond (is_high vertex axis) (along (triple_of self.entry.high) axis) (along (triple_of self.entry.low) axis) }
    {
        if is_high(vertex, axis) {
            self.high.along(axis)
        } else {
            self.low.along(axis)
        }
    }

    // Writes a vertex from the cube's two corners and its face's tile.
    fn write_vertex(self, out: &mut [u32], tile: Tile, vertex: usize)
        requires { (vertex < 24) × (length out.old ≡ floats_of self.shape.coloured) }
        ensures { out.new ≡ table (length out.old) (part_word self.entry.shape self.entry.low self.entry.high tile vertex) }
    {
        let face = vertex / 4;
        let x = self.coordinate(vertex, 0);
        let y = self.coordinate(vertex, 1);
        let z = self.coordinate(vertex, 2);
        let u = tile.word(is_end(vertex, 0), 0);
        let v = tile.word(is_end(vertex, 1), 1);
        write_four(out, 0, x, y, z, normal_word(face, 0));
        write_four(out, 4, normal_word(face, 1), normal_word(face, 2), u, v);
        if self.shape.coloured {
            let colour = self.shape.colour;
            write_four(out, 8, colour, colour, colour, self.shape.alpha);
        }
    }

    // Writes the four vertices of a face.
    fn write_face(self, out: &mut [u32], face: usize)
        requires { (face < 6) × (length out.old ≡ 4 * floats_of self.shape.coloured) }
        ensures { out.new ≡ each 4 (4 * face) (λ v. table (floats_of self.entry.shape.coloured) (cube_word (shape_of self.entry.shape self.entry.texture.now) v)) }
    {
        let floats = floats_of(self.shape.coloured);
        let tile = self.tile(face);
        for i in 0..4 {
            let at = i * floats;
            let end = at + floats;
            self.write_vertex(&mut out[at..end], tile, 4 * face + i);
        }
    }

    fn write(self, out: &mut [u32])
        requires { 24 * floats_of self.shape.coloured ≤ length out.old }
        ensures { out.new ≡
            cube_words (shape_of self.entry.shape self.entry.texture.now) ++ drop (24 * floats_of self.entry.shape.coloured) out.old }
    {
        let words = 4 * floats_of(self.shape.coloured);
        for face in 0..6 {
            let at = face * words;
            let end = at + words;
            self.write_face(&mut out[at..end], face);
        }
    }
}

// Writes the vertices of one cube at the start of the room, or refuses and writes nothing.
pub fn generate_voxel_mesh(shape: Shape, texture: &[u32], out: &mut [u32]) -> Verdict
    ensures { Cubes (shape_of shape texture.now) out.old result out.new }
{
    verdict(shape, texture, out.len())?;
    Cube::new(shape, texture).write(out);
    Ok(())
}
