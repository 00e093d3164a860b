// The types' tests: BAD_TYPES, BAD_NUMBER and NOT_A_CUBE, in this order.
#![tactic(auto)]

ghost use Rattle.rules.specs.Calls.{registry_verdict};
ghost use Rattle.std.specs.Prelude.{◌≡◌, ◌+◌, ◌*◌, ◌/◌, ◌%◌, ◌<◌, length, T};
ghost use Rattle.rules.specs.Lists.{every};
ghost use Rattle.rules.specs.Floats.{finite, finite3};
ghost use Rattle.rules.specs.Cube.{cube_triangles};
ghost use Rattle.rules.specs.Types.{position_of, class_on, class_at, class_of, is_of, classed, is_cube};
ghost use Rattle.rules.specs.Answers.{bad_counts, bad_type, not_a_cube, refuse_lowest, NOT_A_CUBE};
ghost use Rattle.answers.specs.Verdicts.{verdict_of};
ghost use Rattle.floats.specs.Triples.{triple_of};
ghost use Rattle.types.specs.Tests.{types_in, class_in, Words, Placed, Counted};

use answers::{Refusal, Verdict, refuse_if, refuse_lowest};
use floats::{Triple, is_finite_bits};
use voxel_mesh::{corner_of, floats_of, triangle_words};

// The types by their numbers: each has a kind, a covering side set and 24 vertices of the registry. Kinds and sets are bytes, as the C interface lends them; 1 is a
// NormalCube.
#[derive(Clone, Copy)]
pub struct Types<'a> {
    pub kinds: &'a [u8],
    pub covers: &'a [u8],
    pub cubes: &'a [u32],
    pub coloured: bool,
}

fn has_bad_counts(types: Types<'_>) -> bool
    ensures { result ≡ bad_counts (types_in types.entry) }
{
    let n = types.kinds.len();
    if (n < 1) | (255 < n) {
        return true;
    }
    (types.covers.len() != n) | (types.cubes.len() != 24 * floats_of(types.coloured) * n)
}

// The lowest type with a bad kind or set.
fn kinds_verdict(types: Types<'_>) -> Verdict
    requires { length types.covers.now ≡ length types.kinds.now }
    ensures { verdict_of result ≡ refuse_lowest 3 (length types.entry.kinds.now) (bad_type (types_in types.entry)) }
{
    let kinds = types.kinds;
    let covers = types.covers;
    refuse_lowest(Refusal::BadTypes, kinds.len(), |t| {
        (2 < kinds[t]) | (63 < covers[t])
    })
}

// A triangle's class on one axis, on which its corners are equal: its low face or its high one.
fn class_on(low: usize, high: usize, centre: u32, a: u32, b: u32, c: u32) -> Option<usize>
    requires { T (finite centre) × T (finite a) × T (finite b) × T (finite c) }
    ensures { class_in result ≡ class_on low high centre a b c }
{
    let x = f32::from_bits(a);
    let y = f32::from_bits(b);
    let z = f32::from_bits(c);
    let middle = f32::from_bits(centre);
    if (x == y) & (y == z) & (x == z) {
        if x < middle {
            return Some(low);
        }
        return Some(high);
    }
    None
}

// A coordinate of vertex i.
fn position_of(cube: &[u32], floats: usize, i: usize, axis: usize) -> u32
    requires { Words cube.now floats × (i < 24) × (axis < 3) }
    ensures { result ≡ position_of cube.now floats i axis }
{
    cube[floats * i + axis]
}

// Whether every position is finite. By a `for`: `all` over a range left its goal open.
fn is_placed(cube: &[u32], floats: usize) -> bool
    requires { Words cube.now floats }
    ensures { result ≡ every 72 (λ k. finite (position_of cube.now floats (k / 3) (k % 3))) }
{
    for k in 0..72 {
        if !is_finite_bits(position_of(cube, floats, k / 3, k % 3)) {
            return false;
        }
    }
    true
}

// The 24 vertices of a type, which are all placed, and the centre that they are to lie about.
#[derive(Clone, Copy)]
struct Vertices<'a> {
    words: &'a [u32],
    floats: usize,
    centre: Triple,
    ghost whole: { Words words.now floats },
    ghost placed: { Placed words.now floats },
    ghost centred: { T (finite3 (triple_of centre)) },
}

impl Vertices<'_> {
    // The class on one axis of the triangle with the corners i, j and k. Axes and faces go by number, as the rules count them.
    fn class_at(
        self,
        axis: usize,
        low: usize,
        high: usize,
        i: usize,
        j: usize,
        k: usize,
    ) -> Option<usize>
        requires { (axis < 3) × (i < 24) × (j < 24) × (k < 24) }
        ensures { class_in result ≡ class_at self.entry.words.now self.entry.floats (triple_of self.entry.centre) axis low high i j k }
    {
        class_on(
            low,
            high,
            self.centre.along(axis),
            position_of(self.words, self.floats, i, axis),
            position_of(self.words, self.floats, j, axis),
            position_of(self.words, self.floats, k, axis),
        )
    }

    // The class of a triangle: by the first axis on which its corners are equal.
    fn class_of(self, i: usize, j: usize, k: usize) -> Option<usize>
        requires { (i < 24) × (j < 24) × (k < 24) }
        ensures { class_in result ≡ class_of self.entry.words.now self.entry.floats (triple_of self.entry.centre) i j k }
    {
        let by_x = self.class_at(0, 3, 2, i, j, k);
        if by_x.is_some() {
            return by_x;
        }
        let by_y = self.class_at(1, 1, 0, i, j, k);
        if by_y.is_some() {
            return by_y;
        }
        self.class_at(2, 5, 4, i, j, k)
    }

    // Whether both triangles of a face are classed to it.
    fn is_classed(self, triangles: &[usize; 36], face: usize) -> bool
        requires { (face < 6) × (triangles.now ≡ cube_triangles) }
        ensures { result ≡ classed self.entry.words.now self.entry.floats (triple_of self.entry.centre) face }
    {
        let first = self.class_of(
            corner_of(triangles, face, 0),
            corner_of(triangles, face, 1),
            corner_of(triangles, face, 2),
        );
        let second = self.class_of(
            corner_of(triangles, face, 3),
            corner_of(triangles, face, 4),
            corner_of(triangles, face, 5),
        );
        (first == Some(face)) & (second == Some(face))
    }
}

// Whether the 24 vertices of a type are a cube's.
pub fn is_cube(cube: &[u32], floats: usize, centre: Triple) -> bool
    requires { Words cube.now floats × T (finite3 (triple_of centre)) }
    ensures { result ≡ is_cube cube.now floats (triple_of centre) }
{
    if !is_placed(cube, floats) {
        return false;
    }
    let vertices = Vertices {
        words: cube,
        floats,
        centre,
    };
    let triangles = triangle_words();
    for face in 0..6 {
        if !vertices.is_classed(&triangles, face) {
            return false;
        }
    }
    true
}

// Whether type t is a NormalCube whose stretch of the registry is no cube.
fn is_not_a_cube(types: Types<'_>, centre: Triple, t: usize) -> bool
    requires { Counted types.coloured types.kinds.now types.cubes.now × T (finite3 (triple_of centre)) × (t < length types.kinds.now) }
    ensures { result ≡ not_a_cube (types_in types.entry) (triple_of centre) t }
{
    if types.kinds[t] != 1 {
        return false;
    }
    let floats = floats_of(types.coloured);
    let span = 24 * floats;
    let start = span * t;
    let end = start + span;
    !is_cube(&types.cubes[start..end], floats, centre)
}

// The lowest NormalCube that is no cube.
fn cubes_verdict(types: Types<'_>, centre: Triple) -> Verdict
    requires { Counted types.coloured types.kinds.now types.cubes.now × T (finite3 (triple_of centre)) }
    ensures { verdict_of result ≡ NOT_A_CUBE (types_in types.entry) (triple_of centre) }
{
    refuse_lowest(Refusal::NotACube, types.kinds.len(), |t| {
        is_not_a_cube(types, centre, t)
    })
}

// The tests of the types and of d and the centre, in their order.
pub fn types_verdict(types: Types<'_>, d: Triple, centre: Triple) -> Verdict
    ensures { verdict_of result ≡ registry_verdict (types_in types.entry) (triple_of d) (triple_of centre) }
{
    refuse_if(has_bad_counts(types), Refusal::BadTypes, 255)?;
    kinds_verdict(types)?;
    refuse_if(!(d.is_finite() & centre.is_finite()), Refusal::BadNumber, 0)?;
    cubes_verdict(types, centre)
}
