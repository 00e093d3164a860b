// Runs the vectors that tools/cube_vectors.py wrote: cubes, the types' tests and moved positions, each held to its expected words.
#![tactic(auto)]

ghost use Rattle.std.specs.Prelude.{◌≡◌, ◌+◌, ◌≤◌, length};
ghost use Rattle.rules.specs.Calls.{check_by};
ghost use Rattle.answers.specs.Verdicts.{verdict_of};

use answers::Verdict;
use floats::Triple;
use std::io;
use std::io::Read;
use types::{Types, types_verdict};
use vectors::{Count, SPARE, holds, narrow, read_record, say};
use voxel_mesh::{Shape, generate_voxel_mesh};

fn triple_at(r: &[u32], at: usize) -> Triple
    requires { at + 3 ≤ length r.now }
{
    Triple {
        x: r[at],
        y: r[at + 1],
        z: r[at + 2],
    }
}

// The number and the place of a refusal, both 0 where there is none.
fn told(verdict: Verdict) -> (u32, usize)
    ensures { (result.0 ≡ (check_by (verdict_of verdict)).number) × (result.1 ≡ (check_by (verdict_of verdict)).place) }
{
    match verdict {
        Ok(()) => (0, 0),
        Err(refused) => (u32::from(refused.why), refused.place),
    }
}

fn is_told(verdict: Verdict, r: &[u32], at: usize) -> bool
    requires { at + 2 ≤ length r.now }
{
    told(verdict) == (r[at], r[at + 1] as usize)
}

fn shape_in(r: &[u32]) -> Shape
    requires { 18 ≤ length r.now }
{
    Shape {
        d: triple_at(r, 0),
        centre: triple_at(r, 3),
        atlas_width: r[6],
        atlas_height: r[7],
        padding: r[8],
        coloured: r[9] == 1,
        colour: r[10],
        alpha: r[11],
    }
}

// d, centre, atlas, padding, coloured, colour, alpha; the texture's words and the room's; the answer, and that of the types' tests with
// the cube as the only type; the texture; the cube.
fn is_right_cube(r: &[u32]) -> bool {
    if r.len() < 18 {
        return false;
    }
    let textured = r[12] as usize;
    let lent = r[13] as usize;
    if r.len() - 18 < textured || 512 < lent {
        return false;
    }
    let end = 18 + textured;
    let cube = &r[end..];
    let mut room = [SPARE; 1024];
    let answer = generate_voxel_mesh(shape_in(r), &r[18..end], &mut room[..lent]);
    is_told(answer, r, 14) && holds(&room, cube) && is_right_only(r, cube)
}

// Whether the types' tests answer as they should, with the cube as the only type; a cube that was refused is not tried.
fn is_right_only(r: &[u32], cubes: &[u32]) -> bool
    requires { 18 ≤ length r.now }
{
    if cubes.is_empty() {
        return true;
    }
    let types = Types {
        kinds: &[1],
        covers: &[0],
        cubes,
        coloured: r[9] == 1,
    };
    is_told(
        types_verdict(types, triple_at(r, 0), triple_at(r, 3)),
        r,
        16,
    )
}

// The numbers of kinds and of sets, coloured, d, centre, the answer; then the kinds, the sets and the registry's words.
fn is_right_types(r: &[u32]) -> bool {
    if r.len() < 11 {
        return false;
    }
    let k = r[0] as usize;
    let c = r[1] as usize;
    if 256 < k || 256 < c {
        return false;
    }
    let sets = 11 + k;
    let rest = sets + c;
    if r.len() < rest {
        return false;
    }
    let mut kinds = [0; 256];
    let mut covers = [0; 256];
    narrow(&r[11..sets], &mut kinds);
    narrow(&r[sets..rest], &mut covers);
    let types = Types {
        kinds: &kinds[..k],
        covers: &covers[..c],
        cubes: &r[rest..],
        coloured: r[2] == 1,
    };
    is_told(types_verdict(types, triple_at(r, 3), triple_at(r, 6)), r, 9)
}

// A position, a coordinate, d, and the position moved.
fn is_right_moved(r: &[u32]) -> bool {
    match *r {
        [word, coordinate, d, moved, ..] => {
            coordinate <= 1024
                && floats::is_finite_bits(word)
                && floats::is_finite_bits(d)
                && floats::moved_word(word, coordinate, d) == moved
        }
        _ => false,
    }
}

// What a record holds; a number that is neither of the first two is taken for the last.
#[derive(Clone, Copy)]
enum Kind {
    Cube,
    Types,
    Moved,
}

impl From<u32> for Kind {
    fn from(number: u32) -> Self {
        match number {
            0 => Kind::Cube,
            1 => Kind::Types,
            _ => Kind::Moved,
        }
    }
}

fn is_right(kind: Kind, r: &[u32]) -> bool {
    match kind {
        Kind::Cube => is_right_cube(r),
        Kind::Types => is_right_types(r),
        Kind::Moved => is_right_moved(r),
    }
}

#[derive(Clone, Copy, Default)]
struct Tally {
    cubes: Count,
    types: Count,
    moved: Count,
}

impl Tally {
    fn and(self, kind: Kind, ok: bool) -> Self {
        match kind {
            Kind::Cube => Self {
                cubes: self.cubes.and(ok),
                ..self
            },
            Kind::Types => Self {
                types: self.types.and(ok),
                ..self
            },
            Kind::Moved => Self {
                moved: self.moved.and(ok),
                ..self
            },
        }
    }
}

fn run<R: Read>(file: &mut R) -> io::Result<Tally> {
    let mut bytes = [0; 4096];
    let mut words = [0; 1024];
    let mut tally = Tally::default();
    for _ in 0..4096 {
        let Some(n) = read_record(file, &mut bytes, &mut words)? else {
            break;
        };
        let kind = Kind::from(words[0]);
        tally = tally.and(kind, is_right(kind, &words[1..n]));
    }
    Ok(tally)
}

fn main(rt: HostRuntime) -> io::Result<()> {
    let tally = run(&mut rt.reader())?;
    say(&rt, "cubes (11 wrong on purpose):", tally.cubes)?;
    say(&rt, "types (6 wrong on purpose):", tally.types)?;
    say(&rt, "moved (5 wrong on purpose):", tally.moved)
}
