// The steps of an update, replayed on the list of each attribute.
#![tactic(auto)]

ghost use Rattle.std.specs.Prelude.{◌≡◌, [], ◌∷◌, ◌/◌, ◌≤◌, ◌<◌, length};
ghost use Rattle.rules.specs.Mesh.{vertices_of};
ghost use Rattle.util.specs.Grid.{size_of, Inverts};
ghost use Rattle.terms.specs.Scenes.{scene_of};
ghost use Rattle.drawing.specs.Written.{Long};
ghost use Rattle.steps.specs.Steps.{step_at, steps_in};
ghost use Rattle.steps.specs.Rows.{quad_freed, run_all, shelves, ran_all, ReplayingAll};

use drawing::write_places;
use face::Cell;
use quads::Quad;
use terms::Scene;
use util::{Inverse, cords_of};
use vav::free_row;
use voxel_mesh::floats_of;

// Marks a step that is a cut. A step stays two words: as an enum it would take three, in a list of fixed length that each entry fills.
pub const CUT: u32 = 256;

// Frees place q of `count` in the list of each attribute that the vertices have. The compiler knows each number of words.
fn free_places(
    positions: &mut [u32],
    normals: &mut [u32],
    uvs: &mut [u32],
    colours: &mut [u32],
    coloured: bool,
    q: usize,
    count: usize,
)
    requires { (q < count) × Long coloured count (vertices_of positions.old normals.old uvs.old colours.old) }
    ensures { vertices_of positions.new normals.new uvs.new colours.new
        ≡ quad_freed coloured q count (vertices_of positions.old normals.old uvs.old colours.old) }
{
    free_row(positions, 12, q, count);
    free_row(normals, 12, q, count);
    free_row(uvs, 8, q, count);
    if coloured {
        free_row(colours, 16, q, count);
    }
}

// Does a step of two words, a key and a type or a place and the mark, on the list of each attribute, and answers the number of quads.
fn replay_one(
    positions: &mut [u32],
    normals: &mut [u32],
    uvs: &mut [u32],
    colours: &mut [u32],
    scene: Scene<'_>,
    inverse: Inverse,
    step: &[u32],
    count: usize,
) -> usize
    requires { (2 ≤ length step.now)
        × ReplayingAll (scene_of scene) (step_at step.now 0 ∷ []) (vertices_of positions.old normals.old uvs.old colours.old) count
        × Inverts (size_of scene.dims) inverse }
    ensures { shelves (vertices_of positions.new normals.new uvs.new colours.new) result
        ≡ ran_all (scene_of scene.entry) (step_at step.now 0 ∷ [])
        (shelves (vertices_of positions.old normals.old uvs.old colours.old) count) }
{
    let a = step[0];
    let b = step[1];
    let coloured = scene.types.coloured;
    if b >= CUT {
        free_places(
            positions, normals, uvs, colours, coloured, a as usize, count,
        );
        return count - 1;
    }
    let floats = floats_of(coloured);
    let words = 4 * floats;
    let start = words * (6 * b + a % 6) as usize;
    let end = start + words;
    let quad = Quad {
        corners: &scene.types.cubes[start..end],
        floats,
        at: cords_of(Cell(a / 6), scene.dims, inverse),
        d: scene.d,
    };
    write_places(positions, normals, uvs, colours, quad, coloured, count);
    count + 1
}

// Does the steps on the list of each attribute that the vertices have.
pub fn replay_steps(
    positions: &mut [u32],
    normals: &mut [u32],
    uvs: &mut [u32],
    colours: &mut [u32],
    scene: Scene<'_>,
    inverse: Inverse,
    steps: &[u32],
    count: usize,
)
    requires { ReplayingAll (scene_of scene) (steps_in (length steps.now / 2) steps.now) (vertices_of positions.old normals.old uvs.old colours.old) count
        × Inverts (size_of scene.dims) inverse }
    ensures { vertices_of positions.new normals.new uvs.new colours.new
        ≡ run_all (scene_of scene.entry) (steps_in (length steps.now / 2) steps.now) count
        (vertices_of positions.old normals.old uvs.old colours.old) }
{
    let n = steps.len() / 2;
    let mut left = count;
    for i in 0..n {
        let at = 2 * i;
        left = replay_one(
            positions,
            normals,
            uvs,
            colours,
            scene,
            inverse,
            &steps[at..at + 2],
            left,
        );
    }
}
