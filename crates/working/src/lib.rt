// The work that a file asks for, in lists that are lent: cubes for all types, then the mesh, then the update.
#![tactic(auto)]

ghost use Rattle.std.specs.Prelude.{◌≡◌, [], ◌*◌, ◌≤◌, ◌<◌, length};
ghost use Rattle.rules.specs.Cube.{floats_of};
ghost use Rattle.rules.specs.Calls.{check_by};
ghost use Rattle.rules.specs.Program.{type_count, coloured_in, shape_in, build_from};
ghost use Rattle.answers.specs.Verdicts.{verdict_of};
ghost use Rattle.voxel_mesh.specs.Outcome.{Cubes};
ghost use Rattle.terms.specs.Loans.{lists_lent};
ghost use Rattle.update.specs.Outcome.{outcome_of};
ghost use Rattle.working.specs.Steps.{shape_by, scene_with, built_of, worked_on};

use answers::Verdict;
use meshem::mesh_grid;
use telling::algorithm_of;
use terms::{Scene, Tested};
use types::Types;
use update::{Updated, update_mesh};
use voxel_mesh::{Shape, floats_of, generate_voxel_mesh};
use workfile::{Work, WorkFile};

// Here, as workfile knows of no cubes.
fn shape_of(work: Work) -> Shape
    ensures { result ≡ shape_by work }
{
    Shape {
        d: work.d,
        centre: work.centre,
        atlas_width: work.atlas_width,
        atlas_height: work.atlas_height,
        padding: work.padding,
        coloured: work.coloured,
        colour: work.colour,
        alpha: work.alpha,
    }
}

// The words of a cube.
fn cube_words(file: WorkFile<'_>) -> usize
    ensures { result ≡ 24 * floats_of (coloured_in file.entry.bytes.now) }
{
    24 * floats_of(file.read_work().coloured)
}

// The words of the cubes of all types.
pub fn registry_words(file: WorkFile<'_>) -> usize
    ensures { (result ≡ 24 * floats_of (coloured_in file.entry.bytes.now) * type_count file.entry.bytes.now) × (result ≤ 2304) }
{
    cube_words(file) * file.read_work().types
}

fn build_cube(file: WorkFile<'_>, t: usize, out: &mut [u32]) -> Verdict
    requires { t < type_count file.bytes.now }
    ensures { Cubes (shape_in file.entry.bytes.now t) out.old result out.new }
{
    let mut texture = [0; 18];
    file.texture_of(t, &mut texture);
    generate_voxel_mesh(shape_of(file.read_work()), &texture, out)
}

// Cubes are built for all types in order, up to the first that is refused.
pub fn build_cubes(file: WorkFile<'_>, registry: &mut [u32]) -> Verdict
    requires { length registry.old ≡ 24 * floats_of (coloured_in file.bytes.now) * type_count file.bytes.now }
    ensures { built_of (check_by (verdict_of result)) registry.new ≡ build_from file.entry.bytes.now 0 (type_count file.entry.bytes.now) [] }
{
    let words = cube_words(file);
    for t in 0..file.read_work().types {
        let start = words * t;
        let end = start + words;
        build_cube(file, t, &mut registry[start..end])?;
    }
    Ok(())
}

// The update follows unless the mesh is refused. The file has no place for its mode, so it is the source's.
pub fn work_lists(
    file: WorkFile<'_>,
    outer: &[u8],
    kinds: &[u8],
    covers: &[u8],
    cubes: &[u32],
    positions: &mut [u32],
    normals: &mut [u32],
    uvs: &mut [u32],
    colours: &mut [u32],
    triangles: &mut [u32],
    links: &mut [u32],
    slots: &mut [u32],
) -> Updated
    ensures { outcome_of result (lists_lent positions.new normals.new uvs.new colours.new triangles.new links.new slots.new)
        ≡ worked_on file.entry.bytes.now (scene_with file.entry.bytes.now kinds.now covers.now cubes.now)
        outer.now (lists_lent positions.old normals.old uvs.old colours.old triangles.old links.old slots.old) }
{
    let work = file.read_work();
    let scene = Scene {
        dims: work.dims,
        types: Types {
            kinds,
            covers,
            cubes,
            coloured: work.coloured,
        },
        d: work.d,
        centre: work.centre,
    };
    let quads = mesh_grid(
        scene,
        outer,
        file.grid_of(),
        algorithm_of(work.culling),
        positions,
        normals,
        uvs,
        colours,
        triangles,
        links,
        slots,
    )?;
    update_mesh(
        scene,
        Tested::Opposite,
        file.log_of(),
        positions,
        normals,
        uvs,
        colours,
        triangles,
        links,
        slots,
        quads,
    )
}
