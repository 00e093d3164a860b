// Fresh meshing: the quads are counted, then the faces of each row entered into the index and written.
#![tactic(auto)]

ghost use Rattle.meshem.specs.Outcome.{Meshes};
ghost use Rattle.terms.specs.Modes.{is_culling};
ghost use Rattle.terms.specs.Loans.{lists_lent};
ghost use Rattle.terms.specs.Scenes.{scene_of};

use answers::{Refusal, Refused, refuse_if};
use culling::{Ground, outer_set};
use drawing::{vertex_row, write_patterns};
use face::ranks;
use lent::{input_verdict, lengths_of, room_of};
use listing::{count_quads, index_row, side_row};
use mesh_metadata::new;
use row_sets::{Look, sides_along};
use terms::{Lists, MeshingAlgorithm, Scene};
use util::Row;

// What the call answers: how many quads there are, or the refusal.
pub type Meshed = Result<usize, Refused>;

// Meshes a grid into the lent lists, or refuses and writes nothing. A row's faces go into the index and a list of their own, and by that list into each attribute's.
// The rows end with the last quad: the loop counts quads, as many a turn as a row has, and is no `for`.
pub fn mesh_grid(
    scene: Scene<'_>,
    outer: &[u8],
    grid: &[u8],
    algorithm: MeshingAlgorithm,
    positions: &mut [u32],
    normals: &mut [u32],
    uvs: &mut [u32],
    colours: &mut [u32],
    triangles: &mut [u32],
    links: &mut [u32],
    slots: &mut [u32],
) -> Meshed
    ensures { Meshes (scene_of scene.entry) outer.now grid.now (is_culling algorithm)
        (lists_lent positions.old normals.old uvs.old colours.old triangles.old links.old slots.old) result (lists_lent positions.new normals.new uvs.new colours.new triangles.new links.new slots.new) }
{
    input_verdict(scene, outer, grid, slots.len())?;
    let dims = scene.dims;
    let culling = algorithm.is_culling();
    // Fixed rooms here and below, since nothing is allocated.
    let mut along: [u8; 1024] = [0; 1024];
    sides_along(&mut along, dims.width);
    let ground = Ground {
        dims,
        grid,
        kinds: scene.types.kinds,
        covers: scene.types.covers,
    };
    let look = Look::of(ground, &along, outer_set(outer));
    let mut sets: [u8; 1024] = [0; 1024];
    let quads = count_quads(look, culling, &mut sets);
    let lengths = lengths_of(Lists {
        positions,
        normals,
        uvs,
        colours,
        triangles,
        links,
        slots,
    });
    let room = room_of(scene.types.coloured, lengths);
    refuse_if(room < quads, Refusal::NoRoom, 0)?;
    let width = dims.width as usize;
    let six = 6 * dims.cell_count() as usize;
    new(&mut slots[..six]);
    write_patterns(triangles, 0, quads);
    let ranks = ranks();
    let mut sides: [u32; 6144] = [0; 6144];
    let mut base: usize = 0;
    let mut row = Row {
        first: 0,
        y: 0,
        z: 0,
    };
    while base < quads {
        side_row(&mut sets, look, culling, row);
        let n = index_row(
            links,
            slots,
            &mut sides,
            &ranks,
            &sets[..width],
            grid,
            row.first,
            base,
        );
        vertex_row(
            positions,
            normals,
            uvs,
            colours,
            scene,
            row,
            &sides[..n],
            base,
        );
        base += n;
        row = row.next(dims);
    }
    Ok(quads)
}
