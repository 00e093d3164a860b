// The calls one after the other, as whoever releases a chunk makes them; each contract is a promise that holds of the calls' contracts, and
// says the lists that are left.
#![tactic(auto)]

ghost use Rattle.std.specs.Prelude.{◌≡◌};
ghost use Rattle.answers.specs.Verdicts.{verdict_of};
ghost use Rattle.terms.specs.Loans.{lists_lent};
ghost use Rattle.terms.specs.Scenes.{scene_of};
ghost use Rattle.terms.specs.Modes.{tested_by};
ghost use Rattle.demands.specs.Chunks.{LogFor, ground_after};
ghost use Rattle.release.specs.Composed.{meshed_by, ends_with, make_ending, mend_promise, mend_ending};

use answers::Verdict;
use checking::check_mesh;
use meshem::{Meshed, mesh_grid};
use terms::{Lists, MeshingAlgorithm, Scene, Tested};
use update::{Updated, update_mesh};

pub mod one_by_one; // one_by_one.rt: a call for each entry of a log

// An update's answer as that of a mesh: how many quads there are, or the refusal.
fn mesh_left(mended: Updated) -> Meshed
    ensures { result ≡ meshed_by mended }
{
    mended
        .map(|count| count.quads)
        .map_err(|stopped| stopped.refused)
}

// Meshes a grid by Culling and checks what was made for the same outer list: the check refuses nothing.
pub fn make_and_check(
    positions: &mut [u32],
    normals: &mut [u32],
    uvs: &mut [u32],
    colours: &mut [u32],
    triangles: &mut [u32],
    links: &mut [u32],
    slots: &mut [u32],
    scene: Scene<'_>,
    outer: &[u8],
    grid: &[u8],
) -> Verdict
    ensures { ends_with (verdict_of result) (lists_lent positions.new normals.new uvs.new colours.new triangles.new links.new slots.new)
        ≡ make_ending (scene_of scene.entry) outer.now grid.now (lists_lent positions.old normals.old uvs.old colours.old triangles.old links.old slots.old) }
{
    let quads = mesh_grid(
        scene,
        outer,
        grid,
        MeshingAlgorithm::Culling,
        positions,
        normals,
        uvs,
        colours,
        triangles,
        links,
        slots,
    )?;
    let mesh = Lists {
        positions,
        normals,
        uvs,
        colours,
        triangles,
        links,
        slots,
    };
    check_mesh(scene, outer, grid, mesh, quads)
}

// Checks a mesh with no outer face named, mends it by a log, and checks it for the grid `left`: the one that the log left, for the promise.
pub fn mend_and_check(
    positions: &mut [u32],
    normals: &mut [u32],
    uvs: &mut [u32],
    colours: &mut [u32],
    triangles: &mut [u32],
    links: &mut [u32],
    slots: &mut [u32],
    scene: Scene<'_>,
    grid: &[u8],
    quads: usize,
    tested: Tested,
    log: &[u8],
    left: &[u8],
) -> Verdict
    ensures { (ends_with (verdict_of result) (lists_lent positions.new normals.new uvs.new colours.new triangles.new links.new slots.new)
        ≡ mend_ending (tested_by tested) (scene_of scene.entry) grid.now log.now left.now
        (lists_lent positions.old normals.old uvs.old colours.old triangles.old links.old slots.old) quads)
        × (LogFor tested (scene_of scene.entry) grid.now log.now
        → left.now ≡ ground_after (scene_of scene.entry) log.now grid.now
        → verdict_of result ≡ mend_promise (tested_by tested) (scene_of scene.entry) grid.now log.now
        (lists_lent positions.old normals.old uvs.old colours.old triangles.old links.old slots.old) quads) }
{
    let no_face = &grid[..0];
    let before = Lists {
        positions,
        normals,
        uvs,
        colours,
        triangles,
        links,
        slots,
    };
    check_mesh(scene, no_face, grid, before, quads)?;
    let mended = mesh_left(update_mesh(
        scene, tested, log, positions, normals, uvs, colours, triangles, links, slots, quads,
    ))?;
    let after = Lists {
        positions,
        normals,
        uvs,
        colours,
        triangles,
        links,
        slots,
    };
    check_mesh(scene, no_face, left, after, mended)
}
