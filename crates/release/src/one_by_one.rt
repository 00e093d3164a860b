// A mesh made, mended by a call for each entry of a log, and checked.
ghost use Rattle.std.specs.Prelude.{◌≡◌, ◌/◌, length};
ghost use Rattle.rules.specs.Update.{ENTRY_BYTES};
ghost use Rattle.answers.specs.Verdicts.{verdict_of};
ghost use Rattle.terms.specs.Loans.{lists_lent};
ghost use Rattle.terms.specs.Scenes.{scene_of};
ghost use Rattle.terms.specs.Modes.{tested_by};
ghost use Rattle.demands.specs.Chunks.{LogFor, ground_after};
ghost use Rattle.release.specs.Composed.{ends_with};
ghost use Rattle.release.specs.OneByOne.{went_of, calls, chain_promise, chain_ending};

use crate::mesh_left;
use answers::Verdict;
use checking::check_mesh;
use entries::Entry;
use meshem::{Meshed, mesh_grid};
use terms::{Lists, MeshingAlgorithm, Scene, Tested};
use update::update_mesh;

// Mends a mesh by a call for each entry of a log. Answers how many quads there are then, as a mesh does.
fn mend_by_entries(
    positions: &mut [u32],
    normals: &mut [u32],
    uvs: &mut [u32],
    colours: &mut [u32],
    triangles: &mut [u32],
    links: &mut [u32],
    slots: &mut [u32],
    scene: Scene<'_>,
    tested: Tested,
    log: &[u8],
    quads: usize,
) -> Meshed
    ensures { went_of result (lists_lent positions.new normals.new uvs.new colours.new triangles.new links.new slots.new)
        ≡ calls (tested_by tested) (scene_of scene.entry)
        log.now 0 (length log.now / ENTRY_BYTES)
        (lists_lent positions.old normals.old uvs.old colours.old triangles.old links.old slots.old) quads }
{
    let mut left = quads;
    for k in 0..log.len() / Entry::BYTES {
        let at = Entry::BYTES * k;
        let entry = &log[at..at + Entry::BYTES];
        left = mesh_left(update_mesh(
            scene, tested, entry, positions, normals, uvs, colours, triangles, links, slots, left,
        ))?;
    }
    Ok(left)
}

// Meshes a grid by Culling with no outer face named, mends the mesh by a call for each entry of a log, and checks it for the grid that the
// log left: after a log of demand 3 the check refuses nothing.
pub fn make_mend_and_check(
    positions: &mut [u32],
    normals: &mut [u32],
    uvs: &mut [u32],
    colours: &mut [u32],
    triangles: &mut [u32],
    links: &mut [u32],
    slots: &mut [u32],
    scene: Scene<'_>,
    grid: &[u8],
    tested: Tested,
    log: &[u8],
    left: &[u8],
) -> Verdict
    ensures { (ends_with (verdict_of result) (lists_lent positions.new normals.new uvs.new colours.new triangles.new links.new slots.new)
        ≡ chain_ending (tested_by tested) (scene_of scene.entry)
        grid.now log.now left.now
        (lists_lent positions.old normals.old uvs.old colours.old triangles.old links.old slots.old))
        × (LogFor tested (scene_of scene.entry) grid.now log.now
        → left.now ≡ ground_after (scene_of scene.entry)
        log.now grid.now
        → verdict_of result ≡ chain_promise (tested_by tested) (scene_of scene.entry)
        grid.now log.now
        (lists_lent positions.old normals.old uvs.old colours.old triangles.old links.old slots.old)) }
{
    let made = mesh_grid(
        scene,
        &grid[..0],
        grid,
        MeshingAlgorithm::Culling,
        positions,
        normals,
        uvs,
        colours,
        triangles,
        links,
        slots,
    )?;
    let mended = mend_by_entries(
        positions, normals, uvs, colours, triangles, links, slots, scene, tested, log, made,
    )?;
    let mesh = Lists {
        positions,
        normals,
        uvs,
        colours,
        triangles,
        links,
        slots,
    };
    check_mesh(scene, &left[..0], left, mesh, mended)
}
