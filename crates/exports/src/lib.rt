// The C calls, in the form that include/meshem.h declares. Each but meshem_abi returns 0 or a refusal's number, and writes its answer through
// the pointers at its end.
#![tactic(auto)]

ghost use Rattle.std.specs.Prelude.{◌≡◌};
ghost use Rattle.terms.specs.Loans.{lists_lent};
ghost use Rattle.telling.specs.Numbers.{is_yes, answer, scene_from, TellsCube, TellsMesh, TellsUpdate, TellsCheck};
ghost use Rattle.exports.specs.Arguments.{ABI, shape_from};

use checking::check_mesh;
use floats::Triple;
use meshem::mesh_grid;
use telling::{
    algorithm_of, is_yes, scene_of, tested_of, told_by_mesh, told_by_update, told_by_verdict,
};
use terms::Lists;
use update::update_mesh;
use voxel_mesh::{Shape, generate_voxel_mesh};

// The level of these calls, which the header repeats as MESHEM_ABI.
#[unsafe(no_mangle)]
pub extern "C" fn meshem_abi() -> u32
    ensures { result ≡ ABI }
{
    5
}

#[unsafe(no_mangle)]
pub extern "C" fn meshem_generate_voxel_mesh(
    dx: u32,
    dy: u32,
    dz: u32,
    atlas_width: u32,
    atlas_height: u32,
    texture: &[u32],
    cx: u32,
    cy: u32,
    cz: u32,
    padding: u32,
    coloured: u32,
    colour: u32,
    alpha: u32,
    out: &mut [u32],
    place: &mut u64,
) -> u32
    ensures { TellsCube (shape_from dx dy dz atlas_width atlas_height texture.now cx cy cz padding coloured colour alpha)
        out.old (answer result place.new 0 0) out.new }
{
    let shape = Shape {
        d: Triple {
            x: dx,
            y: dy,
            z: dz,
        },
        centre: Triple {
            x: cx,
            y: cy,
            z: cz,
        },
        atlas_width,
        atlas_height,
        padding,
        coloured: is_yes(coloured),
        colour,
        alpha,
    };
    let cubed = told_by_verdict(generate_voxel_mesh(shape, texture, out));
    *place = cubed.place as u64;
    cubed.number
}

#[unsafe(no_mangle)]
pub extern "C" fn meshem_mesh_grid(
    width: u32,
    height: u32,
    length: u32,
    outer: &[u8],
    grid: &[u8],
    kinds: &[u8],
    covers: &[u8],
    cubes: &[u32],
    coloured: u32,
    dx: u32,
    dy: u32,
    dz: u32,
    cx: u32,
    cy: u32,
    cz: u32,
    algorithm: u32,
    positions: &mut [u32],
    normals: &mut [u32],
    uvs: &mut [u32],
    colours: &mut [u32],
    triangles: &mut [u32],
    links: &mut [u32],
    slots: &mut [u32],
    place: &mut u64,
    quads: &mut u64,
) -> u32
    ensures { TellsMesh (scene_from width height length kinds.now covers.now cubes.now coloured dx dy dz cx cy cz)
        outer.now grid.now (is_yes algorithm) (lists_lent positions.old normals.old uvs.old colours.old triangles.old links.old slots.old)
        (answer result place.new quads.new 0) (lists_lent positions.new normals.new uvs.new colours.new triangles.new links.new slots.new) }
{
    let scene = scene_of(
        width, height, length, kinds, covers, cubes, coloured, dx, dy, dz, cx, cy, cz,
    );
    let by = algorithm_of(is_yes(algorithm));
    let meshed = told_by_mesh(mesh_grid(
        scene, outer, grid, by, positions, normals, uvs, colours, triangles, links, slots,
    ));
    *place = meshed.place as u64;
    *quads = meshed.quads as u64;
    meshed.number
}

#[unsafe(no_mangle)]
pub extern "C" fn meshem_update_mesh(
    positions: &mut [u32],
    normals: &mut [u32],
    uvs: &mut [u32],
    colours: &mut [u32],
    triangles: &mut [u32],
    links: &mut [u32],
    slots: &mut [u32],
    count: u64,
    width: u32,
    height: u32,
    length: u32,
    log: &[u8],
    tested: u32,
    kinds: &[u8],
    covers: &[u8],
    cubes: &[u32],
    coloured: u32,
    dx: u32,
    dy: u32,
    dz: u32,
    cx: u32,
    cy: u32,
    cz: u32,
    place: &mut u64,
    quads: &mut u64,
    moved: &mut u64,
) -> u32
    ensures { TellsUpdate tested (scene_from width height length kinds.now covers.now cubes.now coloured dx dy dz cx cy cz)
        log.now (lists_lent positions.old normals.old uvs.old colours.old triangles.old links.old slots.old) count
        (answer result place.new quads.new moved.new) (lists_lent positions.new normals.new uvs.new colours.new triangles.new links.new slots.new) }
{
    let scene = scene_of(
        width, height, length, kinds, covers, cubes, coloured, dx, dy, dz, cx, cy, cz,
    );
    let side = tested_of(is_yes(tested));
    let mended = told_by_update(update_mesh(
        scene,
        side,
        log,
        positions,
        normals,
        uvs,
        colours,
        triangles,
        links,
        slots,
        count as usize,
    ));
    *place = mended.place as u64;
    *quads = mended.quads as u64;
    *moved = mended.moved;
    mended.number
}

#[unsafe(no_mangle)]
pub extern "C" fn meshem_check_mesh(
    width: u32,
    height: u32,
    length: u32,
    outer: &[u8],
    grid: &[u8],
    kinds: &[u8],
    covers: &[u8],
    cubes: &[u32],
    coloured: u32,
    dx: u32,
    dy: u32,
    dz: u32,
    cx: u32,
    cy: u32,
    cz: u32,
    positions: &[u32],
    normals: &[u32],
    uvs: &[u32],
    colours: &[u32],
    triangles: &[u32],
    links: &[u32],
    slots: &[u32],
    count: u64,
    place: &mut u64,
) -> u32
    ensures { TellsCheck (scene_from width height length kinds.now covers.now cubes.now coloured dx dy dz cx cy cz)
        outer.now grid.now (lists_lent positions.now normals.now uvs.now colours.now triangles.now links.now slots.now) count result place.new }
{
    let scene = scene_of(
        width, height, length, kinds, covers, cubes, coloured, dx, dy, dz, cx, cy, cz,
    );
    let mesh = Lists {
        positions,
        normals,
        uvs,
        colours,
        triangles,
        links,
        slots,
    };
    let checked = told_by_verdict(check_mesh(scene, outer, grid, mesh, count as usize));
    *place = checked.place as u64;
    checked.number
}
