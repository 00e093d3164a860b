// The tests of what is lent that mesh, update and check share, each with its refusal.
#![tactic(auto)]

ghost use Rattle.std.specs.Prelude.{◌≡◌, ℕ, ◌<◌, ◌≤◌, length, slice_index};
ghost use Rattle.rules.specs.Types.{Types};
ghost use Rattle.rules.specs.Mesh as mesh;
ghost use Rattle.rules.specs.Answers.{◌then◌, BAD_SIZE, BAD_GRID, BAD_OUTER, BAD_CELL, SHORT_SLOTS, room_of, BAD_COUNT};
ghost use Rattle.rules.specs.Calls.{open_verdict, input_verdict};
ghost use Rattle.answers.specs.Verdicts.{verdict_of};
ghost use Rattle.util.specs.Grid.{size_of, Within};
ghost use Rattle.terms.specs.Loans.{lists_in};
ghost use Rattle.terms.specs.Scenes.{scene_of};
ghost use Rattle.lent.specs.Scenes.{Long};

use answers::{Refusal, Verdict, refuse_if, refuse_lowest};
use terms::{Lengths, Lists, Scene};
use types::types_verdict;
use util::Dimensions;

pub mod links; // links.rt: the links, with their slots
pub mod triangles; // triangles.rt: the triangles

pub fn size_verdict(dims: Dimensions) -> Verdict
    ensures { verdict_of result ≡ BAD_SIZE (size_of dims) }
{
    refuse_if(dims.bad_limits(), Refusal::BadSize, 0)
}

pub fn grid_verdict(dims: Dimensions, grid: &[u8]) -> Verdict
    requires { Within (size_of dims) }
    ensures { verdict_of result ≡ BAD_GRID (size_of dims) grid.now }
{
    refuse_if(
        grid.len() != dims.cell_count() as usize,
        Refusal::BadSize,
        0,
    )
}

pub fn outer_verdict(outer: &[u8]) -> Verdict
    ensures { verdict_of result ≡ BAD_OUTER outer.now }
{
    refuse_lowest(Refusal::BadFace, outer.len(), |i| 5 < outer[i])
}

// A code that no cell's is over. No turn leaves early, so that the compiler looks at several cells at once.
fn largest_code(grid: &[u8]) -> u8
    ensures { (c : ℕ) → c < length grid.now → slice_index grid.now c ≤ result }
{
    grid.iter().copied().max().unwrap_or(0)
}

pub fn cell_verdict(types: usize, grid: &[u8]) -> Verdict
    ensures { (T : Types) → length T.kinds ≡ types → verdict_of result ≡ BAD_CELL T grid.now }
{
    if usize::from(largest_code(grid)) < types {
        return Ok(());
    }
    refuse_lowest(
        Refusal::BadCell,
        grid.len(),
        |cell| types <= usize::from(grid[cell]),
    )
}

pub fn slots_verdict(dims: Dimensions, slots: usize) -> Verdict
    requires { Within (size_of dims) }
    ensures { (B : mesh.Lists) → length B.slots ≡ slots → verdict_of result ≡ SHORT_SLOTS (size_of dims) B }
{
    refuse_if(
        slots < 6 * dims.cell_count() as usize,
        Refusal::ShortRoom,
        0,
    )
}

// How long the lists of a mesh are.
pub fn lengths_of(mesh: Lists<'_>) -> Lengths
    ensures { Long (lists_in mesh.entry) result }
{
    Lengths {
        positions: mesh.positions.len(),
        normals: mesh.normals.len(),
        uvs: mesh.uvs.len(),
        colours: mesh.colours.len(),
        triangles: mesh.triangles.len(),
        links: mesh.links.len(),
        slots: mesh.slots.len(),
    }
}

// Room in quads: the least over all lists, the colour list counted only with colour.
pub fn room_of(coloured: bool, lengths: Lengths) -> usize
    ensures { (B : mesh.Lists) → Long B lengths → result ≡ room_of coloured B }
{
    let indexed = (lengths.triangles / 6).min(lengths.links);
    let faced = (lengths.normals / 12).min((lengths.uvs / 8).min(indexed));
    let others = (lengths.positions / 12).min(faced);
    if coloured {
        return (lengths.colours / 16).min(others);
    }
    others
}

pub fn count_verdict(coloured: bool, lengths: Lengths, count: usize) -> Verdict
    ensures { (B : mesh.Lists) → Long B lengths → verdict_of result ≡ BAD_COUNT (room_of coloured B) count }
{
    refuse_if(room_of(coloured, lengths) < count, Refusal::BadCount, 0)
}

// BAD_SIZE to SHORT_ROOM: what mesh and check ask before the mesh is looked at.
pub fn input_verdict(scene: Scene<'_>, outer: &[u8], grid: &[u8], slots: usize) -> Verdict
    ensures { (B : mesh.Lists) → length B.slots ≡ slots → verdict_of result ≡ input_verdict (scene_of scene.entry) outer.now grid.now B }
{
    size_verdict(scene.dims)?;
    grid_verdict(scene.dims, grid)?;
    types_verdict(scene.types, scene.d, scene.centre)?;
    outer_verdict(outer)?;
    cell_verdict(scene.types.kinds.len(), grid)?;
    slots_verdict(scene.dims, slots)
}

// BAD_SIZE to BAD_COUNT: what the check asks before the mesh is looked at.
pub fn open_verdict(
    scene: Scene<'_>,
    outer: &[u8],
    grid: &[u8],
    lengths: Lengths,
    count: usize,
) -> Verdict
    ensures { (B : mesh.Lists) → Long B lengths → verdict_of result ≡ open_verdict (scene_of scene.entry) outer.now grid.now B count }
{
    input_verdict(scene, outer, grid, lengths.slots)?;
    count_verdict(scene.types.coloured, lengths, count)
}

// SHORT_ROOM and BAD_COUNT: what the update asks before the mesh is looked at.
pub fn lent_verdict(scene: Scene<'_>, lengths: Lengths, count: usize) -> Verdict
    requires { Within (size_of scene.dims) }
    ensures { (B : mesh.Lists) → Long B lengths → verdict_of result ≡ (SHORT_SLOTS (size_of scene.entry.dims) B then BAD_COUNT (room_of scene.entry.types.coloured B) count) }
{
    slots_verdict(scene.dims, lengths.slots)?;
    count_verdict(scene.types.coloured, lengths, count)
}
