// The check of a mesh: whether it shows what culling shows, every word right, index and quads naming each other.
#![tactic(auto)]

ghost use Rattle.std.specs.Prelude.{◌≡◌, Bool, true, cond, List, ℕ, ◌+◌, ◌*◌, ◌≤◌, ◌<◌, length, get_or};
ghost use Rattle.rules.specs.Lists.{lowest};
ghost use Rattle.rules.specs.Cells.{cells, has, set_of};
ghost use Rattle.util.specs.Grid.{size_of};
ghost use Rattle.terms.specs.Loans.{lists_in};
ghost use Rattle.terms.specs.Scenes.{scene_of};
ghost use Rattle.culling.specs.Culling.{outer_set};
ghost use Rattle.rules.specs.Answers.{is_filled, unlike};
ghost use Rattle.checking.specs.Faces.{filled_set, bits, four_sets, wrong_at, wrong_in_row};
ghost use Rattle.checking.specs.Outcome.{Checks};

use answers::{Refusal, Verdict, refuse_if};
use comparing::first_wrong_quad;
use culling::{Ground, outer_set};
use face::{NONE, side_set};
use lent::links::links_verdict;
use lent::triangles::triangles_verdict;
use lent::{lengths_of, open_verdict};
use row_sets::{Look, drawn_row, sides_along};
use terms::{Lists, Scene};
use util::Row;

// The faces of a cell whose slots are filled.
fn filled_set(slots: &[u32], cell: usize) -> u8
    requires { 6 * cell + 6 ≤ length slots.now }
    ensures { result ≡ filled_set slots.now cell }
{
    side_set(|face| slots[6 * cell + face.number() as usize] != NONE)
}

// The lowest face that one side set has and the other has not, or 6, as the rules' `lowest` counts.
fn lowest_unlike(a: u8, b: u8) -> usize
    ensures { result ≡ lowest 6 (λ f. unlike (has a f) (has b f)) }
{
    for face in 0..6 {
        if (a >> face) % 2 != (b >> face) % 2 {
            return face;
        }
    }
    6
}

// Which of 24 slots are filled, a bit each. No turn branches, so that the compiler reads several slots at once.
fn filled_bits(slots: &[u32], at: usize) -> u32
    requires { at + 24 ≤ length slots.now }
    ensures { result ≡ bits (λ k. is_filled slots.now (at + k)) 24 }
{
    let mut filled: u32 = 0;
    for k in 0..24 {
        filled += u32::from(slots[at + k] != NONE) << k;
    }
    filled
}

// Whether the side sets of four cells of a row, from x on, are those of their filled slots.
fn are_alike(sets: &[u8], slots: &[u32], first: usize, x: usize) -> bool
    requires { (x < length sets.now) × (6 * (first + length sets.now) ≤ length slots.now) × (first + length sets.now ≤ 1048576) }
    ensures { result ≡ true → (x + 4 ≤ length sets.now) × (four_sets (λ i. get_or sets.now (x + i) 0) ≡ four_sets (λ i. filled_set slots.now (first + x + i))) }
{
    if sets.len() < x + 4 {
        return false;
    }
    let drawn = u32::from(sets[x])
        + 64 * u32::from(sets[x + 1])
        + 4_096 * u32::from(sets[x + 2])
        + 262_144 * u32::from(sets[x + 3]);
    drawn == filled_bits(slots, 6 * (first + x))
}

// The lowest face of a row of cells that its side set has and its slots have not, or they have and it has not, counted from the row's first; or how many
// there are, as the rules' `lowest` counts. A turn goes four cells on, or one, so it is no `for`.
fn lowest_in_row(sets: &[u8], slots: &[u32], first: usize) -> usize
    requires { (6 * (first + length sets.now) ≤ length slots.now) × (first + length sets.now ≤ 1048576) }
    ensures { (sides : ℕ → ℕ → Bool) → ((x : ℕ) → x < length sets.now → get_or sets.now x 0 ≡ set_of (sides x))
        → result ≡ lowest (6 * length sets.now) (wrong_in_row sides slots.now first) }
{
    let mut x: usize = 0;
    while x < sets.len() {
        if are_alike(sets, slots, first, x) {
            x += 4;
            continue;
        }
        let drawn = sets[x];
        let filled = filled_set(slots, first + x);
        if drawn != filled {
            return 6 * x + lowest_unlike(drawn, filled);
        }
        x += 1;
    }
    6 * x
}

// Searches row by row, and answers the number of faces where none is wrong, as the rules' `lowest` does; `sets` is room for a row. A row ends where the next starts, with its place in the layer, so the loop is no `for`.
fn lowest_by_rows(look: Look<'_>, slots: &[u32], sets: &mut [u8]) -> usize
    requires { (6 * cells (size_of look.ground.dims) ≤ length slots.now) × (look.ground.dims.width ≤ length sets.old) }
    ensures { (faces : List ℕ) → look.entry.outer ≡ outer_set faces → result ≡ lowest (6 * cells (size_of look.entry.ground.dims)) (wrong_at look.entry.ground faces slots.now) }
{
    let dims = look.ground.dims;
    let width = dims.width as usize;
    let end = dims.cell_count();
    let mut row = Row {
        first: 0,
        y: 0,
        z: 0,
    };
    while row.first < end {
        drawn_row(sets, look, row);
        let start = row.first as usize;
        let face = lowest_in_row(&sets[..width], slots, start);
        if face < 6 * width {
            return 6 * start + face;
        }
        row = row.next(dims);
    }
    6 * end as usize
}

// The lowest face that is drawn and not there, or there and not drawn, or the number of faces, likewise.
fn lowest_wrong_face(ground: Ground<'_>, outer: u8, slots: &[u32]) -> usize
    requires { (6 * cells (size_of ground.dims) ≤ length slots.now) × (length ground.kinds.now ≤ 255) × (outer < 64) }
    ensures { (faces : List ℕ) → outer ≡ outer_set faces → result ≡ lowest (6 * cells (size_of ground.entry.dims)) (wrong_at ground.entry faces slots.now) }
{
    let mut along: [u8; 1024] = [0; 1024];
    sides_along(&mut along, ground.dims.width);
    let mut sets: [u8; 1024] = [0; 1024];
    lowest_by_rows(Look::of(ground, &along, outer), slots, &mut sets)
}

// Tries the refusals in their order; a mesh that passes is right.
pub fn check_mesh(
    scene: Scene<'_>,
    outer: &[u8],
    grid: &[u8],
    mesh: Lists<'_>,
    count: usize,
) -> Verdict
    ensures { Checks (scene_of scene.entry) outer.now grid.now (lists_in mesh.entry) count result }
{
    open_verdict(scene, outer, grid, lengths_of(mesh), count)?;
    let cells = scene.dims.cell_count();
    links_verdict(cells, mesh.links, mesh.slots, count)?;
    triangles_verdict(mesh.triangles, count)?;
    let ground = Ground {
        dims: scene.dims,
        grid,
        kinds: scene.types.kinds,
        covers: scene.types.covers,
    };
    let face = lowest_wrong_face(ground, outer_set(outer), mesh.slots);
    refuse_if(face < 6 * cells as usize, Refusal::WrongSet, face)?;
    let quad = first_wrong_quad(scene, grid, mesh, count);
    refuse_if(quad < count, Refusal::WrongVertex, quad)
}
