// The words of the quads, compared as bits with those of the registry.
#![tactic(auto)]

ghost use Rattle.std.specs.Prelude.{◌≡◌, true, false, not, ℕ, ◌+◌, ◌*◌, ◌≤◌, ◌<◌, length, get_or, T, eqb};
ghost use Rattle.rules.specs.Lists.{lowest};
ghost use Rattle.rules.specs.Cells.{code_in, code, cell_in};
ghost use Rattle.rules.specs.Floats.{finite3};
ghost use Rattle.rules.specs.Cube.{floats_of};
ghost use Rattle.rules.specs.Mesh.{type_at, attribute_in};
ghost use Rattle.util.specs.Grid.{size_of, Inverts};
ghost use Rattle.floats.specs.Triples.{triple_of};
ghost use Rattle.vav.specs.Attributes.{attribute_of};
ghost use Rattle.terms.specs.Scenes.{scene_of};
ghost use Rattle.terms.specs.Loans.{vertices_in};
ghost use Rattle.quads.specs.Quads.{Has};
ghost use Rattle.quads.specs.Words.{words_of};
ghost use Rattle.comparing.specs.Quads.{quad_words_at, other_row, other_quad, HasRow, IsQuad, ComparableAll};

use face::{cell_of, code_of};
use quads::Quad;
use terms::{Lists, Scene};
use util::{Inverse, cords_of, inverted};
use vav::Attribute;
use voxel_mesh::floats_of;

// The number among the faces of all types of the face that a link names, of the type that stands in its cell.
fn linked_face(grid: &[u8], link: u32) -> usize
    requires { (code_in link ≤ 5) × (cell_in link < length grid.now) }
    ensures of_link { result ≡ 6 * type_at grid.now (cell_in link) + code (code_in link) }
    ensures below { result < 1536 }
{
    let kind = grid[cell_of(link).0 as usize];
    6 * usize::from(kind) + (5 - code_of(link)) as usize
}

// Whether float k of an attribute of the i-th vertex of a quad differs from the registry's.
fn is_other_word(row: &[u32], quad: Quad<'_>, attribute: Attribute, i: usize, k: usize) -> bool
    requires { Has quad.floats (attribute_of attribute) × (i < 4) × (k < (attribute_of attribute).width)
        × (length row.now ≡ 4 * (attribute_of attribute).width) }
    ensures { result ≡ not (eqb (get_or row.now ((attribute_of attribute).width * i + k) 0)
        (get_or (attribute_in quad.entry.floats (attribute_of attribute) 4 (words_of quad.entry)) ((attribute_of attribute).width * i + k) 0)) }
{
    row[attribute.width() * i + k] != quad.word(attribute, i, k)
}

// Whether an attribute of a quad is the registry's without a doubt. Only the words of a vertex together are branched on, so that the compiler compares several at
// once; it knows how many they are where the row and the attribute are known.
fn is_row(row: &[u32], quad: Quad<'_>, attribute: Attribute) -> bool
    requires { Has quad.floats (attribute_of attribute) × (length row.now ≡ 4 * (attribute_of attribute).width) }
    ensures { result ≡ true → row.now ≡ attribute_in quad.entry.floats (attribute_of attribute) 4 (words_of quad.entry) }
{
    let width = attribute.width();
    for i in 0..4 {
        let mut good = true;
        for k in 0..width {
            good = good & !is_other_word(row, quad, attribute, i, k);
        }
        if !good {
            return false;
        }
    }
    true
}

// Whether each attribute of quad q is the registry's without a doubt.
fn is_quad(lists: Lists<'_>, coloured: bool, quad: Quad<'_>, q: usize) -> bool
    requires { (quad.floats ≡ floats_of coloured) × HasRow coloured (vertices_in lists) q }
    ensures { result ≡ true → IsQuad coloured (vertices_in lists.entry) q (words_of quad.entry) }
{
    let start = 12 * q;
    let uv_start = 8 * q;
    if !is_row(
        &lists.positions[start..start + 12],
        quad,
        Attribute::Position,
    ) {
        return false;
    }
    if !is_row(&lists.normals[start..start + 12], quad, Attribute::Normal) {
        return false;
    }
    if !is_row(&lists.uvs[uv_start..uv_start + 8], quad, Attribute::Uv) {
        return false;
    }
    if coloured {
        let colour_start = 16 * q;
        return is_row(
            &lists.colours[colour_start..colour_start + 16],
            quad,
            Attribute::Colour,
        );
    }
    true
}

// A mesh that is compared: its first `count` quads are linked to cubes of the grid, and lie in the list of each attribute.
#[derive(Clone, Copy)]
struct Comparison<'a> {
    scene: Scene<'a>,
    grid: &'a [u8],
    lists: Lists<'a>,
    count: usize,
    inverse: Inverse,
    ghost is_comparable: { ComparableAll (scene_of scene) grid.now (vertices_in lists) lists.links.now count },
    ghost is_finite: { T (finite3 (triple_of scene.d)) },
    ghost is_inverse: { Inverts (size_of scene.dims) inverse },
}

impl Comparison<'_> {
    // Quad q, as the registry has it.
    fn registered(&self, q: usize) -> Quad<'_>
        requires { q < self.now.count }
        ensures { (result.floats ≡ floats_of self.now.scene.types.coloured)
            × (words_of result ≡ quad_words_at (scene_of self.now.scene) self.now.grid.now (get_or self.now.lists.links.now q 0)) }
    {
        let scene = self.scene;
        let cubes = scene.types.cubes;
        let floats = floats_of(scene.types.coloured);
        let link = self.lists.links[q];
        let at = cords_of(cell_of(link), scene.dims, self.inverse);
        let span = 4 * floats;
        let start = span * linked_face(self.grid, link);
        let end = start + span;
        Quad {
            corners: &cubes[start..end],
            floats,
            at,
            d: scene.d,
        }
    }

    // How many quads from the first on are right without a doubt: all attributes of a quad are compared at once.
    fn sure_quads(&self) -> usize
        ensures { (result ≤ self.now.count) × ((q : ℕ) → q < result
            → other_quad (scene_of self.now.scene) self.now.grid.now (vertices_in self.now.lists) self.now.lists.links.now q ≡ false) }
    {
        for q in 0..self.count {
            if !is_quad(self.lists, self.scene.types.coloured, self.registered(q), q) {
                return q;
            }
        }
        self.count
    }

    // The first quad that differs in any of its floats of an attribute, or `to`, up to which the next list is searched, so it is no option. None before `from` does.
    fn first_wrong_row(&self, attribute: Attribute, list: &[u32], from: usize, to: usize) -> usize
        requires { (from ≤ to) × (to ≤ self.now.count)
            × Has (floats_of self.now.scene.types.coloured) (attribute_of attribute) × (4 * (attribute_of attribute).width * to ≤ length list.now)
            × ((q : ℕ) → q < from
            → other_row (scene_of self.now.scene) (attribute_of attribute) self.now.grid.now list.now self.now.lists.links.now q ≡ false) }
        ensures { result ≡ lowest to (other_row (scene_of self.now.scene) (attribute_of attribute) self.now.grid.now list.now self.now.lists.links.now) }
    {
        let width = attribute.width();
        let words = 4 * width;
        let mut first = to;
        'quads: for q in from..to {
            let quad = self.registered(q);
            let start = words * q;
            let row = &list[start..start + words];
            for vertex in 0..4 {
                for float in 0..width {
                    if is_other_word(row, quad, attribute, vertex, float) {
                        first = q;
                        break 'quads;
                    }
                }
            }
        }
        first
    }
}

// The first quad that differs in any float of any attribute, or their count, as the rules' `lowest` counts: past the quads that are right without a doubt, each list is searched up to the lowest so far.
pub fn first_wrong_quad(scene: Scene<'_>, grid: &[u8], lists: Lists<'_>, count: usize) -> usize
    requires { ComparableAll (scene_of scene) grid.now (vertices_in lists) lists.links.now count × T (finite3 (triple_of scene.d)) }
    ensures { result ≡ lowest count (other_quad (scene_of scene.entry) grid.now (vertices_in lists.entry) lists.entry.links.now) }
{
    let inverse = inverted(scene.dims);
    let mesh = Comparison {
        scene,
        grid,
        lists,
        count,
        inverse,
    };
    let sure = mesh.sure_quads();
    let first = mesh.first_wrong_row(Attribute::Position, lists.positions, sure, count);
    let second = mesh.first_wrong_row(Attribute::Normal, lists.normals, sure, first);
    let third = mesh.first_wrong_row(Attribute::Uv, lists.uvs, sure, second);
    if scene.types.coloured {
        return mesh.first_wrong_row(Attribute::Colour, lists.colours, sure, third);
    }
    third
}
