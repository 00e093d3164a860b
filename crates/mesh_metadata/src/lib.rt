// VIVI, which tells the quad of a face and the face of a quad, over lent links and slots.
#![tactic(auto)]

ghost use Rattle.std.specs.Prelude.{◌≡◌, map, ◌+◌, ◌-◌, ◌/◌, ◌^◌, ◌≤◌, ◌<◌, length, get_or, set, replicate};
ghost use Rattle.rules.specs.Cells.{UNIT, link_word, code_in, key_of, key_in, first_vertex};
ghost use Rattle.rules.specs.Mesh as rule;
ghost use Rattle.face.specs.Face.{number};
ghost use Rattle.mesh_metadata.specs.Index.{vertex_in, vertex_of, shifted, renum, Linked};

use face::{Cell, Face, NONE, Quad, Vertex};

// The slot that a quad's link names.
fn slot_of(links: &[u32], quad: Quad) -> usize
    requires { (quad.0 < length links.now) × (code_in (get_or links.now quad.0 0) ≤ 5) }
    ensures { result ≡ key_in (get_or links.now quad.0 0) }
{
    face::key_of(links[quad.0 as usize]) as usize
}

// A slot names a quad by its first vertex.
fn fill(slots: &mut [u32], slot: usize, quad: Quad)
    requires { (slot < length slots.old) × (quad.0 < 2 ^ 30) }
    ensures { slots.new ≡ set slots.old slot (first_vertex quad.0) }
{
    slots[slot] = quad.first_vertex().0;
}

// No face has a quad.
pub fn new(slots: &mut [u32])
    ensures { slots.new ≡ replicate (length slots.old) rule.NONE }
{
    slots.fill(NONE);
}

pub fn insert(links: &mut [u32], slots: &mut [u32], face: Face, cell: Cell, quad: Quad)
    requires { (cell.0 < UNIT) × (quad.0 < 2 ^ 30) × (quad.0 < length links.old)
        × (key_of cell.0 (number face) < length slots.old) }
    ensures { (links.new ≡ set links.old quad.0 (link_word cell.0 (number face)))
        × (slots.new ≡ set slots.old (key_of cell.0 (number face)) (first_vertex quad.0)) }
{
    links[quad.0 as usize] = face::link(cell, face);
    fill(slots, face::key(cell, face) as usize, quad);
}

pub fn get_quad_index(slots: &[u32], face: Face, cell: Cell) -> Option<Vertex>
    requires { (cell.0 < UNIT) × (key_of cell.0 (number face) < length slots.now) }
    ensures { vertex_in result ≡ vertex_of (get_or slots.now (key_of cell.0 (number face)) rule.NONE) }
{
    let vertex = slots[face::key(cell, face) as usize];
    if vertex == NONE {
        None
    } else {
        Some(Vertex(vertex))
    }
}

// The same by the face's key, where there is one.
pub fn quad_of(slots: &[u32], key: u32) -> Quad
    requires { key < length slots.now }
    ensures { result.0 ≡ get_or slots.now key rule.NONE / 4 }
{
    Vertex(slots[key as usize]).quad()
}

// The slot of a moved quad names its new place.
pub fn change_quad_index(slots: &mut [u32], links: &[u32], old: Quad, new: Quad)
    requires { (old.0 < length links.now) × (code_in (get_or links.now old.0 0) ≤ 5)
        × (key_in (get_or links.now old.0 0) < length slots.old) × (new.0 < 2 ^ 30) }
    ensures { slots.new ≡ set slots.old (key_in (get_or links.now old.0 0)) (first_vertex new.0) }
{
    fill(slots, slot_of(links, old), new);
}

// The slot of a removed quad's face, by its key, names none.
pub fn remove_quad(slots: &mut [u32], key: u32)
    requires { key < length slots.old }
    ensures { slots.new ≡ set slots.old key rule.NONE }
{
    slots[key as usize] = NONE;
}

// Quads `from` and on are at q and on from now on.
fn rename(slots: &mut [u32], links: &[u32], q: usize, from: usize, count: usize)
    requires { (q < from) × (from ≤ count) × Linked count links.now slots.old }
    ensures { slots.new ≡ map (shifted q from count) slots.old }
{
    for i in from..count {
        change_quad_index(slots, links, Quad(i as u32), Quad((i - (from - q)) as u32));
    }
}

// The same; if it is the last one alone, without counting: the compiler lays `rename` out for this case by itself.
fn rename_from(slots: &mut [u32], links: &[u32], q: usize, from: usize, count: usize)
    requires { (q < from) × (from ≤ count) × Linked count links.now slots.old }
    ensures { slots.new ≡ map (shifted q from count) slots.old }
{
    if count - from == 1 {
        rename(slots, links, q, count - 1, count);
        return;
    }
    rename(slots, links, q, from, count);
}

// Mends the slots where quad q of `count` is removed, which shows the face of a key: that slot, and those of the quads that move, which are five at most.
pub fn renumber(slots: &mut [u32], links: &[u32], key: u32, q: usize, count: usize)
    requires { (q < count) × Linked count links.now slots.old × (key_in (get_or links.now q 0) ≡ key) }
    ensures { slots.new ≡ map (renum q count) slots.old }
{
    let from = vav::source(q, count);
    rename_from(slots, links, q, from, count);
    remove_quad(slots, key);
}
