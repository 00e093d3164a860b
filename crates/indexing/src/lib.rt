// What an entry does to the index: the room that it needs, and links and slots through its work, with the steps that it takes.
#![tactic(auto)]

ghost use Rattle.std.specs.Prelude.{◌≡◌, [], ◌∷◌, ℕ, ◌+◌, ◌*◌, ◌^◌, ◌≤◌, ◌<◌, max, length};
ghost use Rattle.rules.specs.Cells.{UNIT, key_of, set_of};
ghost use Rattle.face.specs.Face.{number};
ghost use Rattle.entries.specs.Log.{entry_in};
ghost use Rattle.works.specs.Sets.{set_in, key_met, deed_by, deeds};
ghost use Rattle.indexing.specs.Due.{is_bare, is_met, due_of, fits_in, Gridded};
ghost use Rattle.indexing.specs.Index.{index_of, gone_at, came_at, index_run, Ready, Removable, Drawable};

use entries::Entry;
use face::{Cell, Face, NONE, Quad, face_at, quads_of, side_set};
use mesh_metadata::{get_quad_index, insert, quad_of, renumber};
use steps::CUT;
use vav::{free_row, moved_by};
use works::{Work, does_cut, key_place, type_of};

// The number of quads, how many have changed their place, the highest number of quads on the way, and the number of steps.
#[derive(Clone, Copy, Debug, PartialEq, Eq)]
pub struct Tally {
    pub quads: usize,
    pub moved: u64,
    pub top: usize,
    pub steps: usize,
}

// Links, slots and steps go as three lists here, not as a struct of three `&mut`s: a contract would name each of its fields at entry and at exit.

// Removes the quad of the face of a key: the links of those that move go along, their slots name the new places. The step is its place and the mark.
fn remove_quad(
    links: &mut [u32],
    slots: &mut [u32],
    steps: &mut [u32],
    key: u32,
    quad: Quad,
    tally: Tally,
) -> Tally
    requires { Removable key quad.0 (index_of links.old slots.old steps.old tally) × (2 * tally.steps + 2 ≤ length steps.old) }
    ensures { index_of links.new slots.new steps.new result
        ≡ gone_at quad.0 (index_of links.old slots.old steps.old tally) }
{
    let count = tally.quads;
    let at = 2 * tally.steps;
    let place = quad.0 as usize;
    let moved = tally.moved + moved_by(place, count) as u64;
    renumber(slots, links, key, place, count);
    free_row(links, 1, place, count);
    steps[at] = quad.0;
    steps[at + 1] = CUT;
    Tally {
        quads: count - 1,
        moved,
        steps: tally.steps + 1,
        ..tally
    }
}

// Draws the quad of the face of a key after the last one. The step is the key and the type.
fn append_quad(
    links: &mut [u32],
    slots: &mut [u32],
    steps: &mut [u32],
    key: u32,
    voxel: u8,
    tally: Tally,
) -> Tally
    requires { Drawable key (index_of links.old slots.old steps.old tally) × (2 * tally.steps + 2 ≤ length steps.old) }
    ensures { index_of links.new slots.new steps.new result
        ≡ came_at key voxel (index_of links.old slots.old steps.old tally) }
{
    let count = tally.quads;
    let at = 2 * tally.steps;
    insert(
        links,
        slots,
        face_at(key % 6),
        Cell(key / 6),
        Quad(count as u32),
    );
    steps[at] = key;
    steps[at + 1] = u32::from(voxel);
    Tally {
        quads: count + 1,
        top: tally.top.max(count + 1),
        steps: tally.steps + 1,
        ..tally
    }
}

// Removes the quad of the face of a key, where `cuts`, which is there; or draws it for a type, where it is not. A flag, as it comes from a side's number.
fn do_face(
    links: &mut [u32],
    slots: &mut [u32],
    steps: &mut [u32],
    key: u32,
    cuts: bool,
    voxel: u8,
    tally: Tally,
) -> Tally
    requires { Ready (length steps.old) (deed_by cuts voxel key ∷ []) (index_of links.old slots.old steps.old tally) }
    ensures { index_of links.new slots.new steps.new result
        ≡ index_run (deed_by cuts voxel key ∷ []) (index_of links.old slots.old steps.old tally) }
{
    if cuts {
        let quad = quad_of(slots, key);
        return remove_quad(links, slots, steps, key, quad, tally);
    }
    append_quad(links, slots, steps, key, voxel, tally)
}

// Does the sides of a work, all of which change something, from the lowest of the 24 on.
pub fn index_work(
    links: &mut [u32],
    slots: &mut [u32],
    steps: &mut [u32],
    keys: &[u32; 12],
    entry: Entry,
    sides: u32,
    tally: Tally,
) -> Tally
    requires { (sides < 2 ^ 24) × Ready (length steps.old) (deeds keys.now (entry_in entry) sides) (index_of links.old slots.old steps.old tally) }
    ensures { index_of links.new slots.new steps.new result
        ≡ index_run (deeds keys.now (entry_in entry) sides) (index_of links.old slots.old steps.old tally) }
{
    let mut left = tally;
    let mut rest = sides;
    // By the lowest side that is left: a `for` over all 24 would test and guess each.
    while rest != 0 {
        let i = rest.trailing_zeros();
        let at = key_place(i);
        let cuts = does_cut(i);
        let voxel = type_of(entry, i);
        left = do_face(links, slots, steps, keys[at], cuts, voxel, left);
        rest &= rest - 1;
    }
    left
}

// Whether the face of a key has no quad. NONE is no face, so it has none.
fn is_bare(slots: &[u32], key: u32) -> bool
    ensures { result ≡ is_bare slots.now key }
{
    slots.get(key as usize).copied().unwrap_or(NONE) == NONE
}

// The key of the side that faces a cell's.
fn facing_key(keys: &[u32; 12], face: Face) -> u32
    ensures { result ≡ key_met keys.now 1 (number face) }
{
    keys[6 + face.number() as usize]
}

// The sides of a cell that have no quad.
fn own_bare(slots: &[u32], cell: Cell) -> u8
    requires { (cell.0 < UNIT) × (6 * cell.0 + 6 ≤ length slots.now) }
    ensures { result ≡ set_of (λ f. is_bare slots.now (key_of cell.0 f)) }
{
    side_set(|face| get_quad_index(slots, face, cell).is_none())
}

// Those whose facing side has none.
fn facing_bare(slots: &[u32], keys: &[u32; 12]) -> u8
    ensures { result ≡ set_of (λ f. is_bare slots.now (key_met keys.now 1 f)) }
{
    side_set(|face| is_bare(slots, facing_key(keys, face)))
}

// Those at which the grid has a neighbour.
fn met_sides(keys: &[u32; 12]) -> u8
    ensures { result ≡ set_of (is_met keys.now) }
{
    side_set(|face| facing_key(keys, face) != NONE)
}

// What of a work changes something. The slots are looked at once, so that its parts need not ask.
pub fn due_work(slots: &[u32], keys: &[u32; 12], cell: Cell, work: Work) -> Work
    requires { Gridded keys.now slots.now × (6 * cell.0 + 6 ≤ length slots.now) }
    ensures { result ≡ due_of slots.now keys.now cell.0 work }
{
    let bare = own_bare(slots, cell);
    let facing = facing_bare(slots, keys);
    let own = work.own & (63 - bare);
    let shown = work.shown & facing & met_sides(keys);
    Work {
        own,
        shown,
        drawn: work.drawn & (own | bare),
        hidden: work.hidden & ((63 - facing) | shown),
    }
}

// Whether the room holds what comes. Twelve quads more are enough for any.
pub fn has_room(due: Work, count: usize, room: usize) -> bool
    requires { ((j : ℕ) → set_in due j < 64) × (count < 2 ^ 32) }
    ensures { result ≡ fits_in due count room }
{
    if count + 12 <= room {
        return true;
    }
    let gone = quads_of(due.own) as usize;
    let come = quads_of(due.shown) as usize + quads_of(due.drawn) as usize;
    count + come <= room + gone
}
