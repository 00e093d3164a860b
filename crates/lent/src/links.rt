// BAD_LINKS: the test of a lent mesh's links and slots.
ghost use Rattle.std.specs.Prelude.{◌≡◌, ℕ, ◌*◌, ◌^◌, ◌<◌, ◌≤◌, List, [], length};
ghost use Rattle.rules.specs.Mesh.{Vertices, lists_of, book_of};
ghost use Rattle.rules.specs.Answers.{bad_link, slots_filled, BAD_LINKS};
ghost use Rattle.answers.specs.Verdicts.{verdict_of};
ghost use Rattle.lent.specs.Scenes.{Lent};

use answers::{Refusal, Verdict, refuse_if, refuse_lowest};
use face::{NONE, cell_of, code_of, key_of};

// Whether the link of quad q names no face of the grid, or one whose slot is not the quad's.
fn is_bad_link(cells: u32, links: &[u32], slots: &[u32], q: usize) -> bool
    requires { (6 * cells ≤ length slots.now) × (q < length links.now) × (4 * q < 2 ^ 64) }
    ensures { result ≡ bad_link cells (book_of links.now slots.now) q }
{
    let word = links[q];
    if (5 < code_of(word)) | (cells <= cell_of(word).0) {
        return true;
    }
    slots[key_of(word) as usize] as usize != 4 * q
}

// How many of the first n slots are filled.
fn filled_slots(slots: &[u32], n: usize) -> u32
    requires { (n ≤ length slots.now) × (n < 2 ^ 32) }
    ensures { result ≡ slots_filled n (book_of [] slots.now) }
{
    let mut full = n as u32;
    for slot in &slots[..n] {
        full -= u32::from(*slot == NONE);
    }
    full
}

pub fn links_verdict(cells: u32, links: &[u32], slots: &[u32], count: usize) -> Verdict
    requires { Lent cells links.now slots.now count }
    ensures { (vertices : Vertices) (triangles : List ℕ) → verdict_of result ≡ BAD_LINKS cells (lists_of vertices triangles links.now slots.now) count }
{
    refuse_lowest(
        Refusal::BadLinks,
        count,
        |q| is_bad_link(cells, links, slots, q),
    )?;
    let filled = filled_slots(slots, 6 * cells as usize) as usize;
    refuse_if(count < filled, Refusal::BadLinks, count)
}
