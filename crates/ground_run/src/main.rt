// Runs faces and the grid beside plain counts of its own, and says how many are right.
#![tactic(auto)]

ghost use Rattle.std.specs.Prelude.{◌≡◌, ◌≤◌, ◌<◌};
ghost use Rattle.rules.specs.Cells.{cells};
ghost use Rattle.util.specs.Grid.{size_of, Within};

use check::expect;
use face::{Cell, Face, face_at};
use std::io;
use util::Dimensions;
use vectors::{Count, say};

fn size(width: u32, height: u32, length: u32) -> Dimensions
    ensures { size_of result ≡ record { w = width; h = height; l = length } }
{
    Dimensions {
        width,
        height,
        length,
    }
}

// ---- side sets

// How many faces of a set are below a number.
fn smaller_in(set: u8, end: u32) -> u8
    requires { end ≤ 6 }
{
    (0..end).filter(|n| face::has(set, face_at(*n))).count() as u8
}

fn is_rank(set: u8, face: Face, n: u8) -> bool
    requires { set < 64 }
{
    let ranks = face::ranks();
    face::rank(&ranks, set, face) == n
}

fn is_size(set: u8, n: u8) -> bool
    requires { set < 64 }
{
    face::quads_of(set) == u32::from(n)
}

fn try_sets() -> Count {
    let mut count = Count::default();
    for set in 0..64 {
        let all = smaller_in(set, 6);
        for n in 0..6 {
            count = count.and(is_rank(set, face_at(n), smaller_in(set, n)));
            count = count.and(is_size(set, all));
        }
    }
    count
}

// ---- the neighbours of all cells of a grid of 3 by 3 by 3

fn expected(cell: u32, face: Face) -> Option<Cell>
    requires { cell < 27 }
{
    let x = cell % 3;
    let z = cell / 3 % 3;
    let y = cell / 9;
    match face {
        Face::Top if y < 2 => Some(Cell(cell + 9)),
        Face::Bottom if 0 < y => Some(Cell(cell - 9)),
        Face::Right if x < 2 => Some(Cell(cell + 1)),
        Face::Left if 0 < x => Some(Cell(cell - 1)),
        Face::Back if z < 2 => Some(Cell(cell + 3)),
        Face::Forward if 0 < z => Some(Cell(cell - 3)),
        _ => None,
    }
}

fn is_neighbor(cell: u32, face: Face, neighbor: Option<Cell>) -> bool
    requires { cell < 27 }
{
    util::get_neighbor(Cell(cell), face, size(3, 3, 3)) == neighbor
}

// Whether a cell's coordinates are those of the cell n.
fn is_cell(cell: u32, n: u32) -> bool
    requires { cell < 27 }
{
    cell_again(cell, size(3, 3, 3)) == n
}

fn cell_again(cell: u32, dims: Dimensions) -> u32
    requires { Within (size_of dims) × (cell < cells (size_of dims)) }
{
    let cords = util::three_d_cords(Cell(cell), dims);
    util::one_d_cords(cords, dims).0
}

fn try_neighbors(tried: Count) -> Count {
    let mut count = tried;
    for cell in 0..27 {
        for n in 0..6 {
            let face = face_at(n);
            count = count.and(is_neighbor(cell, face, expected(cell, face)));
            count = count.and(is_cell(cell, cell));
        }
    }
    count
}

// ---- what is packed is read again

fn is_link(link: u32, cell: u32, face: Face) -> bool {
    face::cell_of(link).0 == cell && face::face_of(link) == Some(face)
}

fn try_links(tried: Count, cell: u32) -> Count
    requires { cell < 536870912 }
{
    let mut count = tried;
    for n in 0..6 {
        let face = face_at(n);
        count = count.and(is_link(face::link(Cell(cell), face), cell, face));
    }
    count
}

fn examples() {
    expect(!size(1_024, 32, 32).bad_limits());
    expect(size(1_024, 32, 33).bad_limits());
    expect(util::get_neighbor(Cell(0), Face::Top, size(2, 2, 2)) == Some(Cell(4)));
    expect(face::link(Cell(5), Face::Top) == 2_684_354_565);
}

// ---- wrong on purpose: a comparison that is left out counts one of them right

fn try_wrong(tried: Count) -> Count {
    let mut count = tried;
    count = count.and(is_rank(63, Face::Forward, 4));
    count = count.and(is_size(63, 5));
    count = count.and(is_neighbor(0, Face::Top, Some(Cell(3))));
    count = count.and(is_neighbor(0, Face::Left, Some(Cell(0))));
    count = count.and(is_cell(13, 12));
    count = count.and(is_link(2_684_354_565, 4, Face::Top));
    count = count.and(is_link(2_684_354_565, 5, Face::Bottom));
    count.and(is_link(3_221_225_477, 5, Face::Top))
}

fn main(rt: HostRuntime) -> io::Result<()> {
    examples();
    let mut count = try_neighbors(try_sets());
    for cell in [0, 5, 1_048_575, 536_870_911] {
        count = try_links(count, cell);
    }
    say(
        &rt,
        "faces, neighbours and links (8 wrong on purpose):",
        try_wrong(count),
    )
}
