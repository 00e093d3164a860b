// What is the same for every row of a call.
ghost use Rattle.std.specs.Prelude.{◌≡◌, ◌≤◌, ◌<◌, length};
ghost use Rattle.row_sets.specs.Plainly.{ClearBelow, FullFrom, Plainly, sides_at, Along};

use culling::Ground;
use face::bit_if;

// How many of the first types are no NormalCubes and cover nothing. From the front, as `full_from` is from the back, by other tests: one function for both would be longer.
pub fn clear_types(kinds: &[u8], covers: &[u8]) -> u8
    requires { (length covers.now ≡ length kinds.now) × (length kinds.now ≤ 255) }
    ensures { ClearBelow kinds.now covers.now result }
{
    for t in 0..kinds.len() {
        if kinds[t] == 1 {
            return t as u8;
        }
        if covers[t] != 0 {
            return t as u8;
        }
    }
    kinds.len() as u8
}

// From this type on all are NormalCubes that cover every side.
pub fn full_from(kinds: &[u8], covers: &[u8]) -> u8
    requires { (length covers.now ≡ length kinds.now) × (length kinds.now ≤ 255) }
    ensures { FullFrom kinds.now covers.now result }
{
    for t in (0..kinds.len()).rev() {
        if kinds[t] != 1 {
            return (t + 1) as u8;
        }
        if covers[t] != 63 {
            return (t + 1) as u8;
        }
    }
    0
}

// What is the same for every row of a call: the ground, the sides along a row on which its cells have cells beside them, the outer faces, and from which types on
// they are plainly clear or full.
#[derive(Clone, Copy)]
pub struct Look<'a> {
    pub ground: Ground<'a>,
    pub along: &'a [u8],
    pub outer: u8,
    pub clear: u8,
    pub full: u8,
    ghost plain: { Plainly ground.kinds.now ground.covers.now clear full },
    ghost along_is: { Along ground.dims.width along.now },
    ghost faces: { outer < 64 },
}

impl<'a> Look<'a> {
    pub fn of(ground: Ground<'a>, along: &'a [u8], outer: u8) -> Look<'a>
        requires { (length ground.kinds.now ≤ 255) × Along ground.dims.width along.now × (outer < 64) }
        ensures { (result.ground ≡ ground.entry) × (result.outer ≡ outer) }
    {
        let clear = clear_types(ground.kinds, ground.covers);
        let full = full_from(ground.kinds, ground.covers);
        Look {
            ground,
            along,
            outer,
            clear,
            full,
        }
    }
}

// The sides along a row on which its cell at x has cells beside it.
fn sides_at(x: usize, width: usize) -> u8
    requires { x < 1024 }
    ensures { (result ≡ sides_at width x) × (result ≤ 12) }
{
    bit_if(x + 1 < width, 4) + bit_if(0 < x, 8)
}

// The same for each cell of a row, in a list: so that a block reads them at once.
pub fn sides_along(along: &mut [u8], width: u32)
    requires { (width ≤ 1024) × (width ≤ length along.old) }
    ensures { Along width along.new }
{
    let end = width as usize;
    for x in 0..end {
        along[x] = sides_at(x, end);
    }
}
