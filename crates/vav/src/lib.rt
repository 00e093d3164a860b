// Rows of a lent list of words, n words a row: one word a quad for links, six for triangles, and for the attributes of its four vertices 8, 12 or 16.
#![tactic(auto)]

ghost use Rattle.std.specs.Prelude.{◌≡◌, [], ◌∷◌, ◌+◌, ◌-◌, ◌*◌, ◌≤◌, ◌<◌, length};
ghost use Rattle.rules.specs.Lists.{part};
ghost use Rattle.rules.specs.Update.{moved_by};
ghost use Rattle.vav.specs.Attributes.{attribute_of};
ghost use Rattle.vav.specs.Rows.{put, four, zeros, source_of, freed};

// An attribute of a vertex, which has a list of its own.
#[derive(Clone, Copy, Debug, PartialEq, Eq)]
pub enum Attribute {
    Position,
    Normal,
    Uv,
    Colour,
}

impl Attribute {
    // Where its floats start among a vertex's.
    pub fn start(self) -> usize
        ensures { result ≡ (attribute_of self).start }
    {
        match self {
            Attribute::Position => 0,
            Attribute::Normal => 3,
            Attribute::Uv => 6,
            Attribute::Colour => 8,
        }
    }

    // How many they are.
    pub fn width(self) -> usize
        ensures { result ≡ (attribute_of self).width }
    {
        match self {
            Attribute::Position => 3,
            Attribute::Normal => 3,
            Attribute::Uv => 2,
            Attribute::Colour => 4,
        }
    }
}

// Writes four words. Read before they are written, they go at once.
pub fn write_four(list: &mut [u32], at: usize, a: u32, b: u32, c: u32, d: u32)
    requires { at + 4 ≤ length list.old }
    ensures { list.new ≡ put at (a ∷ b ∷ c ∷ d ∷ []) list.old }
{
    list[at] = a;
    list[at + 1] = b;
    list[at + 2] = c;
    list[at + 3] = d;
}

// Copies four words of another list. `copy_from_slice` would first ask whether the two overlap.
pub fn copy_four(list: &mut [u32], at: usize, source: &[u32], from: usize)
    requires { (at + 4 ≤ length list.old) × (from + 4 ≤ length source.now) }
    ensures { list.new ≡ put at (four source.now from) list.old }
{
    let a = source[from];
    let b = source[from + 1];
    let c = source[from + 2];
    let d = source[from + 3];
    write_four(list, at, a, b, c, d);
}

// Writes a row at place `count`.
pub fn extend(list: &mut [u32], row: &[u32], count: usize)
    requires { length row.now * count + length row.now ≤ length list.old }
    ensures { list.new ≡ put (length row.now * count) row.now list.old }
{
    let at = row.len() * count;
    let end = at + row.len();
    list[at..end].copy_from_slice(row);
}

// Copies an attribute of vertex `from` of another list, n floats a vertex, over row `to` of the attribute's own.
pub fn select(
    list: &mut [u32],
    source: &[u32],
    n: usize,
    attribute: Attribute,
    from: usize,
    to: usize,
)
    requires { ((attribute_of attribute).width * to + (attribute_of attribute).width ≤ length list.old)
        × (n * from + (attribute_of attribute).start + (attribute_of attribute).width ≤ length source.now) }
    ensures { list.new ≡ put ((attribute_of attribute).width * to)
        (part (n * from + (attribute_of attribute).start) (attribute_of attribute).width source.now) list.old }
{
    let start = n * from + attribute.start();
    let end = start + attribute.width();
    extend(list, &source[start..end], to);
}

// Zeroes row q.
pub fn clear(list: &mut [u32], n: usize, q: usize)
    requires { n * q + n ≤ length list.old }
    ensures { list.new ≡ put (n * q) (zeros n) list.old }
{
    let at = n * q;
    let end = at + n;
    list[at..end].fill(0);
}

// Copies rows down, from row `from` on to row `to` on: the stretches may overlap.
// Word by word, as std has no `copy_within`.
fn copy_down(list: &mut [u32], n: usize, from: usize, to: usize, rows: usize)
    requires { (n * to ≤ n * from) × (n * from + n * rows ≤ length list.old) }
    ensures { list.new ≡ put (n * to) (part (n * from) (n * rows) list.old) list.old }
{
    let start = n * from;
    let at = n * to;
    let words = n * rows;
    for i in 0..words {
        list[at + i] = list[start + i];
    }
}

// The same; where it is one row, as most often, the compiler knows how many words there are for each n that it knows.
fn copy_rows(list: &mut [u32], n: usize, from: usize, to: usize, rows: usize)
    requires { (n * to ≤ n * from) × (n * from + n * rows ≤ length list.old) }
    ensures { list.new ≡ put (n * to) (part (n * from) (n * rows) list.old) list.old }
{
    if rows == 1 {
        copy_down(list, n, from, to, 1);
        return;
    }
    copy_down(list, n, from, to, rows);
}

// With `count` rows, of which q is removed: the first of those that move. The two go as they are: a type of them would be made at each call, for one inequality.
pub fn source(q: usize, count: usize) -> usize
    requires { q < count }
    ensures { result ≡ source_of q count }
{
    if count - q <= 6 { q + 1 } else { count - 1 }
}

pub fn moved_by(q: usize, count: usize) -> usize
    requires { q < count }
    ensures { result ≡ moved_by count q }
{
    count - source(q, count)
}

// Frees row q of `count` rows: `remove` and `swap_remove` in one, with the freed last place zeroed.
pub fn free_row(list: &mut [u32], n: usize, q: usize, count: usize)
    requires { (q < count) × (n * count ≤ length list.old) }
    ensures { list.new ≡ freed n q count list.old }
{
    let from = source(q, count);
    copy_rows(list, n, from, q, count - from);
    clear(list, n, count - 1);
}
