// The work file: whether it is bad, what its trailer says, and its parts.
#![tactic(auto)]

ghost use Rattle.std.specs.Prelude.{◌≡◌, true, false, ◌+◌, ◌*◌, ◌≤◌, ◌<◌, length};
ghost use Rattle.std.specs.Option.{MatchOption};
ghost use Rattle.rules.specs.Lists.{filled};
ghost use Rattle.rules.specs.Cells.{cells};
ghost use Rattle.rules.specs.Update.{u32_at};
ghost use Rattle.rules.specs.Program.{word, type_count, size_in, adjoining, bad_file, type_byte, shape_in, grid_in, log_in};
ghost use Rattle.util.specs.Grid.{size_of};
ghost use Rattle.workfile.specs.Work.{triple_at, dims_in, Good, work_in, capped};

use floats::Triple;
use util::Dimensions;

pub const TRAILER_BYTES: usize = 92;

pub const TYPE_BYTES: usize = 74;

pub const ENTRY_BYTES: u64 = 16;

pub const MAX_BYTES: usize = 8_192;

pub const MAX_TYPES: u32 = 8;

pub const MAX_CELLS: u64 = 512;

// No file has as many.
const MANY_CELLS: u64 = 4_294_967_296;

// What the trailer says; each float is its bits.
#[derive(Clone, Copy)]
pub struct Work {
    pub types: usize,
    pub entries: u32,
    pub dims: Dimensions,
    pub outer: u8,
    pub culling: bool,
    pub d: Triple,
    pub centre: Triple,
    pub atlas_width: u32,
    pub atlas_height: u32,
    pub padding: u32,
    pub coloured: bool,
    pub colour: u32,
    pub alpha: u32,
    pub grid_start: usize,
    pub log_start: usize,
}

pub fn u32_at(file: &[u8], at: usize) -> u32
    requires { at + 4 ≤ length file.now }
    ensures { result ≡ u32_at file.now at }
{
    u32::from_le_bytes([file[at], file[at + 1], file[at + 2], file[at + 3]])
}

// Asked of bytes that are no WorkFile yet too, so their length is a clause.
pub fn word(file: &[u8], i: usize) -> u32
    requires { (92 ≤ length file.now) × (i < 23) }
    ensures { result ≡ word file.now i }
{
    u32_at(file, file.len() - TRAILER_BYTES + 4 * i)
}

fn long_word(file: &[u8], i: usize) -> u64
    requires { (92 ≤ length file.now) × (i < 23) }
    ensures { (result ≡ word file.now i) × (result < 4294967296) }
{
    u64::from(word(file, i))
}

fn triple_at(file: &[u8], i: usize) -> Triple
    requires { (92 ≤ length file.now) × (i < 21) }
    ensures { result ≡ triple_at file.now i }
{
    Triple {
        x: word(file, i),
        y: word(file, i + 1),
        z: word(file, i + 2),
    }
}

fn dims_of(file: &[u8]) -> Dimensions
    requires { 92 ≤ length file.now }
    ensures { result ≡ dims_in file.now }
{
    Dimensions {
        width: word(file, 5),
        height: word(file, 6),
        length: word(file, 7),
    }
}

// A count that does not fit 32 bits counts as 2^32, so that nothing wraps.
#[tactic(auto, unfolding(crate::specs::Work::capped))]
fn capped_cells(dims: Dimensions) -> u64
    ensures { (result ≡ capped (cells (size_of dims))) × (result ≤ 4294967296) }
{
    let layer = u64::from(dims.height) * u64::from(dims.length);
    layer.saturating_mul(u64::from(dims.width)).min(MANY_CELLS)
}

fn cell_count(file: &[u8]) -> u64
    requires { 92 ≤ length file.now }
    ensures { (result ≡ capped (cells (size_in file.now))) × (result ≤ 4294967296) }
{
    capped_cells(dims_of(file))
}

// Whether the parts adjoin and fill the file. Each test is made: with && the proof doesn't close.
fn is_adjoining(file: &[u8]) -> bool
    requires { (92 ≤ length file.now) × (length file.now ≤ 8192) }
    ensures { result ≡ adjoining file.now }
{
    let body = (file.len() - TRAILER_BYTES) as u64;
    let grid = 74 * long_word(file, 3);
    let log = grid + cell_count(file);
    (long_word(file, 0) == body)
        & (long_word(file, 1) + grid == body)
        & (long_word(file, 2) + log == body)
        & (ENTRY_BYTES * long_word(file, 4) + log == body)
}

// Each test is made: with || the proof doesn't close.
fn is_bad_trailer(file: &[u8]) -> bool
    requires { (92 ≤ length file.now) × (length file.now ≤ 8192) }
    ensures { result ≡ bad_file file.now }
{
    let types = word(file, 3);
    let cells = cell_count(file);
    (word(file, 22) != 92)
        | !is_adjoining(file)
        | (1 < word(file, 19))
        | (1 < word(file, 9))
        | (63 < word(file, 8))
        | (MAX_TYPES < types)
        | (MAX_CELLS < cells)
        | (types == 0)
        | (cells == 0)
}

// Takes any bytes.
pub fn is_bad_file(file: &[u8]) -> bool
    ensures { result ≡ bad_file file.now }
{
    if file.len() < TRAILER_BYTES {
        return true;
    }
    if MAX_BYTES < file.len() {
        return true;
    }
    is_bad_trailer(file)
}

// A file that is not bad.
#[derive(Clone, Copy)]
pub struct WorkFile<'a> {
    pub bytes: &'a [u8],
    ghost good: { Good bytes.now },
}

impl<'a> WorkFile<'a> {
    // None where the file is bad. Takes any bytes.
    pub fn open(bytes: &'a [u8]) -> Option<WorkFile<'a>>
        ensures { MatchOption result (bad_file bytes.now ≡ true) (λ file. (bad_file bytes.now ≡ false) × (file.bytes.now ≡ bytes.now)) }
    {
        if is_bad_file(bytes) {
            None
        } else {
            Some(WorkFile { bytes })
        }
    }

    pub fn read_work(self) -> Work
        ensures { result ≡ work_in self.entry.bytes.now }
    {
        let file = self.bytes;
        let types = word(file, 3) as usize;
        let cells = cell_count(file) as usize;
        let grid_start = TYPE_BYTES * types;
        Work {
            types,
            entries: word(file, 4),
            dims: dims_of(file),
            outer: word(file, 8) as u8,
            culling: word(file, 9) == 1,
            d: triple_at(file, 10),
            centre: triple_at(file, 13),
            atlas_width: word(file, 16),
            atlas_height: word(file, 17),
            padding: word(file, 18),
            coloured: word(file, 19) == 1,
            colour: word(file, 20),
            alpha: word(file, 21),
            grid_start,
            log_start: grid_start + cells,
        }
    }

    pub fn grid_of(self) -> &'a [u8]
        ensures { result.now ≡ grid_in self.entry.bytes.now }
    {
        let work = self.read_work();
        &self.bytes[work.grid_start..work.log_start]
    }

    pub fn log_of(self) -> &'a [u8]
        ensures { result.now ≡ log_in self.entry.bytes.now }
    {
        let start = self.read_work().log_start;
        let end = self.bytes.len() - TRAILER_BYTES;
        &self.bytes[start..end]
    }

    // Byte i of each type.
    fn type_bytes(self, i: usize, out: &mut [u8])
        requires { (i < 74) × (type_count self.bytes.now ≤ length out.old) }
        ensures { out.new ≡ filled (type_count self.entry.bytes.now) (λ t. type_byte self.entry.bytes.now t i) out.old }
    {
        let file = self.bytes;
        for t in 0..self.read_work().types {
            out[t] = file[TYPE_BYTES * t + i];
        }
    }

    pub fn kinds_of(self, out: &mut [u8])
        requires { type_count self.bytes.now ≤ length out.old }
        ensures { out.new ≡ filled (type_count self.entry.bytes.now) (λ t. type_byte self.entry.bytes.now t 0) out.old }
    {
        self.type_bytes(0, out);
    }

    pub fn covers_of(self, out: &mut [u8])
        requires { type_count self.bytes.now ≤ length out.old }
        ensures { out.new ≡ filled (type_count self.entry.bytes.now) (λ t. type_byte self.entry.bytes.now t 1) out.old }
    {
        self.type_bytes(1, out);
    }

    // The six entries of face, a, b of a type.
    pub fn texture_of(self, t: usize, out: &mut [u32])
        requires { (t < type_count self.bytes.now) × (length out.old ≡ 18) }
        ensures { out.new ≡ (shape_in self.entry.bytes.now t).texture }
    {
        let file = self.bytes;
        let start = TYPE_BYTES * t + 2;
        for i in 0..18 {
            out[i] = u32_at(file, start + 4 * i);
        }
    }
}
