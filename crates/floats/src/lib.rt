// Float words: each float is its 32 bits, and f32 is met only inside these leaves. Nothing is fused.
#![tactic(auto)]

ghost use Rattle.std.specs.Prelude.{◌≡◌, cond, ◌<◌, ◌≤◌, T, IfSome, is_some};
ghost use Rattle.rules.specs.Cells.{along};
ghost use Rattle.rules.specs.Floats.{f32, finite, finite3};
ghost use Rattle.rules.specs.Cube.{high_of, low_of, corner_word, start_of, end_of, uv_word};
ghost use Rattle.rules.specs.Types.{moved_word};
ghost use Rattle.floats.specs.Triples.{triple_of};
ghost use Rattle.floats.specs.Tiles.{tile_in};

// Three words: along x, y and z.
#[derive(Clone, Copy)]
pub struct Triple {
    pub x: u32,
    pub y: u32,
    pub z: u32,
}

impl Triple {
    // By number, as the tables of axes are.
    pub fn along(self, axis: usize) -> u32
        ensures { result ≡ along (triple_of self) axis }
    {
        match axis {
            0 => self.x,
            1 => self.y,
            _ => self.z,
        }
    }

    pub fn is_finite(self) -> bool
        ensures { result ≡ finite3 (triple_of self) }
    {
        is_finite_bits(self.x) & is_finite_bits(self.y) & is_finite_bits(self.z)
    }
}

// Without the sign's bit, a finite float's bits are below an infinity's.
pub fn is_finite_bits(x: u32) -> bool
    ensures { result ≡ finite x }
{
    x % 0x8000_0000 < 0x7f80_0000
}

// A corner's coordinate on one axis. It may be infinite.
fn corner(high: bool, d: u32, centre: u32) -> f32
    requires { T (finite d) × T (finite centre) }
    ensures { result ≡ cond high (high_of d centre) (low_of d centre) }
{
    let size = f32::from_bits(d);
    let middle = f32::from_bits(centre);
    let top = size / 2.0 + middle;
    if high { top } else { top - size }
}

pub fn corner_word(high: bool, d: u32, centre: u32) -> u32
    requires { T (finite d) × T (finite centre) }
    ensures { result ≡ corner_word high d centre }
{
    corner(high, d, centre).to_bits()
}

// Where a face's tile starts on one axis of the atlas; without a tile, at 0. It is finite.
fn uv_start(tile: Option<u32>, atlas: u32, padding: u32) -> f32
    requires { IfSome tile (λ t. t < 4096) × (0 < atlas) × (atlas ≤ 4096) × T (finite padding) }
    ensures { result ≡ start_of (is_some tile) (tile_in tile) atlas padding }
{
    let wide = atlas as f32;
    match tile {
        Some(tile) => (tile as f32) * (1.0 / wide) + f32::from_bits(padding) / wide,
        None => 0.0,
    }
}

// A uv coordinate: the tile's end or its start. The end may be infinite.
pub fn uv_word(end: bool, tile: Option<u32>, atlas: u32, padding: u32) -> u32
    requires { IfSome tile (λ t. t < 4096) × (0 < atlas) × (atlas ≤ 4096) × T (finite padding) }
    ensures { result ≡ uv_word end (is_some tile) (tile_in tile) atlas padding }
{
    let start = uv_start(tile, atlas, padding);
    if !end {
        return start.to_bits();
    }
    let wide = atlas as f32;
    (start + 1.0 / wide - f32::from_bits(padding) / wide * 2.0).to_bits()
}

// A position, moved by coordinate · d. What is moved may be infinite.
pub fn moved_word(word: u32, coordinate: u32, d: u32) -> u32
    requires { T (finite word) × (coordinate ≤ 1024) × T (finite d) }
    ensures { result ≡ moved_word word coordinate d }
{
    let shift = (coordinate as f32) * f32::from_bits(d);
    (f32::from_bits(word) + shift).to_bits()
}
