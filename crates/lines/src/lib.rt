// What the program prints, written into a lent buffer: each function writes its bytes at a place and returns the next place.
// The buffer and the place stay two parameters: a struct of both would owe a clause on the buffer's ghost name in each contract.
#![tactic(auto)]

ghost use Rattle.std.specs.Prelude.{◌≡◌, [], ◌∷◌, ◌++◌, ◌/◌, ◌%◌, ◌≤◌, ◌<◌, length};
ghost use Rattle.rules.specs.Lists.{only};
ghost use Rattle.rules.specs.Cells.{code_in, key_in};
ghost use Rattle.rules.specs.Calls.{refused, answered};
ghost use Rattle.rules.specs.Program.{digit, decimal, refused_line, quad_lines, mesh_lines};
ghost use Rattle.lines.specs.Written.{Wrote, Room, faces_of, quad_line, quads_of, OfFaces};

const SPACE: u8 = b' ';

const LINE: u8 = b'\n';

#[tactic(auto, using(crate::proofs::Writing::wrote_one))]
fn write_byte(byte: u8, out: &mut [u8], at: usize) -> usize
    requires { Room (byte ∷ []) at out.old }
    ensures { Wrote (byte ∷ []) at out.old out.new result }
{
    out[at] = byte;
    at + 1
}

fn write_text(text: &[u8], out: &mut [u8], at: usize) -> usize
    requires { Room text.now at out.old }
    ensures { Wrote text.now at out.old out.new result }
{
    let end = at + text.len();
    out[at..end].copy_from_slice(text);
    end
}

// ---- numbers in decimal

fn digit(n: u64) -> u8
    ensures { result ≡ digit n }
{
    b'0' + ((n % 10) as u8)
}

// A digit a turn, as many as n has: no range counts them.
fn decimal_length(n: u64) -> usize
    ensures { result ≡ length (decimal n) }
{
    let mut left = n;
    let mut count: usize = 1;
    // A step divides by ten, which no range counts.
    while 10 <= left {
        left /= 10;
        count += 1;
    }
    count
}

// The last digit is known first, so it writes from the end.
pub fn write_decimal(n: u64, out: &mut [u8], at: usize) -> usize
    requires { Room (decimal n) at out.old }
    ensures { Wrote (decimal n) at out.old out.new result }
{
    let end = at + decimal_length(n);
    let mut left = n;
    let mut last = end - 1;
    // As above.
    while 10 <= left {
        out[last] = digit(left);
        left /= 10;
        last -= 1;
    }
    out[last] = digit(left);
    end
}

// A number, and the byte that ends it.
#[tactic(auto, using(crate::proofs::Writing::room_first, crate::proofs::Writing::room_next))]
fn write_ended(n: u64, end: u8, out: &mut [u8], at: usize) -> usize
    requires { Room (decimal n ++ (end ∷ [])) at out.old }
    ensures { Wrote (decimal n ++ (end ∷ [])) at out.old out.new result }
{
    let next = write_decimal(n, out, at);
    write_byte(end, out, next)
}

// A number after its name.
#[tactic(auto, using(crate::proofs::Writing::room_first, crate::proofs::Writing::room_next))]
fn write_named(name: &[u8], n: u64, out: &mut [u8], at: usize) -> usize
    requires { Room (name.now ++ decimal n) at out.old }
    ensures { Wrote (name.now ++ decimal n) at out.old out.new result }
{
    let next = write_text(name, out, at);
    write_decimal(n, out, next)
}

// ---- lines

pub fn write_refused(number: u32, place: u64, out: &mut [u8], at: usize) -> usize
    requires { Room (refused_line (refused number place)) at out.old }
    ensures { Wrote (refused_line (refused number place)) at out.old out.new result }
{
    let next = write_named(b"refused ", u64::from(number), out, at);
    let last = write_named(b" at ", place, out, next);
    write_byte(LINE, out, last)
}

pub fn write_head(quads: u64, moved: u64, out: &mut [u8], at: usize) -> usize
    requires { Room (mesh_lines (answered quads moved) []) at out.old }
    ensures { Wrote (mesh_lines (answered quads moved) []) at out.old out.new result }
{
    let next = write_named(b"quads ", quads, out, at);
    let last = write_named(b" moved ", moved, out, next);
    write_byte(LINE, out, last)
}

pub fn write_quad(number: u64, cell: u32, face: u32, out: &mut [u8], at: usize) -> usize
    requires { Room (quad_line number cell face) at out.old }
    ensures { Wrote (quad_line number cell face) at out.old out.new result }
{
    let second = write_ended(number, SPACE, out, at);
    let third = write_ended(u64::from(cell), SPACE, out, second);
    write_ended(u64::from(face), LINE, out, third)
}

// The quad of a link.
fn write_link(number: u64, link: u32, out: &mut [u8], at: usize) -> usize
    requires { (code_in link ≤ 5) × Room (quad_line number (key_in link / 6) (key_in link % 6)) at out.old }
    ensures { Wrote (quad_line number (key_in link / 6) (key_in link % 6)) at out.old out.new result }
{
    let key = face::key_of(link);
    write_quad(number, key / 6, key % 6, out, at)
}

fn write_quads(links: &[u32], out: &mut [u8], at: usize) -> usize
    requires { OfFaces links.now × Room (quad_lines 0 (quads_of links.now)) at out.old }
    ensures { Wrote (quad_lines 0 (quads_of links.now)) at out.old out.new result }
{
    let mut next = at;
    for (i, link) in links.iter().enumerate() {
        next = write_link(i as u64, *link, out, next);
    }
    next
}

#[tactic(auto, using(crate::proofs::Lining::head_room, crate::proofs::Lining::quads_room))]
pub fn write_lines(links: &[u32], quads: u64, moved: u64, out: &mut [u8], at: usize) -> usize
    requires { OfFaces links.now × Room (mesh_lines (answered quads moved) (quads_of links.now)) at out.old }
    ensures { Wrote (mesh_lines (answered quads moved) (quads_of links.now)) at out.old out.new result }
{
    let next = write_head(quads, moved, out, at);
    write_quads(links, out, next)
}

// ---- the outer faces

fn write_if(held: bool, byte: u8, out: &mut [u8], at: usize) -> usize
    requires { Room (only held byte) at out.old }
    ensures { Wrote (only held byte) at out.old out.new result }
{
    if held { write_byte(byte, out, at) } else { at }
}

// The faces of a set, at the start of the buffer; how many there are is returned.
pub fn outer_of(set: u8, out: &mut [u8]) -> usize
    requires { 6 ≤ length out.old }
    ensures { Wrote (faces_of set) 0 out.old out.new result }
{
    let mut next: usize = 0;
    for f in 0..6 {
        next = write_if((set >> f) % 2 == 1, f, out, next);
    }
    next
}
