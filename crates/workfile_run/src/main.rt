// Runs the cases that tools/workfiles.py wrote; prints how many are right.
#![tactic(auto)]

ghost use Rattle.std.specs.Prelude.{◌<◌, length, IfSome};

use std::io;
use std::io::Read;
use vectors::{Count, read_full, say};
use workfile::WorkFile;

// Document 01's worked example: cell 1 with faces 5, 4, 0, 1, 2, 3.
const EXAMPLE_LINKS: [u32; 6] = [
    1,
    536_870_913,
    2_684_354_561,
    2_147_483_649,
    1_610_612_737,
    1_073_741_825,
];

// A word and the bytes after it.
fn next_word(bytes: &[u8]) -> Option<(u32, &[u8])>
    ensures { IfSome result (λ next. length next.1.now < length bytes.now) }
{
    let (head, rest) = bytes.split_first_chunk::<4>()?;
    Some((u32::from_le_bytes(*head), rest))
}

// ---- files

fn has_parts(file: WorkFile<'_>, told: &[u8]) -> bool {
    told.strip_prefix(file.grid_of()) == Some(file.log_of())
}

// The file's length, the file, and then its grid and its log.
fn is_right_file(case: &[u8]) -> bool {
    let Some((n, rest)) = next_word(case) else {
        return false;
    };
    let Some((bytes, told)) = rest.split_at_checked(n as usize) else {
        return false;
    };
    match WorkFile::open(bytes) {
        Some(file) => has_parts(file, told),
        None => false,
    }
}

// ---- lines

fn is_right_decimal(case: &[u8]) -> bool {
    let Some((n, told)) = next_word(case) else {
        return false;
    };
    let mut out = [0u8; 4096];
    let end = lines::write_decimal(u64::from(n), &mut out, 0);
    out[..end] == told[..]
}

#[tactic(auto, using(lines::proofs::Lining::refused_room))]
fn is_right_refusal(case: &[u8]) -> bool {
    let Some((number, rest)) = next_word(case) else {
        return false;
    };
    let Some((place, told)) = next_word(rest) else {
        return false;
    };
    let mut out = [0u8; 4096];
    let end = lines::write_refused(number, u64::from(place), &mut out, 0);
    out[..end] == told[..]
}

fn is_right_set(case: &[u8]) -> bool {
    let Some((head, told)) = case.split_first_chunk::<4>() else {
        return false;
    };
    let mut out = [0u8; 4096];
    let end = lines::outer_of(head[0], &mut out);
    out[..end] == told[..]
}

fn is_right_example(case: &[u8]) -> bool {
    let links = EXAMPLE_LINKS;
    let mut out = [0u8; 4096];
    let end = lines::write_lines(&links, 6, 14, &mut out, 0);
    out[..end] == case[..]
}

// ---- cases

// What a case holds.
#[derive(Clone, Copy)]
enum Kind {
    BadFile,
    File,
    Decimal,
    Refusal,
    Set,
    Example,
}

#[derive(Clone, Copy)]
struct UnknownKind;

impl TryFrom<u32> for Kind {
    type Error = UnknownKind;

    fn try_from(number: u32) -> Result<Self, UnknownKind> {
        match number {
            0 => Ok(Kind::BadFile),
            1 => Ok(Kind::File),
            2 => Ok(Kind::Decimal),
            3 => Ok(Kind::Refusal),
            4 => Ok(Kind::Set),
            5 => Ok(Kind::Example),
            _ => Err(UnknownKind),
        }
    }
}

fn is_right(kind: Kind, case: &[u8]) -> bool {
    match kind {
        Kind::BadFile => workfile::is_bad_file(case),
        Kind::File => is_right_file(case),
        Kind::Decimal => is_right_decimal(case),
        Kind::Refusal => is_right_refusal(case),
        Kind::Set => is_right_set(case),
        Kind::Example => is_right_example(case),
    }
}

// A case's kind and length, and the bytes after them.
fn next_case(input: &[u8]) -> Option<(u32, usize, &[u8])>
    ensures { IfSome result (λ next. length next.2.now < length input.now) }
{
    let (kind, rest) = next_word(input)?;
    let (n, rest) = next_word(rest)?;
    Some((kind, n as usize, rest))
}

// A case is its kind, its length and its bytes. One of a kind that is unknown is wrong.
fn run(input: &[u8]) -> Count {
    let mut count = Count::default();
    let mut left = input;
    while let Some((kind, n, rest)) = next_case(left) {
        let Some((case, after)) = rest.split_at_checked(n) else {
            return count.and(false);
        };
        count = count.and(Kind::try_from(kind).is_ok_and(|kind| is_right(kind, case)));
        left = after;
    }
    count
}

fn run_all<R: Read>(file: &mut R, bytes: &mut [u8]) -> io::Result<Count> {
    let n = read_full(file, bytes)?;
    Ok(run(&bytes[..n]))
}

fn main(rt: HostRuntime) -> io::Result<()> {
    let mut bytes = [0u8; 65536];
    let count = run_all(&mut rt.reader(), &mut bytes)?;
    say(&rt, "cases (29 wrong on purpose):", count)
}
