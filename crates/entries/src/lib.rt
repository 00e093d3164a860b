// The entries of a log, 16 bytes each, and which are bad.
#![tactic(auto)]

ghost use Rattle.std.specs.Prelude.{ℕ, Bool, ◌≡◌, ◌+◌, ◌-◌, ◌*◌, ◌/◌, ◌<◌, ◌≤◌, min, length, if◌then◌else◌, nat_eq, nat_lt};
ghost use Rattle.rules.specs.Lists.{lowest};
ghost use Rattle.rules.specs.Update.{ENTRY_BYTES, u32_at, change_of, entry_at, given_at};
ghost use Rattle.rules.specs.Answers.{bad_neighbour, bad_bytes, bad_former_by, bad_spare, bad_entry};
ghost use Rattle.face.specs.Face.{number};
ghost use Rattle.entries.specs.Log.{change_in, entry_in, neighbour_of, side_of, any_bad};

use face::{Cell, Face};

// By its code.
#[derive(Clone, Copy, Debug, PartialEq, Eq)]
pub enum VoxelChange {
    Broken = 0,
    Added = 1,
    Sides = 2,
    Replaced = 3,
}

// What Sides does with a side of its cell.
#[derive(Clone, Copy, Debug, PartialEq, Eq)]
pub enum Side {
    Keep,
    Hide,
    Draw,
}

#[derive(Clone, Copy, Debug, PartialEq, Eq)]
pub struct Entry {
    pub cell: Cell,
    pub change: VoxelChange,
    pub voxel: u8,
    // By face; in Sides what becomes of the cell's own sides.
    pub neighbours: [u8; 6],
    // What Replaced breaks. Broken repeats its voxel, Added and Sides have NO_TYPE.
    pub former: u8,
}

impl From<u8> for VoxelChange {
    ghost from_gives = { λ code change. change_in change ≡ change_of code };

    fn from(code: u8) -> VoxelChange {
        match code {
            0 => VoxelChange::Broken,
            1 => VoxelChange::Added,
            2 => VoxelChange::Sides,
            _ => VoxelChange::Replaced,
        }
    }
}

impl Entry {
    // The log's bytes stay as they are, so that several are compared at once; what is read of them is an option.
    pub const OUTSIDE: u8 = 255;

    // As a former type, which stays C's byte for the same reason.
    pub const NO_TYPE: u8 = 255;

    pub const BYTES: usize = 16;

    pub const MOST: usize = 16_777_216;

    // The voxel beside a face, None outside.
    pub fn neighbour(self, face: Face) -> Option<u8>
        ensures { result ≡ neighbour_of (given_at (entry_in self) (number face)) }
    {
        let given = self.neighbours[face.number() as usize];
        if given == Entry::OUTSIDE {
            None
        } else {
            Some(given)
        }
    }

    pub fn side(self, face: Face) -> Side
        ensures { result ≡ side_of (given_at (entry_in self) (number face)) }
    {
        match self.neighbours[face.number() as usize] {
            1 => Side::Hide,
            2 => Side::Draw,
            _ => Side::Keep,
        }
    }
}

// Little-endian. workfile has this line too: a crate for it alone would be longer.
fn u32_at(log: &[u8], at: usize) -> u32
    requires { at + 4 ≤ length log.now }
    ensures { result ≡ u32_at log.now at }
{
    u32::from_le_bytes([log[at], log[at + 1], log[at + 2], log[at + 3]])
}

pub fn read_entry(log: &[u8], k: usize) -> Entry
    requires { ENTRY_BYTES * k + ENTRY_BYTES ≤ length log.now }
    ensures { entry_in result ≡ entry_at log.now k }
{
    let at = Entry::BYTES * k;
    Entry {
        cell: Cell(u32_at(log, at)),
        change: VoxelChange::from(log[at + 4]),
        voxel: log[at + 5],
        neighbours: [
            log[at + 6],
            log[at + 7],
            log[at + 8],
            log[at + 9],
            log[at + 10],
            log[at + 11],
        ],
        former: log[at + 12],
    }
}

// As many as a byte can name.
fn byte_of(types: u32) -> u8
    ensures { result ≡ min types 255 }
{
    types.min(255) as u8
}

// One test of bytes, so that the six go at once: 255 and 1 wrap to 0, which is over no number of types.
fn bad_neighbour(given: u8, types: u32) -> bool
    ensures { result ≡ bad_neighbour types given }
{
    byte_of(types) < given.wrapping_add(1)
}

fn bad_side(byte: u8) -> bool
    ensures { result ≡ nat_lt 2 byte }
{
    2 < byte
}

// Whether one of the six bytes of the entry that starts at `at` is bad. All six are looked at, so that the compiler compares several at once.
fn any_bad<F: Fn(u8) -> bool>(log: &[u8], at: usize, is_bad: F) -> bool
    requires bytes { at + 12 ≤ length log.now }
    requires calls { F.IsAlwaysCallable is_bad }
    ensures { (bad : ℕ → Bool) → ((x : ℕ) (b : Bool) → x < 256 → F.post is_bad x b → b ≡ bad x) → result ≡ any_bad bad log.now at }
{
    let mut any = false;
    for byte in &log[at + 6..at + 12] {
        any |= is_bad(*byte);
    }
    any
}

// Whether one of the six is none that the entry's change takes: no side byte in Sides, else no type and not outside.
fn bad_bytes(log: &[u8], at: usize, types: u32) -> bool
    requires { at + 12 ≤ length log.now }
    ensures { result ≡ bad_bytes types log.now at }
{
    if log[at + 4] == VoxelChange::Sides as u8 {
        return any_bad(log, at, bad_side);
    }
    any_bad(log, at, |given| bad_neighbour(given, types))
}

// The former type of a change that is not Replaced.
fn own_former(code: u8, voxel: u8) -> u8
    ensures { result ≡ (if nat_eq code 0 then voxel else 255) }
{
    if code == VoxelChange::Broken as u8 {
        voxel
    } else {
        Entry::NO_TYPE
    }
}

// Whether the former type is none that the change takes. By the code, which asks for no jump.
fn bad_former(code: u8, voxel: u8, former: u8, types: u32) -> bool
    ensures { result ≡ bad_former_by types voxel former (change_of code) }
{
    if code < VoxelChange::Replaced as u8 {
        return former != own_former(code, voxel);
    }
    types <= u32::from(former)
}

// Whether one of the last three bytes is not zero.
fn bad_spare(log: &[u8], at: usize) -> bool
    requires { at + 16 ≤ length log.now }
    ensures { result ≡ bad_spare log.now at }
{
    !((log[at + 13] == 0) & (log[at + 14] == 0) & (log[at + 15] == 0))
}

fn bad_entry(log: &[u8], k: usize, cells: u32, types: u32) -> bool
    requires { ENTRY_BYTES * k + ENTRY_BYTES ≤ length log.now }
    ensures { result ≡ bad_entry cells types log.now k }
{
    let at = Entry::BYTES * k;
    (Entry::MOST <= k)
        | (cells <= u32_at(log, at))
        | ((VoxelChange::Replaced as u8) < log[at + 4])
        | (types <= u32::from(log[at + 5]))
        | bad_bytes(log, at, types)
        | bad_former(log[at + 4], log[at + 5], log[at + 12], types)
        | bad_spare(log, at)
}

// The lowest entry with a bad field or past the limit, or the number of whole entries, as the rules' `lowest` counts.
pub fn first_bad_entry(log: &[u8], cells: u32, types: u32) -> usize
    ensures { result ≡ lowest (length log.now / ENTRY_BYTES) (bad_entry cells types log.now) }
{
    let entries = log.len() / Entry::BYTES;
    for k in 0..entries {
        if bad_entry(log, k, cells, types) {
            return k;
        }
    }
    entries
}
