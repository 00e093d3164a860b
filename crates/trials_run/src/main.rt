// Replays trials of the calls mesh, update and check: each is held to its answer and to every word of the lent lists.
//
// There are four sets of them, a file each: damaged meshes, which tools/damage_vectors.py writes, logs (log_vectors.py), fresh meshes
// (mesh_vectors.py) and the Rust's answers (rust_vectors.py). A file is records of words, read by vectors::read_record. One that starts with 0 is a base, any other a trial on the base before it.
//
// A base: 0; width, height, length; whether coloured; d; centre (0 to 10); the lengths of eleven lists, which are grid, kinds, sets, registry,
// positions, normals, uvs, colours, triangles, links, slots (11 to 21); then these lists, a word for each byte of the first three, which end within
// 4,096 words. The last seven hold a mesh and spare room, at most 8,192 words each; without colour the colours are words that no call may touch.
//
// A trial: 1; the call, which is 0 meshing by Naive, 1 by Culling, 2 an update by the opposite side, 3 a check, 4 an update by the side itself; 1 if
// it goes on from what the trial before left, else it starts from the base; the quads given (0 to 3); how much is lent of each of the eleven lists
// (4 to 14); the numbers of bytes of outer list and log (15, 16); what must be answered, which is number, place, quads, moved, each 0 where the answer
// has none (17 to 20); the number of words that patch the base before the call (21); then outer list and log, four bytes a word, each from a word's
// start; these patches; and up to the record's end the patches that make of it what must be there after the call.
// A patch: a place in the base's record, how many words, and the words. So any word of scene, types, grid and mesh can be another one;
// the lengths can't.
// A trial is wrong if it or its base does not keep this form.
#![tactic(auto)]

ghost use Rattle.std.specs.Prelude.{◌≡◌, ◌≤◌, ◌<◌, length};

use checking::check_mesh;
use floats::Triple;
use meshem::mesh_grid;
use std::fs::File;
use std::io;
use std::io::Read;
use std::rt::Files;
use telling::{Told, told_by_mesh, told_by_update, told_by_verdict};
use terms::{Lists, MeshingAlgorithm, Scene, Tested};
use types::Types;
use update::update_mesh;
use util::Dimensions;
use vectors::{Count, holds, narrow, read_record, say};

// How many words come before the lists, in a base as in a trial.
const HEAD: usize = 22;

// Where the lengths of a base's lists start, and in a trial how much is lent of them.
const LENGTHS: usize = 11;

const LENT: usize = 4;

// The words that a record has at most, and the bytes: the cubes of 255 types are 48,960 words.
const WORDS: usize = 65536;

const BYTES: usize = 262144;

#[derive(Clone, Copy, Default)]
struct Tally {
    kept: usize,
    count: Count,
}

// What a trial calls.
#[derive(Clone, Copy)]
enum Call {
    Mesh(MeshingAlgorithm),
    Update(Tested),
    Check,
}

#[derive(Clone, Copy)]
struct UnknownCall;

impl TryFrom<u32> for Call {
    type Error = UnknownCall;

    fn try_from(number: u32) -> Result<Self, UnknownCall> {
        match number {
            0 => Ok(Call::Mesh(MeshingAlgorithm::Naive)),
            1 => Ok(Call::Mesh(MeshingAlgorithm::Culling)),
            2 => Ok(Call::Update(Tested::Opposite)),
            3 => Ok(Call::Check),
            4 => Ok(Call::Update(Tested::Itself)),
            _ => Err(UnknownCall),
        }
    }
}

// A word of a list, 0 past its end.
fn word(list: &[u32], at: usize) -> u32 {
    if at < list.len() { list[at] } else { 0 }
}

fn count(list: &[u32], at: usize) -> usize
    ensures { result < 4294967296 }
{
    word(list, at) as usize
}

// How many words hold so many bytes.
fn words_for(bytes: usize) -> usize
    requires { bytes < 4294967296 }
    ensures { result < 4294967296 }
{
    bytes.div_ceil(4)
}

// What is there of a part of a list.
fn part<T>(list: &[T], start: usize, n: usize) -> &[T] {
    let from = start.min(list.len());
    let rest = &list[from..];
    let most = n.min(rest.len());
    &rest[..most]
}

// Where a list of a base starts; the eleven are numbered from 0, and 11 is where they end.
fn start_of(base: &[u32], list: usize) -> usize
    requires { list ≤ 11 }
{
    let mut start = HEAD;
    for k in 0..list {
        start += count(base, LENGTHS + k);
    }
    start
}

fn list_of(base: &[u32], list: usize) -> &[u32]
    requires { list < 11 }
{
    part(base, start_of(base, list), count(base, LENGTHS + list))
}

// Where the log and the patches before and after the call start in a trial.
fn log_at(trial: &[u32]) -> usize
    ensures { result < 8589934592 }
{
    HEAD + words_for(count(trial, 15))
}

fn before_at(trial: &[u32]) -> usize
    ensures { result < 17179869184 }
{
    log_at(trial) + words_for(count(trial, 16))
}

fn after_at(trial: &[u32]) -> usize {
    before_at(trial) + count(trial, 21)
}

fn triple_at(r: &[u32], at: usize) -> Triple
    requires { at ≤ 8 }
{
    Triple {
        x: word(r, at),
        y: word(r, at + 1),
        z: word(r, at + 2),
    }
}

// Copies as many words as both have.
fn copy(from: &[u32], to: &mut [u32]) {
    let n = from.len().min(to.len());
    to[..n].copy_from_slice(&from[..n]);
}

// Whether as many words as a patch says are there, and lie within what it patches, in the scene or the lists.
fn is_whole_patch(place: usize, n: usize, there: usize, room: usize) -> bool
    requires { (place < 4294967296) × (n < 4294967296) }
{
    let end = place + n;
    n == there && end <= room && 0 < place && (end <= LENGTHS || HEAD <= place)
}

// Makes the patches, up to one that does not fit, and answers whether all do. A turn goes a patch on, however long it is.
fn patch(patches: &[u32], image: &mut [u32]) -> bool {
    let mut at: usize = 0;
    // A step is as long as its patch, which no range counts.
    while at + 1 < patches.len() {
        let place = count(patches, at);
        let n = count(patches, at + 1);
        let words = part(patches, at + 2, n);
        if !is_whole_patch(place, n, words.len(), image.len()) {
            return false;
        }
        let from = place.min(image.len());
        copy(words, &mut image[from..]);
        at += 2 + n;
    }
    at == patches.len()
}

// Whether no more is lent of a list than the base has of it.
fn is_lent_whole(trial: &[u32], base: &[u32]) -> bool {
    (0..11).all(|list| word(trial, LENT + list) <= word(base, LENGTHS + list))
}

// Whether a trial and its base keep the form that stands at the head of this file, but for the call and the patches.
fn is_formed(trial: &[u32], base: &[u32]) -> bool {
    word(trial, 0) == 1
        && word(trial, 2) < 2
        && after_at(trial) <= trial.len()
        && start_of(base, 11) == base.len()
        && start_of(base, 3) <= 4096
        && is_lent_whole(trial, base)
}

// Makes what the call starts from.
fn prepare(trial: &[u32], base: &[u32], image: &mut [u32]) -> bool {
    if word(trial, 2) == 0 {
        copy(base, image);
    }
    patch(part(trial, before_at(trial), count(trial, 21)), image)
}

// Makes what must be there after the call.
fn conclude(trial: &[u32], image: &mut [u32]) -> bool {
    patch(part(trial, after_at(trial), trial.len()), image)
}

// Room for each list of a mesh. Of fixed length: nothing is allocated.
#[derive(Drop)]
struct Rooms {
    positions: [u32; 8192],
    normals: [u32; 8192],
    uvs: [u32; 8192],
    colours: [u32; 8192],
    triangles: [u32; 8192],
    links: [u32; 8192],
    slots: [u32; 8192],
}

fn is_left(base: &[u32], list: usize, room: &[u32]) -> bool
    requires { list < 11 }
{
    let words = list_of(base, list);
    holds(part(room, 0, words.len()), words)
}

// The lowest byte of each of the first words, in which the lists of bytes lie.
fn low_of(base: &[u32]) -> [u8; 4096] {
    let mut low = [0; 4096];
    narrow(base, &mut low);
    low
}

// The part that is lent of a list, in an image or in the lowest bytes of its words.
fn lent<'a, T>(trial: &[u32], image: &[u32], list: usize, words: &'a [T]) -> &'a [T]
    requires { list < 11 }
{
    part(words, start_of(image, list), count(trial, LENT + list))
}

// How much is lent of the room for a list.
fn lent_of(trial: &[u32], list: usize) -> usize
    requires { list < 11 }
    ensures { result ≤ 8192 }
{
    count(trial, LENT + list).min(8192)
}

// `bytes` are those of the trial, here and below.
fn outer_of<'a>(trial: &[u32], bytes: &'a [u8]) -> &'a [u8] {
    part(bytes, 4 * HEAD, count(trial, 15))
}

fn log_of<'a>(trial: &[u32], bytes: &'a [u8]) -> &'a [u8] {
    part(bytes, 4 * log_at(trial), count(trial, 16))
}

// `low` has the lowest byte of each word of the image, here and below.
fn scene_of<'a>(trial: &[u32], image: &'a [u32], low: &'a [u8]) -> Scene<'a> {
    let types = Types {
        kinds: lent(trial, image, 1, low),
        covers: lent(trial, image, 2, low),
        cubes: lent(trial, image, 3, image),
        coloured: word(image, 4) == 1,
    };
    Scene {
        dims: Dimensions {
            width: word(image, 1),
            height: word(image, 2),
            length: word(image, 3),
        },
        types,
        d: triple_at(image, 5),
        centre: triple_at(image, 8),
    }
}

// Does the call that the trial names.
fn answer(
    call: Call,
    trial: &[u32],
    bytes: &[u8],
    image: &[u32],
    low: &[u8],
    positions: &mut [u32],
    normals: &mut [u32],
    uvs: &mut [u32],
    colours: &mut [u32],
    triangles: &mut [u32],
    links: &mut [u32],
    slots: &mut [u32],
) -> Told {
    let quads = count(trial, 3);
    let scene = scene_of(trial, image, low);
    let outer = outer_of(trial, bytes);
    let grid = lent(trial, image, 0, low);
    match call {
        Call::Mesh(algorithm) => told_by_mesh(mesh_grid(
            scene, outer, grid, algorithm, positions, normals, uvs, colours, triangles, links,
            slots,
        )),
        Call::Update(tested) => told_by_update(update_mesh(
            scene,
            tested,
            log_of(trial, bytes),
            positions,
            normals,
            uvs,
            colours,
            triangles,
            links,
            slots,
            quads,
        )),
        Call::Check => {
            let lists = Lists {
                positions,
                normals,
                uvs,
                colours,
                triangles,
                links,
                slots,
            };
            told_by_verdict(check_mesh(scene, outer, grid, lists, quads))
        }
    }
}

fn is_told(told: Told, trial: &[u32]) -> bool {
    told.number == word(trial, 17)
        && told.place == count(trial, 18)
        && told.quads == count(trial, 19)
        && told.moved == u64::from(word(trial, 20))
}

// Whether what must be there after the call is there. The image becomes that.
fn are_left(trial: &[u32], image: &mut [u32], rooms: &Rooms) -> bool {
    conclude(trial, image)
        && is_left(image, 4, &rooms.positions)
        && is_left(image, 5, &rooms.normals)
        && is_left(image, 6, &rooms.uvs)
        && is_left(image, 7, &rooms.colours)
        && is_left(image, 8, &rooms.triangles)
        && is_left(image, 9, &rooms.links)
        && is_left(image, 10, &rooms.slots)
}

fn is_right_on(call: Call, trial: &[u32], bytes: &[u8], image: &mut [u32]) -> bool {
    let seen = &image[..];
    let low = low_of(seen);
    // Each list is laid where it stays: a room that a function answers is copied.
    let mut rooms = Rooms {
        positions: [0; 8192],
        normals: [0; 8192],
        uvs: [0; 8192],
        colours: [0; 8192],
        triangles: [0; 8192],
        links: [0; 8192],
        slots: [0; 8192],
    };
    copy(list_of(seen, 4), &mut rooms.positions);
    copy(list_of(seen, 5), &mut rooms.normals);
    copy(list_of(seen, 6), &mut rooms.uvs);
    copy(list_of(seen, 7), &mut rooms.colours);
    copy(list_of(seen, 8), &mut rooms.triangles);
    copy(list_of(seen, 9), &mut rooms.links);
    copy(list_of(seen, 10), &mut rooms.slots);
    let p = lent_of(trial, 4);
    let n = lent_of(trial, 5);
    let u = lent_of(trial, 6);
    let c = lent_of(trial, 7);
    let t = lent_of(trial, 8);
    let l = lent_of(trial, 9);
    let s = lent_of(trial, 10);
    let told = answer(
        call,
        trial,
        bytes,
        seen,
        &low,
        &mut rooms.positions[..p],
        &mut rooms.normals[..n],
        &mut rooms.uvs[..u],
        &mut rooms.colours[..c],
        &mut rooms.triangles[..t],
        &mut rooms.links[..l],
        &mut rooms.slots[..s],
    );
    are_left(trial, image, &rooms) && is_told(told, trial)
}

fn is_right(trial: &[u32], bytes: &[u8], base: &[u32], image: &mut [u32]) -> bool {
    match Call::try_from(word(trial, 1)) {
        Ok(call) => {
            is_formed(trial, base)
                && prepare(trial, base, image)
                && is_right_on(call, trial, bytes, image)
        }
        Err(_) => false,
    }
}

// Keeps a base, or tries a trial.
fn take_record(
    given: &[u32],
    bytes: &[u8],
    base: &mut [u32],
    image: &mut [u32],
    tally: Tally,
) -> Tally {
    if word(given, 0) == 0 {
        copy(given, base);
        copy(given, image);
        return Tally {
            kept: given.len(),
            ..tally
        };
    }
    let kept = tally.kept.min(image.len());
    let ok = is_right(given, bytes, part(base, 0, kept), &mut image[..kept]);
    Tally {
        kept,
        count: tally.count.and(ok),
    }
}

fn run<R: Read>(file: &mut R) -> io::Result<Count> {
    let mut bytes = [0; BYTES];
    let mut words = [0; WORDS];
    let mut base = [0; WORDS];
    let mut image = [0; WORDS];
    let mut tally = Tally::default();
    for _ in 0..65536 {
        let Some(n) = read_record(file, &mut bytes, &mut words)? else {
            break;
        };
        tally = take_record(&words[..n], &bytes, &mut base, &mut image, tally);
    }
    Ok(tally.count)
}

// Replays the trials of a file, and prints under a name how many were right.
fn replay(rt: &(impl Files + Print), path: &str, name: &str) -> io::Result<()> {
    let mut file = File::open(rt, path)?;
    say(rt, name, run(&mut file)?)
}

fn main(rt: HostRuntime) -> io::Result<()> {
    replay(&rt, "damages", "damages (36 wrong on purpose):")?;
    replay(&rt, "logs", "logs (36 wrong on purpose):")?;
    replay(&rt, "meshes", "meshes (36 wrong on purpose):")?;
    replay(&rt, "rust_answers", "rust answers (36 wrong on purpose):")
}
