// From the bytes of a work file to the bytes that are printed.
#![tactic(auto)]

ghost use Rattle.std.specs.Prelude.{◌≡◌, [], ◌*◌, ◌≤◌, length, IfOk};
ghost use Rattle.rules.specs.Calls.{refused};
ghost use Rattle.rules.specs.Cells.{cells};
ghost use Rattle.rules.specs.Program.{type_count, size_in, scene_in, room_in, build_from, worked, lines_of, built_lines, refused_line, printed};
ghost use Rattle.answers.specs.Verdicts.{number_of};
ghost use Rattle.update.specs.Outcome.{answer_of};
ghost use Rattle.lines.specs.Written.{Wrote};
ghost use Rattle.chunk.specs.Steps.{lines_in, zeros, lines_with, Shown};

use answers::{Refusal, Refused};
use lines::{outer_of, write_lines, write_refused};
use update::Updated;
use workfile::WorkFile;
use working::{build_cubes, registry_words, work_lists};

// What the lines of 128 quads take at most.
pub const ANSWER_BYTES: usize = 1_317;

// Six slots a cell.
fn slot_count(file: WorkFile<'_>) -> usize
    ensures { (result ≡ 6 * cells (size_in file.entry.bytes.now)) × (result ≤ 3072) }
{
    6 * file.grid_of().len()
}

// Room for the longest list: the slots of 512 cells.
fn empty_room() -> [u32; 3072]
    ensures { result ≡ zeros 3072 }
{
    [0; 3072]
}

fn write_refusal(stop: Refused, out: &mut [u8]) -> usize
    requires { 53 ≤ length out.old }
    ensures { Wrote (refused_line (refused (number_of stop.why) stop.place)) 0 out.old out.new result }
{
    write_refused(u32::from(stop.why), stop.place as u64, out, 0)
}

fn write_answer(updated: Updated, links: &[u32], out: &mut [u8]) -> usize
    requires { (53 ≤ length out.old) × IfOk updated (λ count. Shown count.quads count.moved links.now out.old) }
    ensures { Wrote (lines_with (answer_of updated) links.now) 0 out.old out.new result }
{
    match updated {
        Ok(count) => {
            let quads = count.quads;
            write_lines(&links[..quads], quads as u64, count.moved, out, 0)
        }
        Err(stopped) => write_refusal(stopped.refused, out),
    }
}

// Room is 128 quads.
fn answer_typed(
    file: WorkFile<'_>,
    outer: &[u8],
    kinds: &[u8],
    covers: &[u8],
    cubes: &[u32],
    out: &mut [u8],
) -> usize
    requires { 1317 ≤ length out.old }
    ensures { Wrote (lines_in file.entry.bytes.now outer.now kinds.now covers.now cubes.now
        (room_in file.entry.bytes.now)) 0 out.old out.new result }
{
    let mut positions = empty_room();
    let mut normals = empty_room();
    let mut uvs = empty_room();
    let mut colours = empty_room();
    let mut triangles = empty_room();
    let mut links = empty_room();
    let mut slots = empty_room();
    let six = slot_count(file);
    let updated = work_lists(
        file,
        outer,
        kinds,
        covers,
        cubes,
        &mut positions[..1536],
        &mut normals[..1536],
        &mut uvs[..1024],
        &mut colours[..2048],
        &mut triangles[..768],
        &mut links[..128],
        &mut slots[..six],
    );
    write_answer(updated, &links[..128], out)
}

fn answer_built(file: WorkFile<'_>, cubes: &[u32], out: &mut [u8]) -> usize
    requires { 1317 ≤ length out.old }
    ensures { Wrote (lines_of (scene_in file.entry.bytes.now cubes.now)
        (worked file.entry.bytes.now (scene_in file.entry.bytes.now cubes.now))) 0 out.old out.new result }
{
    let work = file.read_work();
    let types = work.types;
    // Of fixed length: nothing is allocated.
    let mut kinds = [0u8; 8];
    let mut covers = [0u8; 8];
    let mut outer = [0u8; 6];
    file.kinds_of(&mut kinds);
    file.covers_of(&mut covers);
    let faces = outer_of(work.outer, &mut outer);
    answer_typed(
        file,
        &outer[..faces],
        &kinds[..types],
        &covers[..types],
        cubes,
        out,
    )
}

fn answer_good(file: WorkFile<'_>, out: &mut [u8]) -> usize
    requires { 1317 ≤ length out.old }
    ensures { Wrote (built_lines file.entry.bytes.now (build_from file.entry.bytes.now 0 (type_count file.entry.bytes.now) [])) 0
        out.old out.new result }
{
    let mut registry = empty_room();
    let words = registry_words(file);
    match build_cubes(file, &mut registry[..words]) {
        Ok(()) => answer_built(file, &registry[..words], out),
        Err(stop) => write_refusal(stop, out),
    }
}

// Writes what is printed for the file, and answers how many bytes that is.
pub fn answer_file(file: &[u8], out: &mut [u8; ANSWER_BYTES]) -> usize
    ensures { Wrote (printed file.now) 0 out.old out.new result }
{
    match WorkFile::open(file) {
        Some(good) => answer_good(good, out),
        None => {
            let stop = Refused {
                why: Refusal::BadFile,
                place: 0,
            };
            write_refusal(stop, out)
        }
    }
}
