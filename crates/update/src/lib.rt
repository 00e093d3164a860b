// An update: the mesh is mended in place, entry by entry of a log.
#![tactic(auto)]

ghost use Rattle.std.specs.Prelude.{◌≡◌, ◌*◌, ◌≤◌, length};
ghost use Rattle.rules.specs.Mesh.{vertices_of, NONE, Lists};
ghost use Rattle.rules.specs.Answers.{BAD_ENTRY};
ghost use Rattle.answers.specs.Verdicts.{verdict_of};
ghost use Rattle.terms.specs.Scenes.{scene_of};
ghost use Rattle.terms.specs.Modes.{tested_by};
ghost use Rattle.terms.specs.Loans.{lists_lent};
ghost use Rattle.update.specs.Runs.{ran_of, ran_by, Logging, patterns_mended};
ghost use Rattle.lent.specs.Scenes.{Long};
ghost use Rattle.update.specs.Outcome.{Updates, told_verdict, stopped_by};

use answers::{Refusal, Refused, Verdict, refuse_if};
use drawing::write_patterns;
use entries::{Entry, first_bad_entry, read_entry};
use indexing::{Tally, due_work, has_room, index_work};
use lent::links::links_verdict;
use lent::triangles::triangles_verdict;
use lent::{lent_verdict, room_of, size_verdict};
use steps::replay_steps;
use terms::{Count, Lengths, Scene, Tested};
use types::types_verdict;
use util::inverted;
use works::{keys_around, work_of};

// What a log is run under: the scene, the side tested, the room and the quads that there are.
#[derive(Clone, Copy)]
pub struct Task<'a> {
    pub scene: Scene<'a>,
    pub tested: Tested,
    pub room: usize,
    pub quads: usize,
}

// What a log has come to: the entry that found no room, if one did, and the highest number of quads on the way.
#[derive(Clone, Copy, Debug, PartialEq, Eq)]
pub struct Ran {
    pub full: Option<usize>,
    pub count: Count,
    pub highest: usize,
}

// The entries of a log in order, up to the first that finds no room: each on the index, and by its steps on the list of each attribute.
fn run_log(
    positions: &mut [u32],
    normals: &mut [u32],
    uvs: &mut [u32],
    colours: &mut [u32],
    links: &mut [u32],
    slots: &mut [u32],
    log: &[u8],
    task: Task<'_>,
) -> Ran
    requires { Logging (scene_of task.scene) task.room log.now
        (vertices_of positions.old normals.old uvs.old colours.old) links.old slots.old task.quads }
    ensures { ran_of result (vertices_of positions.new normals.new uvs.new colours.new) links.new slots.new
        ≡ ran_by (tested_by task.entry.tested) (scene_of task.entry.scene) task.entry.room log.now
        (vertices_of positions.old normals.old uvs.old colours.old) links.old task.entry.quads }
{
    let scene = task.scene;
    let types = scene.types;
    let inverse = inverted(scene.dims);
    let entries = log.len() / Entry::BYTES;
    // A fixed room, since nothing is allocated.
    let mut steps: [u32; 48] = [0; 48];
    let mut quads = task.quads;
    let mut moved: u64 = 0;
    let mut highest = task.quads;
    for k in 0..entries {
        let entry = read_entry(log, k);
        let work = work_of(types.kinds, types.covers, task.tested, entry);
        let keys = keys_around(scene.dims, inverse, entry.cell);
        let due = due_work(slots, &keys, entry.cell, work);
        if !has_room(due, quads, task.room) {
            return Ran {
                full: Some(k),
                count: Count { quads, moved },
                highest,
            };
        }
        let tally = index_work(
            links,
            slots,
            &mut steps,
            &keys,
            entry,
            due.word(),
            Tally {
                quads,
                moved,
                top: highest,
                steps: 0,
            },
        );
        let words = 2 * tally.steps;
        replay_steps(
            positions,
            normals,
            uvs,
            colours,
            scene,
            inverse,
            &steps[..words],
            quads,
        );
        quads = tally.quads;
        moved = tally.moved;
        highest = tally.top;
    }
    Ran {
        full: None,
        count: Count { quads, moved },
        highest,
    }
}

// The triangles follow the counts: patterns up to the last quad, zeros up to the highest count.
fn mend_patterns(triangles: &mut [u32], before: usize, after: usize, highest: usize)
    requires { (after ≤ highest) × (6 * highest ≤ length triangles.old) × (4 * after ≤ NONE) }
    ensures { triangles.new ≡ patterns_mended before after highest triangles.old }
{
    write_patterns(triangles, before, after);
    let start = 6 * after;
    let end = 6 * highest;
    triangles[start..end].fill(0);
}

// BAD_ENTRY: the lowest bad entry, else a ragged end.
fn entry_verdict(log: &[u8], cells: u32, types: u32) -> Verdict
    ensures { verdict_of result ≡ BAD_ENTRY cells types log.now }
{
    let entries = log.len() / Entry::BYTES;
    let bad = first_bad_entry(log, cells, types);
    refuse_if(bad < entries, Refusal::BadEntry, bad)?;
    refuse_if(log.len() % Entry::BYTES != 0, Refusal::BadEntry, entries)
}

// BAD_SIZE, BAD_TYPES, BAD_NUMBER, NOT_A_CUBE, SHORT_ROOM and BAD_COUNT: what is asked before the mesh is looked at.
fn told_verdict(scene: Scene<'_>, lengths: Lengths, quads: usize) -> Verdict
    ensures { (B : Lists) → Long B lengths → verdict_of result ≡ told_verdict (scene_of scene.entry) B quads }
{
    size_verdict(scene.dims)?;
    types_verdict(scene.types, scene.d, scene.centre)?;
    lent_verdict(scene, lengths, quads)
}

// Why and where an update refuses, and what was done before: nothing, unless an entry finds no room.
#[derive(Clone, Copy, Debug, PartialEq, Eq)]
pub struct Stopped {
    pub refused: Refused,
    pub count: Count,
}

impl From<Refused> for Stopped {
    ghost from_gives = { λ refused stopped. stopped ≡ stopped_by refused };

    fn from(refused: Refused) -> Stopped {
        Stopped {
            refused,
            count: Count { quads: 0, moved: 0 },
        }
    }
}

// What an update answers: what was done; or that it stopped.
pub type Updated = Result<Count, Stopped>;

// Mends the mesh in place, entry by entry of the log, by the side tested.
pub fn update_mesh(
    scene: Scene<'_>,
    tested: Tested,
    log: &[u8],
    positions: &mut [u32],
    normals: &mut [u32],
    uvs: &mut [u32],
    colours: &mut [u32],
    triangles: &mut [u32],
    links: &mut [u32],
    slots: &mut [u32],
    quads: usize,
) -> Updated
    ensures { Updates (tested_by tested) (scene_of scene.entry) log.now
        (lists_lent positions.old normals.old uvs.old colours.old triangles.old links.old slots.old) quads result (lists_lent positions.new normals.new uvs.new colours.new triangles.new links.new slots.new) }
{
    // By hand, not by `lent::lengths_of`: it takes the code's `Lists`, and the clauses here name the rules'.
    let lengths = Lengths {
        positions: positions.len(),
        normals: normals.len(),
        uvs: uvs.len(),
        colours: colours.len(),
        triangles: triangles.len(),
        links: links.len(),
        slots: slots.len(),
    };
    told_verdict(scene, lengths, quads)?;
    let cells = scene.dims.cell_count();
    links_verdict(cells, links, slots, quads)?;
    triangles_verdict(triangles, quads)?;
    entry_verdict(log, cells, scene.types.kinds.len() as u32)?;
    let task = Task {
        scene,
        tested,
        room: room_of(scene.types.coloured, lengths),
        quads,
    };
    let six = 6 * cells as usize;
    let faces = &mut slots[..six];
    let ran = run_log(positions, normals, uvs, colours, links, faces, log, task);
    let count = ran.count;
    mend_patterns(triangles, quads, count.quads, ran.highest);
    match ran.full {
        None => Ok(count),
        Some(place) => Err(Stopped {
            refused: Refused {
                why: Refusal::NoRoom,
                place,
            },
            count,
        }),
    }
}
