// What a call is asked and what it answers, by number.
#![tactic(auto)]

ghost use Rattle.std.specs.Prelude.{◌≡◌};
ghost use Rattle.rules.specs.Calls as rules;
ghost use Rattle.answers.specs.Verdicts.{number_of, verdict_of};
ghost use Rattle.meshem.specs.Outcome as mesh;
ghost use Rattle.terms.specs.Modes.{is_culling, tested_by};
ghost use Rattle.terms.specs.Scenes.{scene_of};
ghost use Rattle.update.specs.Outcome as update;
ghost use Rattle.telling.specs.Numbers.{is_yes, tested_if, answer, told_of, scene_from};

use answers::{Refused, Verdict};
use floats::Triple;
use meshem::Meshed;
use terms::{Count, MeshingAlgorithm, Scene, Tested};
use types::Types;
use update::Updated;
use util::Dimensions;

// An answer's number and place, the quads, and how many of them moved: 0 where an answer has none, as C has no options. The three makers have names, which
// docs/READING.md gives.
#[derive(Clone, Copy)]
pub struct Told {
    pub number: u32,
    pub place: usize,
    pub quads: usize,
    pub moved: u64,
}

pub fn is_yes(n: u32) -> bool
    ensures { result ≡ is_yes n }
{
    n != 0
}

fn done(quads: usize, moved: u64) -> Told
    ensures { told_of result ≡ rules.answered quads moved }
{
    Told {
        number: 0,
        place: 0,
        quads,
        moved,
    }
}

// A refusal, and what stood in the mesh when it came.
fn stopped(refused: Refused, count: Count) -> Told
    ensures { told_of result ≡ answer (number_of refused.why) refused.place count.quads count.moved }
{
    Told {
        number: u32::from(refused.why),
        place: refused.place,
        quads: count.quads,
        moved: count.moved,
    }
}

impl From<Refused> for Told {
    ghost from_gives = { λ refused told. told_of told ≡ rules.refused (number_of refused.why) refused.place };

    fn from(refused: Refused) -> Self {
        let none = Count { quads: 0, moved: 0 };
        stopped(refused, none)
    }
}

pub fn told_by_verdict(verdict: Verdict) -> Told
    ensures { told_of result ≡ rules.check_by (verdict_of verdict) }
{
    match verdict {
        Ok(()) => done(0, 0),
        Err(refused) => Told::from(refused),
    }
}

pub fn told_by_mesh(meshed: Meshed) -> Told
    ensures { told_of result ≡ mesh.answer_of meshed }
{
    match meshed {
        Ok(quads) => done(quads, 0),
        Err(refused) => Told::from(refused),
    }
}

pub fn told_by_update(updated: Updated) -> Told
    ensures { told_of result ≡ update.answer_of updated }
{
    match updated {
        Ok(count) => done(count.quads, count.moved),
        Err(end) => stopped(end.refused, end.count),
    }
}

// By name, as `tested_of`: a `From<bool>` would not say which is which.
pub fn algorithm_of(culling: bool) -> MeshingAlgorithm
    ensures { is_culling result ≡ culling }
{
    if culling {
        MeshingAlgorithm::Culling
    } else {
        MeshingAlgorithm::Naive
    }
}

pub fn tested_of(new: bool) -> Tested
    ensures { tested_by result ≡ tested_if new }
{
    if new {
        Tested::Itself
    } else {
        Tested::Opposite
    }
}

// In the order of the C calls.
pub fn scene_of<'a>(
    width: u32,
    height: u32,
    length: u32,
    kinds: &'a [u8],
    covers: &'a [u8],
    cubes: &'a [u32],
    coloured: u32,
    dx: u32,
    dy: u32,
    dz: u32,
    cx: u32,
    cy: u32,
    cz: u32,
) -> Scene<'a>
    ensures { scene_of result ≡ scene_from width height length kinds.now covers.now cubes.now coloured dx dy dz cx cy cz }
{
    Scene {
        dims: Dimensions {
            width,
            height,
            length,
        },
        types: Types {
            kinds,
            covers,
            cubes,
            coloured: is_yes(coloured),
        },
        d: Triple {
            x: dx,
            y: dy,
            z: dz,
        },
        centre: Triple {
            x: cx,
            y: cy,
            z: cz,
        },
    }
}
