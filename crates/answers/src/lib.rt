// The refusals by their names, and a verdict: nothing to refuse, or one refusal with its place.
#![tactic(auto)]

ghost use Rattle.std.specs.Prelude.{◌≡◌, Bool, ℕ, ◌<◌};
ghost use Rattle.rules.specs.Answers.{refuse_if, refuse_lowest};
ghost use Rattle.answers.specs.Verdicts.{number_of, verdict_of};

#[derive(Clone, Copy, Debug, PartialEq, Eq)]
pub enum Refusal {
    BadFile = 1,
    BadSize = 2,
    BadTypes = 3,
    BadNumber = 4,
    BadAtlas = 5,
    NotACube = 6,
    BadFace = 7,
    BadCell = 8,
    ShortRoom = 9,
    BadCount = 10,
    BadLinks = 11,
    BadTriangles = 12,
    BadEntry = 13,
    NoRoom = 14,
    WrongSet = 15,
    WrongVertex = 16,
}

// A refusal with its place.
#[derive(Clone, Copy, Debug, PartialEq, Eq)]
pub struct Refused {
    pub why: Refusal,
    pub place: usize,
}

pub type Verdict = Result<(), Refused>;

impl From<Refusal> for u32 {
    ghost from_gives = { λ why n. n ≡ number_of why };

    fn from(why: Refusal) -> u32 {
        why as u32
    }
}

// A refusal with its place, if it applies.
pub fn refuse_if(applies: bool, why: Refusal, place: usize) -> Verdict
    ensures { verdict_of result ≡ refuse_if applies (number_of why) place }
{
    if applies {
        return Err(Refused { why, place });
    }
    Ok(())
}

// Refuses the lowest of n that is bad, if one is.
pub fn refuse_lowest<F: Fn(usize) -> bool>(why: Refusal, n: usize, is_bad: F) -> Verdict
    requires { (i : ℕ) → i < n → F.pre is_bad i }
    ensures { (bad : ℕ → Bool) → ((i : ℕ) (b : Bool) → i < n → F.post is_bad i b → b ≡ bad i) → verdict_of result ≡ refuse_lowest (number_of why) n bad }
{
    for place in 0..n {
        if is_bad(place) {
            return Err(Refused { why, place });
        }
    }
    Ok(())
}
