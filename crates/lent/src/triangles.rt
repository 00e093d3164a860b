// BAD_TRIANGLES: the test of a lent mesh's triangles.
ghost use Rattle.std.specs.Prelude.{◌≡◌, ℕ, ◌+◌, ◌*◌, ◌^◌, ◌<◌, ◌≤◌, true, List, length};
ghost use Rattle.rules.specs.Lists.{every, row, same};
ghost use Rattle.rules.specs.Mesh.{pattern, Vertices, lists_of};
ghost use Rattle.rules.specs.Answers.{BAD_TRIANGLES};
ghost use Rattle.answers.specs.Verdicts.{verdict_of};
ghost use Rattle.lent.specs.Patterns.{goes_on};

use answers::{Refusal, Verdict, refuse_lowest};

// Whether six words are the triangles of quad q.
fn is_pattern(words: &[u32], q: u32) -> bool
    requires { (length words.now ≡ 6) × (q < 2 ^ 30) }
    ensures { result ≡ same words.now (pattern q) }
{
    let first = 4 * q;
    (words[0] == first)
        & (words[1] == first + 1)
        & (words[2] == first + 2)
        & (words[3] == first + 3)
        & (words[4] == first + 2)
        & (words[5] == first + 1)
}

// Whether each of the first n words is four less than the word a row on. The words lie side by side and no turn leaves
// early, so that the compiler compares several at once.
fn rows_go_on(triangles: &[u32], n: usize) -> bool
    requires { n + 6 ≤ length triangles.now }
    ensures { result ≡ every n (goes_on triangles.now) }
{
    let mut good = true;
    for k in 0..n {
        good &= triangles[k + 6] == triangles[k].wrapping_add(4);
    }
    good
}

// Where it says yes, each quad's triangles are the pattern.
fn all_patterned(triangles: &[u32], count: usize) -> bool
    requires { (6 * count ≤ length triangles.now) × (count ≤ 2 ^ 30) }
    ensures { result ≡ true → (q : ℕ) → q < count → same (row 6 triangles.now q) (pattern q) ≡ true }
{
    if count == 0 {
        return true;
    }
    is_pattern(&triangles[..6], 0) & rows_go_on(triangles, 6 * count - 6)
}

pub fn triangles_verdict(triangles: &[u32], count: usize) -> Verdict
    requires { (6 * count ≤ length triangles.now) × (count ≤ 2 ^ 30) }
    ensures { (vertices : Vertices) (links slots : List ℕ) → verdict_of result ≡ BAD_TRIANGLES (lists_of vertices triangles.now links slots) count }
{
    if all_patterned(triangles, count) {
        return Ok(());
    }
    refuse_lowest(
        Refusal::BadTriangles,
        count,
        |q| !is_pattern(&triangles[6 * q..6 * q + 6], q as u32),
    )
}
