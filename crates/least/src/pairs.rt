//! The pairs of lines that touch.
ghost use Rattle.std.specs.Prelude.{◌≡◌, ◌+◌, ◌*◌, ◌<◌, ◌≤◌, [], ◌∷◌, ◌++◌, length};
ghost use Rattle.arrayvec.specs.ArrayVec.{array_vec_len};
ghost use Rattle.least.specs.Steps.{pair, NotedTo, AllNoted};

use arrayvec::ArrayVec;
use design::line::Line;
use terms::limits::MOST_LINES;

/// Two touching lines, by their places: the second pulls on the first. Bytes suffice for the places of 96 lines, and keep the memory of all pairs small.
#[derive(Clone, Copy, Default)]
pub(crate) struct Pair {
    pub(crate) line: u8,
    pub(crate) by: u8,
}

/// The most pairs: both ways for each line that a line names.
const MOST_PAIRS: usize = 2 * MOST_LINES * MOST_LINES;

pub(crate) type Pairs = ArrayVec<Pair, MOST_PAIRS>;

// Adds both pairs of two lines.
fn note_both(i: usize, k: usize, pairs: &mut Pairs)
    requires i { i < MOST_LINES }
    requires k { k < MOST_LINES }
    requires room { array_vec_len pairs.old + 2 ≤ MOST_PAIRS }
    ensures { pairs.new.items ≡ (pairs.old.items ++ pair i k ∷ []) ++ pair k i ∷ [] }
{
    let (i, k) = (i as u8, k as u8);
    pairs.push(Pair { line: i, by: k });
    pairs.push(Pair { line: k, by: i });
}

// Adds the pairs of the lines that line i names, both ways. That there are at most 96 lines stands in three clauses, here, below and where a search starts: the
// lines are those of a job, and a check makes a job of however many lines, so that no type of a job's lines can say it.
fn note_named(lines: &[Line], i: usize, pairs: &mut Pairs)
    requires lines { length lines.now ≤ MOST_LINES }
    requires i { i < length lines.now }
    requires room { array_vec_len pairs.old + 2 * MOST_LINES ≤ MOST_PAIRS }
    requires pairs { NotedTo lines.now i 0 pairs.old.items }
    ensures count { array_vec_len pairs.new ≤ array_vec_len pairs.old + 2 * MOST_LINES }
    ensures pairs { NotedTo lines.now (i + 1) 0 pairs.new.items }
{
    let line = lines[i];
    if line.entry.near == 0 && line.entry.far == 0 {
        return;
    }
    for (k, other) in lines.iter().enumerate() {
        if line.names(*other) {
            note_both(i, k, pairs);
        }
    }
}

/// Adds all pairs of touching lines, both ways, place by place, as pairs are of places. The list is lent, since to return it would copy its whole memory, which is slower.
pub(crate) fn note_touching(lines: &[Line], pairs: &mut Pairs)
    requires lines { length lines.now ≤ MOST_LINES }
    requires empty { pairs.old.items ≡ [] }
    ensures { AllNoted lines.now pairs.new.items }
{
    for i in 0..lines.len() {
        note_named(lines, i, pairs);
    }
}
