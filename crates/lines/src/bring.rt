// Bringing in lines until none adds anything: one pass over all of them, and then passes over those that a new mark touches.
ghost use Rattle.std.specs.Prelude.{◌≢◌, map};
ghost use Rattle.marks.specs.MarkSets.{marks_of, Unchanged};
ghost use Rattle.marks.specs.Refusals.{Refuses, Gives, Test};
ghost use Rattle.lines.specs.Brings.{BringsIn, BringsOn};
ghost use Rattle.lines.specs.Follows.{Follows};

use crate::agenda::AllLines;
use crate::growth::Growth;
use crate::index::Index;
use crate::line::Line;
use crate::pass::pass;
use marks::refusal::Refusal;
use marks::set::MarkSet;

// Brings in the lines that fresh marks touch, until no mark is fresh.
fn follow<G, L: Line<G>, const M: usize>(
    lines: &[L],
    index: &Index<M>,
    gate: &G,
    growth: &mut Growth,
)
    ensures { Follows index.now (map (L.Line.view gate.now) lines.now) growth.old growth.new }
{
    index.keep_marked(growth);
    while let Some(m) = growth.take() {
        pass(lines, index.touched(m), gate, growth);
    }
}

/// Brings in lines until none adds anything. Says whether a line without a head stands then.
pub fn bring_all<G, L: Line<G>, const M: usize>(
    lines: &[L],
    index: &Index<M>,
    gate: &G,
    set: &mut MarkSet,
) -> bool
    ensures { BringsIn index.now (map (L.Line.view gate.now) lines.now) set.old set.new result }
{
    let mut growth = Growth::of(*set);
    pass(lines, AllLines::of(lines), gate, &mut growth);
    follow(lines, index, gate, &mut growth);
    *set = growth.set;
    growth.stood
}

/// The same, going on from `done`, marks of the set whose lines were brought in already: only lines with another mark are looked at.
/// Refused where the widths differ.
pub fn bring_on<G, L: Line<G>, const M: usize>(
    lines: &[L],
    index: &Index<M>,
    gate: &G,
    done: &MarkSet,
    set: &mut MarkSet,
) -> Result<bool, Refusal>
    ensures { Test (set.old.width ≢ done.now.width) (Refuses result 7 × Unchanged set.old set.new) (Gives result (BringsOn index.now (map (L.Line.view gate.now) lines.now) (marks_of done.now) set.old set.new)) }
{
    let mut growth = Growth::past(*set, done)?;
    follow(lines, index, gate, &mut growth);
    *set = growth.set;
    Ok(growth.stood)
}
