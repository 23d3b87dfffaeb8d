// One pass over lines: brings in those whose conditions stand.
ghost use Rattle.std.specs.Prelude.{◌≡◌, [], ◌∷◌, map};
ghost use Rattle.marks.specs.MarkSets.{marks_of};
ghost use Rattle.lines.specs.Agendas.{named};
ghost use Rattle.lines.specs.Passes.{fires, Passes};

use crate::agenda::Agenda;
use crate::growth::Growth;
use crate::line::Line;
use marks::set::MarkSet;

fn fired<G, L: Line<G>>(line: &L, gate: &G, set: &MarkSet) -> bool
    ensures { result ≡ fires (L.Line.view gate.now line.now) (marks_of set.now) }
{
    line.stands(set) && line.admitted(gate)
}

// One line's turn: brings it in, if its conditions stand. Where the head is in the set already, there is no need to look at
// them.
fn take_turn<G, L: Line<G>>(line: &L, gate: &G, growth: &mut Growth)
    ensures { Passes (L.Line.view gate.now line.now ∷ []) growth.old growth.new }
{
    let Some(m) = line.brings() else {
        growth.stood |= fired(line, gate, &growth.set);
        return;
    };
    if !growth.set.contains(m) && fired(line, gate, &growth.set) {
        growth.add(m);
    }
}

// The turns of the lines that the agenda names, one after the other.
fn sweep<G, L: Line<G>, A: Agenda>(lines: &[L], agenda: A, gate: &G, growth: &mut Growth)
    ensures { Passes (named (map (L.Line.view gate.now) lines.now) (A.Agenda.names agenda)) growth.old growth.new }
{
    let mut agenda = agenda;
    while let Some(i) = agenda.next() {
        if i < lines.len() {
            take_turn(&lines[i], gate, growth);
        }
    }
}

/// Goes once through the lines that the agenda names, in its order, and brings in each whose conditions stand at the set as it then
/// is.
pub fn pass<G, L: Line<G>, A: Agenda>(lines: &[L], agenda: A, gate: &G, growth: &mut Growth)
    ensures { Passes (named (map (L.Line.view gate.now) lines.now) (A.Agenda.names agenda)) growth.old growth.new }
{
    sweep(lines, agenda, gate, growth)
}
