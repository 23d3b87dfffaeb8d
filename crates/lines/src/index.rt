// Which lines have a mark among their conditions.
ghost use Rattle.std.specs.Prelude.{◌≡◌, ℕ, ◌+◌, ◌*◌, ◌<◌, ◌≤◌, [], Option, map, slice_index};
ghost use Rattle.marks.specs.MarkSets.{marks_of};
ghost use Rattle.marks.specs.Sets.{◌∈◌};
ghost use Rattle.lines.specs.Passes.{conditions_of};

use crate::agenda::Agenda;
use crate::growth::Growth;
use crate::line::Line;
use marks::set::MarkSet;

// How many lines have slots that can be numbered.
const MOST_LINES: usize = 8191;

/// For each mark the lines that have it among their conditions.
///
/// The condition at the place j of the line i stands at the slot 8 * i + j. `last` has for each mark its last slot, and `before` for
/// each slot in use the last slot before it with the same mark; both have the slot with 1 added, or 0 where there is none.
#[derive(Drop)]
pub struct Index<const M: usize> {
    last: [u16; 512],
    before: [u16; M],
    // the marks with a slot, those of a width, and maybe others
    marked: Option<MarkSet>,
}

/// The lines that an index names for a mark, the last first: those at a chain of slots.
#[derive(Clone, Copy)]
pub struct Touched<'a> {
    before: &'a [u16],
    slot: u16,
}

impl Agenda for Touched<'_> {
    ghost use Rattle.lines.specs.Indexes.{left_of};

    ghost names = { left_of };

    fn next(&mut self) -> Option<usize> {
        let slot = (self.slot as usize).checked_sub(1)?;
        // never a later one, so that the chain ends
        self.slot = self.before.get(slot).copied().unwrap_or(0).min(slot as u16);
        Some(slot / 8)
    }
}

impl<const M: usize> Index<M> {
    ghost use Rattle.lines.specs.Indexes.{named_for, left_of, IsIndexOf};
    ghost use Rattle.lines.specs.Growths.{Kept};
    ghost use Rattle.lines.specs.Slots.{narrow, slot_at, Linked};

    // Links the slot to the last one of its mark, where there is a mark in it that some width has.
    fn link(&mut self, slot: usize, mark: Option<u16>)
        requires slot { slot < M }
        requires few { slot < 65535 }
        ensures { (slots : ℕ → Option ℕ) → slots slot ≡ narrow mark → Linked slots slot self.old.last self.old.before → Linked slots (slot + 1) self.new.last self.new.before }
    {
        let Some(m) = mark else {
            return;
        };
        if m < 512 {
            self.before[slot] = self.last[m as usize];
            self.last[m as usize] = slot as u16 + 1;
        }
    }

    // Links the eight slots of a line.
    fn add<G, L: Line<G>>(&mut self, i: usize, line: &L)
        requires room { 8 * i + 8 ≤ M }
        requires few { i < 8191 }
        ensures { (g : G) (slots : ℕ → Option ℕ) → ((j : ℕ) → j < 8 → slots (8 * i + j) ≡ slot_at (L.Line.view g line.now).conditions j) → Linked slots (8 * i) self.old.last self.old.before → Linked slots (8 * i + 8) self.new.last self.new.before }
    {
        for j in 0..8 {
            self.link(8 * i + j, line.condition(j));
        }
    }

    // The set with the marks of its width that have a slot.
    fn with_slots(&self, first: MarkSet) -> MarkSet
        ensures { (m : ℕ) → m < result.width → 0 < slice_index self.now.last m → m ∈ marks_of result }
    {
        let mut marked = first;
        for m in 0..first.width() {
            if self.last[m as usize] > 0 {
                let _ = marked.insert(m);
            }
        }
        marked
    }

    // Leaves fresh only marks that are marked.
    pub(crate) fn keep_marked(&self, growth: &mut Growth)
        ensures { Kept self.now.marked growth.old growth.new }
    {
        if let Some(marked) = &self.marked {
            growth.keep_fresh(marked);
        }
    }

    // Links the slots of these lines alone, line by line, so far as there is room.
    fn link_all<G, L: Line<G>>(&mut self, lines: &[L], first: MarkSet)
        ensures { (g : G) → IsIndexOf self.new (conditions_of (map (L.Line.view g) lines.now)) }
    {
        self.last = [0; 512];
        for i in 0..lines.len().min(M / 8).min(MOST_LINES) {
            self.add::<G, L>(i, &lines[i]);
        }
        self.marked = Some(self.with_slots(first));
    }

    /// An index of nothing.
    pub fn new() -> Index<M>
        ensures { IsIndexOf result [] }
    {
        Index {
            last: [0; 512],
            before: [0; M],
            marked: None,
        }
    }

    /// Makes it the index of these lines, so far as it has room. The marks of `first`, a set of the lines' width, may be taken for
    /// conditions too.
    pub fn fill<G, L: Line<G>>(&mut self, lines: &[L], first: MarkSet)
        ensures { (g : G) → IsIndexOf self.new (conditions_of (map (L.Line.view g) lines.now)) }
    {
        self.link_all::<G, L>(lines, first)
    }

    /// The lines with the mark among their conditions.
    pub fn touched(&self, m: u16) -> Touched<'_>
        ensures { left_of result ≡ named_for self.now m }
    {
        Touched {
            before: &self.before,
            slot: self.last.get(m as usize).copied().unwrap_or(0),
        }
    }
}
