// A list of marks inside a record.
ghost use Rattle.std.specs.Prelude.{◌≡◌, Decides};
ghost use Rattle.marks.specs.MarkSets.{marks_of};
ghost use Rattle.readings.specs.Computed.{has_all, has_none};
ghost use Rattle.lines.specs.Equal.{SameList, lists_equal};
ghost use Rattle.lines.specs.Lawful.{AllBelow, Ascends, LawfulList};
ghost use Rattle.lines.specs.Records.{used};
ghost use Rattle.std.specs.Cmp.Rules.{comparing};
ghost use Rattle.std.proofs.Common.{rules};

use marks::set::MarkSet;

// The first `count` places are used; what stands in the others never matters.
#[derive(Clone, Copy, Debug, Default)]
pub struct MarkList {
    pub count: u8,
    pub marks: [u16; 8],
}

fn ascend(marks: &[u16]) -> bool
    ensures { Decides result (Ascends marks.now) }
{
    marks.is_sorted_by(|a, b| *a < *b)
}

fn all_below(marks: &[u16], width: u16) -> bool
    ensures { Decides result (AllBelow width marks.now) }
{
    marks.iter().all(|m| *m < width)
}

fn holds_all(set: &MarkSet, marks: &[u16]) -> bool
    ensures { result ≡ has_all marks.now (marks_of set.now) }
{
    marks.iter().all(|m| set.contains(*m))
}

fn holds_none(set: &MarkSet, marks: &[u16]) -> bool
    ensures { result ≡ has_none marks.now (marks_of set.now) }
{
    !marks.iter().any(|m| set.contains(*m))
}

impl MarkList {
    // The used places; all eight where the count is greater.
    pub fn used(&self) -> &[u16]
        ensures { result.now ≡ used self.now }
    {
        let n = self.count.min(8) as usize;
        &self.marks[..n]
    }

    // Whether the list is lawful for the width.
    pub fn is_lawful(&self, width: u16) -> bool
        ensures { Decides result (LawfulList width self.now) }
    {
        self.count <= 8 && ascend(self.used()) && all_below(self.used(), width)
    }

    // Whether the set holds all marks of the list.
    pub fn all_in(&self, set: &MarkSet) -> bool
        ensures { result ≡ has_all (used self.now) (marks_of set.now) }
    {
        holds_all(set, self.used())
    }

    // Whether the set holds none of the marks of the list.
    pub fn none_in(&self, set: &MarkSet) -> bool
        ensures { result ≡ has_none (used self.now) (marks_of set.now) }
    {
        holds_none(set, self.used())
    }
}

// Equal lists have the same count and the same marks in their used places.
impl PartialEq for MarkList {
    ghost eq = { lists_equal };

    ghost laws = { Prim.search (comparing, rules) };

    fn eq(&self, other: &MarkList) -> bool
        ensures value { result ≡ lists_equal self.now other.now }
        ensures same { Decides result (SameList self.now other.now) }
    {
        self.count == other.count && self.used() == other.used()
    }
}
