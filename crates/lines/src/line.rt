// What a pass asks of a record.
ghost use Rattle.std.specs.Prelude.{◌≡◌, slice_get};
ghost use Rattle.marks.specs.MarkSets.{marks_of};
ghost use Rattle.readings.specs.Computed.{has_all};
ghost use Rattle.lines.specs.Passes.{View};

use marks::set::MarkSet;

// A record with conditions, as a pass sees it through a gate. The gate says which lines are admitted.
pub trait Line<G> {
    ghost view: { G → Self → View };

    fn admitted(&self, gate: &G) -> bool
        ensures { result ≡ (view gate.now self.now).admitted };

    // Whether the conditions stand at the set, whatever the gate.
    fn stands(&self, set: &MarkSet) -> bool
        ensures { (g : G) → result ≡ has_all (view g self.now).conditions (marks_of set.now) };

    /// The condition at a place, where there is one, whatever the gate.
    fn condition(&self, place: usize) -> Option<u16>
        ensures { (g : G) → result ≡ slice_get (view g self.now).conditions place };

    // The head, where there is one, whatever the gate.
    fn brings(&self) -> Option<u16>
        ensures { (g : G) → result ≡ (view g self.now).head };
}
