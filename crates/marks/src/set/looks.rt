// What is read of a set, word by word: its next mark, how many it has, and how it shares the marks out with another.
ghost use Rattle.std.specs.Prelude.{◌≡◌, ◌<◌, IfSome};
ghost use Rattle.marks.specs.MarkSets.{marks_of};
ghost use Rattle.marks.specs.Overlaps.{Overlaps};
ghost use Rattle.marks.specs.Sets.{below, size, Next};

use super::MarkSet;
use super::words::{count_held, overlap_word, word_below};
use crate::overlap::Overlap;

impl MarkSet {
    // The lowest mark at or after `at`, found by the zeros below it in its word.
    pub(super) fn next_mark(&self, at: u16) -> Option<u16>
        ensures next { Next (marks_of self.now) at result }
        ensures within { IfSome result (λ m. m < self.now.width) }
    {
        let mut from = at;
        while from < self.width {
            let rest = self.words[(from / 64) as usize] >> (from % 64);
            if rest != 0 {
                return Some(from + rest.trailing_zeros() as u16);
            }
            from = (from / 64 + 1) * 64;
        }
        None
    }

    // How many marks the set holds: as many as its words, which hold none at or above the width.
    pub(super) fn count_marks(&self) -> u16
        ensures { result ≡ size self.now.width (marks_of self.now) }
    {
        count_held(&self.words)
    }

    // How the marks below the width are shared out, by the ones of the two sets' words combined.
    pub(super) fn count_overlap(&self, other: &MarkSet) -> Overlap
        requires { other.now.width ≡ self.now.width }
        ensures { Overlaps self.now.width (below self.now.width) (marks_of self.now) (marks_of other.now) result }
    {
        let mut total = Overlap {
            both: 0,
            neither: 0,
            first: 0,
            second: 0,
        };
        // by index: it makes the third word, and each word is looked at once
        for i in 0..8 {
            let word = overlap_word(self.words[i], other.words[i], word_below(self.width, i));
            total.both += word.both;
            total.neither += word.neither;
            total.first += word.first;
            total.second += word.second;
        }
        total
    }
}
