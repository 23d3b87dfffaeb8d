// The words of a set: a mark put in or taken out, two sets joined or compared, word by word.
ghost use Rattle.std.specs.Prelude.{◌≡◌, ℕ, ◌+◌, ◌*◌, ◌<◌, ◌≤◌, Decides, nat_lt};
ghost use Rattle.marks.specs.Sets.{◌⊆◌, ◌∪◌, ◌∩◌, ◌∖◌, no_marks, below, OfWidth, with_mark, without_mark, size};
ghost use Rattle.marks.specs.Joins.{joined, BitOp, Computes};
ghost use Rattle.marks.specs.Overlaps.{Overlaps};
ghost use Rattle.marks.specs.Words.{bit, held};

use crate::overlap::Overlap;

// The marks of the word `i` that lie below the width.
pub(super) fn word_below(width: u16, i: usize) -> u64
    requires { i < 8 }
    ensures { (k : ℕ) → k < 64 → bit result k ≡ nat_lt (64 * i + k) width }
{
    let first = 64 * i as u16;
    if width <= first {
        0
    } else if width - first >= 64 {
        u64::MAX
    } else {
        (1 << (width - first)) - 1
    }
}

// The words of the set of no marks.
pub(super) fn no_words() -> [u64; 8]
    ensures marks { held result ≡ no_marks }
    ensures inside { (w : ℕ) → OfWidth w (held result) }
{
    [0; 8]
}

// The words of the set of all marks below the width.
pub(super) fn words_below(width: u16) -> [u64; 8]
    requires { width ≤ 512 }
    ensures marks { held result ≡ below width }
    ensures inside { OfWidth width (held result) }
{
    std::array::from_fn(|i| word_below(width, i))
}

pub(super) fn has_mark(words: &[u64; 8], m: u16) -> bool
    ensures { result ≡ held words.now m }
{
    let i = m / 64;
    i < 8 && words[i as usize] >> (m % 64) & 1 == 1
}

pub(super) fn put_mark(words: &mut [u64; 8], m: u16)
    requires { m < 512 }
    ensures marks { held words.new ≡ with_mark (held words.old) m }
    ensures inside { (w : ℕ) → m < w → OfWidth w (held words.old) → OfWidth w (held words.new) }
{
    words[(m / 64) as usize] |= 1 << (m % 64);
}

pub(super) fn take_mark(words: &mut [u64; 8], m: u16)
    requires { m < 512 }
    ensures marks { held words.new ≡ without_mark (held words.old) m }
    ensures inside { (w : ℕ) → OfWidth w (held words.old) → OfWidth w (held words.new) }
{
    words[(m / 64) as usize] &= !(1 << (m % 64));
}

// Two sets joined word by word, by an operation that does `by.on` with each bit.
fn join_words<F: Fn(u64, u64) -> u64>(a: &[u64; 8], b: &[u64; 8], op: F) -> [u64; 8]
    ghost by: { BitOp }
    requires callable { F.IsAlwaysCallable op }
    requires computes { Computes (F.post op) by.word }
    ensures marks { held result ≡ joined by.on (held a.now) (held b.now) }
    ensures inside { (w : ℕ) → OfWidth w (held a.now) → OfWidth w (held b.now) → OfWidth w (held result) }
{
    std::array::from_fn(|i| op(a[i], b[i]))
}

// The words of the marks of either set.
pub(super) fn words_united(a: &[u64; 8], b: &[u64; 8]) -> [u64; 8]
    ensures marks { held result ≡ held a.now ∪ held b.now }
    ensures inside { (w : ℕ) → OfWidth w (held a.now) → OfWidth w (held b.now) → OfWidth w (held result) }
{
    join_words(a, b, |x, y| x | y)
}

// The words of the marks that both sets hold.
pub(super) fn words_shared(a: &[u64; 8], b: &[u64; 8]) -> [u64; 8]
    ensures marks { held result ≡ held a.now ∩ held b.now }
    ensures inside { (w : ℕ) → OfWidth w (held a.now) → OfWidth w (held b.now) → OfWidth w (held result) }
{
    join_words(a, b, |x, y| x & y)
}

// The words of the marks that the first set holds and the second does not.
pub(super) fn words_apart(a: &[u64; 8], b: &[u64; 8]) -> [u64; 8]
    ensures marks { held result ≡ held a.now ∖ held b.now }
    ensures inside { (w : ℕ) → OfWidth w (held a.now) → OfWidth w (held b.now) → OfWidth w (held result) }
{
    join_words(a, b, |x, y| x & !y)
}

pub(super) fn words_within(a: &[u64; 8], b: &[u64; 8]) -> bool
    ensures { Decides result (held a.now ⊆ held b.now) }
{
    a.iter().zip(b).all(|(x, y)| x & !y == 0)
}

pub(super) fn words_same(a: &[u64; 8], b: &[u64; 8]) -> bool
    ensures { Decides result (held a.now ≡ held b.now) }
{
    a == b
}

// How many marks the eight words hold.
pub(super) fn count_held(words: &[u64; 8]) -> u16
    ensures { result ≡ size 512 (held words.now) }
{
    words.iter().map(|w| w.count_ones() as u16).sum()
}

// The share of one word; `used` has the marks in use.
pub(super) fn overlap_word(a: u64, b: u64, used: u64) -> Overlap
    ensures { Overlaps 64 (bit used) (bit a) (bit b) result }
{
    Overlap {
        both: (a & b).count_ones() as u16,
        neither: (used & !(a | b)).count_ones() as u16,
        first: (a & !b).count_ones() as u16,
        second: (b & !a).count_ones() as u16,
    }
}
