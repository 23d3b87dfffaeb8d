// A set of marks: a width, and the marks below it that the set holds.
ghost use Rattle.std.specs.Prelude.{◌≡◌, ◌≤◌};
ghost use Rattle.marks.specs.Sets.{OfWidth};
ghost use Rattle.marks.specs.Words.{held};

mod looks;
mod ops;
mod words;

// The mark m is the bit m % 64 of the word m / 64. No value of this type holds a mark at or above its width.
#[derive(Clone, Copy)]
pub struct MarkSet {
    width: u16,
    words: [u64; 8],
    ghost some: { 1 ≤ width },
    ghost few: { width ≤ 512 },
    ghost inside: { OfWidth width (held words) },
}

impl MarkSet {
    pub fn width(&self) -> u16
        ensures { result ≡ self.now.width }
    {
        self.width
    }
}
