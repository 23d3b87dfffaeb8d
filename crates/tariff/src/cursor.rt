// A place in the caller's bytes.
ghost use Rattle.std.specs.Prelude.{◌≡◌, ◌≤◌, length};

// Reads the caller's bytes where they lie. The place is the byte where the next number starts, or the end.
#[derive(Drop)]
pub struct Reader<'a> {
    pub(crate) bytes: &'a [u8],
    pub(crate) place: usize,
    ghost within: { place ≤ length bytes.now },
}

impl<'a> Reader<'a> {
    // A reader that stands at the first byte.
    pub fn new(bytes: &'a [u8]) -> Reader<'a>
        ensures bytes { result.bytes.now ≡ bytes.now }
        ensures place { result.place ≡ 0 }
    {
        Reader { bytes, place: 0 }
    }

    // The byte where the next number starts, or the end.
    pub fn place(&self) -> usize
        ensures { result ≡ self.now.place }
    {
        self.place
    }
}
