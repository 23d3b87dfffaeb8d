// How the marks of a width are shared out between two sets.

// How many lie in both sets, in neither, in the first alone and in the second alone.
#[derive(Clone, Copy, Debug, PartialEq)]
pub struct Overlap {
    pub both: u16,
    pub neither: u16,
    pub first: u16,
    pub second: u16,
}
