// What a tariff file opens with.

// The width, and how many fare and term lines there are.
#[derive(Clone, Copy, Debug, Default, PartialEq)]
pub struct Counts {
    pub width: u16,
    pub fares: u16,
    pub terms: u16,
}
