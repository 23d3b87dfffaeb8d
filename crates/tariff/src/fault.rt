// What is said of bytes that are refused.
use marks::refusal::Refusal;

// A number that is refused, and the byte where it starts.
#[derive(Clone, Copy, Debug, PartialEq)]
pub struct NumberFault {
    pub refusal: Refusal,
    pub byte: usize,
}
