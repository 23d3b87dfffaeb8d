// The calls on a sheet whose lines and book are settled on beforehand.
use readings::method::Method;

#[derive(Clone, Copy, Debug, PartialEq, Eq)]
pub enum Call {
    // makes the mark stand as a fact
    Enter(u16),
    // ends that
    Strike(u16),
    // finds the least reading of the facts by the method
    Settle(Method),
    // asks what that reading says of the mark
    Ask(u16),
}
