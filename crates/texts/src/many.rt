// Numbers of things as text.
use std::fmt;

// So many of a thing: 1 round, 3 rounds.
#[derive(Clone, Copy)]
pub struct Many(pub usize, pub &'static str);

impl fmt::Display for Many {
    fn fmt<W: fmt::Write>(&self, f: &mut fmt::Formatter<W>) -> fmt::Result {
        let count = self.0;
        let thing = self.1;
        let end = if count == 1 { "" } else { "s" };
        write!(f, "{count} {thing}{end}")
    }
}
