// What is said of a trip: its facts, and a set and its closure.
use crate::listed::{Braced, Listed};
use marks::set::MarkSet;
use std::fmt;

// The facts of a trip: no facts, fact 3, facts 0, 3.
#[derive(Clone, Copy)]
pub struct Facts<'a>(pub &'a MarkSet);

impl fmt::Display for Facts<'_> {
    fn fmt<W: fmt::Write>(&self, f: &mut fmt::Formatter<W>) -> fmt::Result {
        let marks = Listed(self.0, ", ");
        match self.0.count() {
            0 => write!(f, "no facts"),
            1 => write!(f, "fact {marks}"),
            _ => write!(f, "facts {marks}"),
        }
    }
}

// A set, its closure under the terms of a tariff, and whether they clash at it.
#[derive(Clone, Copy)]
pub struct Closed {
    pub given: MarkSet,
    pub closure: MarkSet,
    pub clash: bool,
}

impl fmt::Display for Closed {
    fn fmt<W: fmt::Write>(&self, f: &mut fmt::Formatter<W>) -> fmt::Result {
        let from = Braced(&self.given);
        let to = Braced(&self.closure);
        let how = if self.clash {
            "and clashes"
        } else {
            "without a clash"
        };
        write!(f, "{from} closes to {to} {how}")
    }
}
