// Which lines a pass looks at.
ghost use Rattle.std.specs.Prelude.{◌≡◌, ◌≤◌, ℕ, List, length};
ghost use Rattle.lines.specs.Agendas.{Leads, counting};
ghost use Rattle.lines.specs.AllLines.{left_in};

/// The lines that a pass looks at, by their numbers, in the order in which it does.
pub trait Agenda: Drop {
    // the numbers that are left
    ghost names: { Self → List ℕ };

    /// The number of the next line, where there is one.
    fn next(&mut self) -> Option<usize>
        ensures { Leads result (names self.old) (names self.new) };
}

/// All lines of a slice, in their order.
#[derive(Clone, Copy)]
pub struct AllLines {
    from: usize,
    end: usize,
}

impl AllLines {
    /// All these lines.
    pub fn of<L>(lines: &[L]) -> AllLines
        ensures { left_in result ≡ counting 0 (length lines.now) }
    {
        AllLines {
            from: 0,
            end: lines.len(),
        }
    }
}

impl Agenda for AllLines {
    ghost names = { left_in };

    fn next(&mut self) -> Option<usize> {
        if self.from >= self.end {
            return None;
        }
        let line = self.from;
        self.from += 1;
        Some(line)
    }
}
