// What a world book holds.
ghost use Rattle.std.specs.Prelude.{◌≤◌, length};
ghost use Rattle.world_book.specs.Worlds.{AllOfWidth};

use books::table::Table;
use marks::set::MarkSet;

pub mod terms;

// The most worlds that a book may have.
pub const MOST_WORLDS: usize = 64;

// Its worlds, all of its width.
#[derive(Drop)]
pub struct WorldBook {
    width: u16,
    worlds: Table<MarkSet, MOST_WORLDS>,
    ghost few: { length worlds ≤ 64 },
    ghost widths: { AllOfWidth width worlds },
}
