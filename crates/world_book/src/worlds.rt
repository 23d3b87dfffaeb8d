// Worlds one by one: which hold a set, and what those have in common.
ghost use Rattle.std.specs.Prelude.{◌≡◌, map, Decides};
ghost use Rattle.marks.specs.MarkSets.{marks_of, IsSet};
ghost use Rattle.books.specs.Closing.{ClosedTo};
ghost use Rattle.world_book.specs.Worlds.{AllOfWidth, lies_within, kept, world_book};

use books::whole::give_all;
use marks::set::MarkSet;

// Whether all worlds have the width.
pub(crate) fn all_of_width(worlds: &[MarkSet], width: u16) -> bool
    ensures { Decides result (AllOfWidth width worlds.now) }
{
    worlds.iter().all(|world| world.width() == width)
}

// Whether the world holds the set: whether the set lies within it.
fn holds(world: &MarkSet, set: &MarkSet) -> bool
    requires { world.now.width ≡ set.now.width }
    ensures { result ≡ lies_within set.now.width (marks_of set.now) (marks_of world.now) }
{
    set.is_subset(world).unwrap_or(false)
}

// Keeps of `common` what the world has too, if the world holds the set; says whether it does.
fn keep_world(world: &MarkSet, set: &MarkSet, common: &mut MarkSet) -> bool
    requires world { world.now.width ≡ set.now.width }
    requires common { common.old.width ≡ set.now.width }
    ensures holds { result ≡ lies_within set.now.width (marks_of set.now) (marks_of world.now) }
    ensures keeps { IsSet common.new common.old.width (kept result (marks_of world.now) (marks_of common.old)) }
{
    let held = holds(world, set);
    if held {
        let _ = common.intersect_with(world);
    }
    held
}

// Looks at each world once: turns the set into the marks common to those that hold it, all marks where none does, and says whether
// none does.
pub(crate) fn common_marks(worlds: &[MarkSet], set: &mut MarkSet) -> bool
    requires { AllOfWidth set.old.width worlds.now }
    ensures { ClosedTo (world_book set.old.width (map marks_of worlds.now)) set.old set.new result }
{
    let given = *set;
    give_all(true, set);
    let mut none = true;
    for world in worlds {
        none &= !keep_world(world, &given, set);
    }
    none
}
