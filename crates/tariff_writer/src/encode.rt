// What has bytes of its own in a file, and such things one behind the other.
ghost use Rattle.std.specs.Prelude.{◌≡◌, ℕ, ◌+◌, ◌^◌, ◌<◌, ◌≤◌, List, length};
ghost use Rattle.std.specs.List.{flat_map, AllByRecursion};
ghost use Rattle.tariff.specs.Numbers.{encode};
ghost use Rattle.tariff.specs.Writings.{Written};

use tariff::writer::{number_size, write_number};

// A number, a list of marks, a line, or several of these.
pub(crate) trait Encode {
    // the bytes that it is written as
    ghost bytes: { Self → List ℕ };

    // what its type says of it
    ghost whole: { Self → Type 0 };

    // How many bytes it takes.
    fn size(&self) -> usize
        requires { length (bytes self.now) < 2 ^ 64 }
        ensures { result ≡ length (bytes self.now) };

    // Writes it at a place where it has room, and answers the place behind it.
    fn put(&self, out: &mut [u8], place: usize) -> usize
        requires { place + length (bytes self.now) ≤ length out.old }
        ensures written { Written out.old place (bytes self.now) out.new result }
        ensures whole { whole self.now };
}

impl Encode for u16 {
    ghost bytes = { encode };

    ghost whole = { λ _. Unit {0} };

    fn size(&self) -> usize {
        number_size(*self)
    }

    fn put(&self, out: &mut [u8], place: usize) -> usize {
        // it has room, so it is not refused
        write_number(out, place, *self).unwrap()
    }
}

// Things of one kind, one behind the other.
impl<'a, E: Encode> Encode for &'a [E] {
    ghost bytes = { λ items. flat_map E.Encode.bytes items.now };

    ghost whole = { λ items. AllByRecursion E.Encode.whole items.now };

    fn size(&self) -> usize {
        let mut total = 0;
        for item in *self {
            total += item.size();
        }
        total
    }

    fn put(&self, out: &mut [u8], place: usize) -> usize {
        let mut next = place;
        for item in *self {
            next = item.put(out, next);
        }
        next
    }
}
