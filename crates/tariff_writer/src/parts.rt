// Two things one behind the other, and things that are lent.
ghost use Rattle.std.specs.Prelude.{◌++◌};

use crate::encode::Encode;

// The first, then the second; three things are the first and the other two.
impl<A: Encode, B: Encode> Encode for (A, B) {
    ghost bytes = { λ both. A.Encode.bytes both.0 ++ B.Encode.bytes both.1 };

    ghost whole = { λ both. A.Encode.whole both.0 × B.Encode.whole both.1 };

    fn size(&self) -> usize {
        self.0.size() + self.1.size()
    }

    fn put(&self, out: &mut [u8], place: usize) -> usize {
        let place = self.0.put(out, place);
        self.1.put(out, place)
    }
}

// What is lent has the bytes of the thing itself.
impl<'a, E: Encode> Encode for &'a E {
    ghost bytes = { λ lent. E.Encode.bytes lent.now };

    ghost whole = { λ lent. E.Encode.whole lent.now };

    fn size(&self) -> usize {
        (**self).size()
    }

    fn put(&self, out: &mut [u8], place: usize) -> usize {
        (**self).put(out, place)
    }
}
