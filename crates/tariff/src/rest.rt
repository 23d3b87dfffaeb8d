// What a reader has not read yet.
ghost use Rattle.std.specs.Prelude.{◌≡◌, ◌-◌, ◌<◌, max, length, drop, MatchResult};
ghost use Rattle.marks.specs.declared.refusal.Refusal.TheVariants.{BytesRemain};
ghost use Rattle.tariff.specs.Readings.{text, fault};

use crate::cursor::Reader;
use crate::fault::NumberFault;
use marks::refusal::Refusal;

impl<'a> Reader<'a> {
    // The bytes from the place on.
    pub fn rest(&self) -> &'a [u8]
        ensures { result.now ≡ drop self.now.place (text self.now) }
    {
        let (_, rest) = self.bytes.split_at(self.place);
        rest
    }

    // Goes on to where so many bytes are left; stays where no more are.
    pub fn leave(&mut self, left: usize)
        ensures same { text self.new ≡ text self.old }
        ensures place { self.new.place ≡ max self.old.place (length (text self.old) - left) }
    {
        self.place = self.place.max(self.bytes.len().saturating_sub(left));
    }

    // Refused where bytes are left over, at the first of them.
    pub fn finish(&self) -> Result<(), NumberFault>
        ensures { MatchResult result (λ _. self.now.place ≡ length (text self.now)) (λ f. (self.now.place < length (text self.now)) × (f ≡ fault BytesRemain self.now.place)) }
    {
        if self.place < self.bytes.len() {
            return Err(NumberFault {
                refusal: Refusal::BytesRemain,
                byte: self.place,
            });
        }
        Ok(())
    }
}
