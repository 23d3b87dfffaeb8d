// A list of marks in a file.
ghost use Rattle.tariff_format.specs.Encoding.{list_bytes};
ghost use Rattle.tariff_format.specs.Tariffs.{WholeList};

use crate::encode::Encode;
use lines::list::MarkList;

// The count, then the marks in the used places.
impl Encode for MarkList {
    ghost bytes = { list_bytes };

    ghost whole = { WholeList };

    fn size(&self) -> usize {
        (self.count as u16, self.used()).size()
    }

    fn put(&self, out: &mut [u8], place: usize) -> usize {
        (self.count as u16, self.used()).put(out, place)
    }
}
