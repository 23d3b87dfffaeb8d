// Facts strings.
ghost use Rattle.std.specs.Prelude.{◌≡◌, ◌+◌, ◌-◌, ◌*◌, ◌<◌, ◌≤◌, length, IfOk, Ok, Err, MatchResult};
ghost use Rattle.std.specs.List.{flat_map};
ghost use Rattle.marks.specs.MarkSets.{marks_of, IsSet, Unchanged};
ghost use Rattle.marks.specs.Sets.{no_marks, with_mark, size};
ghost use Rattle.tariff.specs.Facts.{members, facts_bytes, adding, facts_at, filled, FactsAre, FactsFault, FactsRead};
ghost use Rattle.tariff.specs.Lists.{marks_at};
ghost use Rattle.tariff.specs.Numbers.{encode};
ghost use Rattle.tariff.specs.Readings.{text, placed, mapped, number_at};
ghost use Rattle.tariff.specs.Writings.{Written, Writes};

use crate::cursor::Reader;
use crate::fault::NumberFault;
use crate::writer::{number_size, put_number};
use marks::refusal::Refusal;
use marks::set::MarkSet;

// Reads the next mark of a list into the set. It must not lie below `least`.
fn read_mark(reader: &mut Reader, set: &mut MarkSet, least: u16) -> Result<u16, NumberFault>
    ensures same { text reader.new ≡ text reader.old }
    ensures value { placed result reader.new.place ≡ number_at 0 (set.old.width - 1) least (text reader.old) reader.old.place }
    ensures set { MatchResult result (λ m. (m < set.old.width) × IsSet set.new set.old.width (with_mark (marks_of set.old) m)) (λ _. Unchanged set.old set.new) }
{
    let m = reader.step(0, set.width() - 1, least)?;
    // it lies below the width, so the set takes it
    let _ = set.insert(m);
    Ok(m)
}

// Reads so many marks into the set.
fn read_marks(reader: &mut Reader, set: &mut MarkSet, count: u16) -> Result<(), NumberFault>
    ensures same { text reader.new ≡ text reader.old }
    ensures width { set.new.width ≡ set.old.width }
    ensures value { filled result (marks_of set.new) reader.new.place ≡ mapped (adding (marks_of set.old)) (marks_at set.old.width (text reader.old) count 0 reader.old.place) }
{
    let mut least = 0;
    for _ in 0..count {
        let m = read_mark(reader, set, least)?;
        least = m + 1;
    }
    Ok(())
}

// Reads a whole facts string into the set, which holds no mark yet.
fn read_string(bytes: &[u8], set: &mut MarkSet) -> Result<(), NumberFault>
    requires { marks_of set.old ≡ no_marks }
    ensures width { set.new.width ≡ set.old.width }
    ensures value { filled result (marks_of set.new) (length bytes.now) ≡ facts_at set.old.width bytes.now }
{
    let mut reader = Reader::new(bytes);
    let count = reader.number(0, 512)?;
    read_marks(&mut reader, set, count)?;
    reader.finish()
}

// The set that the bytes are the facts string of, with the width of the old one.
fn facts_of(bytes: &[u8], old: &MarkSet) -> Result<MarkSet, NumberFault>
    ensures width { IfOk result (λ s. s.width ≡ old.now.width) }
    ensures value { MatchResult result (λ s. Ok (marks_of s, length bytes.now) ≡ facts_at old.now.width bytes.now) (λ f. Err f ≡ facts_at old.now.width bytes.now) }
    ensures says { MatchResult result (λ s. FactsAre old.now.width bytes.now (marks_of s)) (λ f. FactsFault old.now.width bytes.now f) }
{
    let Ok(mut set) = MarkSet::empty(old.width()) else {
        unreachable()
    };
    read_string(bytes, &mut set)?;
    Ok(set)
}

// Reads a facts string into the set: it then holds exactly the string's marks, and keeps its width. Refused: the set is
// what it was.
pub fn read_facts(bytes: &[u8], facts: &mut MarkSet) -> Result<(), NumberFault>
    ensures value { filled result (marks_of facts.new) (length bytes.now) ≡ facts_at facts.old.width bytes.now }
    ensures says { FactsRead bytes.now facts.old facts.new result }
{
    match facts_of(bytes, facts) {
        Ok(read) => {
            *facts = read;
            Ok(())
        }
        Err(fault) => Err(fault),
    }
}

// How many bytes the marks of the set take.
fn marks_size(facts: &MarkSet) -> usize
    ensures exact { result ≡ length (flat_map encode (members facts.now.width (marks_of facts.now))) }
    ensures few { result ≤ 3 * facts.now.width }
{
    let mut total = 0;
    let mut at = 0;
    while let Some(m) = facts.next(at) {
        total += number_size(m);
        at = m + 1;
    }
    total
}

// How many bytes the facts string of the set takes.
fn facts_size(facts: &MarkSet) -> usize
    ensures { result ≡ length (facts_bytes facts.now.width (marks_of facts.now)) }
{
    number_size(facts.count()) + marks_size(facts)
}

// Writes the marks of the set, ascending, from a place on where they have room, and answers the place behind them.
fn put_marks(out: &mut [u8], place: usize, facts: &MarkSet) -> usize
    requires { place + length (flat_map encode (members facts.now.width (marks_of facts.now))) ≤ length out.old }
    ensures { Written out.old place (flat_map encode (members facts.now.width (marks_of facts.now))) out.new result }
{
    let mut end = place;
    let mut at = 0;
    while let Some(m) = facts.next(at) {
        end = put_number(out, end, m);
        at = m + 1;
    }
    end
}

// Writes the facts string of the set, which holds `count` marks, where it has room, and answers its length.
fn put_facts(out: &mut [u8], count: u16, facts: &MarkSet) -> usize
    requires count { count ≡ size facts.now.width (marks_of facts.now) }
    requires room { length (facts_bytes facts.now.width (marks_of facts.now)) ≤ length out.old }
    ensures { Written out.old 0 (facts_bytes facts.now.width (marks_of facts.now)) out.new result }
{
    let place = put_number(out, 0, count);
    put_marks(out, place, facts)
}

// Writes the facts string of the set at the start of the bytes and answers its length; the bytes behind it stay. Refused
// where it has no room: no byte is changed.
pub fn write_facts(facts: &MarkSet, out: &mut [u8]) -> Result<usize, Refusal>
    ensures { Writes out.old 0 (facts_bytes facts.now.width (marks_of facts.now)) out.new result }
{
    if out.len() < facts_size(facts) {
        return Err(Refusal::OutputShort);
    }
    Ok(put_facts(out, facts.count(), facts))
}
