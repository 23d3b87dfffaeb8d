// Reading numbers.
ghost use Rattle.std.specs.Prelude.{◌≡◌, ◌+◌, ◌^◌, ◌<◌, ◌≤◌, length, IfOk};
ghost use Rattle.tariff.specs.Readings.{decode, tested, number_at, text, placed, Stays};
ghost use Rattle.tariff.specs.Faults.{NumberAnswer};

use crate::cursor::Reader;
use crate::fault::NumberFault;
use marks::refusal::Refusal;

// The number at the front of the bytes, and how many bytes it takes.
fn front(bytes: &[u8]) -> Result<(u16, usize), Refusal>
    ensures value { result ≡ decode bytes.now }
    ensures within { IfOk result (λ x. x.1 ≤ length bytes.now) }
{
    match bytes {
        [a, ..] if *a < 128 => Ok((*a as u16, 1)),
        [_, 0, ..] => Err(Refusal::Malformed),
        [a, b, ..] if *b < 128 => Ok((*a as u16 - 128 + 128 * *b as u16, 2)),
        [_, _, 0, ..] => Err(Refusal::Malformed),
        [a, b, c, ..] if *c < 4 => Ok((
            *a as u16 - 128 + 128 * (*b as u16 - 128) + 16384 * *c as u16,
            3,
        )),
        [_, _, _, ..] => Err(Refusal::Malformed),
        _ => Err(Refusal::BytesEnd),
    }
}

// What a number must lie between, and what it must not lie below.
#[derive(Clone, Copy)]
struct Limits {
    low: u16,
    high: u16,
    least: u16,
}

// The number at the front of what is left from `byte` on, with all its tests, and the place behind it.
fn judged(rest: &[u8], byte: usize, limits: Limits) -> Result<(u16, usize), NumberFault>
    requires { byte + length rest.now < 2 ^ 64 }
    ensures value { result ≡ tested limits.low limits.high limits.least byte (decode rest.now) }
    ensures within { IfOk result (λ x. x.1 ≤ byte + length rest.now) }
{
    let fault = |refusal| NumberFault { refusal, byte };
    let (n, taken) = front(rest).map_err(fault)?;
    if n < limits.low || n > limits.high {
        return Err(fault(Refusal::OutsideLimit));
    }
    if n < limits.least {
        return Err(fault(Refusal::NotAscending));
    }
    Ok((n, byte + taken))
}

// The number at a place, with all its tests, and the place behind it.
fn number_at(bytes: &[u8], place: usize, limits: Limits) -> Result<(u16, usize), NumberFault>
    requires { place ≤ length bytes.now }
    ensures value { result ≡ number_at limits.low limits.high limits.least bytes.now place }
    ensures within { IfOk result (λ x. x.1 ≤ length bytes.now) }
    ensures says { NumberAnswer limits.low limits.high limits.least bytes.now place result }
{
    judged(&bytes[place..], place, limits)
}

impl Reader<'_> {
    // Reads the number that starts at the place, which must lie from `low` to `high`, and goes behind it. Refused: it
    // stays where it is.
    pub fn number(&mut self, low: u16, high: u16) -> Result<u16, NumberFault>
        ensures same { text self.new ≡ text self.old }
        ensures value { placed result self.new.place ≡ number_at low high 0 (text self.old) self.old.place }
        ensures stays { Stays result self.old.place self.new.place }
        ensures says { NumberAnswer low high 0 (text self.old) self.old.place (placed result self.new.place) }
    {
        self.step(low, high, 0)
    }

    // The same for a number in a list, which must not lie below `least`: behind a mark, the mark and 1.
    pub fn step(&mut self, low: u16, high: u16, least: u16) -> Result<u16, NumberFault>
        ensures same { text self.new ≡ text self.old }
        ensures value { placed result self.new.place ≡ number_at low high least (text self.old) self.old.place }
        ensures stays { Stays result self.old.place self.new.place }
        ensures says { NumberAnswer low high least (text self.old) self.old.place (placed result self.new.place) }
    {
        let limits = Limits { low, high, least };
        let (n, next) = number_at(self.bytes, self.place, limits)?;
        self.place = next;
        Ok(n)
    }
}
