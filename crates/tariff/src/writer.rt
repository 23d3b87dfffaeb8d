// Writing numbers.
ghost use Rattle.std.specs.Prelude.{◌≡◌, ◌+◌, ◌≤◌, length};
ghost use Rattle.tariff.specs.Numbers.{encode};
ghost use Rattle.tariff.specs.Writings.{Written, Writes};

use marks::refusal::Refusal;

// How many bytes `n` takes.
pub fn number_size(n: u16) -> usize
    ensures exact { result ≡ length (encode n) }
    ensures few { result ≤ 3 }
{
    if n < 128 {
        1
    } else if n < 16384 {
        2
    } else {
        3
    }
}

// Writes bytes at a place where they have room, and answers the place behind them.
fn put_bytes(out: &mut [u8], place: usize, bytes: &[u8]) -> usize
    requires { place + length bytes.now ≤ length out.old }
    ensures { Written out.old place bytes.now out.new result }
{
    let end = place + bytes.len();
    out[place..end].copy_from_slice(bytes);
    end
}

// Writes `n` at a place where it has room, and answers the place behind it.
pub(crate) fn put_number(out: &mut [u8], place: usize, n: u16) -> usize
    requires { place + length (encode n) ≤ length out.old }
    ensures { Written out.old place (encode n) out.new result }
{
    if n < 128 {
        put_bytes(out, place, &[n as u8])
    } else if n < 16384 {
        put_bytes(out, place, &[(n % 128) as u8 + 128, (n / 128) as u8])
    } else {
        put_bytes(
            out,
            place,
            &[
                (n % 128) as u8 + 128,
                (n / 128 % 128) as u8 + 128,
                (n / 16384) as u8,
            ],
        )
    }
}

// Writes `n` at a place and answers the place behind it. Refused where it has no room: no byte is changed.
pub fn write_number(out: &mut [u8], place: usize, n: u16) -> Result<usize, Refusal>
    ensures { Writes out.old place (encode n) out.new result }
{
    if out.len() < place || out.len() - place < number_size(n) {
        return Err(Refusal::OutputShort);
    }
    Ok(put_number(out, place, n))
}
