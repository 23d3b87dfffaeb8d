// The examples of docs/HOST.md: an output that held AA in each byte, and what the call leaves in it.
ghost use Rattle.std.specs.Prelude.{◌≤◌, length};

use host::call::fare_settle;

const SAMPLE: [u8; 21] =
    *b"\x05\x02\x02\x01\x01\x03\x01\x02\x04\x01\x03\x01\x01\x01\x02\x01\x00\x02\x02\x01\x02";

// Whether the call answers so and leaves these bytes in the output.
fn gives(file: &[u8], facts: &[u8], out: &mut [u8], answer: u32, bytes: &[u8]) -> bool {
    let answered = fare_settle(file, facts, out);
    answered == answer && &*out == bytes
}

// The same for an output that is as long as these bytes.
fn leaves(file: &[u8], facts: &[u8], answer: u32, bytes: &[u8]) -> bool
    requires { length bytes.now ≤ 7 }
{
    let mut held = [0xAA; 7];
    gives(file, facts, &mut held[..bytes.len()], answer, bytes)
}

#[test]
fn settled(rt: HostRuntime) {
    assert!(rt; leaves(&SAMPLE, &[0], 0, &[0, 0, 0, 0, 0, 0xAA, 0xAA]));
    assert!(rt; leaves(&SAMPLE, &[1, 3], 0, &[0, 1, 0, 1, 0, 0xAA, 0xAA]));
    assert!(rt; leaves(&SAMPLE, &[2, 0, 3], 0, &[1, 0, 1, 1, 1, 0xAA, 0xAA]));
    assert!(rt; leaves(&SAMPLE, &[2, 0, 1], 2, &[3, 3, 3, 3, 3, 0xAA, 0xAA]));
    assert!(rt; leaves(&SAMPLE, &[1, 3], 0, &[0, 1, 0, 1, 0]));
}

#[test]
fn refused(rt: HostRuntime) {
    assert!(rt; leaves(&SAMPLE, &[2], 101, &[0xAA; 5]));
    assert!(rt; leaves(&SAMPLE, &[0x80, 0], 102, &[0xAA; 5]));
    assert!(rt; leaves(&SAMPLE, &[1, 5], 103, &[0xAA; 5]));
    assert!(rt; leaves(&SAMPLE, &[2, 3, 3], 104, &[0xAA; 5]));
    assert!(rt; leaves(&SAMPLE, &[1, 3, 0], 106, &[0xAA; 5]));
    assert!(rt; leaves(&SAMPLE, &[1, 3], 113, &[0xAA; 4]));
}

// The file is tested first; a tariff that contradicts itself is not refused.
#[test]
fn other_files(rt: HostRuntime) {
    assert!(rt; leaves(&SAMPLE[..20], &[0x80, 0], 101, &[0xAA]));
    let denied = [3, 1, 1, 1, 0, 1, 2, 2, 0];
    assert!(rt; leaves(&denied, &[1, 0], 2, &[1, 1, 1, 0xAA]));
}
