// The sample spoilt: each refusal, with the record that it names.

use crate::samples::SAMPLE;
use packed::PackedFile;
use std::test::Fail;

// The number and the byte by which bytes are refused, or nothing where they are opened.
// A refusal stands by its number, which the rules fix.
fn refused(bytes: &[u8]) -> Option<(u8, usize)> {
    let answer = PackedFile::open(bytes).err()?.answer();
    Some((answer.number, answer.offset))
}

// A byte of the sample, what it is changed to, and the number and the record's first byte by which the file is then refused.
const SPOILT: [(usize, u8, u8, usize); 14] = [
    // account 8
    (0, 8, 30, 0),
    (23, 8, 30, 23),
    (42, 8, 30, 42),
    // a day above 10,957
    (1, 43, 30, 0),
    (43, 43, 30, 42),
    // the day of the record before, and an account before it
    (24, 0, 31, 23),
    (42, 0, 31, 42),
    // no bit stands
    (37, 0, 32, 23),
    (45, 0, 32, 42),
    // one bit more: the next record would begin in the map of the one that does, before it in order; or the readings pass the end
    (36, 1, 31, 46),
    (46, 1, 33, 42),
    // one watt above the limit, and far above it
    (22, 1, 34, 0),
    (38, 255, 34, 23),
    (57, 255, 34, 42),
];

#[test]
fn spoilt_bytes_are_refused(rt: HostRuntime) -> Result<(), Fail> {
    for (at, byte, number, offset) in SPOILT {
        let mut bytes = SAMPLE;
        *bytes.get_mut(at).ok_or("beyond the sample")? = byte;
        assert_eq!(rt; refused(&bytes), Some((number, offset)));
    }
    Ok(())
}

// The sample cut at every length: lawful where a record ends, else in the head or in the readings of the record that was cut.
#[test]
fn every_cut_is_told(rt: HostRuntime) {
    for len in 0..62 {
        let begins = match len {
            0..=22 => 0,
            23..=41 => 23,
            42..=60 => 42,
            _ => 61,
        };
        let told = match len - begins {
            0 => None,
            1..=14 => Some((29, begins)),
            _ => Some((33, begins)),
        };
        assert_eq!(rt; refused(&SAMPLE[..len]), told);
    }
}
