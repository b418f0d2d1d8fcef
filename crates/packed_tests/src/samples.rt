// A file of three records, which begin at the bytes 0, 23 and 42.

pub const SAMPLE: [u8; 61] = [
    // account 0, day 5: quarter 0 has 1,000 W, quarter 9 has 200,000,000 W
    0, 0, 5, 0x80, 0x40, 0, 0, 0, 0, 0, 0, 0, 0, 0, 0, 0, 0, 0x03, 0xe8, 0x0b, 0xeb, 0xc2, 0x00,
    // account 0, day 261: quarter 95 has 7 W
    0, 1, 5, 0, 0, 0, 0, 0, 0, 0, 0, 0, 0, 0, 0x01, 0, 0, 0, 7,
    // account 3, day 1: quarter 0 has 0 W
    3, 0, 1, 0x80, 0, 0, 0, 0, 0, 0, 0, 0, 0, 0, 0, 0, 0, 0, 0,
];
