// Bytes and numbers written into a lent buffer, the highest byte first.

#![tactic(auto)]

ghost use Rattle.std.specs.Prelude.{◌≡◌, ◌+◌, ◌≤◌, ℕ, List, length};
ghost use Rattle.lent_bytes.specs.Numbers.{be16, be32, be64, be8};
ghost use Rattle.lent_bytes.specs.Wrote.{spliced, Wrote};

// Writes bytes from a place on. Buffer and place come apart, as in `put`.
fn overwrite(buffer: &mut [u8], at: usize, bytes: &[u8])
    requires { at + length bytes.now ≤ length buffer.old }
    ensures { buffer.new ≡ spliced buffer.old at bytes.now }
{
    let end = at + bytes.len();
    buffer[at..end].copy_from_slice(bytes);
}

// Writes bytes from a place on, and answers the place after them.
// Buffer and place are no cursor: a writer keeps both beside what else it holds, and would make and take apart a cursor at each write.
pub fn put(buffer: &mut [u8], at: usize, bytes: &[u8]) -> usize
    requires { at + length bytes.now ≤ length buffer.old }
    ensures { Wrote buffer.old at bytes.now buffer.new result }
{
    overwrite(buffer, at, bytes);
    at + bytes.len()
}

// A number that is written in so many bytes.
pub trait Number<const WIDTH: usize> {
    // its bytes, the highest first
    ghost bytes: { Self → List ℕ };

    fn to_bytes(self) -> [u8; WIDTH]
        ensures { result ≡ bytes self };
}

impl Number<1> for u8 {
    ghost bytes = { be8 };

    fn to_bytes(self) -> [u8; 1] {
        self.to_be_bytes()
    }
}

impl Number<2> for u16 {
    ghost bytes = { be16 };

    fn to_bytes(self) -> [u8; 2] {
        self.to_be_bytes()
    }
}

impl Number<4> for u32 {
    ghost bytes = { be32 };

    fn to_bytes(self) -> [u8; 4] {
        self.to_be_bytes()
    }
}

impl Number<8> for u64 {
    ghost bytes = { be64 };

    fn to_bytes(self) -> [u8; 8] {
        self.to_be_bytes()
    }
}

// Writes a number from a place on, and answers the place after it. Buffer and place come apart, as in `put`.
pub fn put_number<const WIDTH: usize, T: Number<WIDTH>>(
    buffer: &mut [u8],
    at: usize,
    number: T,
) -> usize
    requires { at + WIDTH ≤ length buffer.old }
    ensures wrote { Wrote buffer.old at (T.bytes number) buffer.new result }
    ensures end { result ≡ at + WIDTH }
{
    put(buffer, at, &number.to_bytes())
}

#[cfg(test)]
mod tests {
    use super::*;

    #[test]
    fn a_number_of_each_width(rt: HostRuntime) {
        let mut buffer = [255; 17];
        let at = put_number(&mut buffer, 1, 0x01u8);
        let at = put_number(&mut buffer, at, 0x0203u16);
        let at = put_number(&mut buffer, at, 0x0405_0607u32);
        let at = put_number(&mut buffer, at, 0x0809_0a0b_0c0d_0e0fu64);
        assert_eq!(rt; at, 16);
        assert_eq!(rt;
            buffer,
            [255, 1, 2, 3, 4, 5, 6, 7, 8, 9, 10, 11, 12, 13, 14, 15, 255]
        );
    }
}
