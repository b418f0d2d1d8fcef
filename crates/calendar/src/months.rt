// The months from January 2015, month 0, to December 2044, month 359.
ghost use Rattle.std.specs.Prelude.{◌≡◌, ◌+◌, ◌≤◌, true, length, if◌then◌else◌, Some, None, IsAscii, nat_le};
ghost use Rattle.calendar.specs.Months.{leap, year_of, calendar_month, month_length, first_day, ruled};
ghost use Rattle.calendar.specs.Texts.{Reads, month_text};
ghost use Rattle.std.specs.Option.{option_map};

use super::days::Day;
use super::digits::{ascii, read_four, read_two, two_digits};
use std::fmt;

// The first day of each month.
const FIRST_DAYS: [u16; 360] = [
    0, 31, 59, 90, 120, 151, 181, 212, 243, 273, 304, 334, 365, 396, 425, 456, 486, 517, 547, 578,
    609, 639, 670, 700, 731, 762, 790, 821, 851, 882, 912, 943, 974, 1004, 1035, 1065, 1096, 1127,
    1155, 1186, 1216, 1247, 1277, 1308, 1339, 1369, 1400, 1430, 1461, 1492, 1520, 1551, 1581, 1612,
    1642, 1673, 1704, 1734, 1765, 1795, 1826, 1857, 1886, 1917, 1947, 1978, 2008, 2039, 2070, 2100,
    2131, 2161, 2192, 2223, 2251, 2282, 2312, 2343, 2373, 2404, 2435, 2465, 2496, 2526, 2557, 2588,
    2616, 2647, 2677, 2708, 2738, 2769, 2800, 2830, 2861, 2891, 2922, 2953, 2981, 3012, 3042, 3073,
    3103, 3134, 3165, 3195, 3226, 3256, 3287, 3318, 3347, 3378, 3408, 3439, 3469, 3500, 3531, 3561,
    3592, 3622, 3653, 3684, 3712, 3743, 3773, 3804, 3834, 3865, 3896, 3926, 3957, 3987, 4018, 4049,
    4077, 4108, 4138, 4169, 4199, 4230, 4261, 4291, 4322, 4352, 4383, 4414, 4442, 4473, 4503, 4534,
    4564, 4595, 4626, 4656, 4687, 4717, 4748, 4779, 4808, 4839, 4869, 4900, 4930, 4961, 4992, 5022,
    5053, 5083, 5114, 5145, 5173, 5204, 5234, 5265, 5295, 5326, 5357, 5387, 5418, 5448, 5479, 5510,
    5538, 5569, 5599, 5630, 5660, 5691, 5722, 5752, 5783, 5813, 5844, 5875, 5903, 5934, 5964, 5995,
    6025, 6056, 6087, 6117, 6148, 6178, 6209, 6240, 6269, 6300, 6330, 6361, 6391, 6422, 6453, 6483,
    6514, 6544, 6575, 6606, 6634, 6665, 6695, 6726, 6756, 6787, 6818, 6848, 6879, 6909, 6940, 6971,
    6999, 7030, 7060, 7091, 7121, 7152, 7183, 7213, 7244, 7274, 7305, 7336, 7364, 7395, 7425, 7456,
    7486, 7517, 7548, 7578, 7609, 7639, 7670, 7701, 7730, 7761, 7791, 7822, 7852, 7883, 7914, 7944,
    7975, 8005, 8036, 8067, 8095, 8126, 8156, 8187, 8217, 8248, 8279, 8309, 8340, 8370, 8401, 8432,
    8460, 8491, 8521, 8552, 8582, 8613, 8644, 8674, 8705, 8735, 8766, 8797, 8825, 8856, 8886, 8917,
    8947, 8978, 9009, 9039, 9070, 9100, 9131, 9162, 9191, 9222, 9252, 9283, 9313, 9344, 9375, 9405,
    9436, 9466, 9497, 9528, 9556, 9587, 9617, 9648, 9678, 9709, 9740, 9770, 9801, 9831, 9862, 9893,
    9921, 9952, 9982, 10013, 10043, 10074, 10105, 10135, 10166, 10196, 10227, 10258, 10286, 10317,
    10347, 10378, 10408, 10439, 10470, 10500, 10531, 10561, 10592, 10623, 10652, 10683, 10713,
    10744, 10774, 10805, 10836, 10866, 10897, 10927,
];

#[derive(Clone, Copy, PartialEq, Eq, Debug)]
pub struct Month {
    pub(crate) number: u16,
    ghost within: { number ≤ 359 },
}

// The table, which passes the test of its rule.
pub(crate) fn first_days() -> &'static [u16; 360]
    ensures rule { ruled result.now ≡ true }
    ensures count { length result.now ≡ 360 }
{
    &FIRST_DAYS
}

fn is_leap(year: u16) -> bool
    ensures { result ≡ leap year }
{
    year % 4 == 0 && (year % 100 != 0 || year % 400 == 0)
}

impl Month {
    pub const LAST: u16 = 359;

    // `new`, `number`, `read` and `text` are as a day's, for the reasons that stand there.
    pub fn new(number: u16) -> Option<Month>
        ensures { option_map (λ m. m.number) result ≡ (if nat_le number 359 then Some number else None) }
    {
        if number <= Self::LAST {
            Some(Month { number })
        } else {
            None
        }
    }

    pub fn number(self) -> u16
        ensures { result ≡ self.number }
    {
        self.number
    }

    pub fn year(self) -> u16
        ensures { result ≡ year_of self.number }
    {
        2015 + self.number / 12
    }

    // 1 for January to 12 for December.
    pub fn calendar_month(self) -> u8
        ensures { result ≡ calendar_month self.number }
    {
        // `as`, as in `Day::month`
        (self.number % 12) as u8 + 1
    }

    // How many days the month has.
    pub fn length(self) -> u16
        ensures { result ≡ month_length self.number }
    {
        match self.calendar_month() {
            2 if is_leap(self.year()) => 29,
            2 => 28,
            4 | 6 | 9 | 11 => 30,
            _ => 31,
        }
    }

    // The first of its days, all of which are in the calendar.
    #[tactic(auto, using(crate::proofs::Table::entry, crate::proofs::Laws::month_inside, crate::proofs::Laws::month_length_range))]
    pub fn first_day(self) -> Day
        ensures value { result.number ≡ first_day self.number }
        ensures inside { result.number + month_length self.number ≤ 10958 }
    {
        Day {
            number: first_days()[usize::from(self.number)],
        }
    }

    // The month as 2026-02.
    pub fn text(self) -> [u8; 7]
        ensures value { result ≡ month_text self.number }
        ensures ascii { IsAscii result }
    {
        let year = self.year();
        // `as`, twice, as in `Day::month`
        let [a, b] = two_digits((year / 100) as u8);
        let [c, d] = two_digits((year % 100) as u8);
        let [e, f] = two_digits(self.calendar_month());
        [a, b, c, d, b'-', e, f]
    }

    // The month that has this text, and no other text is read.
    pub fn read(text: &[u8]) -> Option<Month>
        ensures { Reads month_text 359 text.now (option_map (λ m. m.number) result) }
    {
        let &[a, b, c, d, b'-', e, f] = text else {
            return None;
        };
        let year = read_four(a, b, c, d)?;
        let month = read_two(e, f)?;
        match (year, month) {
            (2015..=2044, 1..=12) => Some(Month {
                number: 12 * (year - 2015) + u16::from(month) - 1,
            }),
            _ => None,
        }
    }
}

impl fmt::Display for Month {
    ghost output = { λ m. Some (month_text m.number) };

    fn fmt<W: fmt::Write>(&self, f: &mut fmt::Formatter<W>) -> fmt::Result {
        f.pad(ascii(&self.text()))
    }
}
