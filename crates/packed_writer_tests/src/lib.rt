// Packed files as they are written, byte by byte.

#![tactic(auto)]

#[cfg(test)]
mod tests {
    use meter::Meter;
    use packed::PackedFile;
    use packed_writer::{Writer, write_day, write_empty};
    use std::array;
    use std::test::Fail;

    #[test]
    fn a_day(rt: HostRuntime) {
        let mut quarters = [None; 96];
        quarters[0] = Some(1);
        quarters[9] = Some(200_000_000);
        let mut buffer = [238; 24];
        assert_eq!(rt; write_day(&mut buffer, 3, 258, &quarters), Ok(23));
        let file = [
            3, 1, 2, 128, 64, 0, 0, 0, 0, 0, 0, 0, 0, 0, 0, 0, 0, 0, 1, 11, 235, 194, 0, 238,
        ];
        assert_eq!(rt; buffer, file);
    }

    #[test]
    fn no_day(rt: HostRuntime) {
        let mut buffer = [238; 4];
        assert_eq!(rt; write_empty(&mut buffer), 0);
        assert_eq!(rt; buffer, [238; 4]);
    }

    #[test]
    fn days_in_order(rt: HostRuntime) -> Result<(), Fail> {
        let mut quarters = [None; 96];
        let mut buffer = [0; 60];
        let mut w = Writer::new(&mut buffer);
        let empty = w.append_day(0, 5, &quarters);
        quarters[95] = Some(7);
        let first = w.append_day(0, 5, &quarters);
        let again = w.append_day(0, 5, &quarters);
        let no_account = w.append_day(8, 6, &quarters);
        quarters[94] = Some(200_000_001);
        let high = w.append_day(0, 6, &quarters);
        quarters[94] = None;
        let second = w.append_day(1, 0, &quarters);
        let third = w.append_day(1, 1, &quarters);
        let fourth = w.append_day(1, 2, &quarters);
        let len = w.close();
        assert_eq!(rt; first, Ok(()));
        assert_eq!(rt; second, Ok(()));
        assert_eq!(rt; third, Ok(()));
        // number and offset of each refusal, which the rules fix; 35 names no place
        for (told, number, offset) in [
            (empty, 32, 0),
            (again, 31, 19),
            (no_account, 30, 19),
            (high, 34, 19),
            (fourth, 35, 0),
        ] {
            let answer = told.err().ok_or("not refused")?.answer();
            assert_eq!(rt; (answer.number, answer.offset), (number, offset));
        }
        assert_eq!(rt; len, 57);
        Ok(())
    }

    // All 96 quarters and a single one, written and read again.
    #[test]
    fn what_is_written_is_read(rt: HostRuntime) -> Result<(), Fail> {
        let quarters = array::from_fn(|quarter| Some(1_000_000 + u32::try_from(quarter).unwrap()));
        let mut buffer = [0; 500];
        let mut w = Writer::new(&mut buffer);
        let full = w.append_day(2, 4000, &quarters);
        let mut single = [None; 96];
        single[17] = Some(0);
        let one = w.append_day(2, 4001, &single);
        let len = w.close();
        assert_eq!(rt; full, Ok(()));
        assert_eq!(rt; one, Ok(()));
        assert_eq!(rt; len, 418);
        let file = PackedFile::open(&buffer[..len]).map_err(Fail::new)?;
        for ((quarter, of_full), of_single) in (0..96u8).zip(quarters).zip(single) {
            assert_eq!(rt; file.reading(2, 4000, quarter), of_full);
            assert_eq!(rt; file.reading(2, 4001, quarter), of_single);
        }
        assert_eq!(rt; file.reading(2, 4000, 96), None);
        assert_eq!(rt; file.reading(2, 3999, 0), None);
        assert_eq!(rt; file.reading(1, 4000, 0), None);
        Ok(())
    }
}
