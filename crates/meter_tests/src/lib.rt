// Tables, groups and windows on a few days.

#![tactic(auto)]

#[cfg(test)]
mod tests {
    use meter::{Group, GroupMeter, Layout, MARK, Meter, Table};
    use programme::{Economic, Reliable};
    use refusal::Refusal;
    use short_list::Short;
    use std::test::Fail;
    use window::{Window, baseline, window_figure};

    // Two accounts and a group, days 100 and 101.
    const LAYOUT: Layout = Layout {
        accounts: 3,
        first_day: 100,
        days: 2,
    };

    // The refusal, if there is one, by its number, which the rules fix.
    fn refused<T: Drop>(answer: Result<T, Refusal>) -> Option<u8> {
        answer.err().map(|refusal| refusal.number())
    }

    #[test]
    fn a_table_must_fit_its_memory(rt: HostRuntime) {
        let mut memory = [7; 576];
        {
            let mut table = Table::new(&mut memory);
            assert_eq!(rt;
                refused(table.lay_out(Layout { days: 3, ..LAYOUT })),
                Some(26)
            );
            assert_eq!(rt;
                refused(table.lay_out(Layout {
                    accounts: 0,
                    ..LAYOUT
                })),
                Some(26)
            );
            assert_eq!(rt;
                refused(table.lay_out(Layout {
                    first_day: 10_957,
                    ..LAYOUT
                })),
                Some(26)
            );
            assert_eq!(rt; table.reading(0, 100, 0), None);
        }
        assert_eq!(rt; memory[0], 7);
        {
            let mut table = Table::new(&mut memory);
            assert_eq!(rt;
                table.lay_out(Layout {
                    first_day: 10_956,
                    ..LAYOUT
                }),
                Ok(())
            );
            assert_eq!(rt; table.reading(0, 10_957, 95), None);
        }
        assert_eq!(rt; memory[575], MARK);
    }

    #[test]
    fn a_filed_day_reads_as_filed(rt: HostRuntime) {
        let mut memory = [0; 576];
        let mut table = Table::new(&mut memory);
        assert_eq!(rt; table.lay_out(LAYOUT), Ok(()));
        let mut day = [1500; 96];
        day[3] = MARK;
        assert_eq!(rt; table.file_day(1, 101, &day), Ok(()));
        assert_eq!(rt; table.reading(1, 101, 2), Some(1500));
        assert_eq!(rt; table.reading(1, 101, 3), None);
        assert_eq!(rt; table.reading(1, 101, 96), None);
        assert_eq!(rt; table.reading(1, 100, 2), None);
        assert_eq!(rt; table.reading(0, 101, 2), None);
        assert_eq!(rt; refused(table.file_day(3, 101, &day)), Some(27));
        assert_eq!(rt; refused(table.file_day(1, 102, &day)), Some(27));
        day[95] = 200_000_001;
        assert_eq!(rt; refused(table.file_day(0, 100, &day)), Some(28));
        assert_eq!(rt; table.reading(0, 100, 0), None);
    }

    #[test]
    fn a_group_reads_its_sum(rt: HostRuntime) -> Result<(), Fail> {
        let mut memory = [0; 576];
        let mut table = Table::new(&mut memory);
        assert_eq!(rt; table.lay_out(LAYOUT), Ok(()));
        let mut day = [1500; 96];
        assert_eq!(rt; table.file_day(0, 100, &day), Ok(()));
        day[1] = 199_998_500;
        day[2] = 199_998_501;
        day[3] = MARK;
        assert_eq!(rt; table.file_day(1, 100, &day), Ok(()));
        assert_eq!(rt; refused(Group::new(2, 0b0000_0111)), Some(38));
        assert_eq!(rt; refused(Group::new(2, 0b0000_0001)), Some(38));
        assert_eq!(rt; refused(Group::new(8, 0b0000_0011)), Some(38));
        let group = Group::new(2, 0b0000_0011).map_err(Fail::new)?;
        let meter = GroupMeter::new(group, &table);
        assert_eq!(rt; meter.reading(2, 100, 0), Some(3000));
        assert_eq!(rt; meter.reading(2, 100, 1), Some(200_000_000));
        assert_eq!(rt; meter.reading(2, 100, 2), None);
        assert_eq!(rt; meter.reading(2, 100, 3), None);
        assert_eq!(rt; meter.reading(0, 100, 3), Some(1500));
        Ok(())
    }

    #[test]
    fn a_window_is_added_up_or_peaks(rt: HostRuntime) -> Result<(), Fail> {
        let mut memory = [0; 576];
        let mut table = Table::new(&mut memory);
        assert_eq!(rt; table.lay_out(LAYOUT), Ok(()));
        let mut day = [1000; 96];
        day[41] = 3000;
        assert_eq!(rt; table.file_day(0, 100, &day), Ok(()));
        assert_eq!(rt; table.file_day(0, 101, &day), Ok(()));
        assert!(rt; Window::new(89, 2).is_none());
        let window = Window::new(40, 2).ok_or("a window that ends by midnight")?;
        assert_eq!(rt;
            window_figure::<Economic, Table>(&table, 0, 100, window),
            Ok(10_000)
        );
        assert_eq!(rt;
            window_figure::<Reliable, Table>(&table, 0, 100, window),
            Ok(3000)
        );
        let mut days: Short<u16, 20> = Short::new(0);
        assert!(rt; days.push(101));
        assert!(rt; days.push(100));
        assert_eq!(rt;
            baseline::<Economic, Table>(&table, 0, &days, window),
            Ok(20_000)
        );
        day[44] = MARK;
        day[46] = MARK;
        assert_eq!(rt; table.file_day(0, 100, &day), Ok(()));
        let answer = baseline::<Economic, Table>(&table, 0, &days, window)
            .err()
            .ok_or("two readings are absent")?
            .answer();
        // number and places, which the rules fix
        assert_eq!(rt; (answer.number, answer.day, answer.quarter), (25, 100, 44));
        Ok(())
    }
}
