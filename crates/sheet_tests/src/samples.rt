// Printed accounts: that of economic.sheet, which ships with `settle`, economic bidding with every rate; and some that the samples lack.

use account_text::account;
use std::test::Fail;

const SHEET: &str = "# June 2026, economic bidding: every rate
programme E
account   1
month     2026-06
capacity  500
reduction 300
hours     4

# below 60 per cent of the agreed reduction: nothing
event 2026-06-01 14:00 early 6.00 400kW 220.001kW
# 60 per cent: 100 per cent of the price
event 2026-06-02 14:00 early 6.00 400kW 220kW
# 80 and 120 per cent: 110 per cent
event 2026-06-03 14:00 early 6.00 400kW 160kW
event 2026-06-04 14:00 early 6.00 400kW 40kW
# above 120 per cent: 100 per cent again
event 2026-06-05 14:00 early 6.00 400kW 39.999kW
# a late notice: 120 per cent
event 2026-06-08 14:00 late  6.00 400kW 300kW
";

const ACCOUNT: &str = "Account 1: economic bidding (E), 2026-06
Contract capacity 500 kW, agreed reduction 300 kW, events of 4 hours

date        start  notice  price  baseline kW      load kW  reduction kW    rate         credit      surcharge
2026-06-01  14:00  early    6.00      400.000      220.001       179.999      0%              0              0
2026-06-02  14:00  early    6.00      400.000      220.000       180.000    100%          4,320              0
2026-06-03  14:00  early    6.00      400.000      160.000       240.000    110%          6,336              0
2026-06-04  14:00  early    6.00      400.000       40.000       360.000    110%          9,504              0
2026-06-05  14:00  early    6.00      400.000       39.999       360.001    100%          8,640              0
2026-06-08  14:00  late     6.00      400.000      300.000       100.000    120%          2,880              0

Basic credit                 0
Credits                 31,680
Surcharges                   0
Net                     31,680
";

// A saving below the programme's lowest reduction has no rate; demands are rounded for the eye.
const JOINT: &str = "programme J
account 2
month 2026-07
capacity 500
reduction 100
hours 4
event 2026-07-06 13:00 early 6.00 400kW 350kW
event 2026-07-07 13:00 early 6.00 32000040 4800001
";

const JOINT_ACCOUNT: &str = "Account 2: joint bidding (J), 2026-07
Contract capacity 500 kW, agreed reduction 100 kW, events of 4 hours

date        start  notice  price  baseline kW      load kW  reduction kW    rate         credit      surcharge
2026-07-06  13:00  early    6.00      400.000      350.000        50.000       -              0              0
2026-07-07  13:00  early    6.00      400.001      300.000       100.000    110%          2,640              0

Basic credit                 0
Credits                  2,640
Surcharges                   0
Net                      2,640
";

// Nothing was saved: the account owes the surcharge.
const OWED: &str = "programme R
account 3
month 2026-07
capacity 800
reduction 300
hours 4
event 2026-07-06 13:00 early 6.00 0 0
";

const OWED_ACCOUNT: &str = "Account 3: reliable bidding (R), 2026-07
Contract capacity 800 kW, agreed reduction 300 kW, events of 4 hours

date        start  notice  price  baseline kW      load kW  reduction kW    rate         credit      surcharge
2026-07-06  13:00  early    6.00        0.000        0.000         0.000  missed              0          3,600

Basic credit                 0
Credits                      0
Surcharges               3,600
Net                     -3,600
";

const NO_EVENTS: &str = "programme E
account 1
month 2026-07
capacity 500
reduction 300
hours 4
";

const NO_EVENTS_ACCOUNT: &str = "Account 1: economic bidding (E), 2026-07
Contract capacity 500 kW, agreed reduction 300 kW, events of 4 hours

date        start  notice  price  baseline kW      load kW  reduction kW    rate         credit      surcharge

Basic credit                 0
Credits                      0
Surcharges                   0
Net                          0
";

#[test]
fn accounts_are_printed(rt: HostRuntime) -> Result<(), Fail> {
    let table = [
        (SHEET, ACCOUNT),
        (JOINT, JOINT_ACCOUNT),
        (OWED, OWED_ACCOUNT),
        (NO_EVENTS, NO_EVENTS_ACCOUNT),
    ];
    for (sheet, printed) in table {
        let text = account(rt.alloc(), sheet.as_bytes()).map_err(Fail::new)?;
        assert_eq!(rt; text.as_str(), printed);
    }
    Ok(())
}
