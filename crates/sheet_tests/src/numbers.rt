// Numbers as people write them.

use decimals::{Fixed, Grouped, Misread, Places, read};
use std::test::Fail;

struct Case {
    text: &'static str,
    places: Places,
    reads: Result<u64, Misread>,
}

const CASES: [Case; 20] = [
    Case {
        text: "6.00",
        places: Places::Two,
        reads: Ok(600),
    },
    Case {
        text: "6.0",
        places: Places::Two,
        reads: Ok(600),
    },
    Case {
        text: "6",
        places: Places::Two,
        reads: Ok(600),
    },
    Case {
        text: "10.01",
        places: Places::Two,
        reads: Ok(1001),
    },
    Case {
        text: "0.05",
        places: Places::Two,
        reads: Ok(5),
    },
    Case {
        text: "00.50",
        places: Places::Two,
        reads: Ok(50),
    },
    Case {
        text: "700.125",
        places: Places::Three,
        reads: Ok(700_125),
    },
    Case {
        text: "123456789012345",
        places: Places::Three,
        reads: Ok(123_456_789_012_345_000),
    },
    Case {
        text: "123456789012345",
        places: Places::Zero,
        reads: Ok(123_456_789_012_345),
    },
    Case {
        text: "1234567890123456",
        places: Places::Zero,
        reads: Err(Misread::TooManyDigits),
    },
    Case {
        text: "12345678901234.56",
        places: Places::Two,
        reads: Err(Misread::TooManyDigits),
    },
    Case {
        text: "6.",
        places: Places::Two,
        reads: Err(Misread::NotANumber),
    },
    Case {
        text: ".5",
        places: Places::Two,
        reads: Err(Misread::NotANumber),
    },
    Case {
        text: ".",
        places: Places::Two,
        reads: Err(Misread::NotANumber),
    },
    Case {
        text: "1.2.3",
        places: Places::Three,
        reads: Err(Misread::NotANumber),
    },
    Case {
        text: "+5",
        places: Places::Zero,
        reads: Err(Misread::NotANumber),
    },
    Case {
        text: "1,000",
        places: Places::Zero,
        reads: Err(Misread::NotANumber),
    },
    Case {
        text: "6.5",
        places: Places::Zero,
        reads: Err(Misread::TooManyDecimals),
    },
    Case {
        text: "6.005",
        places: Places::Two,
        reads: Err(Misread::TooManyDecimals),
    },
    Case {
        text: "",
        places: Places::Zero,
        reads: Err(Misread::Empty),
    },
];

#[test]
fn numbers_are_read(rt: HostRuntime) {
    for case in &CASES {
        assert_eq!(rt;
            read(case.text.as_bytes(), case.places),
            case.reads,
            "{}",
            case.text
        );
    }
}

#[test]
fn numbers_are_written(rt: HostRuntime) -> Result<(), Fail> {
    let heap = rt.alloc();
    assert_eq!(rt; Grouped(0).to_string(heap)?.as_str(), "0");
    assert_eq!(rt; Grouped(999).to_string(heap)?.as_str(), "999");
    assert_eq!(rt; Grouped(65_109).to_string(heap)?.as_str(), "65,109");
    assert_eq!(rt; Grouped(1_000_020).to_string(heap)?.as_str(), "1,000,020");
    assert_eq!(rt;
        Grouped(u64::MAX).to_string(heap)?.as_str(),
        "18,446,744,073,709,551,615"
    );
    let price = Fixed {
        value: 600,
        places: Places::Two,
    };
    assert_eq!(rt; price.to_string(heap)?.as_str(), "6.00");
    let demand = Fixed {
        value: 700_025,
        places: Places::Three,
    };
    assert_eq!(rt; demand.to_string(heap)?.as_str(), "700.025");
    Ok(())
}
