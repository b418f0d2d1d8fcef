// settle SHEET: prints the account of a month's sheet.

#![tactic(auto)]

use account_text::account;
use std::process::ExitCode;
use std::{env, fmt, fs, io};

// Ends the program with status 1; why stands on standard error.
#[derive(Drop)]
struct Stopped;

// By hand: a derive would keep the fault, of which nothing is told where standard output itself fails.
impl From<io::Error> for Stopped {
    fn from(_fault: io::Error) -> Stopped {
        Stopped
    }
}

impl Stopped {
    // Says why the program ends; where that cannot be written, it ends all the same.
    fn because(rt: &HostRuntime, why: impl fmt::Display + Drop) -> Stopped {
        let _ = eprintln!(rt; "settle: {why}");
        Stopped
    }
}

// Settles the sheet that the arguments name.
fn settle(rt: &HostRuntime) -> Result<(), Stopped> {
    let mut args = env::args(rt)?.skip(1);
    let file = args.next().ok_or_else(|| Stopped::because(
        rt,
        "no sheet is named; usage: settle SHEET",
    ))?;
    if args.next().is_some() {
        return Err(Stopped::because(rt, "more than one sheet is named; usage: settle SHEET"));
    }
    let bytes = fs::read(rt, file.as_str()).map_err(|fault| Stopped::because(
        rt,
        format_args!("{file}: cannot be read: {fault}"),
    ))?;
    let text = account(rt.alloc(), bytes.as_slice()).map_err(|fault| Stopped::because(
        rt,
        format_args!("{file}: {fault}"),
    ))?;
    print!(rt; "{text}")?;
    Ok(())
}

fn main(rt: HostRuntime) -> ExitCode {
    match settle(&rt) {
        Ok(()) => ExitCode::SUCCESS,
        Err(Stopped) => ExitCode::FAILURE,
    }
}
