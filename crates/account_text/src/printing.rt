// The account, line by line.

ghost use Rattle.std.specs.Prelude.{MatchResult, Some};
ghost use Rattle.sheet.specs.Reading.{Writes};
ghost use Rattle.sheet.specs.Sheets.{Sound};
ghost use Rattle.sheet.specs.declared.sheets.Sheet.{Sheet as Read};
ghost use Rattle.account_text.specs.Shown.{balance_text, title_text, GivesNoAccount, HasNoAccount, SettlesSo};

use crate::amounts::{mean_kw, net, price};
use crate::nets::Net;
use decimals::Grouped;
use programme::{Code, Dispatch, below_lowest, rate};
use settlement::{Agreement, Event, Totals};
use sheet::Sheet;
use sheet_values::Header;
use sheet_words::SheetFault;
use std::alloc::{AllocError, Global};
use std::fmt;

// A programme by its name, with its letter in brackets: wording, which stands here for all programmes.
#[derive(Clone, Copy)]
struct Title(Code);

impl fmt::Display for Title {
    ghost output = { λ title. Some (title_text title.0) };

    fn fmt<W: fmt::Write>(&self, f: &mut fmt::Formatter<W>) -> fmt::Result {
        let name = match self.0 {
            Code::Economic => "economic bidding",
            Code::JointBidding => "joint bidding",
            Code::Reliable => "reliable bidding",
        };
        let letter = char::from(self.0);
        write!(f, "{name} ({letter})")
    }
}

impl fmt::Display for Net {
    ghost output = { λ net. Some (balance_text net) };

    fn fmt<W: fmt::Write>(&self, f: &mut fmt::Formatter<W>) -> fmt::Result {
        match self {
            Net::Paid(amount) => write!(f, "{}", Grouped(*amount)),
            Net::Owed(amount) => write!(f, "-{}", Grouped(*amount)),
        }
    }
}

fn heading(heap: Global, header: Header) -> Result<String, AllocError> {
    let agreement = header.agreement;
    let terms = agreement.terms;
    format!(in heap;
        "Account {}: {}, {}\nContract capacity {} kW, agreed reduction {} kW, events of {} hours\n\n",
        agreement.account,
        Title(agreement.code),
        header.month,
        terms.capacity_kw,
        terms.reduction_kw,
        terms.hours
    )
}

// The rate of economic and joint bidding in per cent, or a dash where the saving is too small to be paid at any rate;
// whether reliable bidding's reduction was met. What the column says is wording, and stands here for all programmes.
fn outcome(
    heap: Global,
    agreement: Agreement,
    dispatch: Dispatch,
    missed: bool,
) -> Result<String, AllocError> {
    match agreement.code {
        Code::Reliable => String::from_str(heap, if missed { "missed" } else { "met" }),
        Code::Economic | Code::JointBidding => {
            let n = agreement.terms.quarters();
            let saving = dispatch.saving();
            if below_lowest(agreement.code.figures().lowest_kw, n, saving) {
                return String::from_str(heap, "-");
            }
            let percent = rate(dispatch.late, n, agreement.terms.reduction_kw, saving);
            format!(in heap; "{percent}%")
        }
    }
}

// The line of an event with its amounts. The demands are means over the window, rounded to watts for display only.
fn event_line(
    heap: Global,
    agreement: Agreement,
    event: Event,
    amounts: (u64, u64, u64),
) -> Result<String, AllocError> {
    let (credit, surcharge, missed) = amounts;
    let dispatch = event.dispatch;
    let figures = agreement.code.figures();
    let n = agreement.terms.quarters();
    let kilowatts = |watts, windows| {
        mean_kw(watts, figures.fold.parts(windows, n)).to_string(heap)
    };
    let baseline = kilowatts(dispatch.baseline, figures.baseline_days)?;
    let load = kilowatts(dispatch.event_load, 1)?;
    let reduction = kilowatts(dispatch.saving(), 5)?;
    let notice = if dispatch.late { "late" } else { "early" };
    let price = price(dispatch.price).to_string(heap)?;
    let outcome = outcome(heap, agreement, dispatch, missed != 0)?;
    let credit = Grouped(credit).to_string(heap)?;
    let surcharge = Grouped(surcharge).to_string(heap)?;
    format!(in heap;
        "{}  {}  {notice:<6}  {price:>5}  {baseline:>11}  {load:>11}  {reduction:>12}  {outcome:>6}  {credit:>13}  {surcharge:>13}\n",
        event.day, event.start
    )
}

// The totals, whose names and amounts stand in two columns.
fn ending(heap: Global, totals: Totals) -> Result<String, AllocError> {
    let basic = Grouped(totals.basic).to_string(heap)?;
    let credits = Grouped(totals.credits).to_string(heap)?;
    let surcharges = Grouped(totals.surcharges).to_string(heap)?;
    let net = net(totals).to_string(heap)?;
    format!(in heap;
        "\nBasic credit {basic:>17}\nCredits      {credits:>17}\nSurcharges   {surcharges:>17}\nNet          {net:>17}\n"
    )
}

const COLUMNS: &str =
    "date        start  notice  price  baseline kW      load kW  reduction kW    rate         credit      surcharge\n";

// The whole account of a sheet, which is settled first.
pub fn account_text(heap: Global, sheet: &Sheet) -> Result<String, SheetFault>
    ensures { MatchResult result (λ _. SettlesSo sheet.now) (HasNoAccount sheet.now) }
{
    let totals = sheet.settle()?;
    let agreement = sheet.header.agreement;
    let mut text = heading(heap, sheet.header)?;
    text.push_str(COLUMNS)?;
    for noted in &sheet.events {
        let event = noted.value;
        // the agreement and the events of a settled month are in range
        let amounts = agreement
            .code
            .event(agreement.terms, event.dispatch)
            .unwrap();
        text.push_str(event_line(heap, agreement, event, amounts)?.as_str())?;
    }
    text.push_str(ending(heap, totals)?.as_str())?;
    Ok(text)
}

// The account of a sheet's text.
pub fn account(heap: Global, text: &[u8]) -> Result<String, SheetFault>
    ensures { MatchResult result (λ _. (sheet : Read) × Writes text.now sheet × Sound sheet × SettlesSo sheet) (GivesNoAccount text.now) }
{
    let sheet = Sheet::read(heap, text)?;
    account_text(heap, &sheet)
}
