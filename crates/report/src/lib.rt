// The bench program's work: from the bytes of a sheet to the printed bytes. For the programs bench and replay_sheets; nothing is asked of the
// caller.
#![tactic(auto)]

ghost use Rattle.std.specs.Prelude.{◌≡◌, Ok, None, ◌+◌, ◌≤◌, length, take};
ghost use Rattle.answers.specs.Answers.{refused_answer};
ghost use Rattle.writing.specs.Written.{written};
ghost use Rattle.lines.specs.Lines.{lines};
ghost use Rattle.rows.specs.Rows.{header};
ghost use Rattle.store.specs.Lent.{rows_seen};
ghost use Rattle.sheet.specs.Sheets.{parsed, bench_limits};
ghost use Rattle.report.specs.Reports.{sheet_buffer, most_printed, printed, search_printed};
ghost use Rattle.report.specs.Printing.{Printed, answer_lines};

mod searching;
mod told;

use answers::answer::Answer;
use lines::write_lines;
use rounds::call::Ended;
use rows::row::{HEADER, REGISTERS};
use searching::search_sheet;
use sheet::limits::{Limits, MOST_LOG, MOST_MEMORY, MOST_SHEET, MOST_STATES};
use sheet::parse::{Sheet, parse};
use store::layout::Layout;
use store::view::StoreRef;
use told::told;

// A buffer for a sheet has one byte more than a sheet may have, so that a longer one is seen.
pub const SHEET_BUFFER: usize = MOST_SHEET + 1;

// The most bytes that are printed: an answer, a round, 64 inputs and the used count have 1,884.
pub const MOST_PRINTED: usize = 2048;

// The most marks of a row: one for each register and each word of memory.
const ROW_MARKS: usize = REGISTERS + MOST_MEMORY / 8;

// The most words and marks of a store.
const MOST_WORDS: usize = MOST_STATES * (HEADER + ROW_MARKS + MOST_LOG);

const MOST_MARKS: usize = MOST_STATES * ROW_MARKS;

// Prints the number that refuses a sheet, or the search that it asks for.
fn report_refusal(number: u64, out: &mut [u8; MOST_PRINTED]) -> usize
    ensures { Printed (lines (refused_answer number) None) out.old out.new result }
{
    write_lines(Answer::refused(number), None, out)
}

// Prints how a search ended, and what is told of it from its store.
fn report_end(ended: Ended, store: StoreRef, out: &mut [u8; MOST_PRINTED]) -> usize
    requires { store.layout.words ≤ store.layout.marks + header + bench_limits.log }
    ensures { Printed (answer_lines (Ok ended) (rows_seen store.entry)) out.old out.new result }
{
    write_lines(
        ended.finding.answer(ended.used),
        told(store, ended.finding),
        out,
    )
}

// The search, on a store of just the lengths that the sheet asks for.
fn report_search(sheet: &[u8], asked: Sheet, out: &mut [u8; MOST_PRINTED]) -> usize
    requires { parsed bench_limits sheet.now ≡ Ok asked }
    ensures { Printed (search_printed sheet.now asked) out.old out.new result }
{
    let options = asked.options;
    let layout = Layout::new(
        options.amount_of_states as usize,
        options.memory_size / 8,
        asked.log,
    );
    let n = layout.rows * layout.words;
    let m = layout.rows * layout.marks;
    let mut words = [0; MOST_WORDS];
    let mut marks = [0; MOST_MARKS];
    match search_sheet(sheet, asked, &mut words[0..n], &mut marks[0..m]) {
        Ok(ended) => {
            let store = StoreRef {
                words: &words[0..n],
                marks: &marks[0..m],
                layout,
            };
            report_end(ended, store, out)
        }
        Err(refusal) => report_refusal(refusal.number(), out),
    }
}

fn report_sheet(sheet: &[u8], out: &mut [u8; MOST_PRINTED]) -> usize
    ensures { Printed (printed sheet.now) out.old out.new result }
{
    match parse(sheet, Limits::bench()) {
        Ok(asked) => report_search(sheet, asked, out),
        Err(error) => report_refusal(error.number(), out),
    }
}

// Runs the search that a sheet asks for, writes what is to be printed to the front of `out`, and answers how many bytes that is.
// The sheet is the first n bytes of the buffer; a count above the buffer means all of it.
pub fn report(sheet: &[u8; SHEET_BUFFER], n: usize, out: &mut [u8; MOST_PRINTED]) -> usize
    ensures value { result ≡ length (printed (take n sheet.now)) }
    ensures out_after { out.new ≡ written (printed (take n sheet.now)) out.old }
    ensures upper_bound { result ≤ most_printed }
    ensures sheet_len { length sheet.now ≡ sheet_buffer }
{
    report_sheet(&sheet[..n.min(SHEET_BUFFER)], out)
}
