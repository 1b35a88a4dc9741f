// The search that a sheet asks for, on a lent store.
ghost use Rattle.std.specs.Prelude.{◌≡◌, Ok, length};
ghost use Rattle.search.specs.Entry.{left, search_entry};
ghost use Rattle.sheet.specs.Sheets.{parsed, bench_limits, image_of, tape_of};
ghost use Rattle.sheet.specs.Parts.{PartsWithin};

use checks::refusal::Refusal;
use loader::Program;
use rounds::call::Ended;
use search::search_for_bugs;
use sheet::limits::MOST_SHEET;
use sheet::parse::Sheet;
use sheet::tape::read_words;

// The words of the longest sheet.
const MOST_TAPE: usize = MOST_SHEET / 8;

// The search with this tape.
fn search_with(
    sheet: &[u8],
    asked: Sheet,
    tape: &[u64],
    words: &mut [u64],
    marks: &mut [u8],
) -> Result<Ended, Refusal>
    requires { PartsWithin (length sheet.now) asked }
    ensures { left words.new marks.new result
        ≡ search_entry asked.options asked.log (image_of sheet.now asked) tape.now words.old marks.old }
{
    let program = Program {
        code: asked.code.lent(sheet),
        data: asked.data.lent(sheet),
    };
    search_for_bugs(words, marks, asked.options, asked.log, program, tape)
}

pub(crate) fn search_sheet(
    sheet: &[u8],
    asked: Sheet,
    words: &mut [u64],
    marks: &mut [u8],
) -> Result<Ended, Refusal>
    requires { parsed bench_limits sheet.now ≡ Ok asked }
    ensures { left words.new marks.new result
        ≡ search_entry asked.options asked.log (image_of sheet.now asked) (tape_of sheet.now asked)
        words.old marks.old }
{
    let mut tape = [0; MOST_TAPE];
    let n = asked.tape_words;
    read_words(&sheet[asked.tape_offset..], &mut tape[0..n]);
    search_with(sheet, asked, &tape[0..n], words, marks)
}
