// One case: a sheet, and what is printed for it.
use crate::columns::{Case, case_of};
use crate::printed::is_printed;
use crate::stored::sheet_of;
use replay_lists::digest::JUNK_MARK;
use replay_lists::tally::{Judged, disagrees};
use report::MOST_PRINTED;

// Whether just the line's bytes are printed for its sheet.
fn replay_sheet(case: Case) -> bool {
    let sheet = sheet_of(case);
    let mut out = [JUNK_MARK; MOST_PRINTED];
    let count = report::report(&sheet, case.bytes, &mut out);
    count == case.printed && is_printed(case, &out)
}

pub(crate) fn judge(numbers: &[u64]) -> Judged {
    let Some(case) = case_of(numbers) else {
        return disagrees(0);
    };
    Judged {
        agrees: replay_sheet(case),
        parts: case.printed as u64,
    }
}
