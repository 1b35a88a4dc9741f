// What an answer tells of a find: `born` and the logged words of the row that met the bug.
ghost use Rattle.std.specs.Prelude.{◌≡◌, ◌+◌, ◌≤◌, length};
ghost use Rattle.rows.specs.Rows.{header, log_room};
ghost use Rattle.rows.specs.Lent.{seen};
ghost use Rattle.store.specs.Lent.{rows_seen};
ghost use Rattle.sheet.specs.Sheets.{bench_limits};
ghost use Rattle.lines.specs.Lines.{inputs_told};
ghost use Rattle.lines.specs.Lent.{told_now, told_seen};
ghost use Rattle.report.specs.Reports.{log_of, told_in, told_of};

use answers::finding::Finding;
use lines::Told;
use rows::row::{BORN, LOG_COUNT, RowRef};
use store::view::StoreRef;

// A row's log. Its count is never above its room, but no law of that is needed: the words end there.
fn log(row: RowRef<'_>) -> &[u64]
    ensures value { result.now ≡ log_of (seen row.entry) }
    ensures within { length result.now ≤ log_room (seen row.entry) }
{
    let log = &row.words[row.log_start()..];
    let count = row.words[LOG_COUNT] as usize;
    &log[..count.min(log.len())]
}

// What a row tells of a find.
fn told_in(row: RowRef<'_>) -> Told
    ensures value { told_now result ≡ told_in (seen row.entry) }
    ensures within { length result.inputs.now ≤ log_room (seen row.entry) }
{
    Told {
        born: row.words[BORN],
        inputs: log(row),
    }
}

// What is told of what a search came to, from a store whose rows have at most as many log words as a sheet may ask for.
pub(crate) fn told(store: StoreRef<'_>, finding: Finding) -> Option<Told>
    requires { store.layout.words ≤ store.layout.marks + header + bench_limits.log }
    ensures value { told_seen result ≡ told_of finding (rows_seen store.entry) }
    ensures few { length (inputs_told (told_seen result)) ≤ bench_limits.log }
{
    let Finding::Found { row, .. } = finding else {
        return None;
    };
    if row < store.layout.rows {
        Some(told_in(store.row(row)))
    } else {
        Some(Told {
            born: 0,
            inputs: &[],
        })
    }
}
