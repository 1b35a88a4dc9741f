// Clearing a whole table, whatever it holds.
ghost use Rattle.std.specs.Prelude.{◌≡◌, true, length};
ghost use Rattle.tables.specs.Tables.{zeros};

// A part of a table, of 2 KiB. One that is 0 is not written, so that a fresh table's memory stays unmapped.
const BLOCK: usize = 512;

// Whether all counters are 0: one `|` a counter, of which the compiler takes many at a time.
fn are_zero(counters: &[u32]) -> bool
    ensures { result ≡ true → counters.now ≡ zeros (length counters.now) }
{
    counters.iter().fold(0, |any, counter| any | *counter) == 0
}

pub fn clear_table(table: &mut [u32])
    ensures { table.new ≡ zeros (length table.old) }
{
    let mut from = 0;
    while from < table.len() {
        let to = from + BLOCK.min(table.len() - from);
        if !are_zero(&table[from..to]) {
            table[from..to].fill(0);
        }
        from = to;
    }
}
