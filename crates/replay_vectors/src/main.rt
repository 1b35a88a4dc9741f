// Replays two lists that were made outside this project, by tools/make-vectors: what words decode to by the GNU tools, and what
// instructions do by qemu. Says of each list how many of its lines agree with this project's functions, and how many of those
// that are wrong on purpose do not.
#![tactic(auto)]

mod columns;
mod decodings;
mod list;
mod results;
mod tally;

use tally::Tally;

fn print_agreeing(rt: &impl Print, name: &str, t: Tally) {
    let _ = print!(rt; "{name}: {} of {} agree", t.lines.agree, t.lines.cases);
}

fn print_departures(rt: &impl Print, t: Tally) {
    let _ = print!(rt;
        ", {} of them departures from the manual: {} lui, {} jalr, {} zero divisors",
        t.lines.parts, t.lui, t.jalr, t.zero_divisors
    );
}

fn print_wrong(rt: &impl Print, t: Tally) {
    let _ = println!(rt;
        "; {} of {} lines that are wrong on purpose disagree",
        t.lines.disagree, t.lines.wrong
    );
}

fn main(rt: HostRuntime) {
    let decodings = list::replay(&rt, "decodings", decodings::judge);
    print_agreeing(&rt, "decodings", decodings);
    print_wrong(&rt, decodings);
    let results = list::replay(&rt, "results", results::judge);
    print_agreeing(&rt, "results", results);
    print_departures(&rt, results);
    print_wrong(&rt, results);
}
