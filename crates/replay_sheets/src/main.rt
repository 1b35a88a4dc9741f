// Replays a list of sheets that tools/make-sheets makes, with what a model written from the scope paper says is printed for each.
#![tactic(auto)]

mod case;
mod columns;
mod printed;
mod stored;

use replay_lists::replay::replay;

fn main(rt: HostRuntime) {
    replay::<{ columns::MOST_NUMBERS }, _, _>(&rt, "sheets", "bytes printed", case::judge);
}
