// Replays a list of cases that tools/make-scores makes: stores of rows, each scored through the two entries for hosts, with what a model
// written from the scope paper says of the answers, of each score, of the lent table and of some counters.
#![tactic(auto)]

mod call;
mod case;
mod columns;
mod counters;
mod runs;

use replay_lists::replay::replay;

fn main(rt: HostRuntime) {
    replay::<{ columns::MOST_NUMBERS }, _, _>(&rt, "scoring", "scores", case::judge);
}
