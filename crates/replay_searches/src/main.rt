// Replays a list of cases that tools/make-searches makes: whole searches through the two entries for hosts, with what a model written from
// the scope paper says of the answers and of the store and the table that are left.
#![tactic(auto)]

mod asked;
mod case;
mod columns;
mod searching;

use replay_lists::replay::replay;

fn main(rt: HostRuntime) {
    replay::<{ columns::MOST_NUMBERS }, _, _>(&rt, "searches", "states", case::judge);
}
