// Replays a list of cases that tools/make-labels makes: programs of one executor, each created and run through the entries for
// hosts, each run in one and in parts, with what a model written from the scope paper says of every answer and of the row that is left.
#![tactic(auto)]

mod case;
mod columns;
mod creation;
mod parts;
mod running;

use replay_lists::replay::replay;

fn main(rt: HostRuntime) {
    replay::<{ columns::MOST_NUMBERS }, _, _>(
        &rt,
        "label programs",
        "runs, in one and in parts",
        case::judge,
    );
}
