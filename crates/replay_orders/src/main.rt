// Replays a list of cases that tools/make-orders makes: label programs that the counter runner runs on keyed orders, in one and in parts, with what a model
// written from the scope papers says of every answer, and of the row and the output that are left.
#![tactic(auto)]

mod case;
mod columns;
mod order;
mod parts;
mod refusal;

use replay_lists::replay::replay;

fn main(rt: HostRuntime) {
    replay::<{ columns::MOST_NUMBERS }, _, _>(
        &rt,
        "orders",
        "calls, in one and in parts",
        case::judge,
    );
}
