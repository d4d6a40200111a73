// Plans as callers use them.
use plan_items::Plan;

fn moves_between_threads<T: Send + Drop>(_value: T) {}

#[test]
fn plans_move_between_threads(rt: HostRuntime) {
    moves_between_threads(Plan::new(rt.alloc()));
}
