//! What tests do with route tables. These functions promise nothing, so that no test is proved beside what the calls of tables promise.

use routes::{Naming, Order, RouteWriter};
use std::sync::Wait;

/// Notes the order, once memory is there for it.
pub(super) fn note_order<J: Naming>(writer: &mut RouteWriter<J>, order: &Order) -> bool {
    writer.change(order).is_ok() || writer.change(order).is_ok()
}

/// Notes these orders, and publishes them at once. Says whether each was noted.
pub(super) fn publish_orders<J: Naming, R: Wait>(
    rt: &R,
    writer: &mut RouteWriter<J>,
    orders: &[Order],
) -> bool {
    let mut noted = true;
    for order in orders {
        noted = note_order(writer, order) && noted;
    }
    writer.publish(rt);
    noted
}
