// What the test programs of the bank share beside `report`: lengths, routes and orders, the number of an answer, and in `streams` streams and what is played
// to them.
#![tactic(auto)]

pub mod streams;

use filter_bank::{Joints, Order, Refusal, Route};

/// The lengths of a block.
pub const LENGTHS: [usize; 6] = [12, 24, 36, 72, 108, 216];

pub const ROUTES: [Route; 3] = [Route::Direct, Route::Short, Route::Double];

pub const ORDERS: [Order; 2] = [Order::ByBlock, Order::ByFrequency];

/// The shapes of a joint.
pub const LONG: u32 = 0;

pub const SHORT: u32 = 1;

/// A block between two long joints.
pub const LONG_JOINTS: Joints = Joints {
    left: LONG,
    right: LONG,
};

/// The ends of a coefficient's range, and one beyond either.
pub const MOST: i32 = 536870912;

pub const LEAST: i32 = -536870912;

pub const ABOVE: i32 = 536870913;

pub const BELOW: i32 = -536870913;

pub fn route_name(route: Route) -> &'static str {
    match route {
        Route::Direct => "direct",
        Route::Short => "short",
        Route::Double => "double",
    }
}

pub fn order_name(order: Order) -> &'static str {
    match order {
        Order::ByBlock => "block",
        Order::ByFrequency => "frequency",
    }
}

/// The number of an answer: 0 where the call was taken.
pub fn code<T>(outcome: &Result<T, Refusal>) -> u32 {
    match outcome {
        Ok(_) => 0,
        Err(refusal) => refusal.number(),
    }
}
