// The public calls of the bank, by family: one block, step tables and levels, shares, streams as values and in states, whole recordings, the coarsest step for one, coefficients as floats. What each promises stands with it.
#![tactic(auto)]

pub use analysis::Route;
pub use block_calls::analyse;
pub use checks::{Joints, Offer, Refusal, code};
pub use coarsest_calls::{Coarsest, coarsest_step, find_step};
pub use float_calls::{Pair, floats, highest_lowest, put_ends};
pub use level_calls::{
    dequantise, quantise, step_levels, step_levels_in_place, tell, told_distance,
};
pub use orders::Order;
pub use recording_calls::reorder::reorder;
pub use recording_calls::{analyse_recording, inner, synthesise_recording};
pub use share_calls::recording::{largest_share_recording, name_share_recording};
pub use share_calls::{Change, Share, largest_share, name_share};
pub use stream::Stream;
pub use stream_calls::state::{fresh_in_place, step_in_place};
pub use stream_calls::{Refused, fresh, step};
