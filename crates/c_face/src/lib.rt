// The calls for C: a slice crosses as a pointer and a length, a stream as a state. Each hands on to the bank's own call.
// No call has a requires: any numbers and any lengths may be handed in. include/dapplescree.h says the same in C's words.
// What is refused, a route, an order and a shape is a number here, and each slice and shape an argument of its own: the C interface.
#![tactic(auto)]

ghost use Rattle.std.specs.Prelude.{◌≡◌};
ghost use Rattle.analysis.specs.declared.Route.TheVariants.{Direct, Short, Double};
ghost use Rattle.block_calls.specs.Analysis.{analyse_code, analyse_out};
ghost use Rattle.recording_calls.specs.Recordings.{recorded_code, recorded_out, played_code, played_out, reorder_code, reorder_out};
ghost use Rattle.orders.specs.Orders.{order_of, hops_in};
ghost use Rattle.page.specs.Page.{page_code, page_out};
ghost use Rattle.level_calls.specs.LevelCalls.{quantise_code, quantise_out, dequantise_code, dequantise_out, tell_number, tell_number_out, state_code, state_after, state_out};
ghost use Rattle.share_calls.specs.ShareCalls.{name_code, name_out};
ghost use Rattle.share_calls.specs.RecordingShares.{recording_name_code, recording_name_out};
ghost use Rattle.coarsest_calls.specs.CoarsestCalls.{find_code, find_out};
ghost use Rattle.float_calls.specs.FloatCalls.{floats_code, floats_out, pair_code, pair_out};
ghost use Rattle.stream_calls.specs.States.{fresh_code, fresh_state, step_code, step_state, step_out};

use analysis::Route;
use filter_bank::{Change, Joints, Offer, code};

// One block by the direct route: `filter_bank::analyse`.
#[unsafe(no_mangle)]
pub extern "C" fn dapplescree_analyse_direct(
    n: usize,
    left: u32,
    right: u32,
    samples: &[i16],
    coefficients: &mut [i32],
) -> u32
    ensures value { result ≡ analyse_code Direct n left right samples.now coefficients.old }
    ensures coefficients_after { coefficients.new ≡ analyse_out Direct n left right samples.now coefficients.old }
{
    let joints = Joints { left, right };
    code(filter_bank::analyse(Route::Direct, n, joints, samples, coefficients))
}

// One block by the short route.
#[unsafe(no_mangle)]
pub extern "C" fn dapplescree_analyse_short(
    n: usize,
    left: u32,
    right: u32,
    samples: &[i16],
    coefficients: &mut [i32],
) -> u32
    ensures value { result ≡ analyse_code Short n left right samples.now coefficients.old }
    ensures coefficients_after { coefficients.new ≡ analyse_out Short n left right samples.now coefficients.old }
{
    let joints = Joints { left, right };
    code(filter_bank::analyse(Route::Short, n, joints, samples, coefficients))
}

// One block by the double route.
#[unsafe(no_mangle)]
pub extern "C" fn dapplescree_analyse_double(
    n: usize,
    left: u32,
    right: u32,
    samples: &[i16],
    coefficients: &mut [i32],
) -> u32
    ensures value { result ≡ analyse_code Double n left right samples.now coefficients.old }
    ensures coefficients_after { coefficients.new ≡ analyse_out Double n left right samples.now coefficients.old }
{
    let joints = Joints { left, right };
    code(filter_bank::analyse(Route::Double, n, joints, samples, coefficients))
}

// A fresh stream, in a state: `filter_bank::fresh_in_place`.
#[unsafe(no_mangle)]
pub extern "C" fn dapplescree_stream_fresh(n: usize, state: &mut [i64]) -> u32
    ensures value { result ≡ fresh_code n state.old }
    ensures state_after { state.new ≡ fresh_state n state.old }
{
    code(filter_bank::fresh_in_place(n, state))
}

// One step on the stream that a state holds: `filter_bank::step_in_place`.
#[unsafe(no_mangle)]
pub extern "C" fn dapplescree_stream_step(
    state: &mut [i64],
    number: u32,
    left: u32,
    right: u32,
    coefficients: &[i32],
    hop: &mut [i16],
) -> u32
    ensures value { result ≡ step_code state.old number left right coefficients.now hop.old }
    ensures state_after { state.new ≡ step_state state.old number left right coefficients.now hop.old }
    ensures hop_after { hop.new ≡ step_out state.old number left right coefficients.now hop.old }
{
    let joints = Joints { left, right };
    let offer = Offer { number, joints };
    code(filter_bank::step_in_place(state, offer, coefficients, hop))
}

// A whole recording by the direct route: `filter_bank::analyse_recording`. An order is a number here, 0 by block and 1 by frequency; any other is answered as no hops are.
#[unsafe(no_mangle)]
pub extern "C" fn dapplescree_analyse_recording_direct(
    n: usize,
    hops: usize,
    order: u32,
    samples: &[i16],
    coefficients: &mut [i32],
) -> u32
    ensures value { result ≡ recorded_code Direct n (hops_in order hops) samples.now coefficients.old }
    ensures coefficients_after { coefficients.new ≡ recorded_out Direct (order_of order) n (hops_in order hops) samples.now coefficients.old }
{
    let by = orders::numbered(order);
    let count = orders::hops_in(order, hops);
    code(filter_bank::analyse_recording(Route::Direct, by, n, count, samples, coefficients))
}

// A whole recording by the short route.
#[unsafe(no_mangle)]
pub extern "C" fn dapplescree_analyse_recording_short(
    n: usize,
    hops: usize,
    order: u32,
    samples: &[i16],
    coefficients: &mut [i32],
) -> u32
    ensures value { result ≡ recorded_code Short n (hops_in order hops) samples.now coefficients.old }
    ensures coefficients_after { coefficients.new ≡ recorded_out Short (order_of order) n (hops_in order hops) samples.now coefficients.old }
{
    let by = orders::numbered(order);
    let count = orders::hops_in(order, hops);
    code(filter_bank::analyse_recording(Route::Short, by, n, count, samples, coefficients))
}

// A whole recording by the double route.
#[unsafe(no_mangle)]
pub extern "C" fn dapplescree_analyse_recording_double(
    n: usize,
    hops: usize,
    order: u32,
    samples: &[i16],
    coefficients: &mut [i32],
) -> u32
    ensures value { result ≡ recorded_code Double n (hops_in order hops) samples.now coefficients.old }
    ensures coefficients_after { coefficients.new ≡ recorded_out Double (order_of order) n (hops_in order hops) samples.now coefficients.old }
{
    let by = orders::numbered(order);
    let count = orders::hops_in(order, hops);
    code(filter_bank::analyse_recording(Route::Double, by, n, count, samples, coefficients))
}

// A whole recording's samples: `filter_bank::synthesise_recording`.
#[unsafe(no_mangle)]
pub extern "C" fn dapplescree_synthesise_recording(
    n: usize,
    hops: usize,
    order: u32,
    coefficients: &[i32],
    samples: &mut [i16],
) -> u32
    ensures value { result ≡ played_code n (hops_in order hops) coefficients.now samples.old }
    ensures samples_after { samples.new ≡ played_out (order_of order) n (hops_in order hops) coefficients.now samples.old }
{
    let by = orders::numbered(order);
    let count = orders::hops_in(order, hops);
    code(filter_bank::synthesise_recording(by, n, count, coefficients, samples))
}

// A recording's coefficients as a printed page: `page::page`. `bytes` is the header's `page`, which is a crate's name here.
#[unsafe(no_mangle)]
pub extern "C" fn dapplescree_page(
    n: usize,
    hops: usize,
    order: u32,
    coefficients: &[i32],
    bytes: &mut [u8],
) -> u32
    ensures value { result ≡ page_code n (hops_in order hops) coefficients.now bytes.old }
    ensures bytes_after { bytes.new ≡ page_out (order_of order) n (hops_in order hops) coefficients.now bytes.old }
{
    let by = orders::numbered(order);
    let count = orders::hops_in(order, hops);
    code(page::page(by, n, count, coefficients, bytes))
}

// A whole recording's coefficients in the order `to`, from the other one: `filter_bank::reorder`.
#[unsafe(no_mangle)]
pub extern "C" fn dapplescree_reorder(
    n: usize,
    hops: usize,
    to: u32,
    coefficients: &[i32],
    reordered: &mut [i32],
) -> u32
    ensures value { result ≡ reorder_code n (hops_in to hops) coefficients.now reordered.old }
    ensures reordered_after { reordered.new ≡ reorder_out (order_of to) n (hops_in to hops) coefficients.now reordered.old }
{
    let by = orders::numbered(to);
    let count = orders::hops_in(to, hops);
    code(filter_bank::reorder(by, n, count, coefficients, reordered))
}

// The levels of a block's coefficients by a step table: `filter_bank::quantise`.
#[unsafe(no_mangle)]
pub extern "C" fn dapplescree_quantise(
    n: usize,
    table: &[u8],
    coefficients: &[i32],
    levels: &mut [i32],
) -> u32
    ensures value { result ≡ quantise_code n table.now coefficients.now levels.old }
    ensures levels_after { levels.new ≡ quantise_out n table.now coefficients.now levels.old }
{
    code(filter_bank::quantise(n, table, coefficients, levels))
}

// The coefficients that levels come back as: `filter_bank::dequantise`.
#[unsafe(no_mangle)]
pub extern "C" fn dapplescree_dequantise(
    n: usize,
    table: &[u8],
    levels: &[i32],
    coefficients: &mut [i32],
) -> u32
    ensures value { result ≡ dequantise_code n table.now levels.now coefficients.old }
    ensures coefficients_after { coefficients.new ≡ dequantise_out n table.now levels.now coefficients.old }
{
    code(filter_bank::dequantise(n, table, levels, coefficients))
}

// The distance that a step table tells, by a route's number: `filter_bank::tell`.
#[unsafe(no_mangle)]
pub extern "C" fn dapplescree_told_distance(
    n: usize,
    route: u32,
    table: &[u8],
    distance: &mut [u32],
) -> u32
    ensures value { result ≡ tell_number route n table.now distance.old }
    ensures distance_after { distance.new ≡ tell_number_out route n table.now distance.old }
{
    code(filter_bank::tell(route, n, table, distance))
}

// One step on a block's levels, in a state: `filter_bank::step_levels_in_place`.
#[unsafe(no_mangle)]
pub extern "C" fn dapplescree_stream_step_levels(
    state: &mut [i64],
    number: u32,
    left: u32,
    right: u32,
    table: &[u8],
    levels: &[i32],
    hop: &mut [i16],
) -> u32
    ensures value { result ≡ state_code state.old number left right table.now levels.now hop.old }
    ensures state_after { state.new ≡ state_after state.old number left right table.now levels.now hop.old }
    ensures hop_after { hop.new ≡ state_out state.old number left right table.now levels.now hop.old }
{
    let joints = Joints { left, right };
    let offer = Offer { number, joints };
    code(filter_bank::step_levels_in_place(state, offer, table, levels, hop))
}

// The coefficient with the largest share of what moved a sample: `filter_bank::name_share`.
#[unsafe(no_mangle)]
pub extern "C" fn dapplescree_largest_share(
    n: usize,
    shape: u32,
    first: &[i32],
    first_changed: &[i32],
    second: &[i32],
    second_changed: &[i32],
    place: usize,
    named: &mut [u32],
) -> u32
    ensures value { result ≡ name_code n shape first.now first_changed.now second.now second_changed.now place named.old }
    ensures named_after { named.new ≡ name_out n shape first.now first_changed.now second.now second_changed.now place named.old }
{
    let first = Change {
        original: first,
        changed: first_changed,
    };
    let second = Change {
        original: second,
        changed: second_changed,
    };
    code(filter_bank::name_share(n, shape, first, second, place, named))
}

// Which coefficient moved a sample of a recording: `filter_bank::name_share_recording`.
#[unsafe(no_mangle)]
pub extern "C" fn dapplescree_largest_share_recording(
    n: usize,
    hops: usize,
    order: u32,
    original: &[i32],
    changed: &[i32],
    hop: usize,
    place: usize,
    named: &mut [u32],
) -> u32
    ensures value { result ≡ recording_name_code n (hops_in order hops) original.now changed.now hop place named.old }
    ensures named_after { named.new ≡ recording_name_out (order_of order) n (hops_in order hops) original.now changed.now hop place named.old }
{
    let by = orders::numbered(order);
    let count = orders::hops_in(order, hops);
    let change = Change { original, changed };
    code(filter_bank::name_share_recording(by, n, count, change, hop, place, named))
}

// The coarsest step for a recording: `filter_bank::find_step`.
#[unsafe(no_mangle)]
pub extern "C" fn dapplescree_coarsest_step(
    n: usize,
    hops: usize,
    samples: &[i16],
    allowed: u32,
    budget: usize,
    found: &mut [u32],
) -> u32
    ensures value { result ≡ find_code n hops samples.now allowed found.old }
    ensures found_after { found.new ≡ find_out n hops samples.now allowed budget found.old }
{
    code(filter_bank::find_step(n, hops, samples, allowed, budget, found))
}

// The coefficients of a block as floats: `filter_bank::floats`.
#[unsafe(no_mangle)]
pub extern "C" fn dapplescree_floats(n: usize, coefficients: &[i32], floats: &mut [f64]) -> u32
    ensures value { result ≡ floats_code n coefficients.now floats.old }
    ensures floats_after { floats.new ≡ floats_out n coefficients.now floats.old }
{
    code(filter_bank::floats(n, coefficients, floats))
}

// The highest and the lowest coefficient of a block: `filter_bank::put_ends`.
#[unsafe(no_mangle)]
pub extern "C" fn dapplescree_highest_lowest(
    n: usize,
    coefficients: &[i32],
    pair: &mut [f64],
) -> u32
    ensures value { result ≡ pair_code n coefficients.now pair.old }
    ensures pair_after { pair.new ≡ pair_out n coefficients.now pair.old }
{
    code(filter_bank::put_ends(n, coefficients, pair))
}
