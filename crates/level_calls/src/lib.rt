// The public calls on step tables and levels: their checks and refusals, in the documents' order, and nothing else. What a table says is in `steps`, and a
// level in `levels`. No public call has a requires: any bytes, any numbers and any lengths may be handed in.
#![tactic(auto)]

ghost use Rattle.std.specs.Prelude.{◌≡◌, ◌/◌, ◌≤◌, IfErr, IfOk, OnOk, T, length, take};
ghost use Rattle.cosine.specs.Kernels.{tabled};
ghost use Rattle.analysis.specs.Analysis.{units_of};
ghost use Rattle.steps.specs.Table.{table_code};
ghost use Rattle.refusals.specs.Answers.{code_of};
ghost use Rattle.stream_calls.specs.Answers.{stepped_of};
ghost use Rattle.level_calls.specs.Answers.{told_of};
ghost use Rattle.level_calls.specs.Brought.{Each};
ghost use Rattle.level_calls.specs.LevelCalls.{back_by, quantise_code, quantise_out, dequantise_code, dequantise_out, distance, told, tell_code, tell_out, tell_number, tell_number_out, brought_code, step_levels, step_out, state_code, state_after, state_out};

use analysis::Route;
use checks::{Offer, Refusal, check_coefficients, check_length, check_route, check_size};
use stream::Stream;
use stream_calls::{Head, Refused, admit};

// Coefficients of the longest block.
const LONGEST: usize = 108;

// Room for the coefficients of a block. Functions of their own: of an array that is made in the body the proof of its part did not close.
fn spectrum_room() -> [i32; LONGEST]
    ensures { length result ≡ 108 }
{
    [0; LONGEST]
}

// Room for the steps of a block, of another type: no generic zero.
fn step_room() -> [u32; LONGEST]
    ensures { length result ≡ 108 }
{
    [0; LONGEST]
}

// The step of each coefficient by a table, at the front of room for those of the longest block, which is lent, so that no array is copied. Line (9), Gap (10), Overlap (11): the table is turned
// away, and nothing is said of the room but its length.
#[tactic(auto, using(crate::specs::LevelCallLaws::hop_some, crate::specs::LevelCallLaws::hop_most, crate::specs::LevelCallLaws::each_of))]
fn read_steps(n: usize, table: &[u8], each: &mut [u32]) -> Result<(), Refusal>
    requires tabled { T (tabled n) }
    requires room { length each.old ≡ 108 }
    ensures code { code_of result ≡ table_code (n / 2) table.now }
    ensures ok { OnOk result (Each n table.now each.new) }
{
    steps::read_into(table, n / 2, &mut each[..n / 2])?;
    Ok(())
}

/// The level of each of M = n / 2 coefficients by its step: rnd(X / step) (document 02, P8). Length (1): n is not tabled. Line (9), Gap (10), Overlap (11): the
/// table is turned away. Size (2): a buffer's length is not M. Coefficient (3): one is out of range. The first of these is told. Refused, `levels` is left alone.
#[tactic(auto, using(refusals::specs::AnswerLaws::number_some, checks::specs::LimitLaws::range_small), unfolding(crate::specs::LevelCalls::quantise_code, crate::specs::LevelCalls::quantise_causes, crate::specs::LevelCalls::quantise_out, checks::specs::Causes::first_cause))]
pub fn quantise(n: usize, table: &[u8], x: &[i32], levels: &mut [i32]) -> Result<(), Refusal>
    ensures code { code_of result ≡ quantise_code n table.now x.now levels.old }
    ensures levels_after { levels.new ≡ quantise_out n table.now x.now levels.old }
{
    check_length(n)?;
    let m = n / 2;
    let mut each = step_room();
    read_steps(n, table, &mut each)?;
    check_size(x.len(), m)?;
    check_size(levels.len(), m)?;
    check_coefficients(x, m)?;
    levels::fill_levels(x, &each[..m], levels);
    Ok(())
}

/// The coefficients that M levels come back as: level × step, clipped to what synthesis takes. Length (1), Line (9), Gap (10), Overlap (11), Size (2) as
/// `quantise`; any number is a level. Refused, `out` is left alone.
#[tactic(auto, using(refusals::specs::AnswerLaws::number_some), unfolding(crate::specs::LevelCalls::dequantise_code, crate::specs::LevelCalls::dequantise_causes, crate::specs::LevelCalls::dequantise_out, checks::specs::Causes::first_cause))]
pub fn dequantise(n: usize, table: &[u8], levels: &[i32], out: &mut [i32]) -> Result<(), Refusal>
    ensures code { code_of result ≡ dequantise_code n table.now levels.now out.old }
    ensures out_after { out.new ≡ dequantise_out n table.now levels.now out.old }
{
    check_length(n)?;
    let m = n / 2;
    let mut each = step_room();
    read_steps(n, table, &mut each)?;
    check_size(levels.len(), m)?;
    check_size(out.len(), m)?;
    levels::fill_restored(levels, &each[..m], out);
    Ok(())
}

// The units in which a route may lie away from the definition.
#[tactic(auto, unfolding(analysis::specs::Analysis::units_of))]
fn units(route: Route) -> u32
    ensures units { result ≡ units_of route }
    ensures few { result ≤ 32 }
{
    match route {
        Route::Direct => 0,
        Route::Short => 16,
        Route::Double => 32,
    }
}

// The distance that a table tells, which is taken: Q is half its largest step, and the units are added to Q and not to the distance.
#[tactic(auto, using(crate::specs::LevelCallLaws::hop_some, crate::specs::LevelCallLaws::hop_most, crate::specs::LevelCallLaws::coarse), unfolding(crate::specs::LevelCalls::distance, crate::specs::LevelCalls::half))]
fn distance(route: Route, n: usize, table: &[u8]) -> u32
    requires { T (tabled n) × (table_code (n / 2) table.now ≡ 0) }
    ensures { result ≡ distance route n table.now }
{
    let q = steps::coarsest(table, n / 2) / 2;
    (q + units(route) + 8) / 16
}

/// How far a returned sample may lie from its own where the coefficients were stored by this table (document 02, P8). Length (1): the
/// route is not offered at n. Line (9), Gap (10), Overlap (11): the table is turned away.
#[tactic(auto, using(crate::specs::LevelCallLaws::hop_some, crate::specs::LevelCallLaws::hop_most, refusals::specs::AnswerLaws::number_some, crate::specs::LevelCallLaws::offered_tabled), unfolding(crate::specs::LevelCalls::told, crate::specs::LevelCalls::told_code, crate::specs::LevelCalls::told_causes, checks::specs::Causes::first_cause))]
pub fn told_distance(route: Route, n: usize, table: &[u8]) -> Result<u32, Refusal>
    ensures answer { told_of result ≡ told route n table.now }
    ensures taken { IfOk result (λ d. d ≡ distance route n table.now) }
{
    check_route(route, n)?;
    steps::read(table, n / 2)?;
    Ok(distance(route, n, table))
}

// The told distance into room for one number, for C. Size (2): the room's length is another, behind every other cause. Refused, the room is left alone.
#[tactic(auto, using(refusals::specs::AnswerLaws::number_some), unfolding(crate::specs::LevelCalls::told, crate::specs::LevelCalls::tell_code, crate::specs::LevelCalls::tell_out))]
fn tell_by(route: Route, n: usize, table: &[u8], room: &mut [u32]) -> Result<(), Refusal>
    ensures code { code_of result ≡ tell_code route n table.now room.old }
    ensures room_after { room.new ≡ tell_out route n table.now room.old }
{
    let told = told_distance(route, n, table)?;
    check_size(room.len(), 1)?;
    room[0] = told;
    Ok(())
}

/// The told distance into room for one number, for C, with the route by its number: 0 is direct, 1 short, 2 double; any other is not offered, Length (1). Then
/// the causes of `told_distance`, and behind them Size (2): the room's length is another. Refused, the room is left alone.
#[tactic(auto, unfolding(crate::specs::LevelCalls::tell_number, crate::specs::LevelCalls::tell_number_out))]
pub fn tell(number: u32, n: usize, table: &[u8], room: &mut [u32]) -> Result<(), Refusal>
    ensures code { code_of result ≡ tell_number number n table.now room.old }
    ensures room_after { room.new ≡ tell_number_out number n table.now room.old }
{
    let Ok(route) = Route::try_from(number) else {
        return Err(Refusal::Length);
    };
    tell_by(route, n, table, room)
}

// What a step on levels brings: the coefficients that come back, in front of room for those of the longest block. Line (9), Gap (10), Overlap (11): the table
// is turned away. Size (2): there are not M levels.
#[tactic(auto, using(refusals::specs::AnswerLaws::number_some, crate::specs::LevelCallLaws::hop_most, crate::specs::LevelCallLaws::back_long), unfolding(crate::specs::LevelCalls::brought_code, crate::specs::LevelCalls::brought_causes, checks::specs::Causes::first_cause))]
fn bring(n: usize, table: &[u8], levels: &[i32]) -> Result<[i32; LONGEST], Refusal>
    requires { T (tabled n) }
    ensures code { code_of result ≡ brought_code n table.now levels.now }
    ensures back { IfOk result (λ x. take (n / 2) x ≡ back_by n table.now levels.now) }
    ensures long { IfOk result (λ x. n / 2 ≡ length (take (n / 2) x)) }
{
    let m = n / 2;
    let mut each = step_room();
    read_steps(n, table, &mut each)?;
    check_size(levels.len(), m)?;
    let mut x = spectrum_room();
    levels::fill_restored(levels, &each[..m], &mut x[..m]);
    Ok(x)
}

/// One step of the synthesis stream on the M levels of a block, since recorders store levels: `step` on what `dequantise` gives (document 02, P8). Stream (4),
/// Number (7), Shape (8) as `step`, then Line (9), Gap (10), Overlap (11) for the table, then Size (2). Refused, the stream comes back as it was, and `out` is
/// left alone.
#[tactic(auto, using(refusals::specs::AnswerLaws::number_some, crate::specs::LevelCallLaws::hop_most, crate::specs::LevelCallLaws::early_is, crate::specs::LevelCallLaws::brought_is, crate::specs::LevelCallLaws::same_step, crate::specs::LevelCallLaws::same_out), unfolding(crate::specs::LevelCalls::step_levels, crate::specs::LevelCalls::step_out))]
pub fn step_levels(
    s: Stream,
    offer: Offer,
    table: &[u8],
    levels: &[i32],
    out: &mut [i16],
) -> Result<Stream, Refused>
    ensures answer { stepped_of result ≡ step_levels s offer.number offer.joints.left offer.joints.right table.now levels.now out.old }
    ensures refused { IfErr result (λ refused. refused.stream ≡ s) }
    ensures out_after { out.new ≡ step_out s offer.number offer.joints.left offer.joints.right table.now levels.now out.old }
{
    let head = Head {
        n: s.n,
        expected: s.expected,
        shape: s.shape,
    };
    if let Err(cause) = admit(head, &s.tail, offer) {
        return Err(Refused { stream: s, cause });
    }
    let m = s.n / 2;
    match bring(s.n, table, levels) {
        Ok(x) => stream_calls::step(s, offer, &x[..m], out),
        Err(cause) => Err(Refused { stream: s, cause }),
    }
}

/// The same on the stream that a state holds, in place. Size (2): the state's length is another, before every other cause. Refused, the state and `out` are left
/// alone.
#[tactic(auto, using(refusals::specs::AnswerLaws::number_some, crate::specs::LevelCallLaws::early_in, crate::specs::LevelCallLaws::brought_in, crate::specs::LevelCallLaws::room_in, crate::specs::LevelCallLaws::taken_in, crate::specs::LevelCallLaws::taken_step, crate::specs::LevelCallLaws::same_state, crate::specs::LevelCallLaws::same_state_out, crate::specs::LevelCallLaws::tabled_in), unfolding(crate::specs::LevelCalls::state_after, crate::specs::LevelCalls::state_out))]
pub fn step_levels_in_place(
    state: &mut [i64],
    offer: Offer,
    table: &[u8],
    levels: &[i32],
    out: &mut [i16],
) -> Result<(), Refusal>
    ensures code { code_of result ≡ state_code state.old offer.number offer.joints.left offer.joints.right table.now levels.now out.old }
    ensures state_after { state.new ≡ state_after state.old offer.number offer.joints.left offer.joints.right table.now levels.now out.old }
    ensures out_after { out.new ≡ state_out state.old offer.number offer.joints.left offer.joints.right table.now levels.now out.old }
{
    stream_calls::state::admit_in(state, offer)?;
    let n = stream_calls::state::length_in(state);
    let x = bring(n, table, levels)?;
    check_size(out.len(), n / 2)?;
    stream_calls::state::advance_in(state, offer, &x[..n / 2], out);
    Ok(())
}
