// The public calls on floats: their checks and refusals, in the documents' order, and nothing else. What a coefficient is as a float, and which of a block is the highest
// and the lowest, is in `floats`. No public call has a requires: any numbers and any lengths may be handed in.
#![tactic(auto)]

ghost use Rattle.std.specs.Prelude.{◌≡◌, ◌/◌, ◌<◌, IfOk, OnOk, length};
ghost use Rattle.refusals.specs.Answers.{code_of};
ghost use Rattle.float_calls.specs.Answers.{read_ends};
ghost use Rattle.float_calls.specs.FloatCalls.{block_code, floats_code, floats_out, pair_of, ends_of, pair_code, pair_out};

use checks::{Refusal, check_coefficients, check_length, check_size};

/// The highest and the lowest coefficient of a block, as floats.
#[derive(Clone, Copy)]
pub struct Pair {
    pub highest: f64,
    pub lowest: f64,
}

// Length: n is not tabled. Size: there are not M coefficients, or room for another number of floats than is stated. Coefficient: one is out of range.
#[tactic(auto, using(crate::specs::FloatCallLaws::hop_some), unfolding(crate::specs::FloatCalls::block_code, crate::specs::FloatCalls::block_causes, checks::specs::Causes::first_cause))]
fn check_block(n: usize, x: &[i32], room: usize, stated: usize) -> Result<(), Refusal>
    ensures code { code_of result ≡ block_code n x.now room stated }
    ensures long { OnOk result (length x.now ≡ n / 2) }
    ensures some { OnOk result (0 < length x.now) }
    ensures room_is { OnOk result (room ≡ stated) }
{
    let m = n / 2;
    check_length(n)?;
    check_size(x.len(), m)?;
    check_size(room, stated)?;
    check_coefficients(x, m)
}

/// Each of the M coefficients of a block as a float, X / 64 exactly. Length, Size and Coefficient as above. Refused, `out` is left alone.
#[tactic(auto, using(refusals::specs::AnswerLaws::number_some), unfolding(crate::specs::FloatCalls::floats_out))]
pub fn floats(n: usize, x: &[i32], out: &mut [f64]) -> Result<(), Refusal>
    ensures code { code_of result ≡ floats_code n x.now out.old }
    ensures out_after { out.new ≡ floats_out n x.now out.old }
{
    check_block(n, x, out.len(), n / 2)?;
    floats::fill(x, out);
    Ok(())
}

/// The highest and then the lowest coefficient of a block into room for two floats, for C; another length of it is refused for its size, tested with the other lengths.
/// Refused, the room is left alone.
#[tactic(auto, using(refusals::specs::AnswerLaws::number_some), unfolding(crate::specs::FloatCalls::pair_out))]
pub fn put_ends(n: usize, x: &[i32], pair: &mut [f64]) -> Result<(), Refusal>
    ensures code { code_of result ≡ pair_code n x.now pair.old }
    ensures pair_after { pair.new ≡ pair_out n x.now pair.old }
{
    check_block(n, x, pair.len(), 2)?;
    let highest = floats::sixty_fourth(floats::highest(x));
    let lowest = floats::sixty_fourth(floats::lowest(x));
    pair.copy_from_slice(&[highest, lowest]);
    Ok(())
}

/// The same by value. Length (1): n is not tabled. Size (2): there are not M coefficients. Coefficient (3): one is out of range.
#[tactic(auto, using(crate::specs::FloatCallLaws::hop_some), unfolding(crate::specs::FloatCalls::ends_of, crate::specs::FloatCalls::ends_code, crate::specs::FloatCalls::ends_causes, checks::specs::Causes::first_cause))]
pub fn highest_lowest(n: usize, x: &[i32]) -> Result<Pair, Refusal>
    ensures answer { read_ends result ≡ ends_of n x.now }
    ensures ok { IfOk result (λ pair. pair ≡ pair_of x.now) }
{
    check_length(n)?;
    check_size(x.len(), n / 2)?;
    check_coefficients(x, n / 2)?;
    Ok(Pair {
        highest: floats::sixty_fourth(floats::highest(x)),
        lowest: floats::sixty_fourth(floats::lowest(x)),
    })
}
