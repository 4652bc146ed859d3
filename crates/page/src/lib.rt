// A recording's coefficients printed as a page: `page` is a public call, with its checks and refusals in document 01's order. It has no requires:
// any numbers and any buffer lengths may be handed in. H is the number of hops; a recording has H + 1 blocks.
#![tactic(auto)]

mod lines;

ghost use Rattle.std.specs.Prelude.{◌≡◌};
ghost use Rattle.refusals.specs.Answers.{code_of};
ghost use Rattle.page.specs.Page.{page_code, page_out};

use checks::{Refusal, check_coefficients, check_hops, check_length, check_size};
use orders::Order;

/// The page of a recording of `hops` hops, x the coefficients of its H + 1 blocks in the order named. Length (1): n is not tabled. Size (2): the number of hops is not 1 to 4,095,
/// or a buffer's length is not the stated one. Coefficient (3): one is out of range, wherever it stands. Refused, `out` is left alone.
#[tactic(auto, using(crate::specs::AnswerLaws::page_sizes), unfolding(crate::specs::Page::page_code, crate::specs::Page::page_causes, crate::specs::Page::page_out, crate::specs::Page::page_of, checks::specs::Causes::first_cause))]
pub fn page(order: Order, n: usize, hops: usize, x: &[i32], out: &mut [u8]) -> Result<(), Refusal>
    ensures code { code_of result ≡ page_code n hops x.now out.old }
    ensures out_after { out.new ≡ page_out order n hops x.now out.old }
{
    check_length(n)?;
    check_hops(hops)?;
    let m = n / 2;
    let blocks = hops + 1;
    let count = blocks * m;
    check_size(x.len(), count)?;
    check_size(out.len(), blocks * (m / lines::NUMBERS) * lines::LINE)?;
    check_coefficients(x, count)?;
    lines::put_page(order, n, blocks, x, out);
    Ok(())
}
