// The program coarsest-step on bytes: `report` takes any bytes, and what it writes is the definition of specs/Report.
#![tactic(auto)]

mod print;
mod read;
mod typed;

ghost use Rattle.std.specs.Prelude.{◌≡◌, ◌+◌, ◌≤◌};
ghost use Rattle.text.specs.Buffers.{Written};
ghost use Rattle.text.specs.Outputs.{HasRoom, Puts};
ghost use Rattle.coarsest_report.specs.Report.{is_budget, report_of};

use print::put_answer;
use read::answer;
use text::output::Output;
use typed::{distance_of, whole};

// Room for whatever is printed.
pub const ROOM: usize = 128;

// The bytes are a budget: a whole number, of 18 digits at most.
pub fn is_budget(typed: &[u8]) -> bool
    ensures { result ≡ is_budget typed.now }
{
    whole(typed, 18).is_some()
}

// What is printed for an allowed distance and a budget as they are typed and a listing.
fn put_report(distance: &[u8], budget: &[u8], input: &[u8], output: &mut Output)
    requires { HasRoom 100 output.old }
    ensures puts { Puts (report_of distance.now budget.now input.now) output.old output.new }
    ensures upper_bound { output.new.at ≤ output.old.at + 100 }
{
    match listing::verdict::verify(input) {
        Ok(listing) => {
            let trials = whole(budget, 18).unwrap_or(0);
            put_answer(
                answer(input, listing, distance_of(distance), trials),
                output,
            );
        }
        Err(fault) => output.refusal(fault.number(), fault.line()),
    }
}

// Writes what is printed for an allowed distance and a budget as they are typed and a listing to the start of a buffer, and answers how many bytes that is.
pub fn report(distance: &[u8], budget: &[u8], input: &[u8], out: &mut [u8; ROOM]) -> usize
    ensures { Written (report_of distance.now budget.now input.now) out.old out.new result }
{
    let mut output = Output { bytes: out, at: 0 };
    put_report(distance, budget, input, &mut output);
    output.at
}
