// What the program coarsest-step prints of an answer, put behind what is there.
ghost use Rattle.std.specs.Prelude.{◌+◌, ◌≤◌};
ghost use Rattle.text.specs.Outputs.{HasRoom, Puts};
ghost use Rattle.coarsest_calls.specs.Answers.{read_coarsest};
ghost use Rattle.coarsest_report.specs.Report.{answer_of, found_lines};

use checks::Refusal;
use coarsest_calls::Coarsest;
use text::line::LINE_FEED;
use text::output::Output;

// The header, and the three numbers.
fn put_found(found: Coarsest, output: &mut Output)
    requires { HasRoom 100 output.old }
    ensures puts { Puts (found_lines found.step found.trials found.untried) output.old output.new }
    ensures upper_bound { output.new.at ≤ output.old.at + 100 }
{
    output.text(b"step,trials,untried\n");
    output.digits(found.step as u64);
    output.more(found.trials as u64);
    output.more(found.untried as u64);
    output.byte(LINE_FEED);
}

// What was found, or the line of a refusal.
pub fn put_answer(found: Result<Coarsest, Refusal>, output: &mut Output)
    requires { HasRoom 100 output.old }
    ensures puts { Puts (answer_of (read_coarsest found)) output.old output.new }
    ensures upper_bound { output.new.at ≤ output.old.at + 100 }
{
    match found {
        Ok(found) => put_found(found, output),
        Err(refusal) => output.refusal(refusal.number(), 0),
    }
}
