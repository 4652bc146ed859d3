// The coarsest step for a recording: the search with a stand-in for a trial, the public calls, and what the command prints, compared with what vectors/trials.py makes
// from the definitions.
#![tactic(auto)]

mod command;
mod recordings;
mod refused;
mod search;

use bank_report::code;
use filter_bank::{Coarsest, Refusal};
use std::io;

// What `coarsest_step` answers: its number, and the step, the trials and the untried steps, 0 where it is refused.
fn show(rt: &impl Print, outcome: Result<Coarsest, Refusal>) -> io::Result<()> {
    let code = code(&outcome);
    match outcome {
        Ok(found) => print!(rt; ",{code},{},{},{}", found.step, found.trials, found.untried),
        Err(_) => print!(rt; ",{code},0,0,0"),
    }
}

fn main(rt: HostRuntime) -> io::Result<()> {
    search::searches(&rt)?;
    recordings::recordings(&rt)?;
    refused::refusals(&rt)?;
    command::commands(&rt)
}
