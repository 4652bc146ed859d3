// The joints between lines: what is found so far, with one line more, and the end.
ghost use Rattle.std.specs.Prelude.{◌≡◌};
ghost use Rattle.steps.specs.Pass.{joint_fault, closing_fault};
ghost use Rattle.steps.specs.Answers.{verdict_of};

use crate::fault::Fault;
use refusals::Refusal;

// What is found with one line more, which starts at `first`. The first fault stays, since later lines are still read for 9.
#[tactic(auto, unfolding(crate::specs::Pass::joint_fault))]
pub fn joint(found: Result<(), Fault>, line: usize, next: usize, first: usize) -> Result<(), Fault>
    ensures { verdict_of result ≡ joint_fault (verdict_of found) line next first }
{
    found?;
    if next < first {
        return Err(Fault::new(Refusal::Gap, line));
    }
    if first < next {
        return Err(Fault::new(Refusal::Overlap, line));
    }
    Ok(())
}

// What is found behind the last line.
#[tactic(auto, unfolding(crate::specs::Pass::closing_fault))]
pub fn closing(found: Result<(), Fault>, next: usize, m: usize) -> Result<(), Fault>
    ensures { verdict_of result ≡ closing_fault (verdict_of found) next m }
{
    found?;
    if next == m {
        return Ok(());
    }
    Err(Fault::new(Refusal::Gap, 0))
}
