// The search's own logic, with a stand-in for a trial: a test of the step that is made up here.
ghost use Rattle.std.specs.Prelude.{◌≤◌};

use std::{fmt, io};

// Which steps pass: those up to one, that one alone, every other one from it on, or none.
#[derive(Clone, Copy)]
enum StandIn {
    UpTo(u32),
    Only(u32),
    Every(u32),
    Never,
}

impl fmt::Display for StandIn {
    fn fmt<W: fmt::Write>(&self, f: &mut fmt::Formatter<W>) -> fmt::Result {
        match *self {
            StandIn::UpTo(most) => write!(f, "up,{most}"),
            StandIn::Only(one) => write!(f, "only,{one}"),
            StandIn::Every(other) => write!(f, "every,{other}"),
            StandIn::Never => f.write_str("never"),
        }
    }
}

fn is_passed(trial: StandIn, step: u32) -> bool {
    match trial {
        StandIn::UpTo(most) => step <= most,
        StandIn::Only(one) => step == one,
        StandIn::Every(other) => step % 2 == other % 2,
        StandIn::Never => false,
    }
}

// A line for a distance: no trial, few, one fewer than there are steps above the least sure one, as many, more, and such as are 0 where upper bits are lost.
fn at(rt: &impl Print, trial: StandIn, allowed: u32) -> io::Result<()>
    requires { allowed ≤ 32 }
{
    print!(rt; "{trial},{allowed}")?;
    for budget in [
        0,
        1,
        2,
        17,
        1008,
        1009,
        2000,
        4294967296,
        18446744073709551615,
    ] {
        let found = step_search::find_coarsest(allowed, budget, |step| is_passed(trial, step));
        print!(rt; ",{},{},{}", found.step, found.trials, found.untried)?;
    }
    println!(rt; "")
}

// Up to a step: the first trials, the last that a budget allows, and the steps about the sure one.
fn thresholds(rt: &impl Print, allowed: u32) -> io::Result<()>
    requires { allowed ≤ 32 }
{
    for most in [
        1024,
        1023,
        1022,
        1008,
        1007,
        600,
        17,
        16,
        32 * allowed + 16,
        32 * allowed + 15,
    ] {
        at(rt, StandIn::UpTo(most), allowed)?;
    }
    Ok(())
}

// A step alone: above the sure one, next to it, itself, which is not tried, and below it.
fn alone(rt: &impl Print, allowed: u32) -> io::Result<()>
    requires { allowed ≤ 32 }
{
    for one in [1024, 600, 32 * allowed + 16, 32 * allowed + 15, 1] {
        at(rt, StandIn::Only(one), allowed)?;
    }
    Ok(())
}

// Where none passes, all above the sure step have failed once the budget allows it: no recording does that.
pub fn searches(rt: &impl Print) -> io::Result<()> {
    for allowed in 0..33 {
        thresholds(rt, allowed)?;
        alone(rt, allowed)?;
        at(rt, StandIn::Every(0), allowed)?;
        at(rt, StandIn::Every(1), allowed)?;
        at(rt, StandIn::Never, allowed)?;
    }
    Ok(())
}
