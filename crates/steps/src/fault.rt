// Why a table is turned away, and where.
ghost use Rattle.std.specs.Prelude.{◌≡◌};

use refusals::Refusal;

/// A table that is turned away: Line (9), Gap (10) or Overlap (11), with the line at fault, counted from 1. A table that ends too early is a gap with line 0.
#[derive(Clone, Copy, Debug, PartialEq, Eq)]
pub struct Fault {
    pub cause: Refusal,
    pub line: usize,
}

impl Fault {
    pub fn new(cause: Refusal, line: usize) -> Fault
        ensures cause { result.cause ≡ cause }
        ensures line { result.line ≡ line }
    {
        Fault { cause, line }
    }
}

impl From<Fault> for Refusal {
    ghost from_gives = { λ fault cause. cause ≡ fault.cause };

    fn from(fault: Fault) -> Refusal {
        fault.cause
    }
}
