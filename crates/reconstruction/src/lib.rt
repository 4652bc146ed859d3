// How far the returned sound is from the sound recorded. Each function's contract is one claim, and its proof the theorem; none does anything.
#![tactic(auto)]

ghost use Rattle.reconstruction.specs.Returned.{HopReturned};
ghost use Rattle.reconstruction.specs.Stages.{StagesBounded};

/// Where the changes of each of two blocks add up to at most A, a sample of the hop that they share returns within (6A + 36N) / 64N; where each is at most Q, within (3Q + 36) / 64, exactly up to Q = 9. For any joint and every tabled N.
pub fn hop_returned()
    ensures { HopReturned }
{}

/// The rounding of X puts what the last division gets off by at most 3/64 of the half unit, the kernel's gram by 3/128 and the rounding of U by 3/(32N).
pub fn stages_bounded()
    ensures { StagesBounded }
{}
