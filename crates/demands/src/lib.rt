// What is claimed of the bank as a whole, over the definitions that the public contracts cite. Each function's contract is one claim, and its proof the theorem; none does anything. The examples
// are instances, so that it can be seen that what a claim asks for can be met.
#![tactic(auto)]

ghost use Rattle.demands.specs.CoarseExamples.{CoarseExamples};
ghost use Rattle.demands.specs.Demands.{
  Beyond,
  CoarsestFound,
  Demand1,
  Demand2,
  Demand3,
  EitherOrder,
  FloatsExact,
  LevelsKept,
  OneQ,
  SparseKept,
};
ghost use Rattle.demands.specs.FloatExamples.{FloatExamples};
ghost use Rattle.demands.specs.LevelExamples.{LevelExamples};
ghost use Rattle.demands.specs.ListExamples.{ListExamples};
ghost use Rattle.demands.specs.Listings.{ExampleListed, ListingReturned};
ghost use Rattle.demands.specs.OnAState.{StateFollowsStream};
ghost use Rattle.demands.specs.OrderExamples.{OrderExamples};
ghost use Rattle.demands.specs.PassedOver.{RefusedPassedOver};
ghost use Rattle.demands.specs.RecordingExamples.{RecordingExamples};
ghost use Rattle.demands.specs.ShareExamples.{ShareExamples};
ghost use Rattle.demands.specs.SparseExamples.{SparseExamples};
ghost use Rattle.demands.specs.Turned.{SignRule};
ghost use Rattle.demands.specs.Unchanged.{UnchangedBack};

/// Every call does its whole work or answers the number of the first cause that holds, in the documents' order, and a refusal leaves every buffer and stream as it was.
pub fn every_call_answers()
    ensures { Demand1 }
{}

/// Every coefficient, sample, tail entry, level and share and every byte of a page is the number that its rule gives. The short route lies within 16 units of the rule, the double one within 32.
pub fn every_number_defined()
    ensures { Demand2 }
{}

/// Every call over a recording gives the same samples, pages and shares from either order of its coefficients, and each order comes from the other without loss.
pub fn orders_answer_alike()
    ensures { EitherOrder }
{}

/// Sound comes back through any list of steps, refused ones among them, by value and on a state, and through the calls over whole recordings: each block with a bound of its own on the changes of its coefficients.
pub fn sound_returned()
    ensures { Demand3 }
{}

/// With one bound Q on all changes each sample that two taken blocks cover returns within (Q + 8) / 16, exactly up to Q = 7, with Q + 16 for Q where a block took the short route and Q + 32 where one took the double one.
pub fn returned_by_one_bound()
    ensures { OneQ }
{}

/// Beyond what is asked, each sample returns within (3Q + 36) / 64, exactly up to Q = 9, with Q + 7 for Q after the short route and Q + 14 after the double one.
pub fn sound_returned_closer()
    ensures { Beyond }
{}

/// A list of steps on a state answers as the list of steps on the stream that the state holds, step for step.
pub fn state_follows_stream()
    ensures { StateFollowsStream }
{}

/// A good block after a refused one answers as if the refused one had never come.
pub fn refused_passed_over()
    ensures { RefusedPassedOver }
{}

/// A recording's own coefficients are taken at every length and by every route that is offered there, and it comes back, by the direct route as it was.
pub fn unchanged_returned()
    ensures { UnchangedBack }
{}

/// A listing that is taken returns its own hops, each line behind its number.
pub fn listing_returned()
    ensures { ListingReturned }
{}

/// Stored as levels by a step table no coefficient moves by more than half its step, what comes back is taken, and each sample returns within the told distance.
pub fn levels_kept()
    ensures { LevelsKept }
{}

/// Where the changes of a block add up to T, each sample whose two blocks were analysed directly returns within (T + 4N) / 8N, exactly below 4N.
pub fn sparse_changes_kept()
    ensures { SparseKept }
{}

/// The step that the search returns keeps every sample within the allowed distance, every step that was tried and failed has a sample beyond it, and with none untried it is the largest that keeps it.
pub fn coarsest_step_found()
    ensures { CoarsestFound }
{}

/// Each float is its coefficient divided by 64, exactly; the highest and the lowest of a block occur in it, and no coefficient lies outside them.
pub fn floats_exact()
    ensures { FloatsExact }
{}

/// Sound with its sign turned codes to coefficients with their signs turned.
pub fn sign_rule()
    ensures { SignRule }
{}

/// Lists of steps at N = 12, refused ones among them: what they return, that their blocks are those of a recording, and what comes back.
pub fn list_examples()
    ensures { ListExamples }
{}

/// Whole recordings at N = 12, 24, 72 and 216: what is taken, what comes back, and what a page of them says.
pub fn recording_examples()
    ensures { RecordingExamples }
{}

/// A recording with one coefficient moved by 1,000 units returns within 10, and with one moved by 47 as it was.
pub fn sparse_examples()
    ensures { SparseExamples }
{}

/// A recording stored as levels by two tables returns within the told distance, brought as levels or as coefficients.
pub fn level_examples()
    ensures { LevelExamples }
{}

/// Blocks whose largest share is in the earlier or in the later one, equal shares, and a sample that did not move.
pub fn share_examples()
    ensures { ShareExamples }
{}

/// A recording in either order gives the same samples, page and share.
pub fn order_examples()
    ensures { OrderExamples }
{}

/// A recording whose coarsest step for a distance of 4 is 1,023, by two trials; by one trial the sure step is returned.
pub fn coarsest_examples()
    ensures { CoarseExamples }
{}

/// A block whose highest and lowest coefficient stand at the ends of the range, as floats.
pub fn float_examples()
    ensures { FloatExamples }
{}

/// A listing of three hops, byte for byte.
pub fn listing_example()
    ensures { ExampleListed }
{}
