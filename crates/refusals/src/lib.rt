// Why a call is refused: the causes of the documents, and the number that they give each.
#![tactic(auto)]

ghost use Rattle.std.specs.Prelude.{◌≡◌};
ghost use Rattle.refusals.specs.Answers.{number_of, code_of, refused_unless};

/// Why a call is refused.
#[derive(Clone, Copy, Debug, PartialEq, Eq, Hash)]
pub enum Refusal {
    /// The length of a block is none that is offered.
    Length = 1,
    /// A buffer, or a number of hops, has not the size that is stated, or a place or a hop lies outside.
    Size = 2,
    /// A coefficient is out of range.
    Coefficient = 3,
    /// A stream is not sound.
    Stream = 4,
    /// A block's number is not the expected one.
    Number = 7,
    /// A joint's shape is above 1, or not the expected one.
    Shape = 8,
    /// A line of a step table cannot be read.
    Line = 9,
    /// A step table leaves a coefficient out.
    Gap = 10,
    /// A step table gives a coefficient two steps.
    Overlap = 11,
    /// A step is out of reach.
    Distance = 12,
}

impl Refusal {
    /// The number that the documents give.
    pub fn number(self) -> u32
        ensures { result ≡ number_of self }
    {
        self as u32
    }
}

/// What a call answers as a number: 0 where it was taken. For the calls for C.
pub fn code(outcome: Result<(), Refusal>) -> u32
    ensures { result ≡ code_of outcome }
{
    match outcome {
        Ok(()) => 0,
        Err(refusal) => refusal.number(),
    }
}

/// Ok where the test holds.
pub fn refuse_unless(holds: bool, refusal: Refusal) -> Result<(), Refusal>
    ensures { result ≡ refused_unless holds refusal }
{
    if holds { Ok(()) } else { Err(refusal) }
}
