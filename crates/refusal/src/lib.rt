// Why an operation on areas is refused.
#![tactic(auto)]

ghost use Rattle.std.specs.Prelude.{◌≡◌};
ghost use Rattle.refusal.specs.Numbers.{number_of};

// The causes, in the order of their numbers.
#[derive(Clone, Copy, PartialEq, Eq)]
pub enum Refusal {
    PageNotSound,
    QueryCount,
    QueryOutOfRange,
    RunShort,
    RunNotSound,
    ConditionOutOfRange,
    NotWaiting,
    NotReached,
    ScratchShort,
    AnswersShort,
    LayersShort,
    SharedShort,
}

impl Refusal {
    // The number that the C interface hands back.
    pub fn number(self) -> u8
        ensures { result ≡ number_of self }
    {
        match self {
            Refusal::PageNotSound => 10,
            Refusal::QueryCount => 11,
            Refusal::QueryOutOfRange => 12,
            Refusal::RunShort => 13,
            Refusal::RunNotSound => 14,
            Refusal::ConditionOutOfRange => 15,
            Refusal::NotWaiting => 16,
            Refusal::NotReached => 17,
            Refusal::ScratchShort => 18,
            Refusal::AnswersShort => 19,
            Refusal::LayersShort => 31,
            Refusal::SharedShort => 60,
        }
    }
}
