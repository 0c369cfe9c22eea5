// Why a call is refused, and the numbers of the refusals.
#![tactic(auto)]

ghost use Rattle.std.specs.Prelude.{◌≡◌};
ghost use Rattle.refusals.specs.Refusals.{number_of};

// The refusals that the papers number. Where several hold, the one of the smallest number is given.
#[derive(Clone, Copy, Debug, PartialEq, Eq)]
pub enum Refusal {
    // record unsound, or its log below 1024 words
    Unsound,
    // founding: n, own office or weights outside the limits
    Founding,
    // a line or a code that no entry has
    NoEntry,
    // an own tail that is 32 long: no longer given, since such a tail has the own office's part
    TailFull,
    // undropped entries and own tail make 1024, or all settled ones and it 2^63
    LogFull,
    // output shorter than what is to be written
    OutputShort,
    // not a message of the layout, or a number in it outside the limits
    NoMessage,
    // the message's n or founding weights differ from the record's
    OtherOffices,
    // the sender is the own office
    OwnMessage,
    // the settled logs differ in the part that both still have
    OtherLog,
    // the own tail has the own office's part
    PartFull,
    // the bytes are no household records
    NoHouseholds,
    // p is outside what is settled and not dropped, or over 64 lines are named
    NoPlace,
    // the bytes are no vector of n counts
    NoVector,
    // a lowest weight exceeds its highest
    NoWeights,
    // the message's log begins past the own one
    BeginsPast,
    // the message's log ends inside what the own one has dropped
    EndsInside,
}

impl Refusal {
    // The number that a call answers. A method and no `From`: the name says which number it is.
    pub fn number(self) -> u32
        ensures { result ≡ number_of self }
    {
        match self {
            Refusal::Unsound => 1,
            Refusal::Founding => 2,
            Refusal::NoEntry => 3,
            Refusal::TailFull => 4,
            Refusal::LogFull => 5,
            Refusal::OutputShort => 6,
            Refusal::NoMessage => 7,
            Refusal::OtherOffices => 8,
            Refusal::OwnMessage => 9,
            Refusal::OtherLog => 10,
            Refusal::PartFull => 11,
            Refusal::NoHouseholds => 12,
            Refusal::NoPlace => 13,
            Refusal::NoVector => 14,
            Refusal::NoWeights => 15,
            Refusal::BeginsPast => 16,
            Refusal::EndsInside => 17,
        }
    }
}
