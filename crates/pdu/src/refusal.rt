ghost use Rattle.std.specs.Prelude.{◌≡◌};
ghost use Rattle.pdu.specs.Answers.{refusal_no};

/// Why a call is refused: the answers of docs/RULES.md but for 0 (done) and 18 (an SD outside credit, which is a step).
#[derive(Clone, Copy, Debug, PartialEq, Eq)]
pub enum Refusal {
    /// Error U: a length that no PDU, or none of this type, has, or information over k.
    Length = 1,
    TypeZero = 2,
    OtherType = 3,
    ErrorQ = 4,
    ErrorR = 5,
    ErrorS = 6,
    ErrorT = 7,
    /// The lent output is shorter than what the call would write.
    NoRoom = 8,
    /// The message is longer than k.
    LongMessage = 9,
    /// B messages are kept.
    Full = 10,
    NothingToSend = 11,
    NoCredit = 12,
    PollFirst = 13,
    PollsOutstanding = 14,
    Stopped = 15,
    NothingInOrder = 16,
    /// The parameters or the lent state break a rule.
    Rules = 17,
    /// An encoder was given a number of 2^24 or more.
    NumberTooLarge = 19,
}

impl Refusal {
    /// The number of the answer.
    pub fn number(self) -> u32
        ensures { result ≡ refusal_no self }
    {
        self as u32
    }
}
