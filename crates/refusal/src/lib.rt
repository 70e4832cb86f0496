// Document 01's refusal list, a refusal, and the first of two faults.
#![tactic(auto)]

ghost use Rattle.std.specs.Prelude.{◌≡◌};
ghost use Rattle.refusal.specs.RefusalList.{number_of, cause_numbered};
ghost use Rattle.refusal.specs.Fault.{earlier_of, rule_of};
ghost use Rattle.refusal.specs.Nowhere.{nowhere};

// Why something is refused: a variant for each row of the refusal list, in its order.
#[derive(Clone, Copy)]
pub enum Cause {
    EditionUnknown,
    OutputTooShort,
    NoLineEnd,
    KindUnknown,
    KindNotAllowedHere,
    WrongWidth,
    ByteNotAllowed,
    ValueNotAllowed,
    SequenceWrong,
    AmountsDisagree,
    TrailerDisagrees,
    EndsTooEarly,
    BytesAfterTheEnd,
    FieldNotOffered,
    NotADaySheet,
    SheetVersionUnknown,
    SheetNumbersNotAllowed,
    EditionRetired,
}

// A refusal: its cause, the record's number from 1, and the column; 0 where the list gives none.
#[derive(Clone, Copy)]
pub struct Refusal {
    pub cause: Cause,
    pub record: u64,
    pub column: u64,
}

impl Refusal {
    // A refusal of no record and no column: what is asked is refused as a whole.
    pub fn nowhere(cause: Cause) -> Refusal
        ensures { result ≡ nowhere cause }
    {
        Refusal {
            cause,
            record: 0,
            column: 0,
        }
    }
}

// What is wrong with one record: the cause, and its column. What judges one answers `Result<(), Fault>`.
#[derive(Clone, Copy)]
pub struct Fault {
    pub cause: Cause,
    pub column: u64,
}

// What a question answers: what it found, or why it refuses.
pub type Answer<A> = Result<A, Refusal>;

// The same while a file comes: none as long as nothing is refused and the end has not come.
pub type Progress<A> = Option<Answer<A>>;

// The causes in the list's order.
const LIST: [Cause; 18] = [
    Cause::EditionUnknown,
    Cause::OutputTooShort,
    Cause::NoLineEnd,
    Cause::KindUnknown,
    Cause::KindNotAllowedHere,
    Cause::WrongWidth,
    Cause::ByteNotAllowed,
    Cause::ValueNotAllowed,
    Cause::SequenceWrong,
    Cause::AmountsDisagree,
    Cause::TrailerDisagrees,
    Cause::EndsTooEarly,
    Cause::BytesAfterTheEnd,
    Cause::FieldNotOffered,
    Cause::NotADaySheet,
    Cause::SheetVersionUnknown,
    Cause::SheetNumbersNotAllowed,
    Cause::EditionRetired,
];

impl Cause {
    // The number that the list gives it. A method and no `From`: the rows and `answers` cite its contract under this name.
    pub fn number(self) -> u64
        ensures { result ≡ number_of self }
    {
        match self {
            Cause::EditionUnknown => 1,
            Cause::OutputTooShort => 2,
            Cause::NoLineEnd => 3,
            Cause::KindUnknown => 4,
            Cause::KindNotAllowedHere => 5,
            Cause::WrongWidth => 6,
            Cause::ByteNotAllowed => 7,
            Cause::ValueNotAllowed => 8,
            Cause::SequenceWrong => 9,
            Cause::AmountsDisagree => 10,
            Cause::TrailerDisagrees => 11,
            Cause::EndsTooEarly => 12,
            Cause::BytesAfterTheEnd => 13,
            Cause::FieldNotOffered => 14,
            Cause::NotADaySheet => 15,
            Cause::SheetVersionUnknown => 16,
            Cause::SheetNumbersNotAllowed => 17,
            Cause::EditionRetired => 22,
        }
    }

    // The cause that the list has under a number; its first where it has none, so that any number is taken: a `TryFrom` would refuse some.
    pub fn numbered(number: u64) -> Cause
        ensures { result ≡ cause_numbered number }
    {
        for cause in LIST {
            if cause.number() == number {
                return cause;
            }
        }
        Cause::EditionUnknown
    }
}

// The fault of one rule: none where it holds.
pub fn rule(cause: Cause, column: u64, holds: bool) -> Result<(), Fault>
    ensures { result ≡ rule_of cause column holds }
{
    if holds {
        Ok(())
    } else {
        Err(Fault { cause, column })
    }
}

// The first of two faults: that of the first, unless it has none.
pub fn earlier(first: Result<(), Fault>, second: Result<(), Fault>) -> Result<(), Fault>
    ensures { result ≡ earlier_of first second }
{
    first.and(second)
}
