// The refusals of document 01, and a rule that is kept or broken. Rules stand one behind the other in the order of the
// checks, each by `?`: the first that is broken tells the refusal.
#![tactic(auto)]

ghost use Rattle.std.specs.Prelude.{◌≡◌};
ghost use Rattle.rules.specs.Rules.{ask, refusal_number, outcome_number};

// Why a call is refused, in the order of their numbers.
#[derive(Clone, Copy, Debug, PartialEq, Eq)]
pub enum Refusal {
    // The sheet is too long.
    Length,
    // A record, a head or a count is cut off.
    Truncated,
    // A count outside its limits.
    Count,
    // A figure outside its range.
    Figure,
    // A scalar that breaks its rules.
    Scalar,
    // A code that stands for nothing, or a field that is not as its kind wants it.
    Code,
    // A column, a table or a value that stands out of order, is too large or stands twice.
    Order,
    // A number that names no record, or none that it may name.
    Reference,
    // A run of operands that is out of order or does not fill its section, or an operand that is shared.
    OperandRun,
    // Bytes behind the last section.
    Trailing,
    // The call's expression is not in the sheet.
    Expression,
    // The output is shorter than the answer.
    Output,
}

// The number that document 01 gives it.
impl From<Refusal> for u8 {
    ghost from_gives = { λ refusal n. n ≡ refusal_number refusal };

    fn from(refusal: Refusal) -> u8 {
        match refusal {
            Refusal::Length => 1,
            Refusal::Truncated => 2,
            Refusal::Count => 3,
            Refusal::Figure => 4,
            Refusal::Scalar => 5,
            Refusal::Code => 6,
            Refusal::Order => 7,
            Refusal::Reference => 8,
            Refusal::OperandRun => 9,
            Refusal::Trailing => 10,
            Refusal::Expression => 11,
            Refusal::Output => 12,
        }
    }
}

// A rule: the refusal where it is broken.
pub fn ask(kept: bool, refusal: Refusal) -> Result<(), Refusal>
    ensures { outcome_number result ≡ ask kept (refusal_number refusal) }
{
    if kept { Ok(()) } else { Err(refusal) }
}
