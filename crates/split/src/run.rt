// The operands of an And.
ghost use Rattle.std.specs.Prelude.{◌≡◌};
ghost use Rattle.split.specs.Conjuncts.{and_run};

use lookup::numbers::Run;
use records::expressions::{Expression, NaryOp};

pub fn and_run(x: Expression) -> Option<Run>
    ensures { result ≡ and_run x }
{
    match x {
        Expression::Nary {
            op: NaryOp::And,
            first,
            count,
        } => Some(Run { first, count }),
        _ => None,
    }
}
