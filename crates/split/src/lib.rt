// conjuncts of the source's analysis.rs: an And is taken apart into its operands, each of a smaller
// number.
#![tactic(auto)]

ghost use Rattle.std.specs.Prelude.{◌≡◌, ◌≤◌, length};
ghost use Rattle.le.specs.Fields.{onto};
ghost use Rattle.lookup.specs.Lookup.{operands_of};
ghost use Rattle.lookup.specs.Recursion.{below};
ghost use Rattle.sheet.specs.Sheet.{viewed};
ghost use Rattle.split.specs.Conjuncts.{flattened, conjuncts_by, itself, conjuncts};

use lookup::numbers::{Run, expression_of, operand_in, run_end};
use run::and_run;
use sheet::View;

mod run;

// The conjuncts' numbers at the front of `numbers`, and how many there are.
#[cycle(conjuncts)]
#[tactic(auto, using(crate::proofs::ConjunctLaws::alone, crate::proofs::ConjunctLaws::apart, crate::proofs::ConjunctLaws::stored_first))]
pub fn put_conjuncts(sheet: &View, e: u16, numbers: &mut [u16]) -> usize
    requires { length (conjuncts (viewed sheet.now) e) ≤ length numbers.old }
    ensures value { result ≡ length (conjuncts (viewed sheet.now) e) }
    ensures numbers_after { numbers.new ≡ onto (conjuncts (viewed sheet.now) e) numbers.old }
{
    match and_run(expression_of(sheet, e)) {
        Some(run) => put_operands(sheet, run, e, numbers),
        None => {
            numbers[0] = e;
            1
        }
    }
}

// Those of a run of operands. One that is not below the limit, which no accepted sheet has, is kept as it
// is. A loop, since no method of the library puts lists of any length one behind the other.
#[cycle(conjuncts)]
fn put_operands(sheet: &View, run: Run, limit: u16, numbers: &mut [u16]) -> usize
    requires { length (flattened (below (conjuncts_by (viewed sheet.now)) itself limit) (operands_of (viewed sheet.now) run.first run.count)) ≤ length numbers.old }
    ensures value { result ≡ length (flattened (below (conjuncts_by (viewed sheet.now)) itself limit) (operands_of (viewed sheet.now) run.first run.count)) }
    ensures numbers_after { numbers.new ≡ onto (flattened (below (conjuncts_by (viewed sheet.now)) itself limit) (operands_of (viewed sheet.now) run.first run.count)) numbers.old }
{
    let mut at: usize = 0;
    for i in usize::from(run.first)..run_end(sheet, run) {
        let o = operand_in(sheet, i);
        if o < limit {
            at += put_conjuncts(sheet, o, &mut numbers[at..]);
        } else {
            numbers[at] = o;
            at += 1;
        }
    }
    at
}
