// Demand 3 of the entry: its definitions stand in specs/Claim.antt and specs/Demand.antt.
#![tactic(auto)]

ghost use Rattle.std.specs.Prelude.{ℕ, ◌<◌, ◌^◌, ◌≡◌, take, Ok};
ghost use Rattle.answers.specs.Answers.{answer_of, answered, leaves, answer_number, Comes};
ghost use Rattle.join_answer.specs.Join.{join_result};
ghost use Rattle.demand.specs.Claim.{TwoJoins};
ghost use Rattle.demand.specs.Demand.{join_in};

use answers::Answer;

// Any two joins, asked of the entry one after the other: each answer and output is the entry's.
pub fn two_joins(a: &[u8], b: &[u8], x: &mut [u8], y: &mut [u8]) -> (Answer, Answer)
    ensures first { Comes (join_result a.now) x.old (answer_of result.0) x.new }
    ensures second { Comes (join_result b.now) y.old (answer_of result.1) y.new }
    ensures two_joins { (m n : ℕ) → result.0 ≡ Ok m → result.1 ≡ Ok n → TwoJoins (join_in a.now) (join_in b.now) (take m x.new) (take n y.new) }
{
    let first = estimates::join(a, x);
    let second = estimates::join(b, y);
    (first, second)
}

// The same of the entry for other languages: a number below 2^32 is a length.
pub fn two_numbers(a: &[u8], b: &[u8], x: &mut [u8], y: &mut [u8]) -> (u64, u64)
    ensures first_value { (result.0 ≡ answer_number (answered (join_result a.now) x.old)) × (x.new ≡ leaves (join_result a.now) x.old) }
    ensures second_value { (result.1 ≡ answer_number (answered (join_result b.now) y.old)) × (y.new ≡ leaves (join_result b.now) y.old) }
    ensures two_joins { result.0 < 2 ^ 32 → result.1 < 2 ^ 32 → TwoJoins (join_in a.now) (join_in b.now) (take result.0 x.new) (take result.1 y.new) }
{
    let first = estimates::estimates_join(a, x);
    let second = estimates::estimates_join(b, y);
    (first, second)
}
