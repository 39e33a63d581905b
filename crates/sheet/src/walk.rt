// The records of a section, one behind the other. The bounds of places and of tallies say that the sums which make the
// next ones fit a usize; each sum is a new place, so a type that held the bound would owe it anew.
ghost use Rattle.std.specs.Prelude.{◌≡◌, ◌<◌, ◌≤◌, ◌+◌, ◌^◌, length};
ghost use Rattle.le.specs.Fields.{u16_at};
ghost use Rattle.rules.specs.Rules.{first_refusal, outcome_number};
ghost use Rattle.layout.specs.Places.{count_size};
ghost use Rattle.sheet.specs.Order.{record_at};
ghost use Rattle.sheet.specs.Rules.{count_within, count_refusal, record_refusal, records_refusal, section_refusal};
ghost use Rattle.sheet.specs.Table.{section_of};
ghost use Rattle.sheet.specs.Walk.{RunsKnown, OwnerWithin, next_tally, tally_before, reached_of, reached};

use crate::order::Kind;
use crate::table::{Tally, section_of, shape_end};
use expression_rules::expressions::expression_refusal;
use expression_rules::operands::{
    Expressions, conjunct_refusal, fill_refusal, nary_from, operand_refusal, run_length,
};
use layout::{COUNT_SIZE, SKETCH_COUNT_OFFSET};
use le::reads::u16_at;
use record_rules::catalog::{key_refusal, table_refusal};
use record_rules::classes::class_refusal;
use record_rules::columns::column_refusal;
use record_rules::fields::whole;
use record_rules::rows::{rows_refusal, setting_refusal};
use rules::{Refusal, ask};
use sketch_rules::sketch_refusal;

// A section of a sheet: the bytes, what its records are, and where the counts of the sketches, of the expressions and
// its own stand. Where operands are judged, the expressions have been.
#[derive(Clone, Copy)]
pub struct Walk<'a> {
    pub s: &'a [u8],
    pub kind: Kind,
    pub sketches: usize,
    pub expressions: u16,
    pub start: usize,
    ghost known: { RunsKnown kind s.now expressions },
}

// Where record i of a section stands, and the tally before it.
#[derive(Clone, Copy)]
pub struct Place {
    pub i: usize,
    pub at: usize,
    pub tally: usize,
}

#[tactic(auto, unfolding(crate::specs::Rules::count_within))]
fn count_within(kind: Kind, n: u16) -> bool
    ensures { result ≡ count_within kind n }
{
    let section = section_of(kind);
    (section.least..=section.most).contains(&n)
}

// Where runs fill the section, they hold as many as it has.
#[tactic(auto, unfolding(crate::specs::Rules::count_refusal))]
fn count_refusal(walk: &Walk) -> Result<(), Refusal>
    ensures { outcome_number result ≡ count_refusal walk.now.kind walk.now.s.now walk.now.expressions walk.now.start }
{
    let s = walk.s;
    whole(COUNT_SIZE, s, walk.start)?;
    let n = u16_at(s, walk.start);
    ask(count_within(walk.kind, n), Refusal::Count)?;
    if section_of(walk.kind).filled {
        let expressions = Expressions {
            s,
            start: usize::from(walk.expressions),
        };
        fill_refusal(&expressions, n)
    } else {
        Ok(())
    }
}

// The record at a place; the tally behind it is next. By cases: the kinds' rules ask for unlike things.
#[tactic(auto, unfolding(crate::specs::Rules::record_refusal))]
fn record_refusal(walk: &Walk, place: Place, next: usize) -> Result<(), Refusal>
    requires { (((place.at < 2 ^ 38) × (walk.now.start < 2 ^ 38)) × (place.i < 2 ^ 16)) × (((place.tally < 2 ^ 40) × (place.tally ≡ tally_before walk.now.kind walk.now.s.now walk.now.expressions walk.now.start place.i)) × (next ≡ next_tally (section_of walk.now.kind).tally walk.now.s.now walk.now.expressions place.tally place.i place.at)) }
    ensures { outcome_number result ≡ record_refusal walk.now.kind walk.now.s.now walk.now.sketches walk.now.expressions walk.now.start place.i place.at }
{
    let s = walk.s;
    let expressions = Expressions {
        s,
        start: usize::from(walk.expressions),
    };
    let Place { i, at, tally } = place;
    match walk.kind {
        Kind::Rows => rows_refusal(s, at),
        Kind::Settings => setting_refusal(s, i, at),
        Kind::Sketches => sketch_refusal(s, tally, at),
        Kind::Tables => table_refusal(s, i, at),
        Kind::Keys => key_refusal(s, at),
        Kind::Columns => column_refusal(s, u16_at(s, walk.sketches), i, at),
        Kind::Classes => class_refusal(s, at),
        Kind::Expressions => expression_refusal(s, tally, i, at),
        Kind::Operands => operand_refusal(&expressions, next, walk.start + COUNT_SIZE, i),
        Kind::Conjuncts => conjunct_refusal(s, expressions.start, at),
    }
}

// The tally behind the record at a place.
#[tactic(auto, using(le::proofs::FieldLaws::field_below), unfolding(crate::specs::Walk::next_tally))]
fn next_tally(walk: &Walk, carried: Tally, place: Place) -> usize
    requires { (place.at < 2 ^ 38) × ((place.tally < 2 ^ 40) × OwnerWithin carried walk.now.s.now walk.now.expressions place.tally) }
    ensures { (result ≡ next_tally carried walk.now.s.now walk.now.expressions place.tally place.i place.at) × (result < place.tally + 2 ^ 16) }
{
    let s = walk.s;
    let Place { i, at, tally } = place;
    match carried {
        Tally::Nothing => 0,
        Tally::Items => tally + usize::from(u16_at(s, at + SKETCH_COUNT_OFFSET)),
        Tally::Runs => tally + run_length(s, at),
        Tally::Owner => {
            let expressions = Expressions {
                s,
                start: usize::from(walk.expressions),
            };
            nary_from(&expressions, i, tally)
        }
    }
}

#[tactic(auto, using(crate::proofs::RoomLaws::record_room, crate::proofs::PlaceLaws::record_next, crate::proofs::WalkLaws::tally_next, crate::proofs::WalkLaws::operands_within, crate::proofs::WalkLaws::record_told, crate::proofs::VerdictLaws::reached_refused, crate::proofs::VerdictLaws::reached_end, rules::proofs::RuleLaws::rest_next, rules::proofs::RuleLaws::rest_none, rules::proofs::LoopLaws::number_not, rules::proofs::LoopLaws::refused_at), unfolding(crate::specs::Order::record_at, crate::specs::Walk::tally_before, crate::specs::Order::record_end))]
fn walk_records(walk: &Walk, n: usize) -> Result<usize, Refusal>
    requires { ((length walk.now.s.now < 2 ^ 16) × (walk.now.start + count_size ≤ length walk.now.s.now)) × (n < 2 ^ 16) }
    ensures { reached_of result ≡ reached (first_refusal (records_refusal walk.now.kind walk.now.s.now walk.now.sketches walk.now.expressions walk.now.start) 0 n) (record_at walk.now.kind walk.now.s.now walk.now.start n) }
{
    let s = walk.s;
    let section = section_of(walk.kind);
    let mut at = walk.start + COUNT_SIZE;
    let mut tally: usize = 0;
    // A loop and no chain: a place and a tally are carried from record to record, and the first refusal ends it.
    for i in 0..n {
        let place = Place { i, at, tally };
        tally = next_tally(walk, section.tally, place);
        record_refusal(walk, place, tally)?;
        at = shape_end(s, section.shape, at);
    }
    Ok(at)
}

// Where the section behind stands.
#[tactic(auto, using(rules::proofs::LoopLaws::number_not, crate::proofs::RoomLaws::count_room, crate::proofs::SectionLaws::section_broken, crate::proofs::SectionLaws::section_kept, crate::proofs::VerdictLaws::reached_refused))]
pub fn section(walk: &Walk) -> Result<usize, Refusal>
    requires { (length walk.now.s.now < 2 ^ 16) × (walk.now.start ≤ length walk.now.s.now) }
    ensures { reached_of result ≡ reached (section_refusal walk.now.kind walk.now.s.now walk.now.sketches walk.now.expressions walk.now.start) (record_at walk.now.kind walk.now.s.now walk.now.start (u16_at walk.now.s.now walk.now.start)) }
{
    count_refusal(walk)?;
    walk_records(walk, usize::from(u16_at(walk.s, walk.start)))
}
