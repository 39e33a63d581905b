// The parts of a join's answer, each to the front of what is lent.
#![tactic(auto)]

ghost use Rattle.std.specs.Prelude.{◌≡◌, ◌+◌, ◌*◌, ◌/◌, ◌≤◌, ◌++◌, length};
ghost use Rattle.le.specs.Fields.{onto};
ghost use Rattle.layout.specs.Places.{count_size, number_size, coverage_size, coverages_size, figures_size};
ghost use Rattle.number_bytes.specs.Numbers.{counted, counted_numbers};
ghost use Rattle.equality_pairs.specs.NonNull.{marked_columns};
ghost use Rattle.join_parts.specs.Parts.{figures_bytes};

use equality_pairs::marked::{Marked, put_marked};
use estimate::Estimate;
use estimate::bytes::put_estimate;
use layout::{COUNT_SIZE, COVERAGE_SIZE, FIGURES_MATCH_OFFSET, FIGURES_RESIDUAL_OFFSET};
use le::floats::put_f64;
use le::writes::put_u16;

pub mod conjuncts;

// All bytes of `from`.
#[tactic(auto, unfolding(le::specs::Fields::onto))]
fn put_bytes(from: &[u8], out: &mut [u8])
    requires { length from.now ≤ length out.old }
    ensures { out.new ≡ onto from.now out.old }
{
    out[..from.len()].copy_from_slice(from);
}

// The figures of a join's answer: the record that is written, so the three stand singly.
#[derive(Clone, Copy)]
pub struct Figures {
    pub selectivity: Estimate,
    pub match_probability: Estimate,
    pub residual_selectivity: f64,
}

fn put_figures(figures: Figures, out: &mut [u8])
    requires { figures_size ≤ length out.old }
    ensures { out.new ≡ onto (figures_bytes figures.selectivity figures.match_probability figures.residual_selectivity) out.old }
{
    put_estimate(out, figures.selectivity);
    put_estimate(&mut out[FIGURES_MATCH_OFFSET..], figures.match_probability);
    put_f64(
        &mut out[FIGURES_RESIDUAL_OFFSET..],
        figures.residual_selectivity,
    );
}

#[tactic(auto, using(crate::proofs::PartLaws::counted_written))]
pub fn put_figures_part(figures: Figures, out: &mut [u8])
    requires { count_size + figures_size ≤ length out.old }
    ensures { out.new ≡ onto (counted 1 (figures_bytes figures.selectivity figures.match_probability figures.residual_selectivity)) out.old }
{
    put_u16(out, 1);
    put_figures(figures, &mut out[COUNT_SIZE..]);
}

// The bytes of a join's coverages, and how many coverages they are.
#[tactic(auto, using(crate::proofs::PartLaws::counted_written))]
fn put_coverages_part(coverages: &[u8], out: &mut [u8]) -> usize
    requires { (length coverages.now ≤ coverages_size) × (count_size + length coverages.now ≤ length out.old) }
    ensures value { result ≡ count_size + length coverages.now }
    ensures out_after { out.new ≡ onto (counted (length coverages.now / coverage_size) coverages.now) out.old }
{
    put_u16(out, (coverages.len() / COVERAGE_SIZE) as u16);
    put_bytes(coverages, &mut out[COUNT_SIZE..]);
    COUNT_SIZE + coverages.len()
}

// The non-null columns.
#[tactic(auto, using(crate::proofs::PartLaws::counted_written, equality_pairs::proofs::MarkedLaws::marked_below))]
fn put_columns_part(marked: &Marked, out: &mut [u8])
    requires { count_size + number_size * length (marked_columns marked.now.marks.now) ≤ length out.old }
    ensures { out.new ≡ onto (counted_numbers (marked_columns marked.now.marks.now)) out.old }
{
    put_u16(out, marked.count as u16);
    put_marked(marked, &mut out[COUNT_SIZE..]);
}

// The coverages, then the non-null columns.
#[tactic(auto, using(le::proofs::OntoLaws::onto_part, number_bytes::proofs::NumberLaws::counted_length))]
pub fn put_behind_classes(coverages: &[u8], marked: &Marked, out: &mut [u8])
    requires { (length coverages.now ≤ coverages_size) × (count_size + length coverages.now + (count_size + number_size * length (marked_columns marked.now.marks.now)) ≤ length out.old) }
    ensures { out.new ≡ onto (counted (length coverages.now / coverage_size) coverages.now ++ counted_numbers (marked_columns marked.now.marks.now)) out.old }
{
    let at = put_coverages_part(coverages, out);
    put_columns_part(marked, &mut out[at..]);
}
