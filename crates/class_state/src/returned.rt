// What is returned: the classes of two columns or more, ascending by the column at their root.
ghost use Rattle.std.specs.Prelude.{◌≡◌, cond, [], ◌*◌, ◌≤◌, length};
ghost use Rattle.le.specs.Fields.{onto};
ghost use Rattle.records.specs.Lists.{tabulate};
ghost use Rattle.layout.specs.Places.{column_limit};
ghost use Rattle.class_state.specs.State.{members, is_returned, into_classes};
ghost use Rattle.class_state.specs.Bytes.{class_bytes, classes_bytes};
ghost use Rattle.class_state.specs.Sizes.{member_count, class_size, returned_size, size_at_root, returned_count, counts_size};

use crate::EquivalenceClassState;
use crate::members::{Members, put_members};
use estimate::Estimate;
use estimate::bytes::put_estimate;
use layout::{CLASS_DISTINCT_OFFSET, CLASS_HEAD_SIZE, CLASS_LEAST, COLUMN_LIMIT, NUMBER_SIZE};
use le::writes::put_u16;

// How many classes are returned, by how many columns each root has.
pub fn returned_count(counts: &[u8]) -> usize
    ensures { result ≡ returned_count counts.now }
{
    counts
        .iter()
        .filter(|&&count| count >= CLASS_LEAST as u8)
        .count()
}

// The bytes of a class of so many columns, none if it is not returned.
fn returned_size(count: u8) -> u32
    ensures { (result ≡ returned_size count) × (result ≤ class_size 255) }
{
    if count >= CLASS_LEAST as u8 {
        return CLASS_HEAD_SIZE as u32 + NUMBER_SIZE as u32 * u32::from(count);
    }
    0
}

// How many bytes they take.
pub fn counts_size(counts: &[u8]) -> usize
    requires { length counts.now ≡ column_limit }
    ensures value { result ≡ counts_size counts.now }
    ensures upper_bound { result ≤ column_limit * class_size 255 }
{
    let size: u32 = counts.iter().map(|&count| returned_size(count)).sum();
    size as usize
}

// A class and its distinct.
fn put_class(class: &Members, distinct: Estimate, out: &mut [u8]) -> usize
    requires { size_at_root class.now.roots.now class.now.root ≤ length out.old }
    ensures value { result ≡ size_at_root class.now.roots.now class.now.root }
    ensures out_after { out.new ≡ onto (class_bytes (record { columns = members class.now.roots.now class.now.root; distinct = distinct })) out.old }
{
    put_u16(out, u16::from(class.count));
    put_estimate(&mut out[CLASS_DISTINCT_OFFSET..], distinct);
    CLASS_HEAD_SIZE + put_members(class, &mut out[CLASS_HEAD_SIZE..])
}

// The same, if it is returned.
#[tactic(auto, using(crate::proofs::ReturnedLaws::bytes_not), unfolding(le::specs::Fields::onto))]
pub fn put_returned(class: &Members, distinct: Estimate, out: &mut [u8]) -> usize
    requires { returned_size (member_count class.now.roots.now class.now.root) ≤ length out.old }
    ensures value { result ≡ returned_size (member_count class.now.roots.now class.now.root) }
    ensures out_after { out.new ≡ onto (cond (is_returned class.now.roots.now class.now.root) (class_bytes (record { columns = members class.now.roots.now class.now.root; distinct = distinct })) []) out.old }
{
    if class.count >= CLASS_LEAST as u8 {
        return put_class(class, distinct, out);
    }
    0
}

// All that are returned. How many bytes they take is counted once, for the length of an answer and to know
// here where to end. A loop, since each class is written where the one before it ended.
pub fn put_classes(state: &EquivalenceClassState, counts: &[u8], size: usize, out: &mut [u8])
    requires { (counts.now ≡ tabulate (member_count state.now.roots) column_limit) × (size ≡ counts_size counts.now) × (counts_size counts.now ≤ length out.old) }
    ensures { out.new ≡ onto (classes_bytes (into_classes state.now)) out.old }
{
    let mut at: usize = 0;
    for (root, &count) in counts.iter().enumerate() {
        if at == size {
            return;
        }
        let class = Members {
            roots: &state.roots,
            root: root as u8,
            count,
        };
        let distinct = state.distincts[root];
        at += put_returned(&class, distinct, &mut out[at..]);
    }
}
