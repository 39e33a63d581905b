// The order in which a join's edges are taken up: `equality_edges.sort_by` of the source's analysis.rs.
#![tactic(auto)]

ghost use Rattle.std.specs.Prelude.{◌≡◌, ◌<◌, ◌≤◌, length, get_or, drop};
ghost use Rattle.std.specs.List.{prefix_len};
ghost use Rattle.layout.specs.Places.{conjunct_limit};
ghost use Rattle.edge_order.specs.Sort.{insert};
ghost use Rattle.edge_order.specs.Order.{no_key, key_before, number_before, edge_order};

// What an edge is ordered by. The source's edge fixes the fields, and they are compared with its.
#[derive(Clone, Copy)]
pub struct EdgeKey {
    pub distinct: f64,
    pub null_safe: bool,
}

// Of an edge that is not there.
pub const NO_KEY: EdgeKey = EdgeKey {
    distinct: 0.0,
    null_safe: false,
};

impl EdgeKey {
    // By falling distinct, and of equal ones ordinary edges first. By `partial_cmp` and `then` it would be longer.
    #[tactic(auto, unfolding(crate::specs::Order::key_before, crate::specs::Order::stands_before))]
    fn stands_before(self, other: EdgeKey) -> bool
        ensures { result ≡ key_before self other }
    {
        other.distinct < self.distinct
            || (other.distinct == self.distinct && !self.null_safe && other.null_safe)
    }
}

fn key_of(keys: &[EdgeKey], i: u8) -> EdgeKey
    ensures { result ≡ get_or keys.now i no_key }
{
    keys.get(usize::from(i)).copied().unwrap_or(NO_KEY)
}

// How many at the front of a list stand before a key.
fn before_count(keys: &[EdgeKey], order: &[u8], key: EdgeKey) -> usize
    ensures value { result ≡ prefix_len (λ y. key_before (get_or keys.now y no_key) key) order.now }
    ensures within { result ≤ length order.now }
{
    order
        .iter()
        .take_while(|&&y| key_of(keys, y).stands_before(key))
        .count()
}

// x goes into the sorted rest behind the first place; those that stand before it move one place to the front.
fn place(keys: &[EdgeKey], order: &mut [u8], x: u8)
    requires { 0 < length order.old }
    ensures { order.new ≡ insert (number_before keys.now) x (drop 1 order.old) }
{
    let n = before_count(keys, &order[1..], key_of(keys, x));
    order.copy_within(1..n + 1, 0);
    order[n] = x;
}

// The numbers of as many edges as there are places, in their order. A NaN among the distincts leaves no order that a
// sort of the library could promise, and its stable ones take heap: so the numbers are inserted one by one.
#[tactic(auto, using(crate::proofs::OrderLaws::order_first, crate::proofs::OrderLaws::order_next, crate::proofs::OrderLaws::order_all), unfolding(crate::specs::Order::edge_order))]
pub fn edge_order(keys: &[EdgeKey], order: &mut [u8])
    requires { length order.old ≤ conjunct_limit }
    ensures { order.new ≡ edge_order keys.now (length order.old) }
{
    for k in (0..order.len()).rev() {
        place(keys, &mut order[k..], k as u8);
    }
}
