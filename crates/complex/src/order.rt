// Total orders, the one search in a list that ascends, and the lexicographic orders of edges and triangles.
ghost use Rattle.std.specs.Prelude.{◌≡◌, Bool, true, false};
ghost use Rattle.std.specs.Ordering.{MatchOrdering};
ghost use Rattle.complex.specs.OrderLaws.{edge_apart, edge_chained, triangle_apart, triangle_chained};
ghost use Rattle.complex.specs.Orders.{ascends, Found, edge_less, triangle_less};

use std::cmp::Ordering;
use survey::edge::{Edge, Triangle};

// An order of its own, which need not be the type's `Ord`.
pub trait TotalOrder {
    ghost less: { Self → Self → Bool };

    fn compare(&self, other: &Self) -> Ordering
        ensures { MatchOrdering result (less self.now other.now ≡ true) (self.now ≡ other.now) (less other.now self.now ≡ true) };

    ghost apart: { (x : Self) → less x x ≡ false };

    ghost chained: { (x y z : Self) → less x y ≡ true → less y z ≡ true → less x z ≡ true };
}

// The place of a record in a list that ascends, exactly when it is there. In any list, a place that is found holds the record.
// By hand, since `binary_search_by` halves the list to its end: this search ends at the first record that ties, in a short list after
// little more than half as many comparisons. In a list that does not ascend the two may find different places.
pub fn find<R: TotalOrder>(list: &[R], wanted: &R) -> Option<usize>
    ensures { Found R.TotalOrder.less list.now wanted.now result }
{
    let mut low = 0;
    let mut high = list.len();
    while low < high {
        let middle = low + (high - low) / 2;
        match list[middle].compare(wanted) {
            Ordering::Less => low = middle + 1,
            Ordering::Equal => return Some(middle),
            Ordering::Greater => high = middle,
        }
    }
    None
}

// Is one record below another?
pub(crate) fn is_below<R: TotalOrder>(x: &R, y: &R) -> bool
    ensures { result ≡ R.TotalOrder.less x.now y.now }
{
    x.compare(y).is_lt()
}

// Is each record above the one before it?
pub fn is_ascending<R: TotalOrder>(list: &[R]) -> bool
    ensures { result ≡ ascends R.TotalOrder.less list.now }
{
    list.is_sorted_by(|x, y| is_below(x, y))
}

impl TotalOrder for Edge {
    ghost less = { edge_less };

    ghost apart = { edge_apart };

    ghost chained = { edge_chained };

    fn compare(&self, edge: &Edge) -> Ordering {
        self.cmp(edge)
    }
}

impl TotalOrder for Triangle {
    ghost less = { triangle_less };

    ghost apart = { triangle_apart };

    ghost chained = { triangle_chained };

    fn compare(&self, triangle: &Triangle) -> Ordering {
        self.cmp(triangle)
    }
}
