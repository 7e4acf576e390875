// Solving a linear system in a store: a filling of its target or a block that excludes one.
ghost use Rattle.std.specs.Prelude.{◌≡◌, ◌≤◌, length};
ghost use Rattle.complex.specs.Systems.{System, starting_matrix};
ghost use Rattle.homology.specs.Linear.{CodedSystem};
ghost use Rattle.reduction.specs.Grids.{system_of, system_in};
ghost use Rattle.reduction.specs.Stores.{Stays};
ghost use Rattle.reduction.specs.Verdicts.{empty, Solves, Works};

use crate::pivots::Pivots;
use crate::reducer::Reducer;
use crate::shape::Shape;
use field::Field;
use homology::kind::Kind;
use matrix::grid::Grid;
use matrix::store::Store;
use refusal::Refusal;

// Which of the two it is, and how many additions it took.
#[derive(Clone, Copy, Debug, PartialEq, Eq)]
pub struct Verdict {
    pub kind: Kind,
    pub additions: u32,
}

// Loads, reduces and reads off, in a shape that is begun.
fn work<F: Field, G: Grid, S: Store>(
    field: &F,
    start: &G,
    store: &mut S,
    shape: Shape,
    codes: &mut [u16],
) -> Result<Verdict, Refusal>
    requires room { (shape.edges ≤ length codes.old) × (shape.triangles ≤ length codes.old) }
    requires begun { S.Grid.holds store.old ≡ empty (system_in (F.Field.arithmetic field.now) shape (G.Grid.holds start.now)) }
    ensures works { Works (F.Field.arithmetic field.now) (system_in (F.Field.arithmetic field.now) shape (G.Grid.holds start.now)) (S.Store.terms store.old) codes.old codes.new result }
    ensures stays { Stays S.Store.terms S.Store.backing store.old store.new }
{
    let mut reducer = Reducer {
        field,
        shape,
        pivots: Pivots::new(),
    };
    reducer.load(start, store)?;
    let first = reducer.settle_columns(store)?;
    let additions = reducer.settle_target(store, first)?;
    let kind = reducer.read_off(store, codes);
    Ok(Verdict { kind, additions })
}

// Solves the system that a grid starts from, in the store, and writes the filling or the block to the front of `codes`. The
// shape of the grid tells how many rows and columns the system has, and what is no code of the field counts as 0.
// Refused in this order: a list of codes that is too short for either, a field whose order exceeds the store's bound, a shape
// that the store does not take or that no survey has, and a store that is full before the end.
pub fn solve<F: Field, G: Grid, S: Store>(
    field: &F,
    start: &G,
    store: &mut S,
    codes: &mut [u16],
) -> Result<Verdict, Refusal>
    ensures solves { Solves (F.Field.arithmetic field.now) (system_of (F.Field.arithmetic field.now) (G.Grid.holds start.now)) (S.Store.terms store.old) codes.old (S.Grid.holds store.old) result codes.new (S.Grid.holds store.new) }
    ensures systems { (s : System) → CodedSystem (F.Field.arithmetic field.now) s → G.Grid.holds start.now ≡ starting_matrix s → Solves (F.Field.arithmetic field.now) s (S.Store.terms store.old) codes.old (S.Grid.holds store.old) result codes.new (S.Grid.holds store.new) }
    ensures terms { S.Store.terms store.new ≡ S.Store.terms store.old }
    ensures backing { S.Store.backing store.new ≡ S.Store.backing store.old }
{
    let triangles = start.columns().saturating_sub(1);
    let edges = start.rows().saturating_sub(triangles);
    if codes.len() < edges.max(triangles) as usize {
        return Err(Refusal::TooShort);
    }
    if field.order() > (*store).code_bound() {
        return Err(Refusal::FieldTooLarge);
    }
    if edges > 512 || triangles > 1024 {
        return Err(Refusal::ShapeNotTaken);
    }
    let shape = Shape { edges, triangles };
    store.begin(edges + triangles, triangles + 1)?;
    let verdict = work(field, start, store, shape, codes);
    // taken before, so it is taken again
    let _ = store.begin(edges + triangles, triangles + 1);
    verdict
}
