// The runs: the system of a survey with every sensor on, over a field, in a store of either kind.
use crate::asked::StoreKind;
use crate::stop::Stop;
use complex::boundary_grid::BoundaryGrid;
use complex::listing::{list_edges, list_triangles};
use field::Field;
use homology::kind::Kind;
use matrix::grid::Grid;
use matrix::store::Store;
use reduction::solve::{Verdict, solve};
use refusal::Refusal;
use sparse::cell::Cell;
use sparse::sparse::Sparse;
use std::fmt;
use stores::dense::Dense;
use survey::edge::{Edge, Triangle};
use survey::plan::Survey;

// What a survey of the largest size takes: (512 + 1024) rows and 1025 columns.
const LARGEST: usize = 1536 * 1025;

// The verdict on so many edges and triangles, and one number for all codes and their order.
#[derive(Clone, Copy)]
pub struct Answer {
    verdict: Verdict,
    edges: usize,
    triangles: usize,
    checksum: u64,
}

// The word for a verdict of this kind.
fn word(kind: Kind) -> &'static str {
    match kind {
        Kind::Filling => "filling",
        Kind::Block => "block",
    }
}

impl fmt::Display for Answer {
    fn fmt<W: fmt::Write>(&self, f: &mut fmt::Formatter<W>) -> fmt::Result {
        let Answer {
            verdict,
            edges,
            triangles,
            checksum,
        } = *self;
        let kind = word(verdict.kind);
        let additions = verdict.additions;
        write!(
            f,
            "{kind} E {edges} T {triangles} additions {additions} codes {checksum}"
        )
    }
}

fn checksum(codes: &[u16]) -> u64 {
    codes.iter().fold(
        0,
        |sum: u64, code| sum.wrapping_mul(31).wrapping_add(*code as u64),
    )
}

// A survey's system over a field, which is solved so many times, and once at least.
#[derive(Clone, Copy)]
pub struct Runs<'a, F> {
    pub rt: &'a HostRuntime,
    pub survey: &'a Survey,
    pub field: &'a F,
    pub times: u32,
}

impl<'a, F: Field> Runs<'a, F> {
    // Solves the system; the last verdict counts.
    fn solve_times<G: Grid, S: Store>(
        &self,
        start: &G,
        store: &mut S,
        codes: &mut [u16],
    ) -> Result<Verdict, Refusal> {
        for _ in 1..self.times {
            solve(self.field, start, store, codes)?;
        }
        solve(self.field, start, store, codes)
    }

    // Lists the complex and solves its system.
    fn in_store<S: Store>(&self, store: &mut S) -> Result<Answer, Stop> {
        let heap = self.rt.alloc();
        let survey = self.survey;
        let on = survey.all();
        let mut edge_list = vec![in heap; Edge::default(); survey.link_count() as usize]?;
        let mut triangle_list = vec![in heap; Triangle::default(); survey.triangle_count() as usize]?;
        let edges = list_edges(survey, &on, &mut edge_list)?;
        let triangles = list_triangles(survey, &on, &mut triangle_list)?;
        let mut codes = vec![in heap; 0u16; edges.max(triangles)]?;
        let start = BoundaryGrid::new(
            &edge_list,
            &triangle_list,
            survey.fence(),
            self.field.negative(1),
        );
        let verdict = self.solve_times(&start, store, &mut codes)?;
        let count = match verdict.kind {
            Kind::Filling => triangles,
            Kind::Block => edges,
        };
        Ok(Answer {
            verdict,
            edges,
            triangles,
            checksum: checksum(&codes[..count]),
        })
    }

    // The answer in a store of this kind, which is made for the runs.
    pub fn answer(&self, kind: StoreKind) -> Result<Answer, Stop> {
        let heap = self.rt.alloc();
        match kind {
            StoreKind::Sparse => {
                let mut cells = vec![in heap; Cell::default(); 65535]?;
                let mut heads = vec![in heap; 0u16; 1025]?;
                self.in_store(&mut Sparse::new(&mut cells, &mut heads))
            }
            StoreKind::Dense(width) => {
                let mut bytes = vec![in heap; 0u8; LARGEST]?;
                self.in_store(&mut Dense::new(width, &mut bytes))
            }
        }
    }
}
