// The hall that several tests share: its text, and the lists of its complex.
use complex::boundary_grid::BoundaryGrid;
use complex::listing::{list_edges, list_triangles};
use refusal::Refusal;
use survey::edge::{Edge, Triangle};
use survey::plan::Survey;
use text::read::read_survey;

// A square fence 1 2 3 4, and sensor 5 linked to all four.
const HUB: &[u8] =
    b"S   5\nN   1   2   4   5;\nN   2   1   3   5;\nN   3   2   4   5;\nN   4   1   3   5;\nN   5   1   2   3   4;\nF   1   2   3   4;\n";

// The hub, read and listed, with how many edges and triangles were found.
#[derive(Drop)]
pub struct Hub {
    survey: Survey,
    edges: [Edge; 8],
    triangles: [Triangle; 4],
    pub edge_count: usize,
    pub triangle_count: usize,
}

impl Hub {
    pub(crate) fn listed() -> Result<Hub, Refusal> {
        let (survey, _) = read_survey(HUB)?;
        let on = survey.all();
        let mut edges = [Edge::default(); 8];
        let mut triangles = [Triangle::default(); 4];
        let edge_count = list_edges(&survey, &on, &mut edges)?;
        let triangle_count = list_triangles(&survey, &on, &mut triangles)?;
        Ok(Hub {
            survey,
            edges,
            triangles,
            edge_count,
            triangle_count,
        })
    }

    // The starting matrix over GF(3), where -1 is 2.
    pub(crate) fn grid(&self) -> BoundaryGrid<'_, '_, '_> {
        BoundaryGrid::new(&self.edges, &self.triangles, self.survey.fence(), 2)
    }
}
