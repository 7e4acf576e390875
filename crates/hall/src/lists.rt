// The complex of a roster's sensors that are on, as lists of edges and triangles.
use crate::answers::{Fault, Spaced};
use complex::listing::{list_edges, list_triangles};
use std::fmt;
use survey::edge::{Edge, Triangle};
use verifier::roster::Roster;

// A list's items, each behind a space; - for none.
#[derive(Clone, Copy)]
struct Listed<'a, T>(&'a [T]);

impl<'a, T: fmt::Display> fmt::Display for Listed<'a, T> {
    fn fmt<W: fmt::Write>(&self, f: &mut fmt::Formatter<W>) -> fmt::Result {
        if self.0.is_empty() {
            return f.write_str(" -");
        }
        Spaced(self.0).fmt(f)
    }
}

// Lists the complex.
pub fn show_complex(rt: &HostRuntime, roster: &Roster) -> Result<(), Fault> {
    let on = roster.sensors_on();
    let survey = roster.survey();
    let e = survey.edges_among(&on);
    let t = survey.triangles_among(&on);
    let mut edges = vec![in rt.alloc(); Edge::default(); e as usize]?;
    let mut triangles = vec![in rt.alloc(); Triangle::default(); t as usize]?;
    list_edges(survey, &on, &mut edges)?;
    list_triangles(survey, &on, &mut triangles)?;
    println!(rt; "E {e} T {t}")?;
    println!(rt; "edges{}", Listed(edges.as_slice()))?;
    println!(rt; "triangles{}", Listed(triangles.as_slice()))?;
    Ok(())
}
