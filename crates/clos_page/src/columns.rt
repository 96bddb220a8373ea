//! Columns: each class right of its superclasses. An edge that passes columns has a place in each.
use crate::graph::{Edge, Graph};
use std::alloc::{AllocError, Global};

/// A link from a vertex to one in the next column.
#[derive(Clone, Copy)]
pub struct Link {
    pub left: usize,
    pub right: usize,
}

/// Vertices in columns. Those of the classes come first, in the order of the graph; the others are where edges pass.
#[derive(Drop)]
pub struct Columns {
    /// The column of each vertex.
    pub column: Vec<usize>,
    /// The vertices of each column.
    pub vertices: Vec<Vec<usize>>,
    pub links: Vec<Link>,
    /// The vertices of each edge of the graph, from the superclass to the class.
    pub routes: Vec<Vec<usize>>,
}

/// The number at a place, or 0.
pub fn at(numbers: &[usize], place: usize) -> usize {
    numbers.get(place).copied().unwrap_or(0)
}

/// The longest way from the left to each class, in edges.
fn longest_ways(alloc: Global, count: usize, edges: &[Edge]) -> Result<Vec<usize>, AllocError> {
    let mut ways = Vec::new(alloc);
    for _ in 0..count {
        ways.push(0)?;
    }
    for _ in 0..count {
        let mut is_changed = false;
        for edge in edges {
            let next = at(ways.as_slice(), edge.above).saturating_add(1);
            if let Some(way) = ways.get_mut(edge.below) {
                if *way < next {
                    *way = next;
                    is_changed = true;
                }
            }
        }
        if !is_changed {
            break;
        }
    }
    Ok(ways)
}

impl Columns {
    /// Adds a vertex in this column.
    fn pass(&mut self, column: usize) -> Result<usize, AllocError> {
        let vertex = self.column.len();
        self.column.push(column)?;
        Ok(vertex)
    }

    /// Adds the links and the route of an edge.
    fn lead(&mut self, alloc: Global, edge: Edge) -> Result<(), AllocError> {
        let first = at(self.column.as_slice(), edge.above).saturating_add(1);
        let last = at(self.column.as_slice(), edge.below);
        let mut route = Vec::new(alloc);
        let mut left = edge.above;
        route.push(left)?;
        for column in first..last {
            let right = self.pass(column)?;
            self.links.push(Link { left, right })?;
            route.push(right)?;
            left = right;
        }
        let right = edge.below;
        self.links.push(Link { left, right })?;
        route.push(right)?;
        self.routes.push(route)?;
        Ok(())
    }

    /// Puts the vertices into their columns, in order of their numbers.
    fn fill(&mut self, alloc: Global) -> Result<(), AllocError> {
        for (vertex, column) in self.column.iter().enumerate() {
            for _ in self.vertices.len()..=*column {
                self.vertices.push(Vec::new(alloc))?;
            }
            if let Some(vertices) = self.vertices.get_mut(*column) {
                vertices.push(vertex)?;
            }
        }
        Ok(())
    }

    /// The columns of a graph.
    pub fn new(alloc: Global, graph: &Graph) -> Result<Columns, AllocError> {
        let edges = graph.edges.as_slice();
        let mut columns = Columns {
            column: longest_ways(alloc, graph.classes.len(), edges)?,
            vertices: Vec::new(alloc),
            links: Vec::new(alloc),
            routes: Vec::new(alloc),
        };
        for edge in edges {
            columns.lead(alloc, *edge)?;
        }
        columns.fill(alloc)?;
        Ok(columns)
    }
}
