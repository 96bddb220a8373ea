//! The order of the vertices of each column, with few crossings of links (Sugiyama, Tagawa, Toda 1981: each vertex goes to the mean
//! place of its neighbours, from left to right and back).
use crate::columns::{Columns, Link, at};
use std::alloc::{AllocError, Global};

/// So many times vertices are put in order from left to right and back.
const SWEEPS: usize = 12;

/// Means of places are counted in parts of one.
const PARTS: usize = 1000;

/// The place of each vertex in its column.
pub fn places(alloc: Global, columns: &Columns) -> Result<Vec<usize>, AllocError> {
    let mut places = Vec::new(alloc);
    for _ in columns.column.iter() {
        places.push(0)?;
    }
    for vertices in columns.vertices.iter() {
        for (place, vertex) in vertices.iter().enumerate() {
            if let Some(found) = places.get_mut(*vertex) {
                *found = place;
            }
        }
    }
    Ok(places)
}

/// The means of the places of the vertices to which links lead: from the left where `forward`, and otherwise from the right. A vertex
/// without any has its own.
fn means(
    alloc: Global,
    places: &[usize],
    links: &[Link],
    forward: bool,
) -> Result<Vec<usize>, AllocError> {
    let mut sums = Vec::new(alloc);
    let mut counts = Vec::new(alloc);
    for _ in places {
        sums.push(0_usize)?;
        counts.push(0_usize)?;
    }
    for link in links {
        let (from, to) = if forward {
            (link.left, link.right)
        } else {
            (link.right, link.left)
        };
        if let (Some(sum), Some(count)) = (sums.get_mut(to), counts.get_mut(to)) {
            *sum = sum.saturating_add(at(places, from).saturating_mul(PARTS));
            *count = count.saturating_add(1);
        }
    }
    let mut means = Vec::new(alloc);
    for (vertex, place) in places.iter().enumerate() {
        let own = place.saturating_mul(PARTS);
        let sum = at(sums.as_slice(), vertex);
        means.push(
            sum.checked_div(at(counts.as_slice(), vertex))
                .unwrap_or(own),
        )?;
    }
    Ok(means)
}

/// Puts the vertices of each column in order, from left to right or back.
fn sweep(alloc: Global, columns: &mut Columns, forward: bool) -> Result<(), AllocError> {
    let count = columns.vertices.len();
    for step in 0..count {
        let column = if forward {
            step
        } else {
            count.saturating_sub(step).saturating_sub(1)
        };
        let places = places(alloc, columns)?;
        let means = means(alloc, places.as_slice(), columns.links.as_slice(), forward)?;
        if let Some(vertices) = columns.vertices.get_mut(column) {
            let means = means.as_slice();
            vertices.sort_by_key(|vertex| at(means, *vertex))?;
        }
    }
    Ok(())
}

/// The numbers of marks up to each place, which are kept in sums of parts (Fenwick 1994).
#[derive(Drop)]
struct Marks {
    sums: Vec<usize>,
}

/// The lowest bit of a number.
fn lowest_bit(number: usize) -> usize {
    number & number.wrapping_neg()
}

impl Marks {
    fn new(alloc: Global, count: usize) -> Result<Marks, AllocError> {
        let mut sums = Vec::new(alloc);
        for _ in 0..=count {
            sums.push(0)?;
        }
        Ok(Marks { sums })
    }

    fn mark(&mut self, place: usize) {
        let mut next = place.saturating_add(1);
        for _ in 0..usize::BITS {
            if let Some(sum) = self.sums.get_mut(next) {
                *sum = sum.saturating_add(1);
            }
            next = next.saturating_add(lowest_bit(next));
        }
    }

    fn up_to(&self, place: usize) -> usize {
        let mut next = place.saturating_add(1);
        let mut count: usize = 0;
        for _ in 0..usize::BITS {
            count = count.saturating_add(at(self.sums.as_slice(), next));
            next = next.saturating_sub(lowest_bit(next));
        }
        count
    }
}

/// How many links cross.
pub fn crossings(alloc: Global, columns: &Columns) -> Result<usize, AllocError> {
    let places = places(alloc, columns)?;
    let places = places.as_slice();
    let mut count: usize = 0;
    for column in 0..columns.vertices.len() {
        let mut links = Vec::new(alloc);
        for link in columns.links.iter() {
            if at(columns.column.as_slice(), link.left) == column {
                links.push((at(places, link.left), at(places, link.right)))?;
            }
        }
        links.sort()?;
        let mut marks = Marks::new(alloc, columns.column.len())?;
        for (before, link) in links.iter().enumerate() {
            count = count.saturating_add(before.saturating_sub(marks.up_to(link.1)));
            marks.mark(link.1);
        }
    }
    Ok(count)
}

fn copied(alloc: Global, columns: &[Vec<usize>]) -> Result<Vec<Vec<usize>>, AllocError> {
    let mut copy = Vec::new(alloc);
    for vertices in columns {
        copy.push(Vec::from_slice(alloc, vertices.as_slice())?)?;
    }
    Ok(copy)
}

/// Puts the vertices of the columns in order: of all that were tried, the first with the fewest crossings.
pub fn put_in_order(alloc: Global, columns: &mut Columns) -> Result<(), AllocError> {
    let mut best = copied(alloc, columns.vertices.as_slice())?;
    let mut fewest = crossings(alloc, columns)?;
    for sweeps in 0..SWEEPS {
        sweep(alloc, columns, sweeps % 2 == 0)?;
        let count = crossings(alloc, columns)?;
        if count < fewest {
            fewest = count;
            best = copied(alloc, columns.vertices.as_slice())?;
        }
    }
    columns.vertices = best;
    Ok(())
}
