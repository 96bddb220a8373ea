//! How far down each vertex stands: where its neighbours do, as far as there is room.
use crate::columns::{Columns, Link};
use crate::html::length;
use std::alloc::{AllocError, Global};

/// So many times vertices are moved, from left to right and back.
const SWEEPS: usize = 8;

/// Vertices next to each other that stand as near as they may, with the sum of where they want to stand, each less the room for those
/// before it.
#[derive(Clone, Copy)]
struct Block {
    sum: i64,
    count: i64,
}

impl Block {
    fn mean(self) -> i64 {
        self.sum.checked_div(self.count).unwrap_or(0)
    }

    fn with(self, other: Block) -> Block {
        Block {
            sum: self.sum.saturating_add(other.sum),
            count: self.count.saturating_add(other.count),
        }
    }
}

fn room(place: usize, gap: i64) -> i64 {
    length(place).saturating_mul(gap)
}

/// Where the vertices of a column stand that want to stand so, in this order, with a gap from each to the next, so that the squares of
/// the distances from there are least (isotonic regression, by pooling adjacent violators).
fn settle(alloc: Global, wanted: &[i64], gap: i64) -> Result<Vec<i64>, AllocError> {
    let mut blocks: Vec<Block> = Vec::new(alloc);
    for (place, height) in wanted.iter().enumerate() {
        let mut block = Block {
            sum: height.saturating_sub(room(place, gap)),
            count: 1,
        };
        for _ in 0..blocks.len() {
            match blocks.last().copied() {
                Some(before) if before.mean() > block.mean() => {
                    block = before.with(block);
                    let _ = blocks.pop();
                }
                _ => break,
            }
        }
        blocks.push(block)?;
    }
    let mut heights = Vec::new(alloc);
    for block in blocks.iter() {
        for _ in 0..block.count {
            let place = heights.len();
            heights.push(block.mean().saturating_add(room(place, gap)))?;
        }
    }
    Ok(heights)
}

/// The height at a place, or 0.
pub fn height_at(heights: &[i64], vertex: usize) -> i64 {
    heights.get(vertex).copied().unwrap_or(0)
}

/// Where a vertex wants to stand: at the mean of those to which links lead from it, or where it stands.
fn wanted(heights: &[i64], links: &[Link], forward: bool, vertex: usize) -> i64 {
    let mut sum: i64 = 0;
    let mut count: i64 = 0;
    for link in links {
        let (from, to) = if forward {
            (link.left, link.right)
        } else {
            (link.right, link.left)
        };
        if to == vertex {
            sum = sum.saturating_add(height_at(heights, from));
            count = count.saturating_add(1);
        }
    }
    sum.checked_div(count).unwrap_or(height_at(heights, vertex))
}

/// Moves the vertices of a column.
fn move_column(
    alloc: Global,
    vertices: &[usize],
    links: &[Link],
    forward: bool,
    gap: i64,
    heights: &mut Vec<i64>,
) -> Result<(), AllocError> {
    let mut wishes = Vec::new(alloc);
    for vertex in vertices {
        wishes.push(wanted(heights.as_slice(), links, forward, *vertex))?;
    }
    let settled = settle(alloc, wishes.as_slice(), gap)?;
    for (place, vertex) in vertices.iter().enumerate() {
        if let Some(height) = heights.get_mut(*vertex) {
            *height = height_at(settled.as_slice(), place);
        }
    }
    Ok(())
}

/// How far down each vertex stands, the highest at 0, with a gap at least from each to the next in its column.
pub fn settle_heights(alloc: Global, columns: &Columns, gap: i64) -> Result<Vec<i64>, AllocError> {
    let mut heights = Vec::new(alloc);
    for _ in columns.column.iter() {
        heights.push(0)?;
    }
    let count = columns.vertices.len();
    let links = columns.links.as_slice();
    for sweep in 0..SWEEPS {
        let forward = sweep % 2 == 1;
        for step in 0..count {
            let column = if forward {
                step
            } else {
                count.saturating_sub(step).saturating_sub(1)
            };
            if let Some(vertices) = columns.vertices.get(column) {
                move_column(
                    alloc,
                    vertices.as_slice(),
                    links,
                    forward,
                    gap,
                    &mut heights,
                )?;
            }
        }
    }
    let least = heights.iter().copied().min().unwrap_or(0);
    for height in heights.iter_mut() {
        *height = height.saturating_sub(least);
    }
    Ok(heights)
}
