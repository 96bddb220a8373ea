//! The picture of a graph of classes (SVG 1.1): superclasses stand left of their subclasses.
use crate::columns::{Columns, at};
use crate::graph::{Graph, class_graph};
use crate::heights::{height_at, settle_heights};
use crate::html::{Html, length};
use crate::order::put_in_order;
use clos_look::World;
use lisp_data::{ClassId, Value, prin1};
use std::alloc::{AllocError, Global};

/// How wide a character is, how high a box, and how far from one box to the next below it and to the next column, in pixels.
const CHARACTER: i64 = 8;

const BOX: i64 = 26;

const GAP: i64 = 36;

const COLUMN_GAP: i64 = 70;

const MARGIN: i64 = 12;

/// Where everything stands.
#[derive(Drop)]
struct Layout {
    columns: Columns,
    heights: Vec<i64>,
    /// Where each column begins, and how wide it is.
    lefts: Vec<i64>,
    widths: Vec<i64>,
}

/// The name of a class as it is printed.
fn class_name(alloc: Global, world: &World, class: ClassId) -> Result<Vec<u8>, AllocError> {
    match world.classes().hierarchy().name(class) {
        None => Ok(Vec::new(alloc)),
        Some(name) => prin1(alloc, &Value::Sym(name.copy()?), world),
    }
}

/// How wide the box of a class is.
fn box_width(name: &[u8]) -> i64 {
    let characters = name.iter().filter(|byte| (**byte & 0xC0) != 0x80).count();
    length(characters)
        .saturating_mul(CHARACTER)
        .saturating_add(20)
}

/// How wide each column is.
fn column_widths(
    alloc: Global,
    world: &World,
    graph: &Graph,
    columns: &Columns,
) -> Result<Vec<i64>, AllocError> {
    let mut widths = Vec::new(alloc);
    for _ in columns.vertices.iter() {
        widths.push(0)?;
    }
    for (vertex, class) in graph.classes.iter().enumerate() {
        let width = box_width(class_name(alloc, world, *class)?.as_slice());
        if let Some(widest) = widths.get_mut(at(columns.column.as_slice(), vertex)) {
            *widest = width.max(*widest);
        }
    }
    Ok(widths)
}

/// Where each column begins.
fn column_lefts(alloc: Global, widths: &[i64]) -> Result<Vec<i64>, AllocError> {
    let mut lefts = Vec::new(alloc);
    let mut left = MARGIN;
    for width in widths {
        lefts.push(left)?;
        left = left.saturating_add(*width).saturating_add(COLUMN_GAP);
    }
    Ok(lefts)
}

impl Layout {
    fn new(alloc: Global, world: &World, graph: &Graph) -> Result<Layout, AllocError> {
        let mut columns = Columns::new(alloc, graph)?;
        put_in_order(alloc, &mut columns)?;
        let heights = settle_heights(alloc, &columns, GAP)?;
        let widths = column_widths(alloc, world, graph, &columns)?;
        let lefts = column_lefts(alloc, widths.as_slice())?;
        Ok(Layout {
            columns,
            heights,
            lefts,
            widths,
        })
    }

    /// Where the column of a vertex begins, and where it ends.
    fn sides(&self, vertex: usize) -> (i64, i64) {
        let column = at(self.columns.column.as_slice(), vertex);
        let left = height_at(self.lefts.as_slice(), column);
        let width = height_at(self.widths.as_slice(), column);
        (left, left.saturating_add(width))
    }

    /// How far down the middle of a vertex stands.
    fn middle(&self, vertex: usize) -> i64 {
        height_at(self.heights.as_slice(), vertex)
            .saturating_add(MARGIN)
            .saturating_add(BOX / 2)
    }

    /// How wide and how high the picture is.
    fn size(&self) -> (i64, i64) {
        let width = match (self.lefts.last(), self.widths.last()) {
            (Some(left), Some(width)) => left.saturating_add(*width),
            _ => 0,
        };
        let height = self.heights.iter().copied().max().unwrap_or(0);
        (
            width.saturating_add(MARGIN),
            height.saturating_add(BOX).saturating_add(2 * MARGIN),
        )
    }
}

/// Draws a curve from one point to another, level at both ends.
fn curve(html: &mut Html, from: (i64, i64), to: (i64, i64)) {
    let half = COLUMN_GAP / 2;
    html.raw(" C");
    for number in [
        from.0.saturating_add(half),
        from.1,
        to.0.saturating_sub(half),
        to.1,
        to.0,
        to.1,
    ] {
        html.raw(" ");
        html.number(number);
    }
}

/// Draws an edge from a class, whose box is so wide, by its route.
fn edge(html: &mut Html, layout: &Layout, route: &[usize], width: i64) {
    let Some((first, rest)) = route.split_first() else {
        return;
    };
    let mut from = (
        layout.sides(*first).0.saturating_add(width),
        layout.middle(*first),
    );
    html.raw("<path d=\"M");
    html.number(from.0);
    html.raw(" ");
    html.number(from.1);
    let column_end = layout.sides(*first).1;
    if from.0 < column_end {
        html.raw(" H ");
        html.number(column_end);
        from.0 = column_end;
    }
    for (place, vertex) in rest.iter().enumerate() {
        let (left, right) = layout.sides(*vertex);
        let height = layout.middle(*vertex);
        curve(html, from, (left, height));
        from = (right, height);
        if place.saturating_add(1) < rest.len() {
            html.raw(" H ");
            html.number(right);
        }
    }
    html.raw("\"/>\n");
}

/// Adds the names of a class precedence list.
fn precedence(html: &mut Html, world: &World, class: ClassId) -> Result<(), AllocError> {
    let list = world.classes().hierarchy().precedence_or_none(class);
    if list.is_empty() {
        html.raw(": a class above it is not defined");
        return Ok(());
    }
    let mut word = ": ";
    for above in list {
        html.raw(word);
        html.text(class_name(html.alloc(), world, *above)?.as_slice());
        word = " ";
    }
    Ok(())
}

/// Draws the box of a class, with its class precedence list for whoever points at it.
fn class_box(
    html: &mut Html,
    world: &World,
    class: ClassId,
    left: i64,
    middle: i64,
) -> Result<(), AllocError> {
    let name = class_name(html.alloc(), world, class)?;
    html.raw("<a href=\"#class-");
    html.id(class.0);
    html.raw("\"><title>");
    html.text(name.as_slice());
    precedence(html, world, class)?;
    html.raw("</title><rect");
    html.attribute("x", left);
    html.attribute("y", middle.saturating_sub(BOX / 2));
    html.attribute("width", box_width(name.as_slice()));
    html.attribute("height", BOX);
    html.raw(" rx=\"5\"/><text");
    html.attribute("x", left.saturating_add(10));
    html.attribute("y", middle.saturating_add(5));
    html.raw(">");
    html.text(name.as_slice());
    html.raw("</text></a>\n");
    Ok(())
}

/// Draws the program's classes.
pub fn picture(html: &mut Html, world: &World) -> Result<(), AllocError> {
    let alloc = html.alloc();
    let graph = class_graph(alloc, world)?;
    let layout = Layout::new(alloc, world, &graph)?;
    let (width, height) = layout.size();
    html.raw(
        "<svg xmlns=\"http://www.w3.org/2000/svg\" role=\"img\" aria-label=\"The classes, each right of its superclasses\"",
    );
    html.attribute("width", width);
    html.attribute("height", height);
    html.raw(">\n<g class=\"edges\">\n");
    for route in layout.columns.routes.iter() {
        let first = route.first().copied().unwrap_or(0);
        if let Some(class) = graph.classes.get(first) {
            let name = class_name(alloc, world, *class)?;
            edge(html, &layout, route.as_slice(), box_width(name.as_slice()));
        }
    }
    html.raw("</g>\n<g class=\"classes\">\n");
    for (vertex, class) in graph.classes.iter().enumerate() {
        let left = layout.sides(vertex).0;
        class_box(html, world, *class, left, layout.middle(vertex))?;
    }
    html.raw("</g>\n</svg>\n");
    Ok(())
}
