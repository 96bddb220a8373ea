//! The page.
use crate::graph::class_graph;
use crate::html::Html;
use crate::picture::picture;
use clos_look::{World, class_page, generic_page};
use clos_method::Origin;
use lisp_data::GenericId;
use std::alloc::{AllocError, Global};

/// A call, and what is shown of it.
#[derive(Drop)]
pub struct Call {
    pub form: Vec<u8>,
    pub shown: Vec<u8>,
}

const HEAD: &str = "<!DOCTYPE html>
<html lang=\"en\">
<head>
<meta charset=\"utf-8\">
<meta name=\"viewport\" content=\"width=device-width, initial-scale=1\">
<title>";

const STYLE: &str = "</title>
<style>
:root { color-scheme: light dark; --ink: #1b1f24; --paper: #ffffff; --line: #8a94a3; --box: #eef3fa; --mark: #2457a6 }
@media (prefers-color-scheme: dark) {
  :root { --ink: #e3e7ec; --paper: #15181c; --line: #6d7784; --box: #222a35; --mark: #8ab4f8 }
}
body { margin: 2rem; color: var(--ink); background: var(--paper); font: 16px/1.5 sans-serif }
section { break-inside: avoid }
.texts { columns: 36rem }
pre { margin: 0.5rem 0 1.5rem; overflow-x: auto; font: 13px/1.5 monospace }
figure { margin: 1rem 0; overflow-x: auto }
nav a { margin-right: 1rem }
a { color: var(--mark) }
section:target pre { outline: 2px solid var(--mark); outline-offset: 4px }
svg text { fill: var(--ink); font: 13px monospace }
svg rect { fill: var(--box); stroke: var(--line) }
svg a:hover rect, svg a:focus rect { stroke: var(--mark); stroke-width: 2 }
.edges path { fill: none; stroke: var(--line) }
</style>
</head>
<body>
";

/// Whether the program defined a generic function, or added a method to it.
fn is_of_program(world: &World, id: GenericId) -> bool {
    let Some(function) = world.generics.function(id) else {
        return false;
    };
    if function.methods().is_empty() {
        return true;
    }
    function.methods().iter().any(|method| match world.generics.method(*method) {
        None => false,
        Some(found) => !matches!(found.origin, Origin::System),
    })
}

/// Adds text in lines as they stand.
fn lines(html: &mut Html, text: &[u8]) {
    html.raw("<pre>");
    html.text(text);
    html.raw("</pre></section>\n");
}

fn heading(html: &mut Html, id: &str, text: &str) {
    html.raw("<h2 id=\"");
    html.raw(id);
    html.raw("\">");
    html.raw(text);
    html.raw("</h2>\n");
}

/// The classes, as a picture and in text.
fn classes(html: &mut Html, world: &World) -> Result<(), AllocError> {
    let alloc = html.alloc();
    heading(html, "classes", "Classes");
    html.raw(
        "<p>Each class stands right of its direct superclasses, with its class precedence list for whoever points at it.</p>\n<figure>\n",
    );
    picture(html, world)?;
    html.raw("</figure>\n<div class=\"texts\">\n");
    for class in class_graph(alloc, world)?.classes.iter() {
        html.raw("<section id=\"class-");
        html.id(class.0);
        html.raw("\">");
        lines(html, class_page(alloc, world, *class)?.as_slice());
    }
    html.raw("</div>\n");
    Ok(())
}

/// The program's generic functions, with their methods.
fn functions(html: &mut Html, world: &World) -> Result<(), AllocError> {
    let alloc = html.alloc();
    heading(html, "functions", "Generic functions");
    html.raw("<div class=\"texts\">\n");
    for number in 0..world.generics.function_count() {
        let id = GenericId(number);
        if is_of_program(world, id) {
            html.raw("<section id=\"function-");
            html.id(number);
            html.raw("\">");
            lines(html, generic_page(alloc, world, id)?.as_slice());
        }
    }
    html.raw("</div>\n");
    Ok(())
}

/// The calls, each with the methods that fit it.
fn all_calls(html: &mut Html, calls: &[Call]) {
    heading(html, "calls", "Calls");
    if calls.is_empty() {
        html.raw("<p>The last forms call no generic function.</p>\n");
    }
    for call in calls {
        html.raw("<section><h3><code>");
        html.text(call.form.as_slice());
        html.raw("</code></h3>");
        lines(html, call.shown.as_slice());
    }
}

/// A page that stands alone, without scripts: the graph of the program's classes, with their class precedence lists in text and for
/// whoever points at a class, its generic functions with their methods, and these calls with the methods that fit each.
pub fn html_page(
    alloc: Global,
    world: &World,
    title: &[u8],
    calls: &[Call],
) -> Result<Vec<u8>, AllocError> {
    let mut html = Html::new(alloc);
    html.raw(HEAD);
    html.text(title);
    html.raw(STYLE);
    html.raw("<h1>");
    html.text(title);
    html.raw(
        "</h1>\n<nav><a href=\"#classes\">Classes</a><a href=\"#functions\">Generic functions</a><a href=\"#calls\">Calls</a></nav>\n",
    );
    classes(&mut html, world)?;
    functions(&mut html, world)?;
    all_calls(&mut html, calls);
    html.raw("</body>\n</html>\n");
    html.end()
}
