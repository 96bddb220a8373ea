//! Which limit was met, and what raises it.
use clos_look::{Page, World};

/// Tells how many steps a form may take.
pub fn steps(page: &mut Page, world: &World) {
    page.text("no step is left of the ");
    page.number(world.limits.steps);
    page.text(" that a form may take here; --steps N sets another limit");
}

/// Tells how deep forms may nest.
pub fn depth(page: &mut Page, world: &World) {
    page.text("a form stands deeper than the ");
    page.number(world.limits.depth);
    page.text(" levels that forms may nest here; --depth N sets another limit, up to 4000");
}

/// Tells how much a session may make.
pub fn tables(page: &mut Page, world: &World) {
    const LABEL: &str = "  at most             ";
    let limits = world.limits;
    page.text("a table of the session is full");
    for (place, (most, things)) in [
        (limits.classes, "classes"),
        (limits.generics, "generic functions"),
        (limits.methods, "methods"),
        (limits.combinations, "method combinations"),
        (limits.functions, "functions"),
        (limits.globals, "global variables"),
        (limits.cells, "values of shared slots"),
        (limits.instances, "instances"),
    ]
    .iter()
    .enumerate()
    {
        page.entry(LABEL, place);
        page.number(*most);
        page.text(" ");
        page.text(things);
    }
}
