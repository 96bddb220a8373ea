//! What is shown of the calls whose effective methods are kept.
use crate::page::Page;
use clos_cache::Key;
use clos_world::World;
use std::alloc::{AllocError, Global};

/// The generic function of a kept call, and what is known of its arguments: the class of each, or the object that an eql specializer
/// names.
fn call(page: &mut Page, world: &World, key: &Key) {
    page.text("(");
    page.function(world, key.generic());
    for argument in key.arguments() {
        page.text(" ");
        match &argument.object {
            None => page.class(world, argument.class),
            Some(object) => {
                page.text("(EQL ");
                page.value(world, object);
                page.text(")");
            }
        }
    }
    page.text(")");
    let Some(found) = world.cache.find(key) else {
        return;
    };
    page.text(": ");
    page.count(found.methods.len() as u64, "method", "methods");
}

/// What is shown of the calls whose effective methods are kept: how many effective methods were built since the session began, and
/// each that is kept, with the number of its applicable methods.
pub fn cache_page(alloc: Global, world: &World) -> Result<Vec<u8>, AllocError> {
    const LABEL: &str = "  kept                ";
    let mut page = Page::new(alloc);
    page.count(
        world.meter.count(),
        "effective method was built",
        "effective methods were built",
    );
    let mut count = 0;
    for place in 0..usize::MAX {
        let Some(key) = world.cache.key(place) else {
            break;
        };
        page.entry(LABEL, count);
        call(&mut page, world, key);
        count = count.saturating_add(1);
    }
    page.none(LABEL, count);
    page.end()
}
