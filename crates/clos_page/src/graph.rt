//! The graph of a program's classes.
use clos_look::World;
use lisp_data::{ClassId, Value};
use std::alloc::{AllocError, Global};

/// A direct superclass and a class, by their places in a graph.
#[derive(Clone, Copy)]
pub struct Edge {
    pub above: usize,
    pub below: usize,
}

/// Classes, and which are direct superclasses of which.
#[derive(Drop)]
pub struct Graph {
    pub classes: Vec<ClassId>,
    pub edges: Vec<Edge>,
}

/// Whether a class is an instance of STANDARD-CLASS (HyperSpec 4.3.7): STANDARD-OBJECT and the program's classes are.
fn is_standard(world: &World, class: ClassId) -> bool {
    let metaclass = world.class_of_value(&Value::Class(class));
    match world.classes().hierarchy().name(metaclass) {
        None => false,
        Some(name) => name.as_str() == "STANDARD-CLASS",
    }
}

/// The program's classes in order of definition, with STANDARD-OBJECT before them.
fn classes(alloc: Global, world: &World) -> Result<Vec<ClassId>, AllocError> {
    let mut found = Vec::new(alloc);
    for number in 0..u64::MAX {
        let class = ClassId(number);
        if world.classes().hierarchy().name(class).is_none() {
            break;
        }
        if is_standard(world, class) {
            found.push(class)?;
        }
    }
    Ok(found)
}

/// The graph of the program's classes, below STANDARD-OBJECT. Superclasses that are not defined are left out.
pub fn class_graph(alloc: Global, world: &World) -> Result<Graph, AllocError> {
    let hierarchy = world.classes().hierarchy();
    let classes = classes(alloc, world)?;
    let mut edges = Vec::new(alloc);
    for (below, class) in classes.iter().enumerate() {
        for name in hierarchy.superclasses(*class) {
            let superclass = hierarchy.named(name);
            let place = classes
                .iter()
                .position(|other| superclass.is_some_and(|id| id.0 == other.0));
            if let Some(above) = place {
                edges.push(Edge { above, below })?;
            }
        }
    }
    Ok(Graph { classes, edges })
}
