//! Definitions that are drawn, against the slow search.
use crate::model::{Model, name};
use crate::script::{PREDEFINED, is_same, lists, told};
use clos_hierarchy::Hierarchy;
use lisp_data::Name;
use std::alloc::{AllocError, Global};
use std::process::Abort;
use std::test::Fail;

/// How many tables are drawn, and how many definitions of each.
const TABLES: u64 = 4_000;

const STEPS: u64 = 16;

/// A linear congruential generator.
#[derive(Drop)]
struct Draw {
    state: u64,
}

impl Draw {
    fn next(&mut self) -> u64 {
        self.state = self
            .state
            .wrapping_mul(6_364_136_223_846_793_005)
            .wrapping_add(1_442_695_040_888_963_407);
        self.state >> 33
    }

    /// One of five classes.
    fn class(&mut self) -> u8 {
        (self.next() % 5) as u8 + 2
    }

    /// Mostly a class that comes after this one, so that few are above themselves.
    fn superclass(&mut self, class: u8) -> u8 {
        match self.next() % 32 {
            0 => 0,
            1 | 2 => 1,
            3..=5 => self.class(),
            _ if class == 6 => 1,
            _ => self.class().max(class.saturating_add(1)),
        }
    }

    /// Up to three, of which few stand twice.
    fn superclasses(&mut self, alloc: Global, class: u8) -> Result<Vec<u8>, AllocError> {
        let mut above = Vec::new(alloc);
        for _ in 0..self.next() % 4 {
            let superclass = self.superclass(class);
            if !above.contains(&superclass) || self.next() % 16 == 0 {
                above.push(superclass)?;
            }
        }
        Ok(above)
    }
}

fn names(alloc: Global, above: &[u8]) -> Result<Vec<Name>, AllocError> {
    let mut names = Vec::new(alloc);
    for class in above {
        names.push(Name::new(alloc, name(*class), false)?)?;
    }
    Ok(names)
}

/// Whether one more definition answers as the rules say, also where it is only asked, and leaves the lists that they say.
fn agrees(
    alloc: Global,
    draw: &mut Draw,
    classes: &mut Hierarchy,
    model: &mut Model,
) -> Result<bool, AllocError> {
    let class = draw.class();
    let above = draw.superclasses(alloc, class)?;
    let shared = draw.next() % 4 == 0;
    let wanted = model.define(alloc, class, above.as_slice(), shared)?;
    let own = Name::new(alloc, name(class), false)?;
    let asked = match classes.check(alloc, &own, names(alloc, above.as_slice())?, shared) {
        Ok(_) => Ok(()),
        Err(fault) => Err(fault),
    };
    let answer = classes.define(alloc, &own, names(alloc, above.as_slice())?, shared);
    let found = told(alloc, classes, &answer)?;
    Ok(
        is_same(alloc, &asked, &answer)?
            && found.as_str() == wanted.as_str()
            && lists(alloc, classes, PREDEFINED)?.as_str() == model.lists(alloc)?.as_str(),
    )
}

/// Whether each definition of these tables agrees.
fn all_agree(
    alloc: Global,
    draw: &mut Draw,
    classes: &mut Hierarchy,
    model: &mut Model,
) -> Result<bool, AllocError> {
    for _ in 0..STEPS {
        if !agrees(alloc, draw, classes, model)? {
            return Ok(false);
        }
    }
    Ok(true)
}

/// The same of new ones.
fn table_agrees(alloc: Global, table: u64) -> Result<bool, AllocError> {
    let mut draw = Draw { state: table };
    let limit = 3 + draw.next() % 3;
    let mut model = Model::new(alloc, limit as usize)?;
    let mut classes = Hierarchy::new(alloc, limit)?;
    all_agree(alloc, &mut draw, &mut classes, &mut model)
}

#[test]
fn drawn_tables_are_as_the_rules_say(rt: HostRuntime) -> Result<(), Fail> {
    for table in 0..TABLES {
        assert!(rt; table_agrees(rt.alloc(), table)?, "table {table}");
    }
    Ok(())
}
