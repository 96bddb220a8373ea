//! Default initargs of classes (HyperSpec 4.3.4.2).
ghost use Rattle.std.specs.Prelude.{◌≡◌, ◌++◌, ◌∷◌, List, IfOk, OnOk};
ghost use Rattle.clos_defclass.specs.declared.class.DefaultInitarg.{DefaultInitarg};
ghost use Rattle.clos_precedence.specs.PrecedenceView.{numbers};
ghost use Rattle.clos_class.specs.Slots.{default_initargs};
ghost use Rattle.clos_class.specs.SlotsView.{defaults_in};
ghost use Rattle.clos_class.specs.inner.Building.{completed};

use crate::names::NameSet;
use crate::rows::Rows;
use clos_defclass::DefaultInitarg;
use clos_forms::Sequence;
use lisp_data::ClassId;
use std::alloc::{AllocError, Global};

fn copy(default: &DefaultInitarg) -> Result<DefaultInitarg, AllocError>
    ensures { IfOk result (λ r. r ≡ default.now) }
{
    Ok(DefaultInitarg {
        name: default.name.copy()?,
        form: default.form.copy()?,
    })
}

/// The same default initargs.
pub fn copy_defaults(
    alloc: Global,
    defaults: &[DefaultInitarg],
) -> Result<Sequence<DefaultInitarg>, AllocError>
    ensures { IfOk result (λ r. r ≡ defaults.now) }
{
    let mut copies = Sequence::new(alloc);
    let mut left = defaults;
    while let Some((default, others)) = left.split_first() {
        copies.push(copy(default)?)?;
        left = others;
    }
    Ok(copies)
}

/// Adds a default initarg, unless its name is known.
#[tactic(auto, using(crate::proofs::Completed::known_one, crate::proofs::Completed::new_one))]
fn add(
    known: &mut NameSet,
    found: &mut Sequence<DefaultInitarg>,
    default: &DefaultInitarg,
) -> Result<(), AllocError>
    ensures { OnOk result ((ds : List DefaultInitarg) → completed known.new found.new ds ≡ completed known.old found.old (default.now ∷ ds)) }
{
    if known.has(&default.name) {
        return Ok(());
    }
    known.add(default.name.copy()?)?;
    found.push(copy(default)?)
}

/// Adds the default initargs of a class, in written order, but for those whose names are known.
fn add_all(
    known: &mut NameSet,
    found: &mut Sequence<DefaultInitarg>,
    defaults: &[DefaultInitarg],
) -> Result<(), AllocError>
    ensures { OnOk result ((ds : List DefaultInitarg) → completed known.new found.new ds ≡ completed known.old found.old (defaults.now ++ ds)) }
{
    let mut left = defaults;
    while let Some((default, others)) = left.split_first() {
        add(known, found, default)?;
        left = others;
    }
    Ok(())
}

/// The default initargs of a class with this class precedence list: those of all its classes, for each name that of the
/// most specific one.
#[tactic(auto, using(crate::proofs::Completed::none_known, crate::proofs::Completed::none_left))]
pub fn default_initargs(
    alloc: Global,
    classes: &Rows<'_>,
    list: &[ClassId],
) -> Result<Sequence<DefaultInitarg>, AllocError>
    ensures { IfOk result (λ r. r ≡ default_initargs (defaults_in classes.now) (numbers list.now)) }
{
    let mut known = NameSet::new(alloc);
    let mut found = Sequence::new(alloc);
    let mut left = list;
    while let Some((class, others)) = left.split_first() {
        add_all(&mut known, &mut found, classes.defaults(*class))?;
        left = others;
    }
    Ok(found)
}
