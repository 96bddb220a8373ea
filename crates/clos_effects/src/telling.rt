//! What dependents are told of a definition (AMOP chapter 6). They are asked for room before its effect, and told after it.
ghost use Rattle.std.specs.Prelude.{◌≡◌, ◌<◌, ◌≤◌, ℕ, OnOk, drop, length};
ghost use Rattle.clos_meaning.specs.clos_world.Uses.{uses_of};
ghost use Rattle.clos_meaning.specs.clos_world.World.{seen};
ghost use Rattle.clos_definition.specs.clos_watch.Watching.{heard_after, times_told};

use clos_definition::{Dependents, Notice};
use clos_meaning::World;
use std::alloc::AllocError;

/// Has room for all of these notices, in the list of all changes and among the dependents that hear them.
pub(crate) fn prepare_to_tell<D: Dependents>(
    world: &mut World,
    dependents: &mut D,
    notices: &[Notice],
) -> Result<(), AllocError>
    ensures room { OnOk result (length notices.now ≤ world.new.hearing.notices.room) }
    ensures ready { OnOk result ((p : ℕ) → p < length (D.names dependents.new)
        → times_told (seen world.old).hearing.watching notices.now p ≤ D.room dependents.new p) }
    ensures seen { seen world.new ≡ seen world.old }
    ensures kept { uses_of world.new ≡ uses_of world.old }
    ensures generics { world.new.generics ≡ world.old.generics }
    ensures told { D.told dependents.new ≡ D.told dependents.old }
    ensures names { D.names dependents.new ≡ D.names dependents.old }
{
    world.hearing.notices.prepare(notices.len())?;
    dependents.prepare_all(&world.hearing.watchers, notices)
}

/// Tells the changes from this one on, for which there is room.
pub(crate) fn tell<D: Dependents>(world: &World, dependents: &mut D, from: usize)
    requires within { from ≤ length (seen world.now).hearing.notices }
    requires ready { (p : ℕ) → p < length (D.names dependents.old) → times_told (seen world.now).hearing.watching
        (drop from (seen world.now).hearing.notices) p ≤ D.room dependents.old p }
    ensures told { D.told dependents.new ≡ heard_after (seen world.now).hearing.watching
        (drop from (seen world.now).hearing.notices) (D.told dependents.old) }
    ensures names { D.names dependents.new ≡ D.names dependents.old }
{
    let notices = since(world.hearing.notices.as_slice(), from);
    dependents.tell_all(&world.hearing.watchers, notices);
}

/// Those from this one on.
fn since(notices: &[Notice], from: usize) -> &[Notice]
    requires { from ≤ length notices.now }
    ensures { result.now ≡ drop from notices.now }
{
    &notices[from..]
}
