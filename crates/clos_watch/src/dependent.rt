//! What a session needs of a dependent.
ghost use Rattle.std.specs.Prelude.{◌≡◌, ◌<◌, ◌≤◌, ◌∷◌, ◌++◌, ℕ, suc, List, [], OnOk};
ghost use Rattle.clos_watch.specs.declared.notice.Notice.{Notice};

use crate::notice::Notice;
use std::alloc::AllocError;

/// What is told of changes. It is asked first to have room for what it will be told.
pub trait Dependent: Drop {
    ghost told: { Self → List Notice };

    ghost room: { Self → ℕ };

    /// Has room for so many notices.
    fn prepare(&mut self, count: usize) -> Result<(), AllocError>
        ensures ok { OnOk result (count ≤ room self.new) }
        ensures told { told self.new ≡ told self.old }
        ensures room { room self.old ≤ room self.new };

    /// Hears a notice, for which there is room, and answers as it likes.
    fn tell(&mut self, notice: &Notice) -> i64
        requires { 0 < room self.old }
        ensures told { told self.new ≡ told self.old ++ notice.now ∷ [] }
        ensures room { suc (room self.new) ≡ room self.old };

    /// What it heard, in order.
    fn heard(&self) -> &[Notice]
        ensures { result.now ≡ told self.now };
}
