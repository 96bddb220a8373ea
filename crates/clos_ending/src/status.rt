//! The statuses with which a program ends.
ghost use Rattle.std.specs.Prelude.{◌≡◌};
ghost use Rattle.clos_ending.specs.Status.{is_told};

use clos_system::Summary;

/// Every form gave a value.
pub const STATUS_DONE: u8 = 0;

/// A condition or storage line was written.
pub const STATUS_CONDITION: u8 = 1;

/// The command line is at fault.
pub const STATUS_USAGE: u8 = 2;

/// A file can't be read, or the output not written, or memory ran out.
pub const STATUS_FAULT: u8 = 3;

/// Whether a condition or storage line was written.
pub fn is_told(summary: Summary) -> bool
    ensures { result ≡ is_told summary }
{
    summary.conditions > 0 || summary.storages > 0
}
