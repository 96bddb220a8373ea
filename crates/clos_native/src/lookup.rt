//! Stored functions by their names.
ghost use Rattle.std.specs.Prelude.{◌≡◌, option_map};
ghost use Rattle.clos_native.specs.Stored.{native_named};

use crate::native::Native;
use lisp_data::Name;

/// The first of this name.
pub fn find<'a>(natives: &'a [Native], name: &Name) -> Option<&'a Native>
    ensures { option_map (λ n. n.now) result ≡ native_named natives.now name.now }
{
    let mut left = natives;
    while let Some((first, others)) = left.split_first() {
        if first.name().is(name) {
            return Some(first);
        }
        left = others;
    }
    None
}
