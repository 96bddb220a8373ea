//! What the program's dependents heard, as it is written after the last file.
ghost use Rattle.std.specs.Prelude.{◌≡◌, ◌++◌, ℕ, List, IfOk, OnOk};
ghost use Rattle.clos_ending.specs.clos_system.clos_transcript.Told.{ends_line};
ghost use Rattle.clos_ending.specs.clos_system.clos_session.Session.{standing_of};
ghost use Rattle.clos_program.specs.Notices.{notice_line, notice_lines, with_notices};

use clos_ending::{Dependents, Natives, Notice, Session, print_notice};
use lisp_data::Name;
use std::alloc::{AllocError, Global};

/// The line of a notice that the dependent of this name heard.
fn add_notice<N: Natives, D: Dependents>(
    alloc: Global,
    text: &mut Vec<u8>,
    session: &Session<N, D>,
    name: &Name,
    notice: &Notice,
) -> Result<(), AllocError>
    ensures { OnOk result (text.new.items ≡ text.old.items
        ++ notice_line (standing_of (D.told session.now.dependents) session.now).state name.now notice.now) }
{
    text.extend_from_slice(b"; ")?;
    text.extend_from_slice(name.as_str().as_bytes())?;
    text.push(b' ')?;
    let printed = print_notice(alloc, session.world(), notice)?;
    text.extend_from_slice(printed.as_slice())?;
    text.push(b'\n')?;
    Ok(())
}

/// A line for each notice that the dependent of this name heard, in order.
fn add_notices<N: Natives, D: Dependents>(
    alloc: Global,
    text: &mut Vec<u8>,
    session: &Session<N, D>,
    name: &Name,
) -> Result<(), AllocError>
    ensures { OnOk result (text.new.items ≡ text.old.items
        ++ notice_lines (standing_of (D.told session.now.dependents) session.now) name.now) }
{
    let Some(notices) = session.heard(name) else {
        return Ok(());
    };
    for notice in notices {
        add_notice(alloc, text, session, name, notice)?;
    }
    Ok(())
}

/// What AUDIT and then SECOND heard, on a fresh line; nothing where neither heard anything.
pub(crate) fn notices_told<N: Natives, D: Dependents>(
    alloc: Global,
    session: &Session<N, D>,
    fresh: bool,
) -> Result<Vec<u8>, AllocError>
    ensures { IfOk result (λ r. (out : List ℕ) → fresh ≡ ends_line out
        → out ++ r.items ≡ with_notices (standing_of (D.told session.now.dependents) session.now) out) }
{
    let mut lines = Vec::new(alloc);
    add_notices(alloc, &mut lines, session, &Name::fixed(&"AUDIT"))?;
    add_notices(alloc, &mut lines, session, &Name::fixed(&"SECOND"))?;
    if fresh || lines.is_empty() {
        return Ok(lines);
    }
    let mut text = Vec::new(alloc);
    text.push(b'\n')?;
    text.extend_from_slice(lines.as_slice())?;
    Ok(text)
}
