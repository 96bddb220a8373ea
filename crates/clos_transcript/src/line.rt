//! Whether a line has ended.
ghost use Rattle.std.specs.Prelude.{◌≡◌, ◌++◌, ℕ, List, OnOk};
ghost use Rattle.clos_transcript.specs.Told.{ends_line, fresh_line};

use std::alloc::AllocError;

/// Whether a line has ended with this piece, after one that had or had not.
#[tactic(auto, using(crate::proofs::Lines::last_byte, crate::proofs::Lines::nothing_more))]
pub fn ends_line(fresh: bool, piece: &[u8]) -> bool
    ensures { (out : List ℕ) → fresh ≡ ends_line out → result ≡ ends_line (out ++ piece.now) }
{
    if piece.is_empty() {
        return fresh;
    }
    piece[piece.len() - 1] == b'\n'
}

/// Ends a line that was begun.
pub(crate) fn end_line(piece: &mut Vec<u8>, fresh: bool) -> Result<(), AllocError>
    ensures { OnOk result ((out : List ℕ) → fresh ≡ ends_line out → out ++ piece.new.items ≡ fresh_line (out ++ piece.old.items)) }
{
    if !ends_line(fresh, piece.as_slice()) {
        piece.push(b'\n')?;
    }
    Ok(())
}
