//! What is told of a form.
ghost use Rattle.std.specs.Prelude.{◌≡◌, ◌++◌, ◌∷◌, [], ℕ, List, IfOk, OnOk, length, drop, true};
ghost use Rattle.lisp_data.specs.Print.{text_of};
ghost use Rattle.lisp_data.specs.ValueView.{value_of};
ghost use Rattle.clos_world.specs.World.{State, seen, names_of};
ghost use Rattle.clos_transcript.specs.Told.{ends_line, fresh_line, condition_text, storage_text, told_for};

use crate::line::end_line;
use clos_world::{Condition, Stop, World};
use itoa::Buffer;
use lisp_data::{Value, prin1};
use std::alloc::{AllocError, Global};

/// What a run tells of a form: what the form wrote, and on a fresh line its condition or, with `echo`, its value.
pub fn tell(
    alloc: Global,
    world: &World,
    from: usize,
    answer: &Result<Value, Stop>,
    taken: u64,
    echo: bool,
    fresh: bool,
) -> Result<Vec<u8>, AllocError>
    ensures { IfOk result (λ r. (out : List ℕ) (w : State) → fresh ≡ ends_line out → from ≡ length w.written
        → out ++ r.items ≡ told_for echo w (seen world.now) answer.now taken out) }
{
    let piece = written_since(alloc, world, from)?;
    match answer {
        Ok(value) => {
            if echo {
                tell_value(alloc, piece, world, value, fresh)
            } else {
                Ok(piece)
            }
        }
        Err(Stop::Refused(condition)) => tell_refused(alloc, piece, world, condition, fresh),
        Err(Stop::Storage) => tell_storage(piece, taken, fresh),
    }
}

/// What the forms wrote from a place on.
fn written_since(alloc: Global, world: &World, from: usize) -> Result<Vec<u8>, AllocError>
    ensures { IfOk result (λ r. r.items ≡ drop from (seen world.now).written) }
{
    if from >= world.written.len() {
        return Ok(Vec::new(alloc));
    }
    Vec::from_slice(alloc, &world.written.as_slice()[from..])
}

fn tell_value(
    alloc: Global,
    mut piece: Vec<u8>,
    world: &World,
    value: &Value,
    fresh: bool,
) -> Result<Vec<u8>, AllocError>
    ensures { IfOk result (λ r. (out : List ℕ) → fresh ≡ ends_line out
        → out ++ r.items ≡ fresh_line (out ++ piece.items) ++ text_of true (names_of (seen world.now)) (value_of value.now) ++ 10 ∷ []) }
{
    end_line(&mut piece, fresh)?;
    let text = prin1(alloc, value, world)?;
    piece.extend_from_slice(text.as_slice())?;
    piece.push(b'\n')?;
    Ok(piece)
}

fn tell_refused(
    alloc: Global,
    mut piece: Vec<u8>,
    world: &World,
    condition: &Condition,
    fresh: bool,
) -> Result<Vec<u8>, AllocError>
    ensures { IfOk result (λ r. (out : List ℕ) → fresh ≡ ends_line out
        → out ++ r.items ≡ fresh_line (out ++ piece.items) ++ condition_text (names_of (seen world.now)) condition.now) }
{
    end_line(&mut piece, fresh)?;
    tell_condition(alloc, &mut piece, world, condition)?;
    Ok(piece)
}

#[tactic(auto, using(crate::proofs::Lines::storage_told))]
fn tell_storage(mut piece: Vec<u8>, taken: u64, fresh: bool) -> Result<Vec<u8>, AllocError>
    ensures { IfOk result (λ r. (out : List ℕ) → fresh ≡ ends_line out
        → out ++ r.items ≡ fresh_line (out ++ piece.items) ++ storage_text taken) }
{
    end_line(&mut piece, fresh)?;
    piece.extend_from_slice(b"; 0 (STORAGE ")?;
    piece.extend_from_slice(Buffer::new().format(taken).as_bytes())?;
    piece.extend_from_slice(b")\n")?;
    Ok(piece)
}

/// The line that tells a condition: its number, its name, and what it is about.
fn tell_condition(
    alloc: Global,
    piece: &mut Vec<u8>,
    world: &World,
    condition: &Condition,
) -> Result<(), AllocError>
    ensures { OnOk result (piece.new.items ≡ piece.old.items ++ condition_text (names_of (seen world.now)) condition.now) }
{
    piece.extend_from_slice(b"; ")?;
    piece.extend_from_slice(Buffer::new().format(condition.kind.number()).as_bytes())?;
    piece.extend_from_slice(b" (")?;
    piece.extend_from_slice(condition.kind.name().as_bytes())?;
    for item in condition.items.as_slice() {
        piece.push(b' ')?;
        let text = prin1(alloc, item, world)?;
        piece.extend_from_slice(text.as_slice())?;
    }
    piece.extend_from_slice(b")\n")?;
    Ok(())
}
