//! What is told of a text that can't be read.
ghost use Rattle.std.specs.Prelude.{◌≡◌, IfOk};
ghost use Rattle.lisp_tokens.specs.Fault.{OnFault};
ghost use Rattle.clos_commentary.specs.Fault.{fault_text, words_of};

use crate::place::{Place, push_place};
use lisp_tokens::ReadFault;
use std::alloc::{AllocError, Global};

/// What a fault of reading is.
pub fn words(fault: &ReadFault) -> &'static str
    ensures { OnFault fault.now (λ kind _. result.now ≡ words_of kind) }
{
    match fault {
        ReadFault::EndInside(_) => "the input ends inside of what begins here",
        ReadFault::StrayClose(_) => "a closing parenthesis too many",
        ReadFault::BadToken(_) => "a token that can't be read",
        ReadFault::BadDot(_) => "a dot out of place",
        ReadFault::BadHash(_) => "a # that begins nothing",
        ReadFault::TooDeep(_) => "more than 200 open lists and prefixes",
        ReadFault::NotText(_) => "bytes that are not UTF-8",
        ReadFault::Memory => "memory ran out",
    }
}

/// The line that tells this fault, which stands at that place.
pub fn fault_line(alloc: Global, fault: &ReadFault, place: Place) -> Result<Vec<u8>, AllocError>
    ensures { IfOk result (λ r. OnFault fault.now (λ kind _. r.items ≡ fault_text kind place)) }
{
    let mut line = Vec::new(alloc);
    line.extend_from_slice(b"; ")?;
    push_place(&mut line, place)?;
    line.extend_from_slice(b": ")?;
    line.extend_from_slice(words(fault).as_bytes())?;
    line.push(b'\n')?;
    Ok(line)
}
