//! Commands: lines that begin with a comma. No form of Common Lisp does; here `,x` would be read as `(unquote x)`, which a line
//! writes out.
ghost use Rattle.std.specs.Prelude.{◌≡◌, ◌≤◌, ℕ, List, drop, length, true, IfOk};
ghost use Rattle.std.specs.List.{prefix_len};
ghost use Rattle.lisp_data.specs.DatumView.{datum_of};
ghost use Rattle.clos_commentary.specs.clos_system.clos_world.World.{seen};
ghost use Rattle.lisp_reader.specs.Answers.{Next};
ghost use Rattle.clos_prompt.specs.Command.{after_word, asks_methods, first_word, is_blank, is_command, is_in_word};
ghost use Rattle.clos_commentary.specs.Forms.{IsRefused};
ghost use Rattle.clos_prompt.specs.Request.{ReadsNext, Wants};

use clos_commentary::{
    World, cache_page, call_of, class_page, form_of_arguments, generic_page, no_class,
};
use clos_forms::is_the;
use lisp_data::{Data, Datum, GenericId, Name};
use lisp_reader::read_form;
use lisp_tokens::ReadFault;
use std::alloc::{AllocError, Global};

const HELP: &[u8] = b",class NAME     shows a class
,generic NAME   shows a generic function; NAME may be (SETF NAME)
,methods CALL   evaluates the arguments of a call, as (SPEAK *DOG* 'LOUD), and shows the methods
                that fit them; the function is not called
,cache          shows the calls whose effective methods are kept
,help           lists the commands
Ctrl-D          leaves
";

const UNKNOWN: &[u8] = b"; there is no such command: ,help lists them\n";

const NO_CLASS_NAME: &[u8] = b"; ,class takes the name of a class\n";

const NO_GENERIC: &[u8] = b"; ,generic takes the name of a generic function\n";

const NO_CALL: &[u8] = b"; ,methods takes a call of a generic function by a symbol\n";

fn is_blank(byte: u8) -> bool
    ensures { result ≡ is_blank byte }
{
    matches!(byte, b' ' | b'\t' | b'\n' | b'\r' | 0x0c)
}

fn blanks_len(text: &[u8]) -> usize
    ensures value { result ≡ prefix_len is_blank text.now }
    ensures within { result ≤ length text.now }
{
    text.iter().take_while(|byte| is_blank(**byte)).count()
}

fn word_len(text: &[u8]) -> usize
    ensures value { result ≡ prefix_len is_in_word text.now }
    ensures within { result ≤ length text.now }
{
    text.iter().take_while(|byte| !is_blank(**byte)).count()
}

/// What stands in a line after its first word.
fn after_word(line: &[u8]) -> &[u8]
    ensures { result.now ≡ after_word line.now }
{
    let rest = &line[blanks_len(line)..];
    &rest[word_len(rest)..]
}

/// The first word of a line.
fn first_word(line: &[u8]) -> &[u8]
    ensures { result.now ≡ first_word line.now }
{
    let rest = &line[blanks_len(line)..];
    &rest[..word_len(rest)]
}

/// Whether the line is a command, where nothing is open.
pub(crate) fn is_command(line: &[u8]) -> bool
    ensures { result ≡ is_command line.now }
{
    match first_word(line) {
        [first, ..] => *first == b',',
        [] => false,
    }
}

/// No datum, for want of one that can be read.
fn unread(fault: ReadFault) -> Result<Option<Datum>, AllocError>
    ensures { (text : List ℕ) (at : ℕ) → IsRefused text at fault → IfOk result (ReadsNext (drop at text)) }
{
    match fault.offset() {
        Some(_) => Ok(None),
        None => Err(AllocError),
    }
}

/// The datum that follows the first word of a line, if one can be read there.
fn subject(alloc: Global, line: &[u8]) -> Result<Option<Datum>, AllocError>
    ensures { IfOk result (ReadsNext (after_word line.now)) }
{
    match read_form(alloc, after_word(line), 0) {
        Ok(Some((datum, _))) => Ok(Some(datum)),
        Ok(None) => Ok(None),
        Err(fault) => unread(fault),
    }
}

/// What is shown of the class of this name.
fn class_shown(alloc: Global, world: &World, name: &Name) -> Result<Vec<u8>, AllocError> {
    match world.classes().hierarchy().named(name) {
        Some(class) => class_page(alloc, world, class),
        None => no_class(alloc, world, name),
    }
}

/// The symbol of a list of SETF and this symbol.
fn setter_name(items: &Data) -> Option<&Name> {
    let (first, rest) = items.split_first()?;
    let (second, rest) = rest.split_first()?;
    match (first, second, rest.split_first()) {
        (Datum::Sym(setf), Datum::Sym(name), None) if is_the(setf, "SETF") => Some(name),
        _ => None,
    }
}

/// The generic function that is called so.
fn generic_named(world: &World, called: &Datum) -> Option<GenericId> {
    match called {
        Datum::Sym(name) => world.generics.named_by_symbol(name),
        Datum::List(items) => world.generics.named_by_setf(setter_name(items)?),
        _ => None,
    }
}

/// What is shown of the class that is called so.
fn named_class_shown(alloc: Global, world: &World, called: &Datum) -> Result<Vec<u8>, AllocError> {
    match called {
        Datum::Sym(name) => class_shown(alloc, world, name),
        _ => Vec::from_slice(alloc, NO_CLASS_NAME),
    }
}

/// What is shown of the generic function that is called so.
fn generic_shown(alloc: Global, world: &World, called: &Datum) -> Result<Vec<u8>, AllocError> {
    match generic_named(world, called) {
        None => Vec::from_slice(alloc, NO_GENERIC),
        Some(id) => generic_page(alloc, world, id),
    }
}

/// What a command asks for.
#[derive(Drop)]
pub(crate) enum Request {
    /// That this is shown.
    Page(Vec<u8>),
    /// The methods of this function that fit the value of this form, which is that of a list.
    Methods(GenericId, Datum),
}

/// What `,methods` with this call asks for.
fn methods_of(alloc: Global, world: &World, call: &Datum) -> Result<Request, AllocError>
    ensures { IfOk result (λ r. (line rest : List ℕ) → asks_methods line ≡ true → Next (after_word line) (datum_of call.now) rest
        → Wants (seen world.now) line r) }
{
    match call_of(world, call) {
        None => Ok(Request::Page(Vec::from_slice(alloc, NO_CALL)?)),
        Some((id, arguments)) => Ok(Request::Methods(id, form_of_arguments(alloc, arguments)?)),
    }
}

/// What `,methods` in this line asks for.
fn methods_asked(alloc: Global, world: &World, line: &[u8]) -> Result<Request, AllocError>
    requires { asks_methods line.now ≡ true }
    ensures { IfOk result (Wants (seen world.now) line.now) }
{
    match subject(alloc, line)? {
        None => Ok(Request::Page(Vec::from_slice(alloc, NO_CALL)?)),
        Some(call) => methods_of(alloc, world, &call),
    }
}

/// What a command other than `,methods` shows.
fn shown(alloc: Global, world: &World, line: &[u8]) -> Result<Vec<u8>, AllocError> {
    let word = first_word(line);
    if word == b",help".as_slice() {
        return Vec::from_slice(alloc, HELP);
    }
    if word == b",cache".as_slice() {
        return cache_page(alloc, world);
    }
    let called = subject(alloc, line)?.unwrap_or(Datum::Int(0));
    if word == b",class".as_slice() {
        return named_class_shown(alloc, world, &called);
    }
    if word == b",generic".as_slice() {
        return generic_shown(alloc, world, &called);
    }
    Vec::from_slice(alloc, UNKNOWN)
}

/// What the command of this line asks for.
pub(crate) fn request_of(alloc: Global, world: &World, line: &[u8]) -> Result<Request, AllocError>
    ensures { IfOk result (Wants (seen world.now) line.now) }
{
    if first_word(line) == b",methods".as_slice() {
        return methods_asked(alloc, world, line);
    }
    Ok(Request::Page(shown(alloc, world, line)?))
}
