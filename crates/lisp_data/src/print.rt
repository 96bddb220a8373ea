//! How values print (HyperSpec 22.1.3).
ghost use Rattle.std.specs.Prelude.{◌≡◌, ◌++◌, ◌+◌, Bool, true, false, IfOk, OnOk, option_copied, option_map, codes, MatchOption, length};
ghost use Rattle.lisp_data.specs.ValueView.{value_of};
ghost use Rattle.lisp_data.specs.Print.{Names, name_text, known_text, called_text, string_text, list_text, spaced, text_of, text_with, texts_with};
ghost use Rattle.lisp_data.specs.Print.{instance_text, specializer_text, methods_within};
ghost use Rattle.lisp_data.specs.PrintView.{called, specializer_told, methods_by, method_inside, qualifiers_from, specializers_from, specializers_text, piece_text, pending, Prints};

use crate::ids::{InstanceId, MethodId};
use crate::name::Name;
use crate::naming::{FunctionName, Naming, Specializer};
use crate::value::{Items, Value};
use itoa::Buffer;
use std::alloc::{AllocError, Global};

/// The bytes that a value prints as, with strings as they are read: in double quotes, with backslashes (HyperSpec 22.4, PRIN1).
pub fn prin1<N: Naming>(alloc: Global, value: &Value, names: &N) -> Result<Vec<u8>, AllocError>
    ensures { IfOk result (λ r. r.items ≡ text_of true (N.names names.now) (value_of value.now)) }
{
    print(alloc, value, true, names)
}

/// The bytes that a value prints as, with strings as their characters alone (HyperSpec 22.4, PRINC).
pub fn princ<N: Naming>(alloc: Global, value: &Value, names: &N) -> Result<Vec<u8>, AllocError>
    ensures { IfOk result (λ r. r.items ≡ text_of false (N.names names.now) (value_of value.now)) }
{
    print(alloc, value, false, names)
}

/// What is still to be written: values and lists, and methods with what stands in their eql specializers.
#[derive(Clone, Copy)]
enum Piece<'a> {
    /// A value. Where it stands in a method, so many more methods may stand inside one another.
    Whole(&'a Value, Option<u64>),
    /// The elements after a list's first, and its end.
    Rest(&'a Items, Option<u64>),
    /// A method's qualifiers from a place on, its specializers and its end.
    Qualifiers(MethodId, usize, u64),
    /// A method's specializers and its end.
    Specializers(MethodId, u64),
    /// A method's specializers from a place on that is not the first, and its end.
    MoreSpecializers(MethodId, usize, u64),
    /// One specializer.
    Specialized(Specializer<'a>, u64),
    /// A closing parenthesis.
    Close,
}

// A method can be the object of another's eql specializer, and so on without a bound that the native stack would bear:
// so what waits stands on a stack of its own, the next one last.
fn print<'a, N: Naming>(
    alloc: Global,
    value: &'a Value,
    readably: bool,
    names: &'a N,
) -> Result<Vec<u8>, AllocError>
    ensures { IfOk result (λ r. r.items ≡ text_of readably (N.names names.now) (value_of value.now)) }
{
    let mut out = Vec::new(alloc);
    let mut pieces: Vec<Piece<'a>> = Vec::new(alloc);
    print_value(&mut out, &mut pieces, value, None, readably, names)?;
    while let Some(piece) = pieces.pop() {
        print_piece(&mut out, &mut pieces, piece, readably, names)?;
    }
    Ok(out)
}

fn print_piece<'a, N: Naming>(
    out: &mut Vec<u8>,
    pieces: &mut Vec<Piece<'a>>,
    piece: Piece<'a>,
    readably: bool,
    names: &'a N,
) -> Result<(), AllocError>
    ensures { OnOk result (Prints readably (N.names names.now) (piece_text readably (N.names names.now) piece.entry)
        out.old.items pieces.old.items out.new.items pieces.new.items) }
{
    match piece {
        Piece::Whole(value, depth) => print_value(out, pieces, value, depth, readably, names),
        Piece::Rest(items, depth) => print_rest(out, pieces, items, depth),
        Piece::Qualifiers(id, place, depth) => {
            print_qualifiers(out, pieces, id, place, depth, names)
        }
        Piece::Specializers(id, depth) => print_specializers(out, pieces, id, depth, names),
        Piece::MoreSpecializers(id, place, depth) => {
            print_more_specializers(out, pieces, id, place, depth, names)
        }
        Piece::Specialized(specializer, depth) => {
            print_specializer(out, pieces, specializer, depth, names)
        }
        Piece::Close => out.extend_from_slice(b")"),
    }
}

fn print_value<'a, N: Naming>(
    out: &mut Vec<u8>,
    pieces: &mut Vec<Piece<'a>>,
    value: &'a Value,
    depth: Option<u64>,
    readably: bool,
    names: &'a N,
) -> Result<(), AllocError>
    ensures { OnOk result (Prints readably (N.names names.now)
        (text_with readably (N.names names.now) (methods_by readably (N.names names.now) depth) (value_of value.now))
        out.old.items pieces.old.items out.new.items pieces.new.items) }
{
    match value {
        Value::Int(number) => out.extend_from_slice(Buffer::new().format(*number).as_bytes()),
        Value::Sym(name) => print_name(out, name),
        Value::Str(text) => print_string(out, text.as_str(), readably),
        Value::List(items) => print_list(out, pieces, items, depth),
        Value::Class(id) => print_class(out, names.class_name(*id)),
        Value::Generic(id) => print_generic(out, names.generic_name(*id)),
        Value::Method(id) => print_method(out, pieces, *id, depth, names),
        Value::Instance(id) => print_instance(out, *id, names),
    }
}

fn print_list<'a>(
    out: &mut Vec<u8>,
    pieces: &mut Vec<Piece<'a>>,
    items: &'a Items,
    depth: Option<u64>,
) -> Result<(), AllocError>
    ensures { OnOk result ((readably : Bool) (names : Names) → Prints readably names
        (list_text (texts_with readably names (methods_by readably names depth) items.now))
        out.old.items pieces.old.items out.new.items pieces.new.items) }
{
    match items.split_first() {
        None => out.extend_from_slice(b"NIL"),
        Some((first, rest)) => {
            out.extend_from_slice(b"(")?;
            push_both(pieces, Piece::Whole(first, depth), Piece::Rest(rest, depth))
        }
    }
}

fn print_rest<'a>(
    out: &mut Vec<u8>,
    pieces: &mut Vec<Piece<'a>>,
    items: &'a Items,
    depth: Option<u64>,
) -> Result<(), AllocError>
    ensures { OnOk result ((readably : Bool) (names : Names) → Prints readably names
        (spaced (texts_with readably names (methods_by readably names depth) items.now) ++ codes ")")
        out.old.items pieces.old.items out.new.items pieces.new.items) }
{
    match items.split_first() {
        None => out.extend_from_slice(b")"),
        Some((first, rest)) => {
            out.extend_from_slice(b" ")?;
            push_both(pieces, Piece::Whole(first, depth), Piece::Rest(rest, depth))
        }
    }
}

#[tactic(auto, unfolding(crate::specs::PrintView::qualifiers_from))]
fn print_method<'a, N: Naming>(
    out: &mut Vec<u8>,
    pieces: &mut Vec<Piece<'a>>,
    id: MethodId,
    depth: Option<u64>,
    names: &'a N,
) -> Result<(), AllocError>
    ensures { OnOk result ((readably : Bool) → Prints readably (N.names names.now)
        (methods_by readably (N.names names.now) depth id.0)
        out.old.items pieces.old.items out.new.items pieces.new.items) }
{
    let (Some(inside), Some(generic)) = (depth_inside(id, depth), names.method_generic(id)) else {
        return out.extend_from_slice(b"#<METHOD ?>");
    };
    out.extend_from_slice(b"#<METHOD ")?;
    print_called(out, names.generic_name(generic))?;
    push(pieces, Piece::Qualifiers(id, 0, inside))
}

/// How many methods may stand inside this one, or None where it may not stand itself.
fn depth_inside(id: MethodId, depth: Option<u64>) -> Option<u64>
    ensures { (readably : Bool) (names : Names) → methods_by readably names depth id.0
        ≡ method_inside readably names result id.0 }
{
    match depth {
        None => Some(id.0),
        Some(0) => None,
        Some(left) => Some(left - 1),
    }
}

fn print_qualifiers<'a, N: Naming>(
    out: &mut Vec<u8>,
    pieces: &mut Vec<Piece<'a>>,
    id: MethodId,
    place: usize,
    depth: u64,
    names: &'a N,
) -> Result<(), AllocError>
    ensures { OnOk result ((readably : Bool) → Prints readably (N.names names.now)
        (qualifiers_from readably (N.names names.now) id.0 place depth)
        out.old.items pieces.old.items out.new.items pieces.new.items) }
{
    let next = after(place)?;
    out.extend_from_slice(b" ")?;
    match qualifier_at(id, place, depth, names) {
        None => push(pieces, Piece::Specializers(id, depth)),
        Some(qualifier) => {
            push_both(
                pieces,
                Piece::Whole(qualifier, Some(depth)),
                Piece::Qualifiers(id, next, depth),
            )
        }
    }
}

/// The method's qualifier at this place, or None where its specializers follow.
fn qualifier_at<N: Naming>(id: MethodId, place: usize, depth: u64, names: &N) -> Option<&Value>
    ensures { MatchOption result
        ((readably : Bool) → qualifiers_from readably (N.names names.now) id.0 place depth
        ≡ codes " " ++ specializers_text readably (N.names names.now) id.0 depth)
        (λ v. (readably : Bool) → qualifiers_from readably (N.names names.now) id.0 place depth
        ≡ codes " " ++ (text_with readably (N.names names.now) (methods_within readably (N.names names.now) depth) (value_of v.now)
        ++ qualifiers_from readably (N.names names.now) id.0 (place + 1) depth)) }
{
    names.qualifier(id, place)
}

fn print_specializers<'a, N: Naming>(
    out: &mut Vec<u8>,
    pieces: &mut Vec<Piece<'a>>,
    id: MethodId,
    depth: u64,
    names: &'a N,
) -> Result<(), AllocError>
    ensures { OnOk result ((readably : Bool) → Prints readably (N.names names.now)
        (specializers_text readably (N.names names.now) id.0 depth)
        out.old.items pieces.old.items out.new.items pieces.new.items) }
{
    match first_specializer(id, depth, names) {
        None => out.extend_from_slice(b"NIL>"),
        Some(specializer) => {
            out.extend_from_slice(b"(")?;
            push_both(
                pieces,
                Piece::Specialized(specializer, depth),
                Piece::MoreSpecializers(id, 1, depth),
            )
        }
    }
}

/// The method's first specializer, or None where it has none.
fn first_specializer<N: Naming>(id: MethodId, depth: u64, names: &N) -> Option<Specializer<'_>>
    ensures { MatchOption result
        ((readably : Bool) → specializers_text readably (N.names names.now) id.0 depth ≡ codes "NIL>")
        (λ s. (readably : Bool) → specializers_text readably (N.names names.now) id.0 depth
        ≡ codes "(" ++ (specializer_text readably (N.names names.now) (methods_within readably (N.names names.now) depth) (specializer_told s)
        ++ specializers_from readably (N.names names.now) id.0 1 depth)) }
{
    names.specializer(id, 0)
}

fn print_more_specializers<'a, N: Naming>(
    out: &mut Vec<u8>,
    pieces: &mut Vec<Piece<'a>>,
    id: MethodId,
    place: usize,
    depth: u64,
    names: &'a N,
) -> Result<(), AllocError>
    ensures { OnOk result ((readably : Bool) → Prints readably (N.names names.now)
        (specializers_from readably (N.names names.now) id.0 place depth)
        out.old.items pieces.old.items out.new.items pieces.new.items) }
{
    let next = after(place)?;
    match specializer_at(id, place, depth, names) {
        None => out.extend_from_slice(b")>"),
        Some(specializer) => {
            out.extend_from_slice(b" ")?;
            push_both(
                pieces,
                Piece::Specialized(specializer, depth),
                Piece::MoreSpecializers(id, next, depth),
            )
        }
    }
}

/// The method's specializer at this place, which is not the first, or None where it has no more.
fn specializer_at<N: Naming>(
    id: MethodId,
    place: usize,
    depth: u64,
    names: &N,
) -> Option<Specializer<'_>>
    ensures { MatchOption result
        ((readably : Bool) → specializers_from readably (N.names names.now) id.0 place depth ≡ codes ")>")
        (λ s. (readably : Bool) → specializers_from readably (N.names names.now) id.0 place depth
        ≡ codes " " ++ (specializer_text readably (N.names names.now) (methods_within readably (N.names names.now) depth) (specializer_told s)
        ++ specializers_from readably (N.names names.now) id.0 (place + 1) depth)) }
{
    names.specializer(id, place)
}

#[tactic(auto, unfolding(crate::specs::Print::specializer_text))]
fn print_specializer<'a, N: Naming>(
    out: &mut Vec<u8>,
    pieces: &mut Vec<Piece<'a>>,
    specializer: Specializer<'a>,
    depth: u64,
    names: &'a N,
) -> Result<(), AllocError>
    ensures { OnOk result ((readably : Bool) → Prints readably (N.names names.now)
        (specializer_text readably (N.names names.now) (methods_within readably (N.names names.now) depth) (specializer_told specializer.entry))
        out.old.items pieces.old.items out.new.items pieces.new.items) }
{
    match specializer {
        Specializer::Class(id) => print_known(out, names.class_name(id)),
        Specializer::Eql(object) => print_eql(out, pieces, object, depth),
    }
}

fn print_eql<'a>(
    out: &mut Vec<u8>,
    pieces: &mut Vec<Piece<'a>>,
    object: &'a Value,
    depth: u64,
) -> Result<(), AllocError>
    ensures { OnOk result ((readably : Bool) (names : Names) → Prints readably names
        (codes "(EQL " ++ (text_with readably names (methods_within readably names depth) (value_of object.now) ++ codes ")"))
        out.old.items pieces.old.items out.new.items pieces.new.items) }
{
    out.extend_from_slice(b"(EQL ")?;
    push_both(pieces, Piece::Whole(object, Some(depth)), Piece::Close)
}

/// The place after this one. No memory holds a list with no such place.
fn after(place: usize) -> Result<usize, AllocError>
    ensures { IfOk result (λ r. r ≡ place + 1) }
{
    match place.checked_add(1) {
        Some(next) => Ok(next),
        None => Err(AllocError),
    }
}

#[tactic(auto, using(crate::proofs::Printing::pending_pushed))]
fn push<'a>(pieces: &mut Vec<Piece<'a>>, piece: Piece<'a>) -> Result<(), AllocError>
    ensures text { OnOk result ((readably : Bool) (names : Names) → pending readably names pieces.new.items
        ≡ piece_text readably names piece.entry ++ pending readably names pieces.old.items) }
    ensures count { OnOk result (length pieces.new.items ≡ length pieces.old.items + 1) }
{
    pieces.push(piece)?;
    Ok(())
}

/// One piece, and another after it.
fn push_both<'a>(
    pieces: &mut Vec<Piece<'a>>,
    next: Piece<'a>,
    later: Piece<'a>,
) -> Result<(), AllocError>
    ensures text { OnOk result ((readably : Bool) (names : Names) → pending readably names pieces.new.items
        ≡ piece_text readably names next.entry ++ (piece_text readably names later.entry ++ pending readably names pieces.old.items)) }
    ensures count { OnOk result (length pieces.new.items ≡ length pieces.old.items + 2) }
{
    push(pieces, later)?;
    push(pieces, next)
}

fn print_name(out: &mut Vec<u8>, name: &Name) -> Result<(), AllocError>
    ensures { OnOk result (out.new.items ≡ out.old.items ++ name_text name.now) }
{
    if name.is_keyword() {
        out.extend_from_slice(b":")?;
    }
    out.extend_from_slice(name.as_str().as_bytes())
}

fn print_known(out: &mut Vec<u8>, name: Option<&Name>) -> Result<(), AllocError>
    ensures { OnOk result (out.new.items
        ≡ out.old.items ++ known_text (option_copied name.entry)) }
{
    match name {
        Some(name) => print_name(out, name),
        None => out.extend_from_slice(b"?"),
    }
}

fn print_class(out: &mut Vec<u8>, name: Option<&Name>) -> Result<(), AllocError>
    ensures { OnOk result (out.new.items
        ≡ out.old.items ++ (codes "#<CLASS " ++ (known_text (option_copied name.entry) ++ codes ">"))) }
{
    out.extend_from_slice(b"#<CLASS ")?;
    print_known(out, name)?;
    out.extend_from_slice(b">")
}

#[tactic(auto, unfolding(crate::specs::Print::called_text))]
fn print_called(out: &mut Vec<u8>, name: Option<FunctionName<'_>>) -> Result<(), AllocError>
    ensures { OnOk result (out.new.items ≡ out.old.items ++ called_text (option_map called name.entry)) }
{
    match name {
        None => out.extend_from_slice(b"?"),
        Some(FunctionName::Symbol(symbol)) => print_name(out, symbol),
        Some(FunctionName::Setf(symbol)) => {
            out.extend_from_slice(b"(SETF ")?;
            print_name(out, symbol)?;
            out.extend_from_slice(b")")
        }
    }
}

fn print_generic(out: &mut Vec<u8>, name: Option<FunctionName<'_>>) -> Result<(), AllocError>
    ensures { OnOk result (out.new.items
        ≡ out.old.items ++ (codes "#<GENERIC-FUNCTION " ++ (called_text (option_map called name.entry) ++ codes ">"))) }
{
    out.extend_from_slice(b"#<GENERIC-FUNCTION ")?;
    print_called(out, name)?;
    out.extend_from_slice(b">")
}

fn print_string(out: &mut Vec<u8>, text: &str, readably: bool) -> Result<(), AllocError>
    ensures { OnOk result (out.new.items ≡ out.old.items ++ string_text readably text.now) }
{
    if !readably {
        return out.extend_from_slice(text.as_bytes());
    }
    out.extend_from_slice(b"\"")?;
    for byte in text.as_bytes() {
        if *byte == b'"' || *byte == b'\\' {
            out.extend_from_slice(b"\\")?;
        }
        out.push(*byte)?;
    }
    out.extend_from_slice(b"\"")
}

fn print_instance<N: Naming>(out: &mut Vec<u8>, id: InstanceId, names: &N) -> Result<(), AllocError>
    ensures { OnOk result (out.new.items
        ≡ out.old.items ++ instance_text (N.names names.now) id.0) }
{
    let class = names.class_of(id);
    out.extend_from_slice(b"#<")?;
    print_known(out, class.and_then(|class| names.class_name(class)))?;
    out.extend_from_slice(b" ")?;
    out.extend_from_slice(Buffer::new().format(id.0).as_bytes())?;
    out.extend_from_slice(b">")
}
