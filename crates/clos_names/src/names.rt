//! The names that the language gives a meaning (HyperSpec 1.9).
ghost use Rattle.std.specs.Prelude.{◌≡◌, ◌&&◌, not, map, codes};
ghost use Rattle.std.specs.List.{list_any};
ghost use Rattle.std.specs.Str.{bytes_eq};
ghost use Rattle.clos_names.specs.Names.{is_one_of, is_called, is_constant, definitions, functions, system_functions, closed_functions};

use lisp_data::Name;

const DEFINITIONS: [&str; 11] = [
    "DEFCLASS",
    "DEFGENERIC",
    "DEFMETHOD",
    "DEFINE-METHOD-COMBINATION",
    "DEFUN",
    "DEFVAR",
    "DEFPARAMETER",
    "REMOVE-METHOD",
    "ADD-DEPENDENT",
    "REMOVE-DEPENDENT",
    "IN-PACKAGE",
];

#[rattlefmt::skip]
const FUNCTIONS: [&str; 64] = [
    "+", "*", "-", "MAX", "MIN", "1+", "1-", "ABS", "ZEROP", "PLUSP", "MINUSP",
    "EVENP", "ODDP", "FLOOR", "TRUNCATE", "MOD", "REM", "=", "<", ">", "<=",
    ">=", "NOT", "NULL", "EQ", "EQL", "EQUAL", "ATOM", "CONSP", "LISTP", "SYMBOLP",
    "INTEGERP", "STRINGP", "CAR", "CDR", "FIRST", "SECOND", "THIRD", "REST", "NTH",
    "CONS", "LIST", "LIST*", "APPEND", "NCONC", "REVERSE", "LENGTH", "PRINC", "PRIN1",
    "PRINT", "TERPRI", "CLASS-OF", "CLASS-NAME", "CLASS-PRECEDENCE-LIST", "FIND-CLASS", "TYPEP",
    "FIND-METHOD", "MAKE-INSTANCE", "CHANGE-CLASS", "SLOT-VALUE", "SLOT-BOUNDP", "SLOT-MAKUNBOUND",
    "SLOT-EXISTS-P", "NATIVE-CALL",
];

const SYSTEM_FUNCTIONS: [&str; 9] = [
    "INITIALIZE-INSTANCE",
    "REINITIALIZE-INSTANCE",
    "SHARED-INITIALIZE",
    "UPDATE-INSTANCE-FOR-REDEFINED-CLASS",
    "UPDATE-INSTANCE-FOR-DIFFERENT-CLASS",
    "SLOT-UNBOUND",
    "SLOT-MISSING",
    "NO-APPLICABLE-METHOD",
    "NO-NEXT-METHOD",
];

/// The names of the forms that stand at the top level alone.
pub fn definition_names() -> &'static [&'static str]
    ensures { map (λ t. t.now) result.now ≡ definitions }
{
    &DEFINITIONS
}

/// The names of the functions of the language.
pub fn function_names() -> &'static [&'static str]
    ensures { map (λ t. t.now) result.now ≡ functions }
{
    &FUNCTIONS
}

/// The names of the generic functions of the system (HyperSpec 7.7).
pub fn system_function_names() -> &'static [&'static str]
    ensures { map (λ t. t.now) result.now ≡ system_functions }
{
    &SYSTEM_FUNCTIONS
}

/// Whether a name is one of these, and no keyword.
#[tactic(auto, using(crate::proofs::Lists::any_of_map))]
pub fn is_among(texts: &[&str], name: &Name) -> bool
    ensures { result ≡ is_one_of (map (λ t. t.now) texts.now) name.now }
{
    !name.is_keyword() && has(texts, name.as_str())
}

fn has(texts: &[&str], text: &str) -> bool
    ensures { result ≡ list_any (λ t. bytes_eq t.now text.now) texts.now }
{
    texts.iter().any(|t| *t == text)
}

/// Whether a name is this one, and no keyword.
pub fn is_the(name: &Name, text: &str) -> bool
    ensures { result ≡ is_called text.now name.now }
{
    !name.is_keyword() && name.as_str() == text
}

/// Whether the form of this name stands at the top level alone.
pub fn is_definition(name: &Name) -> bool
    ensures { result ≡ is_one_of definitions name.now }
{
    is_among(&DEFINITIONS, name)
}

/// Whether the name is a function's of the language.
pub fn is_function(name: &Name) -> bool
    ensures { result ≡ is_one_of functions name.now }
{
    is_among(&FUNCTIONS, name)
}

/// Whether the name is a generic function's of the system (HyperSpec 7.7).
pub fn is_system_function(name: &Name) -> bool
    ensures { result ≡ is_one_of system_functions name.now }
{
    is_among(&SYSTEM_FUNCTIONS, name)
}

/// Whether no function of the program's may have this name, though the language has none of it.
pub fn is_closed_function(name: &Name) -> bool
    ensures { result ≡ is_one_of closed_functions name.now }
{
    is_among(&["PRINT-OBJECT", "ALLOCATE-INSTANCE"], name)
}

/// Whether the symbol of this name is its own value: T, NIL and keywords (HyperSpec 3.1.2.1.3).
pub fn names_constant(name: &Name) -> bool
    ensures { result ≡ is_constant name.now }
{
    name.is_keyword() || is_the(name, "T") || is_the(name, "NIL")
}
