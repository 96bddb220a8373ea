//! The special operators and macros of the language, by their names (HyperSpec 3.1.2.1.2.1, 3.1.2.1.2.2).
ghost use Rattle.std.specs.Prelude.{◌≡◌, Some, is_some, map, option_map, slice_get};
ghost use Rattle.clos_names.specs.Names.{is_one_of};
ghost use Rattle.clos_names.specs.Special.{entry_of, special_of, special_operators, told};

use lisp_data::Name;

/// A special operator or a macro.
#[derive(Clone, Copy, Debug, Drop, PartialEq, Eq)]
pub enum Special {
    Quote,
    Function,
    If,
    Cond,
    When,
    Unless,
    And,
    Or,
    Progn,
    Prog1,
    Let,
    LetInOrder,
    Setq,
    Setf,
    Incf,
    Decf,
    Dotimes,
    WithSlots,
    CallNextMethod,
    NextMethodP,
}

/// Each name with its operator.
const NAMES: [(&str, Special); 21] = [
    ("QUOTE", Special::Quote),
    ("FUNCTION", Special::Function),
    ("IF", Special::If),
    ("COND", Special::Cond),
    ("WHEN", Special::When),
    ("UNLESS", Special::Unless),
    ("AND", Special::And),
    ("OR", Special::Or),
    ("PROGN", Special::Progn),
    ("PROG1", Special::Prog1),
    ("MULTIPLE-VALUE-PROG1", Special::Prog1),
    ("LET", Special::Let),
    ("LET*", Special::LetInOrder),
    ("SETQ", Special::Setq),
    ("SETF", Special::Setf),
    ("INCF", Special::Incf),
    ("DECF", Special::Decf),
    ("DOTIMES", Special::Dotimes),
    ("WITH-SLOTS", Special::WithSlots),
    ("CALL-NEXT-METHOD", Special::CallNextMethod),
    ("NEXT-METHOD-P", Special::NextMethodP),
];

impl Special {
    /// The operator of a name, if it has one.
    pub fn named(name: &Name) -> Option<Special>
        ensures { result ≡ special_of name.now }
    {
        if name.is_keyword() {
            return None;
        }
        entry_of(&NAMES, name.as_str())
    }
}

/// The name at a place of the special operators and macros.
pub fn special_operator_name(place: usize) -> Option<&'static str>
    ensures { option_map (λ t. t.now) result ≡ slice_get special_operators place }
{
    name_at(&NAMES, place)
}

/// Whether the name is a special operator's or a macro's.
pub fn is_special_operator(name: &Name) -> bool
    ensures { result ≡ is_one_of special_operators name.now }
{
    Special::named(name).is_some()
}

/// The name at a place of a table.
#[tactic(auto, using(crate::proofs::Lists::name_at))]
fn name_at(table: &[(&'static str, Special)], place: usize) -> Option<&'static str>
    ensures { option_map (λ t. t.now) result ≡ slice_get (map (λ e. e.0) (map told table.now)) place }
{
    match table.get(place) {
        Some(entry) => Some(entry.0),
        None => None,
    }
}

/// The operator of these characters in a table.
fn entry_of(table: &[(&str, Special)], characters: &str) -> Option<Special>
    ensures { result ≡ entry_of (map told table.now) characters.now }
{
    for (text, special) in table {
        if *text == characters {
            return Some(*special);
        }
    }
    None
}
