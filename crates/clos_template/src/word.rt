//! The operators of the template language, by their names (HyperSpec 7.7 `define-method-combination`).
ghost use Rattle.std.specs.Prelude.{◌≡◌, map};
ghost use Rattle.clos_template.specs.Word.{entry_of, takes, told, word_of};

use crate::operator::Function;
use lisp_data::Name;

/// What a name means at the head of a template.
#[derive(Clone, Copy, Debug, Drop, PartialEq, Eq)]
pub(crate) enum Word {
    Quote,
    Quasiquote,
    If,
    Cond,
    And,
    Or,
    Let,
    LetInOrder,
    MapCar,
    Function(Function),
}

/// Each name with what it means.
const NAMES: [(&str, Word); 24] = [
    ("QUOTE", Word::Quote),
    ("QUASIQUOTE", Word::Quasiquote),
    ("IF", Word::If),
    ("COND", Word::Cond),
    ("AND", Word::And),
    ("OR", Word::Or),
    ("LET", Word::Let),
    ("LET*", Word::LetInOrder),
    ("MAPCAR", Word::MapCar),
    ("NOT", Word::Function(Function::Not)),
    ("NULL", Word::Function(Function::Not)),
    ("ENDP", Word::Function(Function::Endp)),
    ("EQ", Word::Function(Function::Eq)),
    ("FIRST", Word::Function(Function::First)),
    ("CAR", Word::Function(Function::First)),
    ("SECOND", Word::Function(Function::Second)),
    ("REST", Word::Function(Function::Rest)),
    ("CDR", Word::Function(Function::Rest)),
    ("REVERSE", Word::Function(Function::Reverse)),
    ("LENGTH", Word::Function(Function::Length)),
    ("LIST", Word::Function(Function::List)),
    ("LIST*", Word::Function(Function::ListStar)),
    ("CONS", Word::Function(Function::Cons)),
    ("APPEND", Word::Function(Function::Append)),
];

impl Word {
    /// What a name means, if it means something.
    pub(crate) fn named(name: &Name) -> Option<Word>
        ensures { result ≡ word_of name.now }
    {
        if name.is_keyword() {
            return None;
        }
        entry_of(&NAMES, name.as_str())
    }
}

impl Function {
    /// Whether the function takes so many arguments.
    pub(crate) fn takes(self, count: u64) -> bool
        ensures { result ≡ takes self count }
    {
        match self {
            Function::Not => count == 1,
            Function::Endp => count == 1,
            Function::Eq => count == 2,
            Function::First => count == 1,
            Function::Second => count == 1,
            Function::Rest => count == 1,
            Function::Reverse => count == 1,
            Function::Length => count == 1,
            Function::List => true,
            Function::ListStar => count >= 1,
            Function::Cons => count == 2,
            Function::Append => true,
        }
    }
}

/// What these characters mean in a table.
fn entry_of(table: &[(&str, Word)], characters: &str) -> Option<Word>
    ensures { result ≡ entry_of (map told table.now) characters.now }
{
    for (text, word) in table {
        if *text == characters {
            return Some(*word);
        }
    }
    None
}
