//! Names, values and data compared by `==`, and as keys of maps.
ghost use Rattle.std.specs.Cmp.{on_equiv, partial_equiv_from_equiv};
ghost use Rattle.lisp_data.specs.DatumView.{datum_of};
ghost use Rattle.lisp_data.specs.Keys.{same_value, same_datum, name_writes, value_writes, datum_writes};
ghost use Rattle.lisp_data.specs.Name.{same_name};
ghost use Rattle.lisp_data.specs.ValueView.{value_of};
ghost use Rattle.lisp_data.specs.KeyLaws.{names_equiv, values_equiv, data_equiv, names_feed, values_feed, data_feed};

use crate::datum::Datum;
use crate::equality::{equal, equal_data};
use crate::name::Name;
use crate::value::Value;
use std::hash::{Hash, Hasher};

impl PartialEq for Name {
    ghost eq = { same_name };

    ghost laws = { partial_equiv_from_equiv names_equiv };

    fn eq(&self, other: &Name) -> bool {
        self.is(other)
    }
}

impl Eq for Name {
    ghost laws = { names_equiv };
}

impl Hash for Name {
    ghost hash_input = { name_writes };

    ghost respects_eq = { names_feed };

    fn hash<H: Hasher>(&self, state: &mut H) {
        state.write_u64(self.hash_code());
    }
}

impl PartialEq for Value {
    ghost eq = { λ v w. same_value (value_of v) (value_of w) };

    ghost laws = { partial_equiv_from_equiv (on_equiv value_of values_equiv) };

    fn eq(&self, other: &Value) -> bool {
        equal(self, other)
    }
}

impl Eq for Value {
    ghost laws = { on_equiv value_of values_equiv };
}

impl Hash for Value {
    ghost hash_input = { λ v. value_writes (value_of v) };

    ghost respects_eq = { λ v w. values_feed (value_of v) (value_of w) };

    fn hash<H: Hasher>(&self, state: &mut H) {
        match self {
            Value::Int(number) => state.write_i64(*number),
            Value::Sym(name) => name.hash(state),
            Value::Str(text) => text.as_str().hash(state),
            Value::List(items) => state.write_u64(items.len()),
            Value::Class(id) => state.write_u64(id.0),
            Value::Generic(id) => state.write_u64(id.0),
            Value::Method(id) => state.write_u64(id.0),
            Value::Instance(id) => state.write_u64(id.0),
        }
    }
}

impl PartialEq for Datum {
    ghost eq = { λ d e. same_datum (datum_of d) (datum_of e) };

    ghost laws = { partial_equiv_from_equiv (on_equiv datum_of data_equiv) };

    fn eq(&self, other: &Datum) -> bool {
        equal_data(self, other)
    }
}

impl Eq for Datum {
    ghost laws = { on_equiv datum_of data_equiv };
}

impl Hash for Datum {
    ghost hash_input = { λ d. datum_writes (datum_of d) };

    ghost respects_eq = { λ d e. data_feed (datum_of d) (datum_of e) };

    fn hash<H: Hasher>(&self, state: &mut H) {
        match self {
            Datum::Int(number) => state.write_i64(*number),
            Datum::Sym(name) => name.hash(state),
            Datum::Str(text) => text.as_str().hash(state),
            Datum::List(items) => state.write_u64(items.len()),
            Datum::Dotted(dot) => state.write_u64(dot.front().len()),
            Datum::Method(id) => state.write_u64(id.0),
        }
    }
}
