//! The numbers of predefined classes.
use clos_hierarchy::Hierarchy;
use clos_hierarchy::numbers::{
    BUILT_IN_CLASS, CONS, INTEGER, NULL, STANDARD_CLASS, STANDARD_GENERIC_FUNCTION,
    STANDARD_METHOD, STANDARD_OBJECT, STRING, SYMBOL,
};
use lisp_data::ClassId;
use std::process::Abort;
use std::test::Fail;

const NUMBERS: &[(ClassId, &str)] = &[
    (STANDARD_OBJECT, "STANDARD-OBJECT"),
    (INTEGER, "INTEGER"),
    (NULL, "NULL"),
    (SYMBOL, "SYMBOL"),
    (CONS, "CONS"),
    (STRING, "STRING"),
    (STANDARD_GENERIC_FUNCTION, "STANDARD-GENERIC-FUNCTION"),
    (STANDARD_CLASS, "STANDARD-CLASS"),
    (BUILT_IN_CLASS, "BUILT-IN-CLASS"),
    (STANDARD_METHOD, "STANDARD-METHOD"),
];

#[test]
fn numbers_are_those_of_their_names(rt: HostRuntime) -> Result<(), Fail> {
    let classes = Hierarchy::new(rt.alloc(), 0)?;
    for (class, name) in NUMBERS {
        let own = classes.name(*class).map_or("", |name| name.as_str());
        assert_eq!(rt; own, *name);
    }
    Ok(())
}
