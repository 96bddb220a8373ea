//! The predefined classes (HyperSpec 4.3.7), each with the rest of its class precedence list.
ghost use Rattle.std.specs.Prelude.{◌≡◌, [], OnOk, IfOk, map};
ghost use Rattle.clos_hierarchy.specs.Classes.{with_class};
ghost use Rattle.clos_hierarchy.specs.Initial.{fixed_name, fixed_names, all_defined, objects_and_numbers, symbols_and_sequences, functions_and_metaobjects, predefined};
ghost use Rattle.clos_hierarchy.specs.inner.Told.{Tells};

use crate::definitions::Definitions;
use crate::lists::Lists;
use lisp_data::Name;
use std::alloc::{AllocError, Global};

fn names(alloc: Global, texts: &'static [&'static str]) -> Result<Vec<Name>, AllocError>
    ensures { IfOk result (λ r. r.items ≡ fixed_names (map (λ t. t.now) texts.now)) }
{
    let mut names = Vec::new(alloc);
    let mut place = 0;
    while place < texts.len() {
        names.push(Name::fixed(&texts[place]))?;
        place += 1;
    }
    Ok(names)
}

/// One more class. None of them is misplaced, so that memory alone may be refused.
fn add(
    alloc: Global,
    definitions: &mut Definitions,
    lists: &mut Lists,
    name: &'static &'static str,
    above: &'static [&'static str],
) -> Result<(), AllocError>
    requires { Tells definitions.old lists.old }
    ensures defined { OnOk result (definitions.new ≡ with_class definitions.old (fixed_name name.now.now) (fixed_names (map (λ t. t.now) above.now))) }
    ensures tells { OnOk result (Tells definitions.new lists.new) }
{
    let _rows = definitions.len();
    let above = names(alloc, above)?;
    let put = definitions.put(Name::fixed(name), above)?;
    match lists.place(alloc, definitions, put.class, &Name::fixed(name), false) {
        Ok(_) => Ok(()),
        Err(_) => Err(AllocError),
    }
}

fn add_objects_and_numbers(
    alloc: Global,
    definitions: &mut Definitions,
    lists: &mut Lists,
) -> Result<(), AllocError>
    requires { Tells definitions.old lists.old }
    ensures defined { OnOk result (definitions.new ≡ all_defined definitions.old objects_and_numbers) }
    ensures tells { OnOk result (Tells definitions.new lists.new) }
{
    add(alloc, definitions, lists, &"T", &[])?;
    add(alloc, definitions, lists, &"STANDARD-OBJECT", &["T"])?;
    add(
        alloc,
        definitions,
        lists,
        &"INTEGER",
        &["RATIONAL", "REAL", "NUMBER", "T"],
    )?;
    add(
        alloc,
        definitions,
        lists,
        &"RATIONAL",
        &["REAL", "NUMBER", "T"],
    )?;
    add(alloc, definitions, lists, &"REAL", &["NUMBER", "T"])?;
    add(alloc, definitions, lists, &"NUMBER", &["T"])?;
    Ok(())
}

fn add_symbols_and_sequences(
    alloc: Global,
    definitions: &mut Definitions,
    lists: &mut Lists,
) -> Result<(), AllocError>
    requires { Tells definitions.old lists.old }
    ensures defined { OnOk result (definitions.new ≡ all_defined definitions.old symbols_and_sequences) }
    ensures tells { OnOk result (Tells definitions.new lists.new) }
{
    add(
        alloc,
        definitions,
        lists,
        &"NULL",
        &["SYMBOL", "LIST", "SEQUENCE", "T"],
    )?;
    add(alloc, definitions, lists, &"SYMBOL", &["T"])?;
    add(alloc, definitions, lists, &"LIST", &["SEQUENCE", "T"])?;
    add(alloc, definitions, lists, &"SEQUENCE", &["T"])?;
    add(
        alloc,
        definitions,
        lists,
        &"CONS",
        &["LIST", "SEQUENCE", "T"],
    )?;
    add(
        alloc,
        definitions,
        lists,
        &"STRING",
        &["VECTOR", "ARRAY", "SEQUENCE", "T"],
    )?;
    add(
        alloc,
        definitions,
        lists,
        &"VECTOR",
        &["ARRAY", "SEQUENCE", "T"],
    )?;
    add(alloc, definitions, lists, &"ARRAY", &["T"])?;
    Ok(())
}

fn add_functions_and_metaobjects(
    alloc: Global,
    definitions: &mut Definitions,
    lists: &mut Lists,
) -> Result<(), AllocError>
    requires { Tells definitions.old lists.old }
    ensures defined { OnOk result (definitions.new ≡ all_defined definitions.old functions_and_metaobjects) }
    ensures tells { OnOk result (Tells definitions.new lists.new) }
{
    add(alloc, definitions, lists, &"FUNCTION", &["T"])?;
    add(
        alloc,
        definitions,
        lists,
        &"GENERIC-FUNCTION",
        &["FUNCTION", "T"],
    )?;
    add(
        alloc,
        definitions,
        lists,
        &"STANDARD-GENERIC-FUNCTION",
        &["GENERIC-FUNCTION", "FUNCTION", "T"],
    )?;
    add(
        alloc,
        definitions,
        lists,
        &"CLASS",
        &["STANDARD-OBJECT", "T"],
    )?;
    add(
        alloc,
        definitions,
        lists,
        &"STANDARD-CLASS",
        &["CLASS", "STANDARD-OBJECT", "T"],
    )?;
    add(
        alloc,
        definitions,
        lists,
        &"BUILT-IN-CLASS",
        &["CLASS", "STANDARD-OBJECT", "T"],
    )?;
    add(
        alloc,
        definitions,
        lists,
        &"STANDARD-METHOD",
        &["METHOD", "STANDARD-OBJECT", "T"],
    )?;
    add(alloc, definitions, lists, &"METHOD", &["T"])?;
    Ok(())
}

/// Defines the predefined classes, where there is none.
#[tactic(auto, using(crate::proofs::Listed::tells_none))]
pub fn define_predefined(
    alloc: Global,
    definitions: &mut Definitions,
    lists: &mut Lists,
) -> Result<(), AllocError>
    requires none { definitions.old ≡ record { names = []; above = [] } }
    requires empty { lists.old.kept ≡ [] }
    ensures defined { OnOk result (definitions.new ≡ predefined) }
    ensures tells { OnOk result (Tells definitions.new lists.new) }
{
    add_objects_and_numbers(alloc, definitions, lists)?;
    add_symbols_and_sequences(alloc, definitions, lists)?;
    add_functions_and_metaobjects(alloc, definitions, lists)?;
    Ok(())
}
