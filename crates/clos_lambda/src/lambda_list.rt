//! Lambda lists (HyperSpec 3.4.1, 3.4.2, 3.4.3).
ghost use Rattle.std.specs.Prelude.{◌≡◌, ◌++◌, OnOk, IfOk, is_some, map, option_map};
ghost use Rattle.std.specs.List.{list_any};
ghost use Rattle.std.specs.Option.{option_copied};
ghost use Rattle.lisp_data.specs.Datum.{Dats};
ghost use Rattle.lisp_data.specs.DatumView.{datum_of};
ghost use Rattle.clos_forms.specs.Fault.{Gives};
ghost use Rattle.clos_lambda.specs.LambdaList.{all_variables, allowing, bare, entries_of, generic_lambda_list_in, given_in, has_init, has_inits, if_distinct, key_in, key_variables, key_with, keyed, keyword_of, keys_from, lambda_list_in, listed_key, listed_optional, named_key, names_in, optional_in, optional_variables, optional_with, optionals_in, ordinary, parameter_in, plain_key, rest_in, unless_keyword, variables_of, with_keys, with_optionals, with_rest};
ghost use Rattle.clos_forms.specs.Sequence.{the_one};

use crate::kind::{Kind, parse_front, parse_symbol};
use crate::list::parse_list;
use crate::parameter::{Parameter, parse_parameters};
use crate::section::{after, back, is_lambda_list_keyword, is_symbol_called, past};
use clos_forms::{
    Context, Form, Scope, Sequence, SyntaxFault, are_distinct, at_most_one, only,
    parse_form_within, variable_name,
};
use lisp_data::{Data, Datum, Name};
use std::alloc::{AllocError, Global};

/// A lambda list. No variable stands twice in it (HyperSpec 3.4.1).
pub struct LambdaList {
    pub required: Sequence<Name>,
    pub optional: Sequence<Optional>,
    /// The variable of `&rest`.
    pub rest: Option<Name>,
    /// What follows `&key`, where it stands.
    pub keys: Option<Keys>,
}

impl Drop for LambdaList {
    fn drop(self) {
        let LambdaList {
            required: _,
            optional: _,
            rest: _,
            keys: _,
        } = self;
    }
}

/// A variable with its init form, and the variable that tells whether there is an argument, where they are written.
#[derive(Drop)]
pub struct Optional {
    pub name: Name,
    pub init: Option<Form>,
    pub given: Option<Name>,
}

/// The keyword parameters, and whether `&allow-other-keys` follows them.
#[derive(Drop)]
pub struct Keys {
    pub entries: Sequence<Key>,
    pub allow_other_keys: bool,
}

/// A keyword parameter: the symbol that names its argument, and the rest as of `&optional`.
#[derive(Drop)]
pub struct Key {
    pub keyword: Name,
    pub variable: Optional,
}

/// Variables of lambda lists.
pub struct Variables;

/// Entries of `&optional`.
struct Optionals;

/// Entries of `&key`.
struct KeyEntries;

impl Kind for Variables {
    type Item = Name;

    ghost item_in = { parameter_in };

    fn parse(_alloc: Global, datum: &Datum) -> Result<Name, SyntaxFault> {
        parse_parameter(datum)
    }
}

impl Parameter for Optionals {
    type Item = Optional;

    ghost item_in = { optional_in };

    fn parse(alloc: Global, scope: &mut Scope, datum: &Datum) -> Result<Optional, SyntaxFault> {
        let optional = parse_optional(alloc, scope, datum)?;
        bind_variables(scope, &optional)?;
        Ok(optional)
    }
}

impl Parameter for KeyEntries {
    type Item = Key;

    ghost item_in = { key_in };

    fn parse(alloc: Global, scope: &mut Scope, datum: &Datum) -> Result<Key, SyntaxFault> {
        let key = parse_key(alloc, scope, datum)?;
        bind_variables(scope, &key.variable)?;
        Ok(key)
    }
}

/// The variables of a parameter come into scope.
fn bind_variables(scope: &mut Scope, entry: &Optional) -> Result<(), AllocError> {
    scope.bind_parameter(&entry.name)?;
    bind_optional(scope, &entry.given)
}

/// A variable comes into scope, where there is one.
fn bind_optional(scope: &mut Scope, name: &Option<Name>) -> Result<(), AllocError> {
    match name {
        None => Ok(()),
        Some(name) => scope.bind_parameter(name),
    }
}

fn unless_keyword(name: &Name) -> Option<&Name>
    ensures { option_copied result ≡ unless_keyword name.now }
{
    if is_lambda_list_keyword(name) {
        return None;
    }
    Some(name)
}

fn parameter_name(datum: &Datum) -> Option<&Name>
    ensures { option_copied result ≡ parameter_in (datum_of datum.now) }
{
    unless_keyword(variable_name(datum)?)
}

/// A variable of a lambda list: a symbol that may be bound, and no lambda list keyword.
pub fn parse_parameter(datum: &Datum) -> Result<Name, SyntaxFault>
    ensures { Gives (λ n. n) result (parameter_in (datum_of datum.now)) }
{
    match parameter_name(datum) {
        None => Err(SyntaxFault::Program),
        Some(name) => Ok(name.copy()?),
    }
}

fn bare(name: Name) -> Optional
    ensures { result ≡ bare name }
{
    Optional {
        name,
        init: None,
        given: None,
    }
}

/// `v`, `(v)`, `(v init)` or `(v init given)`.
fn parse_optional(alloc: Global, scope: &mut Scope, datum: &Datum) -> Result<Optional, SyntaxFault>
    ensures { Gives (λ o. o) result (optional_in (datum_of datum.now)) }
{
    match datum {
        Datum::Sym(_) => {
            let name = parse_parameter(datum)?;
            Ok(bare(name))
        }
        Datum::List(elements) => parse_listed_optional(alloc, scope, elements),
        Datum::Int(_) => Err(SyntaxFault::Program),
        Datum::Str(_) => Err(SyntaxFault::Program),
        Datum::Dotted(_) => Err(SyntaxFault::Program),
        Datum::Method(_) => Err(SyntaxFault::Program),
    }
}

fn parse_listed_optional(
    alloc: Global,
    scope: &mut Scope,
    elements: &Data,
) -> Result<Optional, SyntaxFault>
    ensures { Gives (λ o. o) result (listed_optional elements.now) }
{
    match elements.split_first() {
        None => Err(SyntaxFault::Program),
        Some((variable, rest)) => {
            let name = parse_parameter(variable)?;
            parse_optional_with(alloc, scope, name, rest)
        }
    }
}

/// What may follow the variable: an init form, and then a variable that tells whether there is an argument.
fn parse_optional_with(
    alloc: Global,
    scope: &mut Scope,
    name: Name,
    rest: &Data,
) -> Result<Optional, SyntaxFault>
    ensures { Gives (λ o. o) result (optional_with name rest.now) }
{
    match rest.split_first() {
        None => Ok(bare(name)),
        Some((init, rest)) => {
            let init = parse_form_within(alloc, Context::Plain, scope, init)?;
            match at_most_one(rest) {
                None => Err(SyntaxFault::Program),
                Some(given) => {
                    let given = parse_given(given)?;
                    let init = Some(init);
                    Ok(Optional { name, init, given })
                }
            }
        }
    }
}

/// The variable that tells whether there is an argument, where one is written.
pub fn parse_given(datum: Option<&Datum>) -> Result<Option<Name>, SyntaxFault>
    ensures { Gives (λ n. n) result (given_in (option_map (λ d. datum_of d.now) datum.entry)) }
{
    match datum {
        None => Ok(None),
        Some(datum) => {
            let name = parse_parameter(datum)?;
            Ok(Some(name))
        }
    }
}

/// As of `&optional`, where the variable may be `(name v)`.
fn parse_key(alloc: Global, scope: &mut Scope, datum: &Datum) -> Result<Key, SyntaxFault>
    ensures { Gives (λ k. k) result (key_in (datum_of datum.now)) }
{
    match datum {
        Datum::Sym(_) => {
            let name = parse_parameter(datum)?;
            parse_plain_key(alloc, scope, name, &Data::new())
        }
        Datum::List(elements) => match elements.split_first() {
            None => Err(SyntaxFault::Program),
            Some((variable, rest)) => parse_key_with(alloc, scope, variable, rest),
        },
        Datum::Int(_) => Err(SyntaxFault::Program),
        Datum::Str(_) => Err(SyntaxFault::Program),
        Datum::Dotted(_) => Err(SyntaxFault::Program),
        Datum::Method(_) => Err(SyntaxFault::Program),
    }
}

/// A variable or `(name v)`, and what follows it.
fn parse_key_with(
    alloc: Global,
    scope: &mut Scope,
    variable: &Datum,
    rest: &Data,
) -> Result<Key, SyntaxFault>
    ensures { Gives (λ k. k) result (key_with (datum_of variable.now) rest.now) }
{
    match variable {
        Datum::Sym(_) => {
            let name = parse_parameter(variable)?;
            parse_plain_key(alloc, scope, name, rest)
        }
        Datum::List(elements) => parse_named_key(alloc, scope, elements, rest),
        Datum::Int(_) => Err(SyntaxFault::Program),
        Datum::Str(_) => Err(SyntaxFault::Program),
        Datum::Dotted(_) => Err(SyntaxFault::Program),
        Datum::Method(_) => Err(SyntaxFault::Program),
    }
}

/// A variable whose keyword has its characters.
fn parse_plain_key(
    alloc: Global,
    scope: &mut Scope,
    name: Name,
    rest: &Data,
) -> Result<Key, SyntaxFault>
    ensures { Gives (λ k. k) result (plain_key name rest.now) }
{
    let keyword = keyword_of(alloc, &name)?;
    let variable = parse_optional_with(alloc, scope, name, rest)?;
    Ok(Key { keyword, variable })
}

fn keyword_of(alloc: Global, name: &Name) -> Result<Name, AllocError>
    ensures { IfOk result (λ n. n ≡ keyword_of name.now) }
{
    Name::new(alloc, name.as_str(), true)
}

/// `(name v)`, and what follows it.
fn parse_named_key(
    alloc: Global,
    scope: &mut Scope,
    elements: &Data,
    rest: &Data,
) -> Result<Key, SyntaxFault>
    ensures { Gives (λ k. k) result (named_key elements.now rest.now) }
{
    match elements.split_first() {
        None => Err(SyntaxFault::Program),
        Some((name, others)) => {
            let keyword = parse_symbol(name)?;
            match only(others) {
                None => Err(SyntaxFault::Program),
                Some(variable) => {
                    let name = parse_parameter(variable)?;
                    let variable = parse_optional_with(alloc, scope, name, rest)?;
                    Ok(Key { keyword, variable })
                }
            }
        }
    }
}

/// The section of `&optional`.
fn parse_optionals(
    alloc: Global,
    scope: &mut Scope,
    section: Option<&Data>,
) -> Result<Sequence<Optional>, SyntaxFault>
    ensures { Gives (λ os. os) result (optionals_in (option_copied section.entry)) }
{
    match section {
        None => Ok(Sequence::new(alloc)),
        Some(section) => parse_parameters::<Optionals>(alloc, scope, section),
    }
}

/// The section of `&rest`: one variable.
fn parse_rest(alloc: Global, section: Option<&Data>) -> Result<Option<Name>, SyntaxFault>
    ensures { Gives (λ n. n) result (rest_in (option_copied section.entry)) }
{
    match section {
        None => Ok(None),
        Some(section) => {
            let names = parse_front::<Variables>(alloc, section)?;
            let name = names.into_one()?;
            Ok(Some(name))
        }
    }
}

/// The section of `&key`, and nothing more than `&allow-other-keys` after it. Where there is none, nothing more.
fn parse_keys(
    alloc: Global,
    scope: &mut Scope,
    section: Option<&Data>,
    rest: &Data,
) -> Result<Option<Keys>, SyntaxFault>
    ensures { Gives (λ ks. ks) result (keys_from (option_copied section.entry) rest.now) }
{
    match section {
        None => match rest.split_first() {
            None => Ok(None),
            Some(_) => Err(SyntaxFault::Program),
        },
        Some(section) => {
            let entries = parse_parameters::<KeyEntries>(alloc, scope, section)?;
            match allowing(back(section)) {
                None => Err(SyntaxFault::Program),
                Some(allow_other_keys) => Ok(Some(Keys {
                    entries,
                    allow_other_keys,
                })),
            }
        }
    }
}

/// Whether `&allow-other-keys` stands here, with nothing after it; None where anything else does.
fn allowing(elements: &Data) -> Option<bool>
    ensures { result ≡ allowing elements.now }
{
    match elements.split_first() {
        None => Some(false),
        Some((first, others)) => match others.split_first() {
            None => {
                if is_symbol_called("&ALLOW-OTHER-KEYS", first) {
                    return Some(true);
                }
                None
            }
            Some(_) => None,
        },
    }
}

/// Adds copies of these names.
pub fn push_names(names: &mut Vec<Name>, more: &[Name]) -> Result<(), AllocError>
    ensures { OnOk result (names.new.items ≡ names.old.items ++ more.now) }
{
    for name in more {
        names.push(name.copy()?)?;
    }
    Ok(())
}

/// Adds a copy of this name, where there is one.
pub fn push_name(names: &mut Vec<Name>, name: &Option<Name>) -> Result<(), AllocError>
    ensures { OnOk result (names.new.items ≡ names.old.items ++ names_in name.now) }
{
    match name {
        None => Ok(()),
        Some(name) => {
            names.push(name.copy()?)?;
            Ok(())
        }
    }
}

fn push_variables(names: &mut Vec<Name>, entry: &Optional) -> Result<(), AllocError>
    ensures { OnOk result (names.new.items ≡ names.old.items ++ variables_of entry.now) }
{
    names.push(entry.name.copy()?)?;
    push_name(names, &entry.given)
}

fn push_optional_variables(names: &mut Vec<Name>, entries: &[Optional]) -> Result<(), AllocError>
    ensures { OnOk result (names.new.items ≡ names.old.items ++ optional_variables entries.now) }
{
    for entry in entries {
        push_variables(names, entry)?;
    }
    Ok(())
}

fn push_key_variables(names: &mut Vec<Name>, entries: &[Key]) -> Result<(), AllocError>
    ensures { OnOk result (names.new.items ≡ names.old.items ++ key_variables entries.now) }
{
    for entry in entries {
        push_variables(names, &entry.variable)?;
    }
    Ok(())
}

fn entries_of(keys: &Option<Keys>) -> &[Key]
    ensures { result.now ≡ entries_of keys.now }
{
    match keys {
        None => &[],
        Some(keys) => keys.entries.as_slice(),
    }
}

/// All variables, in order.
fn all_variables(alloc: Global, list: &LambdaList) -> Result<Vec<Name>, AllocError>
    ensures { IfOk result (λ ns. ns.items ≡ all_variables list.now) }
{
    let mut names = Vec::new(alloc);
    push_names(&mut names, list.required.as_slice())?;
    push_optional_variables(&mut names, list.optional.as_slice())?;
    push_name(&mut names, &list.rest)?;
    push_key_variables(&mut names, entries_of(&list.keys))?;
    Ok(names)
}

/// The same lambda list, where no variable stands twice.
fn if_distinct(alloc: Global, list: LambdaList) -> Result<LambdaList, SyntaxFault>
    ensures { Gives (λ l. l) result (if_distinct list) }
{
    let names = all_variables(alloc, &list)?;
    if !are_distinct(alloc, &names)? {
        return Err(SyntaxFault::Program);
    }
    Ok(list)
}

/// The lambda list of these required parameters, from the first lambda list keyword on. Its variables come into scope.
pub fn parse_with_optionals(
    alloc: Global,
    scope: &mut Scope,
    required: Sequence<Name>,
    elements: &Data,
) -> Result<LambdaList, SyntaxFault>
    ensures { Gives (λ l. l) result (with_optionals required elements.now) }
{
    scope.bind_parameters(required.as_slice())?;
    let section = after("&OPTIONAL", elements);
    let optional = parse_optionals(alloc, scope, section)?;
    parse_with_rest(alloc, scope, required, optional, past(elements, section))
}

fn parse_with_rest(
    alloc: Global,
    scope: &mut Scope,
    required: Sequence<Name>,
    optional: Sequence<Optional>,
    elements: &Data,
) -> Result<LambdaList, SyntaxFault>
    ensures { Gives (λ l. l) result (with_rest required optional elements.now) }
{
    let section = after("&REST", elements);
    let rest = parse_rest(alloc, section)?;
    bind_optional(scope, &rest)?;
    parse_with_keys(
        alloc,
        scope,
        required,
        optional,
        rest,
        past(elements, section),
    )
}

fn parse_with_keys(
    alloc: Global,
    scope: &mut Scope,
    required: Sequence<Name>,
    optional: Sequence<Optional>,
    rest: Option<Name>,
    elements: &Data,
) -> Result<LambdaList, SyntaxFault>
    ensures { Gives (λ l. l) result (with_keys required optional rest elements.now) }
{
    let keys = parse_keys(alloc, scope, after("&KEY", elements), elements)?;
    let list = LambdaList {
        required,
        optional,
        rest,
        keys,
    };
    if_distinct(alloc, list)
}

/// An ordinary lambda list (HyperSpec 3.4.1). Its variables come into scope.
pub fn parse_lambda_list(
    alloc: Global,
    scope: &mut Scope,
    datum: &Datum,
) -> Result<LambdaList, SyntaxFault>
    ensures { Gives (λ l. l) result (lambda_list_in (datum_of datum.now)) }
{
    let elements = parse_list(datum)?;
    let required = parse_front::<Variables>(alloc, &elements)?;
    parse_with_optionals(alloc, scope, required, back(&elements))
}

fn has_init(entry: &Optional) -> bool
    ensures { result ≡ has_init entry.now }
{
    entry.init.is_some()
}

fn has_optional_inits(entries: &[Optional]) -> bool
    ensures { result ≡ list_any has_init entries.now }
{
    entries.iter().any(|entry| has_init(entry))
}

fn has_key_inits(entries: &[Key]) -> bool
    ensures { result ≡ list_any (λ k. has_init k.variable) entries.now }
{
    entries.iter().any(|entry| has_init(&entry.variable))
}

fn has_inits(list: &LambdaList) -> bool
    ensures { result ≡ has_inits list.now }
{
    has_optional_inits(list.optional.as_slice()) || has_key_inits(entries_of(&list.keys))
}

/// A generic function lambda list, which has no init forms (HyperSpec 3.4.2).
pub fn parse_generic_lambda_list(alloc: Global, datum: &Datum) -> Result<LambdaList, SyntaxFault>
    ensures { Gives (λ l. l) result (generic_lambda_list_in (datum_of datum.now)) }
{
    let list = parse_lambda_list(alloc, &mut Scope::new(alloc), datum)?;
    if has_inits(&list) {
        return Err(SyntaxFault::Program);
    }
    Ok(list)
}
