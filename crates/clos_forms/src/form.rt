//! Forms as they are evaluated: checked once, and shared by what keeps a place in them.
ghost use Rattle.std.specs.Prelude.{◌≡◌, IfOk, MatchOption};
ghost use Rattle.clos_forms.specs.Form.{Forms, form, nil, cons, operator_in, parts_in};
ghost use Rattle.clos_forms.specs.FormView.{forms_of};
ghost use Rattle.clos_forms.specs.OperatorView.{operator_of};

use crate::operator::Operator;
use std::alloc::{AllocError, Global};
use std::marker::Model;
use std::rc::Rc;

/// A form: an operator and its parts. Contracts see it as the definitions do.
#[cycle(form)]
pub struct Form {
    node: Rc<Node>,
}

impl Drop for Form {
    #[cycle(form)]
    fn drop(self) {
        let Form { node: _ } = self;
    }
}

#[cycle(form)]
#[derive(Drop)]
struct Node {
    operator: Operator,
    parts: Forms,
}

/// Forms in order, which share their tails.
#[cycle(form)]
pub struct Forms {
    first: Link,
}

#[cycle(form)]
#[derive(Drop)]
enum Link {
    End,
    More(Rc<Pair>),
}

#[cycle(form)]
#[derive(Drop)]
struct Pair {
    head: Form,
    tail: Forms,
}

impl Model for Form {
    ghost use Rattle.clos_forms.specs.Form.{Form, size_of_form};
    ghost use Rattle.clos_forms.specs.inner.FormCode.{form_code};

    ghost Value = { Form };

    ghost coded = { form_code };

    ghost use Rattle.clos_forms.specs.FormView.{form_of};

    ghost view = { λ a. form_of a.node.value };

    ghost size = { size_of_form };
}

impl Model for Forms {
    ghost use Rattle.clos_forms.specs.Form.{Forms, size_of_forms};
    ghost use Rattle.clos_forms.specs.inner.FormCode.{forms_code};

    ghost Value = { Forms };

    ghost coded = { forms_code };

    ghost use Rattle.clos_forms.specs.FormView.{forms_of};

    ghost view = { λ a. forms_of a.first };

    ghost size = { size_of_forms };
}

impl Form {
    /// The form of this operator with these parts.
    pub fn new(alloc: Global, operator: Operator, parts: Forms) -> Result<Form, AllocError>
        ensures { IfOk result (λ r. r ≡ form (operator_of operator) parts) }
    {
        let node = Rc::new(alloc, Node { operator, parts })?;
        Ok(Form { node })
    }

    /// What the form does with its parts.
    pub fn operator(&self) -> &Operator
        ensures { operator_of result.now ≡ operator_in self.now }
    {
        &self.node.operator
    }

    /// The parts, as the operator says what they are.
    pub fn parts(&self) -> &Forms
        ensures { result.now ≡ parts_in self.now }
    {
        &self.node.parts
    }

    /// The same form, in a few steps whatever its size.
    pub fn copy(&self) -> Result<Form, AllocError>
        ensures { IfOk result (λ r. r ≡ self.now) }
    {
        let node = self.node.clone()?;
        Ok(Form { node })
    }
}

impl Forms {
    /// No forms.
    pub fn new() -> Forms
        ensures { result ≡ nil }
    {
        Forms { first: Link::End }
    }

    /// The forms with this one before the others.
    pub fn cons(alloc: Global, head: Form, tail: Forms) -> Result<Forms, AllocError>
        ensures { IfOk result (λ r. r ≡ cons head tail) }
    {
        let pair = Rc::new(alloc, Pair { head, tail })?;
        Ok(Forms {
            first: Link::More(pair),
        })
    }

    /// The first form and the others, or None of no forms.
    pub fn split_first(&self) -> Option<(&Form, &Forms)>
        ensures { MatchOption result (self.now ≡ nil) (λ p. self.now ≡ cons p.0.now p.1.now) }
    {
        match &self.first {
            Link::End => None,
            Link::More(pair) => Some((&pair.head, &pair.tail)),
        }
    }

    /// The same forms, in a few steps however many they are.
    pub fn copy(&self) -> Result<Forms, AllocError>
        ensures { IfOk result (λ r. r ≡ self.now) }
    {
        match &self.first {
            Link::End => Ok(Forms::new()),
            Link::More(pair) => Ok(Forms {
                first: Link::More(pair.clone()?),
            }),
        }
    }

    fn into_first(self) -> Link
        ensures { forms_of result ≡ self }
    {
        let Forms { first } = self;
        first
    }
}

impl Drop for Forms {
    #[cycle(form)]
    fn drop(self) {
        let Forms { first } = self;
        let mut link = first;
        loop {
            match link {
                Link::End => return,
                Link::More(pair) => match Rc::into_inner(pair) {
                    None => return,
                    Some(Pair { head, tail }) => {
                        drop(head);
                        link = tail.into_first();
                    }
                },
            }
        }
    }
}
