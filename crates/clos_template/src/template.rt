//! Templates as they are expanded: made once, when the combination is defined, and shared by what keeps a place in them.
ghost use Rattle.std.specs.Prelude.{◌≡◌, IfOk, MatchOption};
ghost use Rattle.clos_template.specs.Template.{Templates, template, nil, cons, operator_in, parts_in, rest_of};
ghost use Rattle.clos_template.specs.TemplateView.{templates_of};
ghost use Rattle.clos_template.specs.OperatorView.{operator_of};

use crate::operator::Operator;
use std::alloc::{AllocError, Global};
use std::marker::Model;
use std::rc::Rc;

/// A template: an operator and its parts. Contracts see it as the definitions do.
#[cycle(template)]
pub struct Template {
    node: Rc<Node>,
}

impl Drop for Template {
    #[cycle(template)]
    fn drop(self) {
        let Template { node: _ } = self;
    }
}

#[cycle(template)]
#[derive(Drop)]
struct Node {
    operator: Operator,
    parts: Templates,
}

/// Templates in order.
#[cycle(template)]
pub struct Templates {
    first: Link,
}

#[cycle(template)]
#[derive(Drop)]
enum Link {
    End,
    More(Rc<Pair>),
}

#[cycle(template)]
#[derive(Drop)]
struct Pair {
    head: Template,
    tail: Templates,
}

impl Model for Template {
    ghost use Rattle.clos_template.specs.Template.{Template, size_of_template};
    ghost use Rattle.clos_template.specs.inner.TemplateCode.{template_code};

    ghost Value = { Template };

    ghost coded = { template_code };

    ghost use Rattle.clos_template.specs.TemplateView.{template_of};

    ghost view = { λ a. template_of a.node.value };

    ghost size = { size_of_template };
}

impl Model for Templates {
    ghost use Rattle.clos_template.specs.Template.{Templates, size_of_templates};
    ghost use Rattle.clos_template.specs.inner.TemplateCode.{templates_code};

    ghost Value = { Templates };

    ghost coded = { templates_code };

    ghost use Rattle.clos_template.specs.TemplateView.{templates_of};

    ghost view = { λ a. templates_of a.first };

    ghost size = { size_of_templates };
}

impl Template {
    /// The template of this operator with these parts.
    pub(crate) fn new(
        alloc: Global,
        operator: Operator,
        parts: Templates,
    ) -> Result<Template, AllocError>
        ensures { IfOk result (λ r. r ≡ template (operator_of operator) parts) }
    {
        let node = Rc::new(alloc, Node { operator, parts })?;
        Ok(Template { node })
    }

    /// What the template does with its parts.
    pub(crate) fn operator(&self) -> &Operator
        ensures { operator_of result.now ≡ operator_in self.now }
    {
        &self.node.operator
    }

    /// The parts, as the operator says what they are.
    pub(crate) fn parts(&self) -> &Templates
        ensures { result.now ≡ parts_in self.now }
    {
        &self.node.parts
    }

    /// The same template, in a few steps whatever its size.
    pub fn copy(&self) -> Result<Template, AllocError>
        ensures { IfOk result (λ r. r ≡ self.now) }
    {
        let node = self.node.clone()?;
        Ok(Template { node })
    }
}

impl Templates {
    /// No templates.
    pub(crate) fn new() -> Templates
        ensures { result ≡ nil }
    {
        Templates { first: Link::End }
    }

    /// The templates with this one before the others.
    pub(crate) fn cons(
        alloc: Global,
        head: Template,
        tail: Templates,
    ) -> Result<Templates, AllocError>
        ensures { IfOk result (λ r. r ≡ cons head tail) }
    {
        let pair = Rc::new(alloc, Pair { head, tail })?;
        Ok(Templates {
            first: Link::More(pair),
        })
    }

    /// The first template and the others, or None of no templates.
    pub(crate) fn split_first(&self) -> Option<(&Template, &Templates)>
        ensures { MatchOption result (self.now ≡ nil) (λ p. self.now ≡ cons p.0.now p.1.now) }
    {
        match &self.first {
            Link::End => None,
            Link::More(pair) => Some((&pair.head, &pair.tail)),
        }
    }

    /// Those after the first.
    pub(crate) fn after_first(&self) -> &Templates
        ensures { result.now ≡ rest_of self.now }
    {
        match &self.first {
            Link::End => self,
            Link::More(pair) => &pair.tail,
        }
    }

    fn into_first(self) -> Link
        ensures { templates_of result ≡ self }
    {
        let Templates { first } = self;
        first
    }
}

impl Drop for Templates {
    #[cycle(template)]
    fn drop(self) {
        let Templates { first } = self;
        let mut link = first;
        loop {
            match link {
                Link::End => return,
                Link::More(pair) => match Rc::into_inner(pair) {
                    None => return,
                    Some(Pair { head, tail }) => {
                        drop(head);
                        link = tail.into_first();
                    }
                },
            }
        }
    }
}
