//! What a definition says of a generic function, besides its name and its methods.
ghost use Rattle.std.specs.Prelude.{◌≡◌, ◌++◌, ◌∷◌, [], IfOk, if◌then◌else◌, is_ok};
ghost use Rattle.clos_generic.specs.Initial.{left_to_right, standard, standard_options};

use clos_method::Shape;
use clos_syntax::CombinationUse;
use lisp_data::{Data, Name};
use std::alloc::{AllocError, Global};
use std::marker::Model;

/// Places of required parameters, from 0, in an order. Contracts see the list.
#[derive(Drop)]
pub struct Positions {
    places: Vec<usize>,
}

impl Model for Positions {
    ghost use Rattle.std.specs.Prelude.{List, ℕ};

    ghost Value = { List ℕ };

    ghost view = { λ a. a.places.items };
}

impl Positions {
    /// No places.
    pub fn new(alloc: Global) -> Positions
        ensures { result ≡ [] }
    {
        Positions {
            places: Vec::new(alloc),
        }
    }

    /// So many, from left to right: the argument precedence order where none is written (HyperSpec 7.6.6.1.2).
    pub fn left_to_right(alloc: Global, count: u64) -> Result<Positions, AllocError>
        ensures { IfOk result (λ r. r ≡ left_to_right count) }
    {
        let mut places = Vec::new(alloc);
        for place in 0..count as usize {
            places.push(place)?;
        }
        Ok(Positions { places })
    }

    /// One more, at the end.
    pub fn push(&mut self, place: usize) -> Result<(), AllocError>
        ensures { self.new ≡ (if is_ok result then self.old ++ place ∷ [] else self.old) }
    {
        self.places.push(place)?;
        Ok(())
    }

    /// The places.
    pub fn as_slice(&self) -> &[usize]
        ensures { result.now ≡ self.now }
    {
        self.places.as_slice()
    }
}

/// What a definition says of a generic function, besides its name and its methods (HyperSpec 7.7, defgeneric).
#[derive(Drop)]
pub struct Options {
    /// What arguments it takes.
    pub shape: Shape,
    /// The argument precedence order: each required parameter once.
    pub precedence: Positions,
    pub combination: CombinationUse,
}

impl Options {
    /// Of a function of this shape, where no options are written.
    pub fn standard(alloc: Global, shape: Shape) -> Result<Options, AllocError>
        ensures { IfOk result (λ r. r ≡ standard_options shape) }
    {
        Ok(Options {
            precedence: Positions::left_to_right(alloc, shape.required)?,
            shape,
            combination: standard_combination(),
        })
    }
}

/// The standard method combination (HyperSpec 7.6.6.2).
pub fn standard_combination() -> CombinationUse
    ensures { result ≡ standard }
{
    CombinationUse {
        name: Name::fixed(&"STANDARD"),
        arguments: Data::new(),
    }
}
