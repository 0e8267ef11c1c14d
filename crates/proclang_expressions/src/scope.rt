//! The variables that are seen, each at its place.

ghost use Rattle.std.specs.Prelude.{◌≡◌, List, [], ◌∷◌, ◌++◌, length, map, take, string_bytes, OnOk, IfOk, position};
ghost use Rattle.std.specs.Str.{bytes_eq};
ghost use Rattle.proclang_types.specs.Procedures.{param_shape};
ghost use Rattle.proclang_expressions.specs.Seen.{seen, seen_of, found_in};

use proclang_types::Param;
use std::alloc::{AllocError, Global};
use std::marker::Model;
use values::ColType;

/// How a variable was declared.
#[derive(Clone, Copy, Debug, PartialEq, Eq)]
pub enum Declaration {
    Parameter,
    /// By a `let` or a `get`.
    Statement,
    Loop,
}

#[derive(Drop)]
pub(crate) struct Variable {
    name: String,
    kind: ColType,
    declaration: Declaration,
}

/// A variable that is seen, and its place.
#[derive(Clone, Copy)]
pub struct Found {
    pub place: usize,
    pub kind: ColType,
    pub declaration: Declaration,
}

/// The variables that are seen, in the order of their declarations.
#[derive(Drop)]
pub struct Scope {
    variables: Vec<Variable>,
}

impl Model for Scope {
    ghost use Rattle.std.specs.Prelude.{List, map};
    ghost use Rattle.proclang_expressions.specs.Seen.{Seen, seen};

    ghost Value = { List Seen };

    ghost view = { λ s. map seen s.variables.items };
}

impl Scope {
    /// The parameters of a procedure.
    pub fn of_params(alloc: Global, params: &[Param]) -> Result<Scope, AllocError>
        ensures { IfOk result (λ s. s ≡ seen_of (map param_shape params.now)) }
    {
        let mut variables = Vec::new(alloc);
        for param in params {
            variables.push(Variable {
                name: param.name.clone()?,
                kind: param.kind,
                declaration: Declaration::Parameter,
            })?;
        }
        Ok(Scope { variables })
    }

    /// The variable of that name.
    #[tactic(auto, using(crate::proofs::Seen::seen_place))]
    pub(crate) fn find(&self, name: &str) -> Option<Found>
        ensures { result ≡ found_in name.now self.now }
    {
        let place = position_of(self.variables.as_slice(), name)?;
        let variable = &self.variables[place];
        Some(Found {
            place,
            kind: variable.kind,
            declaration: variable.declaration,
        })
    }

    /// How many variables are seen.
    pub fn len(&self) -> usize
        ensures { result ≡ length self.now }
    {
        self.variables.len()
    }

    // rule: variable.declared
    /// Declares a variable after the others.
    pub fn declare(
        &mut self,
        name: String,
        kind: ColType,
        declaration: Declaration,
    ) -> Result<(), AllocError>
        ensures ok { OnOk result (self.new
            ≡ self.old ++ record { name = string_bytes name; kind = kind; declaration = declaration } ∷ []) }
    {
        self.variables.push(Variable {
            name,
            kind,
            declaration,
        })?;
        Ok(())
    }

    /// Lets go of the variables after the first `len`.
    pub fn truncate(&mut self, len: usize)
        ensures { self.new ≡ take len self.old }
    {
        self.variables.truncate(len);
    }
}

fn position_of(variables: &[Variable], name: &str) -> Option<usize>
    ensures { result ≡ position (λ v. bytes_eq name.now (string_bytes v.name)) variables.now }
{
    variables
        .iter()
        .position(|variable| name == variable.name.as_str())
}
