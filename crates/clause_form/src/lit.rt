// Literals, and lists of them.
ghost use Rattle.std.specs.Prelude.{◌≡◌, ◌<◌, ◌^◌, length, slice_get, swap, IfOk, OnErr, OnOk, [], ◌∷◌, ◌++◌};
ghost use Rattle.std.specs.Option.{option_copied};
ghost use Rattle.clause_form.specs.Literals.{is_positive, literal, negation, variable};

use std::alloc::{AllocError, Global};
use std::marker::Model;

/// 2v for the variable v, and 2v + 1 for its negation; v from 1.
#[derive(Clone, Copy, Debug, PartialEq, Eq)]
pub struct Lit(pub u64);

impl Lit {
    /// The literal that is the variable of this number.
    pub fn positive(number: u64) -> Lit
        requires { number < 2 ^ 63 }
        ensures literal { result ≡ literal number }
        ensures variable { variable result ≡ number }
    {
        Lit(2 * number)
    }

    /// The variable that it speaks of.
    #[tactic(auto, unfolding(crate::specs::Literals::variable))]
    pub fn variable(self) -> u64
        ensures { result ≡ variable self }
    {
        self.0 / 2
    }

    /// Whether it is the variable, and not its negation.
    #[tactic(auto, unfolding(crate::specs::Literals::is_positive))]
    pub fn is_positive(self) -> bool
        ensures { result ≡ is_positive self }
    {
        self.0 % 2 == 0
    }

    /// The literal that is true where this one is false.
    pub fn negated(self) -> Lit
        ensures negation { result ≡ negation self }
        ensures variable { variable result ≡ variable self }
    {
        other_of(self)
    }
}

// The code with its lowest bit turned.
#[tactic(auto, unfolding(crate::specs::Literals::negation, crate::specs::Literals::is_positive))]
fn other_of(lit: Lit) -> Lit
    ensures { result ≡ negation lit }
{
    if lit.0 % 2 == 0 {
        Lit(lit.0 + 1)
    } else {
        Lit(lit.0 - 1)
    }
}

/// A list of literals.
#[derive(Drop)]
pub struct Lits {
    items: Vec<Lit>,
}

impl Model for Lits {
    ghost use Rattle.std.specs.Prelude.{List};
    ghost use Rattle.clause_form.specs.declared.lit.Lit.{Lit};

    ghost Value = { List Lit };

    ghost view = { λ a. a.items.items };
}

impl Lits {
    pub fn new(alloc: Global) -> Self
        ensures { result ≡ [] }
    {
        Lits {
            items: Vec::new(alloc),
        }
    }

    pub fn push(&mut self, item: Lit) -> Result<(), AllocError>
        ensures ok { OnOk result (self.new ≡ self.old ++ item ∷ []) }
        ensures err { OnErr result (self.new ≡ self.old) }
    {
        self.items.push(item)?;
        Ok(())
    }

    pub fn len(&self) -> usize
        ensures { result ≡ length self.now }
    {
        self.items.len()
    }

    pub fn get(&self, at: usize) -> Option<&Lit>
        ensures { option_copied result ≡ slice_get self.now at }
    {
        self.items.get(at)
    }

    // The literals of a slice.
    pub(crate) fn from_slice(alloc: Global, lits: &[Lit]) -> Result<Lits, AllocError>
        ensures { IfOk result (λ l. l ≡ lits.now) }
    {
        let items = Vec::from_slice(alloc, lits)?;
        Ok(Lits { items })
    }

    // Lends the literals.
    pub(crate) fn as_slice(&self) -> &[Lit]
        ensures { result.now ≡ self.now }
    {
        self.items.as_slice()
    }

    // Exchanges two literals.
    pub(crate) fn swap(&mut self, i: usize, j: usize)
        requires i { i < length self.old }
        requires j { j < length self.old }
        ensures { self.new ≡ swap self.old i j }
    {
        self.items.swap(i, j);
    }
}

/// A list of lists of literals.
#[derive(Drop)]
pub struct Lists {
    items: Vec<Lits>,
}

impl Model for Lists {
    ghost use Rattle.std.specs.Prelude.{List};
    ghost use Rattle.clause_form.specs.declared.lit.Lit.{Lit};

    ghost Value = { List (List Lit) };

    ghost view = { λ a. a.items.items };
}

impl Lists {
    pub fn new(alloc: Global) -> Self
        ensures { result ≡ [] }
    {
        Lists {
            items: Vec::new(alloc),
        }
    }

    pub fn push(&mut self, item: Lits) -> Result<(), AllocError>
        ensures ok { OnOk result (self.new ≡ self.old ++ item ∷ []) }
        ensures err { OnErr result (self.new ≡ self.old) }
    {
        self.items.push(item)?;
        Ok(())
    }

    pub fn len(&self) -> usize
        ensures { result ≡ length self.now }
    {
        self.items.len()
    }

    pub fn get(&self, at: usize) -> Option<&Lits>
        ensures { option_copied result ≡ slice_get self.now at }
    {
        self.items.get(at)
    }
}
