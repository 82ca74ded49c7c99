// What is left of a clause.
ghost use Rattle.std.specs.Prelude.{◌≡◌};
ghost use Rattle.clause_form.specs.DerivedLine.{unfalse};
ghost use Rattle.proof_check.specs.Lefts.{left_of};

use clause_form::lit::Lit;
use clause_form::lit_set::LitSet;

// How many literals of a clause aren't false.
#[derive(Clone, Copy)]
pub enum Left {
    Nothing,
    One(Lit),
    More,
}

pub fn left_in(set: &LitSet, clause: &[Lit]) -> Left
    ensures { result ≡ left_of (unfalse set.now clause.now) }
{
    let mut found: Option<Lit> = None;
    for lit in clause {
        if !set.has(lit.negated()) {
            if found.is_some() {
                return Left::More;
            }
            found = Some(*lit);
        }
    }
    match found {
        Some(lit) => Left::One(lit),
        None => Left::Nothing,
    }
}
