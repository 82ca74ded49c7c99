// The gates. Each folds constants and equal operands, and adds at most one variable, whose value the operands determine.
ghost use Rattle.std.specs.Prelude.{◌≡◌, ◌≢◌, ℕ, ◌&&◌, ◌||◌, IfNone, IfOk, IfSome, true, false, if◌then◌else◌};
ghost use Rattle.clause_form.specs.Literals.{IsOf, variable};
ghost use Rattle.clause_form.specs.ClauseTruth.{Values, is_lit_true};
ghost use Rattle.bit_circuit.specs.Extension.{IsModel, Makes, xor};

use crate::circuit::Circuit;
use clause_form::lit::Lit;
use std::alloc::AllocError;

impl Circuit {
    // A new variable that is true where both are, which are of two variables.
    #[tactic(auto, using(crate::proofs::LiteralLaws::literal_laws))]
    fn both(&mut self, a: Lit, b: Lit) -> Result<Lit, AllocError>
        requires a { IsOf self.old.variables a }
        requires b { IsOf self.old.variables b }
        requires apart { variable a ≢ variable b }
        ensures { IfOk result (λ r. Makes self.old self.new r (λ v. is_lit_true v a && is_lit_true v b) 1) }
    {
        let _ = self.truth();
        let r = self.input()?;
        let not_r = r.negated();
        let not_a = a.negated();
        let not_b = b.negated();
        self.require_either(a, not_r)?;
        self.require_either(b, not_r)?;
        self.require_any(not_a, not_b, r)?;
        Ok(r)
    }

    // A new variable that is true where one of both alone is, which are of two variables.
    #[tactic(auto, using(crate::proofs::LiteralLaws::literal_laws))]
    fn one(&mut self, a: Lit, b: Lit) -> Result<Lit, AllocError>
        requires a { IsOf self.old.variables a }
        requires b { IsOf self.old.variables b }
        requires apart { variable a ≢ variable b }
        ensures { IfOk result (λ r. Makes self.old self.new r (λ v. xor (is_lit_true v a) (is_lit_true v b)) 1) }
    {
        let _ = self.truth();
        let r = self.input()?;
        let not_r = r.negated();
        let not_a = a.negated();
        let not_b = b.negated();
        self.require_any(not_a, not_b, not_r)?;
        self.require_any(a, b, not_r)?;
        self.require_any(not_a, b, r)?;
        self.require_any(a, not_b, r)?;
        Ok(r)
    }

    // A new variable that is equal to the second where the first is true, and else to the third; the first has a variable of its own.
    #[tactic(auto, using(crate::proofs::LiteralLaws::literal_laws))]
    fn either(&mut self, c: Lit, a: Lit, b: Lit) -> Result<Lit, AllocError>
        requires c { IsOf self.old.variables c }
        requires a { IsOf self.old.variables a }
        requires b { IsOf self.old.variables b }
        requires a_apart { variable a ≢ variable c }
        requires b_apart { variable b ≢ variable c }
        ensures { IfOk result (λ r. Makes self.old self.new r (λ v. if is_lit_true v c then is_lit_true v a else is_lit_true v b) 1) }
    {
        let _ = self.truth();
        let r = self.input()?;
        let not_r = r.negated();
        let not_c = c.negated();
        let not_a = a.negated();
        let not_b = b.negated();
        self.require_any(not_c, not_a, r)?;
        self.require_any(not_c, a, not_r)?;
        self.require_any(c, not_b, r)?;
        self.require_any(c, b, not_r)?;
        Ok(r)
    }

    // The literal that is true.
    pub(crate) fn yes(&self) -> Lit
        ensures { Makes self.now self.now result (λ _. true) 0 }
    {
        self.truth()
    }

    // The literal that is false.
    pub(crate) fn no(&self) -> Lit
        ensures { Makes self.now self.now result (λ _. false) 0 }
    {
        self.truth().negated()
    }

    // The literal of a truth value.
    pub(crate) fn literal_of(&self, value: bool) -> Lit
        ensures { Makes self.now self.now result (λ _. value) 0 }
    {
        if value { self.yes() } else { self.no() }
    }

    // The value of a constant literal.
    fn known(&self, a: Lit) -> Option<bool>
        ensures { IfSome result (λ b. (v : Values) → IsModel v self.now → is_lit_true v a ≡ b) }
    {
        let _ = self.truth();
        if a.variable() == 1 {
            Some(a.is_positive())
        } else {
            None
        }
    }

    // The value of a literal where another is true, if it is the same for all assignments.
    fn known_where(&self, c: Lit, a: Lit) -> Option<bool>
        ensures known { IfSome result (λ b. (v : Values) → IsModel v self.now → is_lit_true v c ≡ true → is_lit_true v a ≡ b) }
        ensures apart { IfNone result (variable a ≢ variable c) }
    {
        if a.variable() == c.variable() {
            Some(a == c)
        } else {
            self.known(a)
        }
    }

    /// A literal that is true where both are.
    pub fn and(&mut self, a: Lit, b: Lit) -> Result<Lit, AllocError>
        requires a { IsOf self.old.variables a }
        requires b { IsOf self.old.variables b }
        ensures { IfOk result (λ r. Makes self.old self.new r (λ v. is_lit_true v a && is_lit_true v b) 1) }
    {
        if let Some(value) = self.known(a) {
            return Ok(if value { b } else { a });
        }
        if let Some(value) = self.known(b) {
            return Ok(if value { a } else { b });
        }
        if a.variable() == b.variable() {
            return Ok(if a == b { a } else { self.no() });
        }
        self.both(a, b)
    }

    /// A literal that is true where one of both is.
    #[tactic(auto, using(crate::proofs::LiteralLaws::literal_laws))]
    pub fn or(&mut self, a: Lit, b: Lit) -> Result<Lit, AllocError>
        requires a { IsOf self.old.variables a }
        requires b { IsOf self.old.variables b }
        ensures { IfOk result (λ r. Makes self.old self.new r (λ v. is_lit_true v a || is_lit_true v b) 1) }
    {
        Ok(self.and(a.negated(), b.negated())?.negated())
    }

    /// A literal that is true where one of both alone is.
    pub fn xor(&mut self, a: Lit, b: Lit) -> Result<Lit, AllocError>
        requires a { IsOf self.old.variables a }
        requires b { IsOf self.old.variables b }
        ensures { IfOk result (λ r. Makes self.old self.new r (λ v. xor (is_lit_true v a) (is_lit_true v b)) 1) }
    {
        if let Some(value) = self.known(a) {
            return Ok(if value { b.negated() } else { b });
        }
        if let Some(value) = self.known(b) {
            return Ok(if value { a.negated() } else { a });
        }
        if a.variable() == b.variable() {
            return Ok(self.literal_of(a != b));
        }
        self.one(a, b)
    }

    /// A literal that is equal to the second where the first is true, and else to the third.
    #[tactic(auto, using(crate::proofs::LiteralLaws::literal_laws))]
    pub fn choose(&mut self, c: Lit, a: Lit, b: Lit) -> Result<Lit, AllocError>
        requires c { IsOf self.old.variables c }
        requires a { IsOf self.old.variables a }
        requires b { IsOf self.old.variables b }
        ensures { IfOk result (λ r. Makes self.old self.new r (λ v. if is_lit_true v c then is_lit_true v a else is_lit_true v b) 1) }
    {
        if let Some(value) = self.known(c) {
            return Ok(if value { a } else { b });
        }
        if a.variable() == b.variable() {
            return if a == b { Ok(a) } else { self.xor(c, b) };
        }
        let not_c = c.negated();
        if let Some(value) = self.known_where(c, a) {
            return if value {
                self.or(c, b)
            } else {
                self.and(not_c, b)
            };
        }
        if let Some(value) = self.known_where(not_c, b) {
            return if value {
                self.or(not_c, a)
            } else {
                self.and(c, a)
            };
        }
        self.either(c, a, b)
    }
}
