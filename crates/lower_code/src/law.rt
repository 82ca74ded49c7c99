// The numbers of statements over cells.
ghost use Rattle.std.specs.Prelude.{ℕ, ◌<◌, ◌≤◌, List, Option, length, nat_lt};
ghost use Rattle.typed_unit.specs.Plain.{PlainBlock};
ghost use Rattle.typed_unit.specs.declared.typed.CType.{CType};
ghost use Rattle.typed_unit.specs.declared.typed.GlobalVar.{GlobalVar};
ghost use Rattle.typed_unit.specs.declared.typed.Local.{Local};
ghost use Rattle.lower_law.specs.Scoped.{BlockScoped};
ghost use Rattle.lower_law.specs.Translated.{statements};
ghost use Rattle.lower_code.specs.Chains.{AllNumbersBelow};

/// The numbers of a body whose names are right, and whose calls are of the first `n` functions, are those of its locals and functions.
pub fn numbers_are_small()
    ensures { (globals : List GlobalVar) (locals : List Local) (result : Option CType) (params n : ℕ) (b : PlainBlock)
        → length locals ≤ n → params ≤ length locals
        → BlockScoped globals (λ f args t. f < n) (length locals) result (λ i. nat_lt i params) b
        → AllNumbersBelow n (statements globals locals b) }
{}
