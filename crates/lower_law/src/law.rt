// Lowering is exact.
ghost use Rattle.std.specs.Prelude.{◌≡◌, ℕ, ◌<◌, length, Some};
ghost use Rattle.chk_base.specs.declared.word.Width.{Width};
ghost use Rattle.step_ir.specs.PointStep.{Program, of_points};
ghost use Rattle.lower_law.specs.EntityStep.{of_unit};
ghost use Rattle.lower_law.specs.Exact.{Layout, IsLowered, IsExact, FitsEntity, AreLowered, HasSameEvents, lowered};
ghost use Rattle.typed_unit.specs.Plain.{PlainEntity, PlainUnit};
ghost use Rattle.step_ir.specs.Fits.{bit_count};
ghost use Rattle.lower_law.specs.Counts.{bit_total, call_depth, entity_points};
ghost use Rattle.lower_law.specs.Layout.{cell_width, layout, lowered_points, names_before};
ghost use Rattle.lower_law.specs.Scoped.{IsBody};
ghost use Rattle.lower_law.specs.Statements.{CellUnit};
ghost use Rattle.lower_law.specs.Translated.{entity_body, unit_over_cells};

/// An entity takes the same steps over the typed unit and over its points, one for one, with the same events.
pub fn lowering_is_exact()
    ensures units { (unit : CellUnit) (depth : ℕ) (lay : Layout) (width : ℕ → Width) (e : ℕ)
        → FitsEntity unit depth lay width e → IsExact unit depth lay (lowered unit depth lay width) e }
    ensures numbers { (unit : CellUnit) (depth : ℕ) (lay : Layout) (code : Program) (number : ℕ → ℕ) (e : ℕ)
        → IsLowered unit depth lay code number e → IsExact unit depth lay code e }
{}

/// So the standard's scheduler has the same events over both, for the same choices, from any contents of the cells.
pub fn schedules_are_the_same()
    ensures { (unit : CellUnit) (depth : ℕ) (lay : Layout) (code : Program) (number : ℕ → ℕ → ℕ) (n : ℕ)
        → AreLowered unit depth lay code number n
        → HasSameEvents lay.globals (of_unit unit depth lay.first) (of_points code) }
{}

/// A typed unit whose names are right fits its cells, so that lowering it is exact; each entity has the points that are counted for it,
/// and the cells of the first entities, with the globals, have the bits that are counted.
pub fn units_fit_their_cells()
    ensures fits { (u : PlainUnit) (n e : ℕ) (b : PlainEntity)
        → e < n → entity_body e u.entities ≡ Some b → IsBody u b
        → FitsEntity (unit_over_cells u) call_depth (layout u) (cell_width u n) e }
    ensures points { (u : PlainUnit) (n e : ℕ) (b : PlainEntity)
        → entity_body e u.entities ≡ Some b → length (lowered_points u n e) ≡ entity_points u b }
    ensures bits { (u : PlainUnit) (n : ℕ) → bit_count (names_before u n) ≡ bit_total u n }
{}
