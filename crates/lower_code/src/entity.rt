// The bodies of entities are expanded as the law has it.
ghost use Rattle.std.specs.Prelude.{◌≡◌, ℕ, ◌+◌, ◌<◌, ◌≤◌, ◌^◌, List, length};
ghost use Rattle.chk_base.specs.declared.word.Width.{Width};
ghost use Rattle.lower_law.specs.Exact.{Layout, FitsEntity, exchanged};
ghost use Rattle.lower_law.specs.Lowered.{outer, points_of_entity, entry_of_entity};
ghost use Rattle.lower_law.specs.Statements.{CellUnit, room_all, rooms_to};
ghost use Rattle.lower_pieces.specs.Trees.{function_of};
ghost use Rattle.lower_pieces.specs.declared.tree.FunctionTree.{FunctionTree};
ghost use Rattle.lower_code.specs.Bodies.{entry_at, BeginsAt};
ghost use Rattle.lower_code.specs.Plans.{function_at, points_at, FitsAt};

/// The points of an entity are those of its tree, and where it begins is where that does; its numbers fit, where its cells and points are
/// few enough. Where no position changes places with the first, each has its own number.
pub fn entities_are_expanded()
    ensures points { (unit : CellUnit) (functions : List FunctionTree) (d : ℕ) (lay : Layout) (width : ℕ → Width) (e : ℕ) (t : FunctionTree) (number : ℕ → ℕ)
        → unit.fun ≡ function_at functions → unit.entity e ≡ function_of t → FitsEntity unit d lay width e
        → points_of_entity number (lay.temp e) unit d (lay.first e) (unit.entity e) ≡ points_at number (lay.temp e) functions d t (outer (lay.first e)) 0 }
    ensures entry { (unit : CellUnit) (functions : List FunctionTree) (d : ℕ) (lay : Layout) (width : ℕ → Width) (e : ℕ) (t : FunctionTree) (number : ℕ → ℕ)
        → unit.fun ≡ function_at functions → unit.entity e ≡ function_of t → FitsEntity unit d lay width e
        → entry_of_entity number (lay.temp e) unit d (lay.first e) (unit.entity e) ≡ entry_at number (lay.temp e) t (outer (lay.first e)) 0 }
    ensures fits { (unit : CellUnit) (functions : List FunctionTree) (d : ℕ) (lay : Layout) (width : ℕ → Width) (e : ℕ) (t : FunctionTree) (number : ℕ → ℕ)
        → unit.fun ≡ function_at functions → unit.entity e ≡ function_of t → FitsEntity unit d lay width e
        → lay.top e < 2 ^ 16
        → length (points_of_entity number (lay.temp e) unit d (lay.first e) (unit.entity e)) < 2 ^ 16
        → lay.first e + ((unit.entity e).locals + room_all (rooms_to unit d) (unit.entity e).body) ≤ lay.temp e
        → FitsAt functions (lay.temp e) d (lay.first e) 0 t }
    ensures begins { (functions : List FunctionTree) (temp d base at : ℕ) (t : FunctionTree)
        → FitsAt functions temp d base at t → BeginsAt temp base at t }
    ensures unmoved { exchanged 0 ≡ (λ (i : ℕ). i) }
{}
