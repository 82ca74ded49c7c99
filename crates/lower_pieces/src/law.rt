// The pieces of statements are their points.
ghost use Rattle.std.specs.Prelude.{◌≡◌, ℕ, ◌^◌, List};
ghost use Rattle.lower_law.specs.Lowered.{Context, Nexts, Plan, points_all};
ghost use Rattle.lower_law.specs.Statements.{CellBlock, CellFunction};
ghost use Rattle.lower_pieces.specs.Expanded.{expanded, AreCalls};
ghost use Rattle.lower_pieces.specs.Fitting.{AllFit};
ghost use Rattle.lower_pieces.specs.Pieces.{pieces_all};
ghost use Rattle.lower_pieces.specs.declared.tree.FunctionTree.{FunctionTree};

/// Once each call is expanded at its place, the pieces of statements are the points that the law has for them.
pub fn pieces_are_points()
    ensures { (number : ℕ → ℕ) (temp : ℕ) (fun : ℕ → CellFunction) (rooms : ℕ → ℕ) (calls : ℕ → Plan) (functions : List FunctionTree) (sizes cells : ℕ → ℕ)
        → AreCalls number temp fun rooms calls functions sizes cells
        → (b : CellBlock) (ctx : Context) (at cell : ℕ) (after : Nexts)
        → AllFit (2 ^ 16) functions sizes cells temp ctx.base at cell b
        → expanded calls (pieces_all number temp functions sizes cells ctx at cell b after) ≡ points_all number temp fun rooms calls ctx at cell b after }
{}
