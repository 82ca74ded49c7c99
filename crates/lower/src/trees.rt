// The functions of a unit over cells, and their names.
ghost use Rattle.std.specs.Prelude.{◌≡◌, ◌<◌, ◌^◌, IfOk, map};
ghost use Rattle.typed_unit.specs.Views as typed;
ghost use Rattle.lower_law.specs.Translated.{cell_count, function};
ghost use Rattle.lower_pieces.specs.Trees.{function_of};
ghost use Rattle.lower.specs.Ready.{AreSmall};

use lower_code::functions::function;
use lower_pieces::tree::FunctionTree;
use std::alloc::{AllocError, Global};
use step_ir::code::Names;
use typed_unit::typed::{GlobalVar, TypedFunction};

// The functions over cells.
pub(crate) fn function_trees(
    alloc: Global,
    globals: &[GlobalVar],
    functions: &[TypedFunction],
) -> Result<Vec<FunctionTree>, AllocError>
    requires cells { cell_count globals.now < 2 ^ 16 }
    requires small { AreSmall globals.now (map typed.function_of functions.now) }
    ensures { IfOk result (λ t. map function_of t.items ≡ map (function globals.now) (map typed.function_of functions.now)) }
{
    let mut trees = Vec::new(alloc);
    for f in functions {
        trees.push(function(alloc, globals, f)?)?;
    }
    Ok(trees)
}

// The names of the functions.
pub(crate) fn function_names(
    alloc: Global,
    functions: &[TypedFunction],
) -> Result<Names, AllocError>
    ensures { IfOk result (λ n. n ≡ map (λ f. f.name.text) (map typed.function_of functions.now)) }
{
    let mut names = Names::new(alloc);
    for f in functions {
        names.push(f.name.text.copy(alloc)?)?;
    }
    Ok(names)
}
