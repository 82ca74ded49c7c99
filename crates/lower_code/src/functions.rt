// Functions and the bodies of entities over cells.
ghost use Rattle.std.specs.Prelude.{◌≡◌, ◌<◌, ◌^◌, IfOk, length, map, take};
ghost use Rattle.typed_unit.specs.Views as typed;
ghost use Rattle.lower_law.specs.Translated.{cell_count, is_some, function, entity, statements};
ghost use Rattle.lower_pieces.specs.Trees.{function_of};
ghost use Rattle.lower_code.specs.Chains.{AllNumbersBelow};

use crate::statements::statement_block;
use lower_pieces::tree::FunctionTree;
use std::alloc::{AllocError, Global};
use typed_unit::typed::{CType, GlobalVar, Local, TypedEntity, TypedFunction};

// The types of the first locals.
#[tactic(auto, using(crate::proofs::Chained::types_more, crate::proofs::Chained::types_end))]
fn first_types(alloc: Global, locals: &[Local], params: u8) -> Result<Vec<CType>, AllocError>
    ensures { IfOk result (λ t. t.items ≡ map (λ v. v.ctype) (take params locals.now)) }
{
    let mut types = Vec::new(alloc);
    for i in 0..params as usize {
        if i < locals.len() {
            types.push(locals[i].ctype)?;
        }
    }
    Ok(types)
}

/// A function over cells.
#[tactic(auto, using(crate::proofs::Chained::some_is))]
pub fn function(
    alloc: Global,
    globals: &[GlobalVar],
    f: &TypedFunction,
) -> Result<FunctionTree, AllocError>
    requires cells { cell_count globals.now < 2 ^ 16 }
    requires locals { length f.now.locals < 2 ^ 16 }
    requires numbers { AllNumbersBelow (2 ^ 16) (statements globals.now f.now.locals (typed.block_of f.now.body)) }
    ensures { IfOk result (λ t. function_of t ≡ function globals.now (typed.function_of f.now)) }
{
    let locals = f.locals.as_slice();
    Ok(FunctionTree {
        params: first_types(alloc, locals, f.params)?,
        locals: f.locals.len() as u16,
        gives: f.result.is_some(),
        body: statement_block(alloc, globals, locals, f.body.as_slice())?,
        close: f.close,
    })
}

/// The body of an entity over cells.
pub fn entity(
    alloc: Global,
    globals: &[GlobalVar],
    e: &TypedEntity,
) -> Result<FunctionTree, AllocError>
    requires cells { cell_count globals.now < 2 ^ 16 }
    requires locals { length e.now.locals < 2 ^ 16 }
    requires numbers { AllNumbersBelow (2 ^ 16) (statements globals.now e.now.locals (typed.block_of e.now.body)) }
    ensures { IfOk result (λ t. function_of t ≡ entity globals.now (typed.entity_of e.now)) }
{
    let locals = e.locals.as_slice();
    Ok(FunctionTree {
        params: Vec::new(alloc),
        locals: e.locals.len() as u16,
        gives: false,
        body: statement_block(alloc, globals, locals, e.body.as_slice())?,
        close: e.close,
    })
}
