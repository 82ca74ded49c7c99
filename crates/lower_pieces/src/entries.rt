// Where an entity goes on: at the first thing of a block, or behind it.
ghost use Rattle.std.specs.Prelude.{◌≡◌, ◌+◌, ◌-◌, ◌<◌, ◌^◌, IfOk, map, option_map};
ghost use Rattle.std.specs.Option.{option_copied};
ghost use Rattle.chk_base.specs.Term.{term_of};
ghost use Rattle.step_ir.specs.Points.{item_of};
ghost use Rattle.lower_law.specs.Exact.{exchanged};
ghost use Rattle.lower_law.specs.Items.{sites_all, items_all};
ghost use Rattle.lower_law.specs.Lowered.{all_guarded, entry};
ghost use Rattle.lower_law.specs.Statements.{questions, block};
ghost use Rattle.lower_pieces.specs.Firsts.{first_in, first_thing, entry_of};
ghost use Rattle.lower_pieces.specs.Trees.{statement_of};
ghost use Rattle.lower_pieces.specs.Within.{AllBelow, IfBelow};

use crate::asking::ask_reads;
use crate::copies::copy;
use crate::steps::{copy_nexts, entry, push_nexts};
use crate::tree::StatementTree;
use chk_base::expr::Expr;
use std::alloc::{AllocError, Global};
use step_ir::code::Nexts;

/// The first statement of a block that leaves a thing to do. It takes no memory.
#[tactic(auto, using(crate::proofs::Walked::block_more))]
pub fn first_thing(b: &[StatementTree]) -> Option<&StatementTree>
    ensures { option_map statement_of (option_copied result) ≡ first_thing (block (map statement_of b.now)) }
{
    for s in b {
        match s {
            StatementTree::Block(inner) => {
                let first = first_thing(inner);
                if first.is_some() {
                    return first;
                }
            }
            _ => return Some(s),
        }
    }
    None
}

/// Where a thing at a position begins, which its reads alone say.
#[tactic(auto, using(crate::proofs::Counted::reads_all, crate::proofs::Joining::entry_is, crate::proofs::Told::entry_told, crate::proofs::Told::reads_told))]
pub fn thing_entry(
    alloc: Global,
    first: u16,
    temp: u16,
    base: u16,
    at: u16,
    s: &StatementTree,
) -> Result<Nexts, AllocError>
    requires room { temp + sites_all (questions (statement_of s.now)) < 2 ^ 16 }
    requires cells { AllBelow (2 ^ 16 - base) (questions (statement_of s.now)) }
    requires points { at + sites_all (questions (statement_of s.now)) < 2 ^ 16 }
    ensures { IfOk result (λ n. map item_of n ≡ entry (exchanged first) at (items_all base temp (questions (statement_of s.now)))) }
{
    let asked = ask_reads(alloc, base, temp, s)?;
    entry(alloc, first, at, &asked.evaluation.items)
}

/// Where a block at a position begins, and where it goes on if it leaves no thing to do.
pub fn block_entry(
    alloc: Global,
    first: u16,
    temp: u16,
    base: u16,
    at: u16,
    b: &[StatementTree],
    after: &Nexts,
) -> Result<Nexts, AllocError>
    requires { IfBelow (2 ^ 16) base temp at (first_thing (block (map statement_of b.now))) }
    ensures { IfOk result (λ n. map item_of n ≡ entry_of (exchanged first) temp base at (first_thing (block (map statement_of b.now))) (map item_of after.now)) }
{
    match first_thing(b) {
        None => copy_nexts(alloc, after),
        Some(s) => thing_entry(alloc, first, temp, base, at, s),
    }
}

/// The first nexts where the test isn't 0, and else the others.
#[tactic(auto, using(crate::proofs::Walked::pairs_more, std::proofs::Common::append_assoc))]
pub fn all_guarded(
    alloc: Global,
    test: &Expr,
    here: &Nexts,
    rest: &Nexts,
) -> Result<Nexts, AllocError>
    ensures { IfOk result (λ n. map item_of n ≡ all_guarded (term_of test.now) (map item_of here.now) (map item_of rest.now)) }
{
    let mut nexts = Nexts::new(alloc);
    for next in here.items() {
        let both = Expr::Choose(
            Box::new(alloc, copy(alloc, test)?)?,
            Box::new(alloc, copy(alloc, &next.0)?)?,
            Box::new(alloc, Expr::Const(0))?,
        );
        nexts.push((both, next.1))?;
    }
    push_nexts(alloc, &mut nexts, rest)?;
    Ok(nexts)
}
