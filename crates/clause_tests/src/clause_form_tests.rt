// What no clause says: that the calls succeed, printed names, and a store of many clauses.
ghost use Rattle.std.specs.Prelude.{◌≡◌, true, map, IfOk};
ghost use Rattle.clause_form.specs.Literals.{is_within};

use clause_form::assignment::{Assignment, is_true};
use clause_form::clause::{Clause, Clauses};
use clause_form::formula::Formula;
use clause_form::keep::{Keep, KeepFault};
use clause_form::line::{Hints, Line, Log};
use clause_form::list_keep::ListKeep;
use clause_form::list_store::ListStore;
use clause_form::lit::{Lists, Lit, Lits};
use clause_form::lit_set::LitSet;
use clause_form::store::{ClauseRef, ClauseStore, Moves};
use std::alloc::{AllocError, Global};
use std::test::Fail;

// The clause of the literals with these codes, but for those that are out of range or don't rise by variable.
fn clause_of(alloc: Global, variables: u64, codes: &[u64]) -> Result<Clause, AllocError>
    ensures { IfOk result (λ c. is_within variables c ≡ true) }
{
    let mut clause = Clause::new(alloc);
    let mut last: u64 = 0;
    for code in codes {
        let lit = Lit(*code);
        if last < lit.variable() && lit.variable() <= variables {
            clause.push(lit)?;
            last = lit.variable();
        }
    }
    Ok(clause)
}

#[test]
fn literals_have_a_variable_and_a_sign(rt: HostRuntime) {
    let lit = Lit::positive(3);
    assert_eq!(rt; lit, Lit(6));
    assert_eq!(rt; lit.negated(), Lit(7));
    assert_eq!(rt; lit.negated().negated(), lit);
    assert_eq!(rt; lit.negated().variable(), 3);
    assert!(rt; lit.is_positive() && !lit.negated().is_positive());
}

#[test]
fn a_clause_is_true_where_one_of_its_literals_is(rt: HostRuntime) -> Result<(), Fail> {
    let either = clause_of(rt.alloc(), 2, &[2, 4])?;
    let second_alone = clause_of(rt.alloc(), 2, &[3, 4])?.copy(rt.alloc())?;
    for (first, second, by_either, by_second_alone) in [
        (true, true, true, true),
        (true, false, true, false),
        (false, true, true, true),
        (false, false, false, true),
    ] {
        let mut values = Assignment::new(rt.alloc());
        values.push(first)?;
        values.push(second)?;
        assert_eq!(rt; values.len(), 2);
        assert_eq!(rt; values.get(1).copied(), Some(second));
        assert_eq!(rt; is_true(&either, &values), by_either);
        assert_eq!(rt; is_true(&second_alone, &values), by_second_alone);
    }
    Ok(())
}

#[test]
fn a_formula_takes_clauses(rt: HostRuntime) -> Result<(), Fail> {
    let mut formula = Formula {
        variables: 2,
        clauses: Clauses::new(rt.alloc()),
    };
    formula.push(clause_of(rt.alloc(), 2, &[2, 4])?)?;
    formula.push(Clause::new(rt.alloc()))?;
    assert_eq!(rt; formula.clauses.len(), 2);
    assert!(rt; formula.clauses.get(1).ok_or("no clause")?.lits().is_empty());
    Ok(())
}

#[test]
fn lists_take_items(rt: HostRuntime) -> Result<(), Fail> {
    let mut lits = Lits::new(rt.alloc());
    lits.push(Lit(5))?;
    assert_eq!(rt; (lits.len(), lits.get(0).copied()), (1, Some(Lit(5))));
    let mut lists = Lists::new(rt.alloc());
    lists.push(lits)?;
    assert_eq!(rt; lists.len(), 1);
    assert_eq!(rt; lists.get(0).ok_or("no list")?.len(), 1);
    let mut moves = Moves::new(rt.alloc());
    moves.push((ClauseRef(3), ClauseRef(0)))?;
    assert_eq!(rt;
        (moves.len(), moves.get(0).copied()),
        (1, Some((ClauseRef(3), ClauseRef(0))))
    );
    let mut log = Log::new(rt.alloc());
    let mut hints = Hints::new(rt.alloc());
    for hint in 1..20 {
        hints.push(hint)?;
    }
    log.push(Line {
        clause: Clause::new(rt.alloc()),
        hints,
    })?;
    assert_eq!(rt; log.len(), 1);
    let line = log.get(0).ok_or("no line")?;
    assert_eq!(rt;
        (line.hints.len(), line.hints.get(18).copied()),
        (19, Some(19))
    );
    Ok(())
}

#[test]
fn a_set_is_cleared(rt: HostRuntime) -> Result<(), Fail> {
    let mut set = LitSet::new(rt.alloc());
    set.add(Lit(1000))?;
    set.add(Lit(3))?;
    assert!(rt; set.has(Lit(1000)) && set.has(Lit(3)) && !set.has(Lit(2)) && !set.has(Lit(4000)));
    set.clear();
    assert!(rt; !set.has(Lit(1000)) && !set.has(Lit(3)));
    Ok(())
}

#[test]
fn a_keep_fails_at_call_1(rt: HostRuntime) -> Result<(), Fail> {
    let mut keep = ListKeep::new(rt.alloc());
    keep.fail_at(1)?;
    let line = Line {
        clause: clause_of(rt.alloc(), 2, &[2, 4])?,
        hints: Hints::new(rt.alloc()),
    };
    assert_eq!(rt; keep.line(&line), Err(KeepFault::Failed));
    assert_eq!(rt; keep.log().len(), 0);
    assert_eq!(rt; keep.line(&line), Ok(()));
    assert_eq!(rt; keep.log().len(), 1);
    assert_eq!(rt; keep.log().get(0).ok_or("no line")?.clause.lits().len(), 2);
    Ok(())
}

#[test]
fn the_faults_have_their_names(rt: HostRuntime) -> Result<(), Fail> {
    assert_eq!(rt; KeepFault::Failed.to_string(rt.alloc())?.as_str(), "Failed");
    assert_eq!(rt; KeepFault::Memory.to_string(rt.alloc())?.as_str(), "Memory");
    Ok(())
}

// The literals of the clause that one of the moves tells of.
fn moved<'a, C: ClauseStore>(store: &'a C, moves: &Moves, at: usize) -> Option<&'a [Lit]>
    requires { map (λ m. m.1) moves.now ≡ map (λ s. s.at) (C.stored store.now) }
{
    let (_, new) = moves.get(at)?;
    Some(store.lits(*new))
}

// A store of three clauses, of which the second was removed and the third has two literals exchanged.
fn with_gap(alloc: Global) -> Result<ListStore, AllocError> {
    let mut store = ListStore::new(alloc);
    store.push([Lit(2), Lit(4)].as_slice())?;
    let at = store.push([Lit(3)].as_slice())?;
    store.remove(at);
    let at = store.push([Lit(5), Lit(6), Lit(8)].as_slice())?;
    store.swap(at, 0, 2);
    Ok(store)
}

#[test]
fn compaction_moves_what_was_not_removed(rt: HostRuntime) -> Result<(), Fail> {
    let mut store = with_gap(rt.alloc())?;
    let mut moves = Moves::new(rt.alloc());
    moves.push((ClauseRef(7), ClauseRef(7)))?;
    store.compact(&mut moves)?;
    assert_eq!(rt; moves.len(), 2);
    for (at, old, lits) in [
        (0, 0, [Lit(2), Lit(4)].as_slice()),
        (1, 2, [Lit(8), Lit(6), Lit(5)].as_slice()),
    ] {
        assert_eq!(rt;
            moves.get(at).copied(),
            Some((ClauseRef(old), ClauseRef(at as u64)))
        );
        assert_eq!(rt; moved(&store, &moves, at).ok_or("no clause")?, lits);
    }
    Ok(())
}

#[test]
fn a_store_over_ten_thousand_clauses(rt: HostRuntime) -> Result<(), Fail> {
    let mut store = ListStore::new(rt.alloc());
    for number in 1..=10_000 {
        let lit = Lit::positive(number);
        let at = store.push([lit, lit.negated()].as_slice())?;
        if number % 3 == 0 {
            store.remove(at);
        }
    }
    let mut moves = Moves::new(rt.alloc());
    store.compact(&mut moves)?;
    assert_eq!(rt; moves.len(), 6_667);
    for (at, new) in [(0, 0), (1, 1), (2, 3), (6_666, 9_999)] {
        assert_eq!(rt;
            moves.get(at).copied(),
            Some((ClauseRef(new), ClauseRef(at as u64)))
        );
    }
    Ok(())
}
