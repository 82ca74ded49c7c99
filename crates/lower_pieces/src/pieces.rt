// The points of a body, with the calls in it still to be expanded.
ghost use Rattle.std.specs.Prelude.{◌≡◌, ◌+◌, ◌<◌, ◌++◌, ◌∷◌, [], ◌^◌, IfOk, OnOk, map, option_map, slice_get, Some};
ghost use Rattle.std.specs.Option.{option_copied};
ghost use Rattle.chk_base.specs.Term.{term_of};
ghost use Rattle.step_ir.specs.Points.{plain_action, plain_of, item_of};
ghost use Rattle.lower_law.specs.Exact.{exchanged};
ghost use Rattle.lower_law.specs.Items.{sites_all, terms_all};
ghost use Rattle.lower_law.specs.Lowered.{close_entry, callee, moved, all_guarded};
ghost use Rattle.lower_law.specs.Statements.{questions, place_of, block, room_all};
ghost use Rattle.lower_pieces.specs.Acting.{TakenBelow, context_of};
ghost use Rattle.lower_pieces.specs.Firsts.{first_thing};
ghost use Rattle.lower_pieces.specs.Pieces.{Stands, Expands, piece_of, called_entry, block_at, thing_at, going, owned, own_pieces, pieces, pieces_all, behind};
ghost use Rattle.lower_pieces.specs.Fitting.{OwnFits, Fits, AllFit, IfCallFits};
ghost use Rattle.lower_pieces.specs.Sized.{number_at, sized_all};
ghost use Rattle.lower_pieces.specs.Trees.{statement_of, takes_of};
ghost use Rattle.lower_pieces.specs.Within.{IfBelow};

use crate::actions::{Frame, acting, first_term};
use crate::asking::ask_thing;
use crate::entries::{all_guarded, block_entry, thing_entry};
use crate::sizes::{room, room_all, sites_of, sized, sized_all};
use crate::steps::{always, copy_nexts, thing};
use crate::tree::{FunctionTree, StatementTree, Takes};
use chk_base::expr::Expr;
use chk_base::place::Place;
use std::alloc::{AllocError, Global};
use step_ir::code::{Nexts, Point};

/// A point, or a call of a function that is expanded at a position.
#[derive(Drop)]
pub enum Piece {
    Stands(Point),
    Expands {
        function: u16,
        frame: Frame,
        at: u16,
    },
}

/// How a body is laid out: which position changes places with the first, the first cell for values read, the functions, and how many points
/// and cells a call of each has.
#[derive(Clone, Copy)]
pub struct Plan<'a> {
    pub alloc: Global,
    pub first: u16,
    pub temp: u16,
    pub functions: &'a [FunctionTree],
    pub sizes: &'a [u64],
    pub rooms: &'a [u64],
}

/// The place of a thing. It takes no memory.
pub fn place_of(s: &StatementTree) -> Place
    ensures { result ≡ place_of (statement_of s.now) }
{
    match s {
        StatementTree::Set { place, .. } => *place,
        StatementTree::Write { place, .. } => *place,
        StatementTree::WriteAt { place, .. } => *place,
        StatementTree::If { place, .. } => *place,
        StatementTree::Loop { place, .. } => *place,
        StatementTree::Assert { place, .. } => *place,
        StatementTree::Input { place, .. } => *place,
        StatementTree::Call { place, .. } => *place,
        StatementTree::Return { place, .. } => *place,
        StatementTree::Serve { place, .. } => *place,
        StatementTree::Block(_) => Place {
            line: 0,
            column: 0,
            offset: 0,
        },
    }
}

// The local that takes a result, by its cell.
fn moved(base: u16, into: Option<Takes>) -> Option<Takes>
    requires { TakenBelow (2 ^ 16) base (option_map takes_of into) }
    ensures { option_map takes_of result ≡ moved base (option_map takes_of into) }
{
    match into {
        None => None,
        Some(a) => Some(Takes {
            at: base + a.at,
            ctype: a.ctype,
        }),
    }
}

impl Plan<'_> {
    // The frame of a function that is called here.
    fn callee(
        &self,
        frame: &Frame,
        cell: u16,
        into: Option<Takes>,
        after: &Nexts,
    ) -> Result<Frame, AllocError>
        requires { TakenBelow (2 ^ 16) frame.now.base (option_map takes_of into) }
        ensures { IfOk result (λ f. context_of f ≡ callee (context_of frame.now) cell (option_map takes_of into) (map item_of after.now)) }
    {
        Ok(Frame {
            base: cell,
            inner: true,
            after: copy_nexts(self.alloc, after)?,
            into: moved(frame.base, into),
        })
    }

    // Where the closing brace of a body goes on, if the body leaves no thing to do.
    fn close_entry(&self, gives: bool, frame: &Frame, at: u16) -> Result<Nexts, AllocError>
        ensures { IfOk result (λ n. map item_of n ≡ close_entry (exchanged self.now.first) gives (context_of frame.now) at) }
    {
        if gives {
            copy_nexts(self.alloc, &frame.after)
        } else {
            always(self.alloc, self.first, at)
        }
    }

    // Where a function that is called begins.
    fn called_entry(&self, f: u16, frame: &Frame, at: u16) -> Result<Nexts, AllocError>
        requires { IfCallFits (2 ^ 16) self.now.temp frame.now.base at (slice_get self.now.functions.now f) }
        ensures { IfOk result (λ n. map item_of n ≡ called_entry (exchanged self.now.first) self.now.temp (slice_get self.now.functions.now f) (context_of frame.now) at) }
    {
        match self.functions.get(f as usize) {
            None => copy_nexts(self.alloc, &frame.after),
            Some(f) => {
                let close = self.close_entry(f.gives, frame, at)?;
                block_entry(
                    self.alloc,
                    self.first,
                    self.temp,
                    frame.base,
                    at,
                    f.body.as_slice(),
                    &close,
                )
            }
        }
    }
}

impl Plan<'_> {
    // The position behind the own points of a thing.
    fn behind(&self, at: u16, s: &StatementTree) -> u16
        requires { behind at (statement_of s.now) < 2 ^ 16 }
        ensures { result ≡ behind at (statement_of s.now) }
    {
        at + sites_of(s) as u16 + 1
    }

    // The position behind these statements.
    fn behind_all(&self, at: u16, b: &[StatementTree]) -> u16
        requires { at + sized_all (number_at self.now.sizes.now) (block (map statement_of b.now)) < 2 ^ 16 }
        ensures { result ≡ at + sized_all (number_at self.now.sizes.now) (block (map statement_of b.now)) }
    {
        at + sized_all(self.sizes, b) as u16
    }

    // The first cell behind those of the calls in these statements.
    fn cells_behind(&self, cell: u16, b: &[StatementTree]) -> u16
        requires { cell + room_all (number_at self.now.rooms.now) (block (map statement_of b.now)) < 2 ^ 16 }
        ensures { result ≡ cell + room_all (number_at self.now.rooms.now) (block (map statement_of b.now)) }
    {
        cell + room_all(self.rooms, b) as u16
    }

    // Where a block begins.
    fn begin(
        &self,
        base: u16,
        at: u16,
        b: &[StatementTree],
        after: &Nexts,
    ) -> Result<Nexts, AllocError>
        requires { IfBelow (2 ^ 16) base self.now.temp at (first_thing (block (map statement_of b.now))) }
        ensures { IfOk result (λ n. map item_of n ≡ block_at (exchanged self.now.first) self.now.temp base at (block (map statement_of b.now)) (map item_of after.now)) }
    {
        block_entry(self.alloc, self.first, self.temp, base, at, b, after)
    }

    // Where the completing point of an `if` goes on.
    fn going_if(
        &self,
        base: u16,
        at: u16,
        test: &Expr,
        on: &[StatementTree],
        off: &[StatementTree],
        after: &Nexts,
    ) -> Result<Nexts, AllocError>
        requires on { IfBelow (2 ^ 16) base self.now.temp at (first_thing (block (map statement_of on.now))) }
        requires size { at + sized_all (number_at self.now.sizes.now) (block (map statement_of on.now)) < 2 ^ 16 }
        requires off { IfBelow (2 ^ 16) base self.now.temp (at + sized_all (number_at self.now.sizes.now) (block (map statement_of on.now))) (first_thing (block (map statement_of off.now))) }
        ensures { IfOk result (λ n. map item_of n ≡ all_guarded (term_of test.now) (block_at (exchanged self.now.first) self.now.temp base at (block (map statement_of on.now)) (map item_of after.now)) (block_at (exchanged self.now.first) self.now.temp base (at + sized_all (number_at self.now.sizes.now) (block (map statement_of on.now))) (block (map statement_of off.now)) (map item_of after.now))) }
    {
        let there = self.begin(base, at, on, after)?;
        let at = self.behind_all(at, on);
        let else_there = self.begin(base, at, off, after)?;
        all_guarded(self.alloc, test, &there, &else_there)
    }

    // Where the third part of a loop begins, whose condition begins at `again`.
    fn going_loop(
        &self,
        base: u16,
        at: u16,
        test: &Expr,
        third: &[StatementTree],
        body: &[StatementTree],
        again: &Nexts,
        after: &Nexts,
    ) -> Result<Nexts, AllocError>
        requires third { IfBelow (2 ^ 16) base self.now.temp at (first_thing (block (map statement_of third.now))) }
        requires size { at + sized_all (number_at self.now.sizes.now) (block (map statement_of third.now)) < 2 ^ 16 }
        requires body { IfBelow (2 ^ 16) base self.now.temp (at + sized_all (number_at self.now.sizes.now) (block (map statement_of third.now))) (first_thing (block (map statement_of body.now))) }
        ensures { IfOk result (λ n. map item_of n ≡ all_guarded (term_of test.now) (block_at (exchanged self.now.first) self.now.temp base (at + sized_all (number_at self.now.sizes.now) (block (map statement_of third.now))) (block (map statement_of body.now)) (block_at (exchanged self.now.first) self.now.temp base at (block (map statement_of third.now)) (map item_of again.now))) (map item_of after.now)) }
    {
        let step = self.begin(base, at, third, again)?;
        let at = self.behind_all(at, third);
        let there = self.begin(base, at, body, &step)?;
        all_guarded(self.alloc, test, &there, after)
    }

    // Where the completing point of a thing goes on.
    fn going(
        &self,
        frame: &Frame,
        at: u16,
        cell: u16,
        s: &StatementTree,
        terms: &[Expr],
        after: &Nexts,
    ) -> Result<Nexts, AllocError>
        requires { OwnFits (2 ^ 16) self.now.functions.now (number_at self.now.sizes.now) (number_at self.now.rooms.now) self.now.temp frame.now.base at cell (statement_of s.now) }
        ensures { IfOk result (λ n. map item_of n ≡ going (exchanged self.now.first) self.now.temp self.now.functions.now (number_at self.now.sizes.now) (number_at self.now.rooms.now) (context_of frame.now) at cell (statement_of s.now) (map term_of terms.now) (map item_of after.now)) }
    {
        match s {
            StatementTree::If { on, off, .. } => {
                let test = first_term(self.alloc, terms)?;
                let at = self.behind(at, s);
                self.going_if(frame.base, at, &test, on, off, after)
            }
            StatementTree::Loop { third, body, .. } => {
                let test = first_term(self.alloc, terms)?;
                let again = self.thing_at(frame.base, at, s)?;
                let at = self.behind(at, s);
                self.going_loop(frame.base, at, &test, third, body, &again, after)
            }
            StatementTree::Call { function, into, .. } => {
                let inner = self.callee(frame, cell, *into, after)?;
                let at = self.behind(at, s);
                self.called_entry(*function, &inner, at)
            }
            StatementTree::Return { .. } => copy_nexts(self.alloc, &frame.after),
            _ => copy_nexts(self.alloc, after),
        }
    }

    // Where a thing begins.
    fn thing_at(&self, base: u16, at: u16, s: &StatementTree) -> Result<Nexts, AllocError>
        requires { IfBelow (2 ^ 16) base self.now.temp at (Some (statement_of s.now)) }
        ensures { IfOk result (λ n. map item_of n ≡ thing_at (exchanged self.now.first) self.now.temp base at (statement_of s.now)) }
    {
        thing_entry(self.alloc, self.first, self.temp, base, at, s)
    }

    // The own points of a thing.
    #[tactic(auto, using(crate::proofs::Counted::reads_all, crate::proofs::Joining::thing_is))]
    fn owned(
        &self,
        frame: &Frame,
        at: u16,
        cell: u16,
        s: &StatementTree,
        after: &Nexts,
    ) -> Result<Vec<Point>, AllocError>
        requires { OwnFits (2 ^ 16) self.now.functions.now (number_at self.now.sizes.now) (number_at self.now.rooms.now) self.now.temp frame.now.base at cell (statement_of s.now) }
        ensures { IfOk result (λ p. map plain_of p.items ≡ owned (exchanged self.now.first) self.now.temp self.now.functions.now (number_at self.now.sizes.now) (number_at self.now.rooms.now) (context_of frame.now) at cell (statement_of s.now) (map item_of after.now)) }
    {
        let asked = ask_thing(self.alloc, frame.base, self.temp, s)?;
        let action = acting(self.alloc, self.functions, frame, cell, s, &asked.terms)?;
        let next = self.going(frame, at, cell, s, &asked.terms, after)?;
        let mut points = Vec::new(self.alloc);
        thing(
            self.alloc,
            &mut points,
            self.first,
            at,
            asked.evaluation.items,
            place_of(s),
            action,
            next,
        )?;
        Ok(points)
    }

    // The own pieces of a thing.
    fn own(
        &self,
        out: &mut Vec<Piece>,
        frame: &Frame,
        at: u16,
        cell: u16,
        s: &StatementTree,
        after: &Nexts,
    ) -> Result<(), AllocError>
        requires { OwnFits (2 ^ 16) self.now.functions.now (number_at self.now.sizes.now) (number_at self.now.rooms.now) self.now.temp frame.now.base at cell (statement_of s.now) }
        ensures { OnOk result (map piece_of out.new.items ≡ map piece_of out.old.items ++ own_pieces (exchanged self.now.first) self.now.temp self.now.functions.now (number_at self.now.sizes.now) (number_at self.now.rooms.now) (context_of frame.now) at cell (statement_of s.now) (map item_of after.now)) }
    {
        let points = self.owned(frame, at, cell, s, after)?;
        push_points(out, points)
    }

    // The pieces of a call.
    fn call(
        &self,
        out: &mut Vec<Piece>,
        frame: &Frame,
        at: u16,
        cell: u16,
        function: u16,
        into: Option<Takes>,
        after: &Nexts,
    ) -> Result<(), AllocError>
        requires { TakenBelow (2 ^ 16) frame.now.base (option_map takes_of into) }
        ensures { OnOk result (map piece_of out.new.items ≡ map piece_of out.old.items ++ Expands function (callee (context_of frame.now) cell (option_map takes_of into) (map item_of after.now)) at ∷ []) }
    {
        let frame = self.callee(frame, cell, into, after)?;
        out.push(Piece::Expands {
            function,
            frame,
            at,
        })?;
        Ok(())
    }

    /// The pieces of a statement at a position, whose calls' cells begin at `cell`.
    #[cycle(pieces)]
    pub fn one(
        &self,
        out: &mut Vec<Piece>,
        frame: &Frame,
        at: u16,
        cell: u16,
        s: &StatementTree,
        after: &Nexts,
    ) -> Result<(), AllocError>
        requires { Fits (2 ^ 16) self.now.functions.now (number_at self.now.sizes.now) (number_at self.now.rooms.now) self.now.temp frame.now.base at cell (statement_of s.now) }
        ensures { OnOk result (map piece_of out.new.items ≡ map piece_of out.old.items ++ pieces (exchanged self.now.first) self.now.temp self.now.functions.now (number_at self.now.sizes.now) (number_at self.now.rooms.now) (context_of frame.now) at cell (statement_of s.now) (map item_of after.now)) }
    {
        match s {
            StatementTree::Block(body) => self.all(out, frame, at, cell, body, after),
            StatementTree::If { on, off, .. } => {
                self.own(out, frame, at, cell, s, after)?;
                let at = self.behind(at, s);
                self.all(out, frame, at, cell, on, after)?;
                let at = self.behind_all(at, on);
                let cell = self.cells_behind(cell, on);
                self.all(out, frame, at, cell, off, after)
            }
            StatementTree::Loop { third, body, .. } => {
                self.own(out, frame, at, cell, s, after)?;
                let again = self.thing_at(frame.base, at, s)?;
                let at = self.behind(at, s);
                let step = self.begin(frame.base, at, third, &again)?;
                self.all(out, frame, at, cell, third, &again)?;
                let at = self.behind_all(at, third);
                let cell = self.cells_behind(cell, third);
                self.all(out, frame, at, cell, body, &step)
            }
            StatementTree::Call { function, into, .. } => {
                self.own(out, frame, at, cell, s, after)?;
                let at = self.behind(at, s);
                self.call(out, frame, at, cell, *function, *into, after)
            }
            _ => self.own(out, frame, at, cell, s, after),
        }
    }

    /// The pieces of statements one after another.
    #[cycle(pieces)]
    pub fn all(
        &self,
        out: &mut Vec<Piece>,
        frame: &Frame,
        at: u16,
        cell: u16,
        b: &[StatementTree],
        after: &Nexts,
    ) -> Result<(), AllocError>
        requires { AllFit (2 ^ 16) self.now.functions.now (number_at self.now.sizes.now) (number_at self.now.rooms.now) self.now.temp frame.now.base at cell (block (map statement_of b.now)) }
        ensures { OnOk result (map piece_of out.new.items ≡ map piece_of out.old.items ++ pieces_all (exchanged self.now.first) self.now.temp self.now.functions.now (number_at self.now.sizes.now) (number_at self.now.rooms.now) (context_of frame.now) at cell (block (map statement_of b.now)) (map item_of after.now)) }
    {
        let mut at = at;
        let mut cell = cell;
        for (i, s) in b.iter().enumerate() {
            let there = at + sized(self.sizes, s) as u16;
            let rest = self.begin(frame.base, there, &b[i + 1..], after)?;
            self.one(out, frame, at, cell, s, &rest)?;
            at = there;
            cell += room(self.rooms, s) as u16;
        }
        Ok(())
    }
}

// Points behind the pieces that there are.
#[tactic(auto, using(crate::proofs::Appended::stands_append, std::proofs::Common::append_assoc))]
fn push_points(out: &mut Vec<Piece>, points: Vec<Point>) -> Result<(), AllocError>
    ensures { OnOk result (map piece_of out.new.items ≡ map piece_of out.old.items ++ map Stands (map plain_of points.items)) }
{
    for point in points {
        out.push(Piece::Stands(point))?;
    }
    Ok(())
}
