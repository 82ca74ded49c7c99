// The points of bodies, with each call expanded.
ghost use Rattle.std.specs.Prelude.{◌≡◌, ◌+◌, ◌<◌, ◌^◌, ◌++◌, ◌∷◌, [], IfOk, OnOk, length, map};
ghost use Rattle.step_ir.specs.Points.{plain_of, item_of};
ghost use Rattle.lower_law.specs.Exact.{exchanged};
ghost use Rattle.lower_law.specs.Lowered.{close_entry, closing, outer};
ghost use Rattle.lower_pieces.specs.Acting.{context_of};
ghost use Rattle.lower_pieces.specs.Expanded.{expanded};
ghost use Rattle.lower_pieces.specs.Fitting.{AllFit};
ghost use Rattle.lower_pieces.specs.Pieces.{piece_of};
ghost use Rattle.lower_pieces.specs.Sized.{number_at, sized_all};
ghost use Rattle.lower_code.specs.Bodies.{entry_at, BeginsAt};
ghost use Rattle.lower_code.specs.Plans.{PiecesFit, CallFitsTo, FitsAt, pieces_in, plans_to, points_at};
ghost use Rattle.lower_code.specs.Tables.{body_of, sizes_at, rooms_at, tables_to};

use crate::tables::Table;
use lower_pieces::actions::{Frame, leaving};
use lower_pieces::entries::block_entry;
use lower_pieces::pieces::{Piece, Plan};
use lower_pieces::sizes::sized_all;
use lower_pieces::steps::{always, copy_nexts};
use lower_pieces::tree::FunctionTree;
use std::alloc::{AllocError, Global};
use step_ir::code::{Nexts, Point, Points, Traps};

/// How bodies are laid out: which position changes places with the first, the first cell for values read, the functions, and the tables for
/// calls that nest less than 0, 1 and so on deep.
#[derive(Clone, Copy)]
pub struct Expansion<'a> {
    pub alloc: Global,
    pub first: u16,
    pub temp: u16,
    pub functions: &'a [FunctionTree],
    pub tables: &'a [Table],
}

// The closing brace of a body.
fn close(
    alloc: Global,
    points: &mut Points,
    f: &FunctionTree,
    frame: &Frame,
) -> Result<(), AllocError>
    ensures { OnOk result (map plain_of points.new ≡ map plain_of points.old ++ closing f.now.gives f.now.close (context_of frame.now)) }
{
    if f.gives {
        return Ok(());
    }
    points.push(Point {
        place: f.close,
        action: leaving(frame.inner, None),
        traps: Traps::new(alloc),
        next: copy_nexts(alloc, &frame.after)?,
    })
}

impl Expansion<'_> {
    // Where the end of a body at a position begins.
    fn close_entry(&self, gives: bool, frame: &Frame, at: u16) -> Result<Nexts, AllocError>
        ensures { IfOk result (λ n. map item_of n ≡ close_entry (exchanged self.now.first) gives (context_of frame.now) at) }
    {
        if gives {
            copy_nexts(self.alloc, &frame.after)
        } else {
            always(self.alloc, self.first, at)
        }
    }

    // The pieces of a body where a call of each function has so many points and cells.
    fn pieces_with(
        &self,
        table: &Table,
        f: &FunctionTree,
        frame: &Frame,
        at: u16,
    ) -> Result<Vec<Piece>, AllocError>
        requires cells { frame.now.base + f.now.locals < 2 ^ 16 }
        requires points { at + sized_all (number_at table.now.sizes) (body_of f.now) < 2 ^ 16 }
        requires all { AllFit (2 ^ 16) self.now.functions.now (number_at table.now.sizes) (number_at table.now.rooms) self.now.temp frame.now.base at (frame.now.base + f.now.locals) (body_of f.now) }
        ensures { IfOk result (λ p. map piece_of p.items ≡ pieces_in (exchanged self.now.first) self.now.temp self.now.functions.now (number_at table.now.sizes) (number_at table.now.rooms) f.now (context_of frame.now) at) }
    {
        let plan = Plan {
            alloc: self.alloc,
            first: self.first,
            temp: self.temp,
            functions: self.functions,
            sizes: table.sizes.as_slice(),
            rooms: table.rooms.as_slice(),
        };
        let end = at + sized_all(table.sizes.as_slice(), f.body.as_slice()) as u16;
        let after = self.close_entry(f.gives, frame, end)?;
        let cell = frame.base + f.locals;
        let mut pieces = Vec::new(self.alloc);
        plan.all(&mut pieces, frame, at, cell, f.body.as_slice(), &after)?;
        Ok(pieces)
    }

    // The pieces of a body whose calls nest less than `d` deep.
    fn pieces_at(
        &self,
        d: usize,
        f: &FunctionTree,
        frame: &Frame,
        at: u16,
    ) -> Result<Vec<Piece>, AllocError>
        requires tables { self.now.tables.now ≡ tables_to self.now.functions.now (length self.now.tables.now) }
        requires deep { d < length self.now.tables.now }
        requires fits { FitsAt self.now.functions.now self.now.temp d frame.now.base at f.now }
        ensures { IfOk result (λ p. map piece_of p.items ≡ pieces_in (exchanged self.now.first) self.now.temp self.now.functions.now (sizes_at self.now.functions.now d) (rooms_at self.now.functions.now d) f.now (context_of frame.now) at) }
    {
        match self.tables.get(d) {
            None => Ok(Vec::new(self.alloc)),
            Some(table) => self.pieces_with(table, f, frame, at),
        }
    }

    /// The points of a body at a position, in which calls nest less than `d` deep.
    #[cycle(expand)]
    pub fn body(
        &self,
        points: &mut Points,
        d: usize,
        f: &FunctionTree,
        frame: &Frame,
        at: u16,
    ) -> Result<(), AllocError>
        requires tables { self.now.tables.now ≡ tables_to self.now.functions.now (length self.now.tables.now) }
        requires deep { d < length self.now.tables.now }
        requires fits { FitsAt self.now.functions.now self.now.temp d frame.now.base at f.now }
        ensures { OnOk result (map plain_of points.new ≡ map plain_of points.old ++ points_at (exchanged self.now.first) self.now.temp self.now.functions.now d f.now (context_of frame.now) at) }
    {
        let pieces = self.pieces_at(d, f, frame, at)?;
        self.all(points, d, pieces)?;
        close(self.alloc, points, f, frame)?;
        Ok(())
    }

    // The points of pieces.
    #[cycle(expand)]
    #[tactic(auto, using(crate::proofs::Planned::piece_more, std::proofs::Common::append_assoc))]
    fn all(&self, points: &mut Points, d: usize, pieces: Vec<Piece>) -> Result<(), AllocError>
        requires tables { self.now.tables.now ≡ tables_to self.now.functions.now (length self.now.tables.now) }
        requires deep { d < length self.now.tables.now }
        requires fits { PiecesFit (CallFitsTo self.now.functions.now self.now.temp d) (map piece_of pieces.items) }
        ensures { OnOk result (map plain_of points.new ≡ map plain_of points.old ++ expanded (plans_to (exchanged self.now.first) self.now.temp self.now.functions.now d) (map piece_of pieces.items)) }
    {
        for piece in pieces {
            self.piece(points, d, piece)?;
        }
        Ok(())
    }

    // The points of a piece.
    #[cycle(expand)]
    #[tactic(auto, using(crate::proofs::Planned::points_push, crate::proofs::Planned::points_end))]
    fn piece(&self, points: &mut Points, d: usize, piece: Piece) -> Result<(), AllocError>
        requires tables { self.now.tables.now ≡ tables_to self.now.functions.now (length self.now.tables.now) }
        requires deep { d < length self.now.tables.now }
        requires fits { PiecesFit (CallFitsTo self.now.functions.now self.now.temp d) (piece_of piece ∷ []) }
        ensures { OnOk result (map plain_of points.new ≡ map plain_of points.old ++ expanded (plans_to (exchanged self.now.first) self.now.temp self.now.functions.now d) (piece_of piece ∷ [])) }
    {
        match piece {
            Piece::Stands(point) => points.push(point),
            Piece::Expands {
                function,
                frame,
                at,
            } => self.called(points, d, function, &frame, at),
        }
    }

    // The points of a call at a position, in which calls nest less than `d` deep.
    #[cycle(expand)]
    #[tactic(auto, using(crate::proofs::Planned::points_end, crate::proofs::Calls::no_call))]
    fn called(
        &self,
        points: &mut Points,
        d: usize,
        function: u16,
        frame: &Frame,
        at: u16,
    ) -> Result<(), AllocError>
        requires tables { self.now.tables.now ≡ tables_to self.now.functions.now (length self.now.tables.now) }
        requires deep { d < length self.now.tables.now }
        requires fits { CallFitsTo self.now.functions.now self.now.temp d function frame.now.base at }
        ensures { OnOk result (map plain_of points.new ≡ map plain_of points.old ++ (plans_to (exchanged self.now.first) self.now.temp self.now.functions.now d function).points (context_of frame.now) at) }
    {
        if d == 0 {
            return Ok(());
        }
        match self.functions.get(function as usize) {
            None => Ok(()),
            Some(f) => {
                self.body(points, d - 1, f, frame, at)?;
                Ok(())
            }
        }
    }
}

// The frame of an entity's own body.
fn entity_frame(alloc: Global, base: u16) -> Frame
    ensures base { result.base ≡ base }
    ensures context { context_of result ≡ outer base }
{
    Frame {
        base,
        inner: false,
        after: Nexts::new(alloc),
        into: None,
    }
}

/// The points of an entity's body, whose calls nest less than `d` deep.
pub fn entity_points(
    expansion: &Expansion<'_>,
    d: usize,
    f: &FunctionTree,
    base: u16,
) -> Result<Points, AllocError>
    requires tables { expansion.now.tables.now ≡ tables_to expansion.now.functions.now (length expansion.now.tables.now) }
    requires deep { d < length expansion.now.tables.now }
    requires fits { FitsAt expansion.now.functions.now expansion.now.temp d base 0 f.now }
    ensures { IfOk result (λ p. map plain_of p ≡ points_at (exchanged expansion.now.first) expansion.now.temp expansion.now.functions.now d f.now (outer base) 0) }
{
    let frame = entity_frame(expansion.alloc, base);
    let mut points = Points::new(expansion.alloc);
    expansion.body(&mut points, d, f, &frame, 0)?;
    Ok(points)
}

/// Where the body of an entity begins.
pub fn entity_entry(
    expansion: &Expansion<'_>,
    f: &FunctionTree,
    base: u16,
) -> Result<Nexts, AllocError>
    requires { BeginsAt expansion.now.temp base 0 f.now }
    ensures { IfOk result (λ n. map item_of n ≡ entry_at (exchanged expansion.now.first) expansion.now.temp f.now (outer base) 0) }
{
    let frame = entity_frame(expansion.alloc, base);
    let close = expansion.close_entry(f.gives, &frame, 0)?;
    block_entry(
        expansion.alloc,
        expansion.first,
        expansion.temp,
        base,
        0,
        f.body.as_slice(),
        &close,
    )
}
