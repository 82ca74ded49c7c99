// The code of each entity: its cells, and its points with every call expanded at its place.
ghost use Rattle.std.specs.Prelude.{◌≡◌, ◌<◌, Some, IfOk, length, map};
ghost use Rattle.typed_unit.specs.Views.{entity_of, unit_of};
ghost use Rattle.step_ir.specs.Points.{plain_of};
ghost use Rattle.lower_law.specs.Translated.{entity, entity_body};
ghost use Rattle.fit_law.specs.Codes.{IsExchanged};
ghost use Rattle.lower_code.specs.Bodies.{BeginsAt};
ghost use Rattle.lower_code.specs.Tables.{tables_to};
ghost use Rattle.unit_counts.specs.Cells.{cells_of_entity, entity_cells};
ghost use Rattle.lower.specs.EntityCodes.{AreEntityCodes, IsEntityCode};
ghost use Rattle.lower.specs.Ready.{AreTrees, IsPlaced, IsReady, tree_first, tree_points};

use crate::copies::reordered;
use crate::starts::first_running;
use lower_code::entity::entities_are_expanded;
use lower_code::expansion::{Expansion, entity_entry, entity_points};
use lower_code::functions::entity;
use lower_code::tables::Table;
use lower_law::law::units_fit_their_cells;
use lower_pieces::tree::FunctionTree;
use sqlite_items::Items;
use std::alloc::{AllocError, Global};
use step_ir::code::{EntityCode, EntityCodes, Points};
use typed_unit::typed::{TypedEntity, TypedUnit};
use unit_counts::cells::EntityCells;
use unit_counts::counts::body_of;

// A unit that is lowered for so many entities, the trees of its functions, and the tables for calls that nest less than 0, 1 and so on deep.
#[derive(Clone, Copy)]
pub(crate) struct Lowering<'a> {
    pub alloc: Global,
    pub unit: &'a TypedUnit,
    pub entities: usize,
    pub functions: &'a [FunctionTree],
    pub tables: &'a [Table],
}

impl Lowering<'_> {
    // How a body is laid out, where this position and the first change places.
    fn expansion(&self, first: u16, temp: u16) -> Expansion<'_>
        ensures first { result.first ≡ first }
        ensures temp { result.temp ≡ temp }
        ensures functions { result.functions.now ≡ self.now.functions.now }
        ensures tables { result.tables.now ≡ self.now.tables.now }
    {
        Expansion {
            alloc: self.alloc,
            first,
            temp,
            functions: self.functions,
            tables: self.tables,
        }
    }

    // The position of the first point of a body that runs.
    fn first_point(&self, tree: &FunctionTree, base: u16, temp: u16) -> Result<u16, AllocError>
        requires { BeginsAt temp base 0 tree.now }
        ensures { IfOk result (λ z. z ≡ tree_first temp base tree.now) }
    {
        let expansion = self.expansion(0, temp);
        let entry = entity_entry(&expansion, tree, base)?;
        let first = first_running(self.alloc, entry.items())?;
        Ok(first)
    }

    // The points of a body under their numbers.
    fn points(&self, tree: &FunctionTree, base: u16, temp: u16) -> Result<Points, AllocError>
        requires tables { self.now.tables.now ≡ tables_to self.now.functions.now 17 }
        requires placed { IsPlaced temp self.now.functions.now base tree.now }
        ensures { IfOk result (λ p. IsExchanged (tree_first temp base tree.now) (tree_points temp self.now.functions.now base tree.now) (map plain_of p)) }
    {
        let first = self.first_point(tree, base, temp)?;
        let expansion = self.expansion(first, temp);
        let points = entity_points(&expansion, 16, tree, base)?;
        let ordered = reordered(self.alloc, points, first)?;
        Ok(ordered)
    }

    // The code of an entity with this body.
    fn body_code(
        &self,
        number: usize,
        body: &TypedEntity,
        cells: EntityCells,
    ) -> Result<EntityCode, AllocError>
        requires ready { IsReady (unit_of self.now.unit.now) self.now.entities }
        requires trees { AreTrees (unit_of self.now.unit.now) self.now.functions.now self.now.tables.now }
        requires within { number < self.now.entities }
        requires body { entity_body number (unit_of self.now.unit.now).entities ≡ Some (entity_of body.now) }
        requires cells { cells ≡ cells_of_entity (unit_of self.now.unit.now) number }
        ensures { IfOk result (IsEntityCode (unit_of self.now.unit.now) self.now.entities number) }
    {
        entities_are_expanded();
        units_fit_their_cells();
        let tree = entity(self.alloc, self.unit.globals.as_slice(), body)?;
        let points = self.points(&tree, cells.first, cells.temp)?;
        Ok(EntityCode {
            points,
            names: cells.names,
        })
    }

    // The code of the entity with this number.
    fn entity_code(&self, number: usize, cells: EntityCells) -> Result<EntityCode, AllocError>
        requires ready { IsReady (unit_of self.now.unit.now) self.now.entities }
        requires trees { AreTrees (unit_of self.now.unit.now) self.now.functions.now self.now.tables.now }
        requires within { number < self.now.entities }
        requires cells { cells ≡ cells_of_entity (unit_of self.now.unit.now) number }
        ensures { IfOk result (IsEntityCode (unit_of self.now.unit.now) self.now.entities number) }
    {
        match body_of(self.unit, number) {
            None => Ok(EntityCode {
                points: Points::new(self.alloc),
                names: cells.names,
            }),
            Some(body) => self.body_code(number, body, cells),
        }
    }

    // The codes of all entities.
    pub(crate) fn all(&self, cells: Items<EntityCells>) -> Result<EntityCodes, AllocError>
        requires ready { IsReady (unit_of self.now.unit.now) self.now.entities }
        requires trees { AreTrees (unit_of self.now.unit.now) self.now.functions.now self.now.tables.now }
        requires cells { cells ≡ entity_cells (unit_of self.now.unit.now) self.now.entities }
        ensures long { IfOk result (λ codes. length codes ≡ self.now.entities) }
        ensures codes { IfOk result (AreEntityCodes (unit_of self.now.unit.now) self.now.entities) }
    {
        let mut left = cells;
        let mut codes = EntityCodes::new(self.alloc);
        for number in 0..self.entities {
            let one = left.remove(0);
            codes.push(self.entity_code(number, one)?)?;
        }
        Ok(codes)
    }
}
