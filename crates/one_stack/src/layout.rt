// Where things stand in the program of an application.
ghost use Rattle.std.specs.Prelude.{◌≡◌, ◌+◌, ◌*◌, ◌++◌, ◌≤◌, OnOk, false};
ghost use Rattle.chk_base.specs.Term.{Cell, term_of};
ghost use Rattle.chk_base.specs.declared.word.Width.TheVariants.{W1, W8};
ghost use Rattle.one_stack.specs.Built.{sum_below, table};
ghost use Rattle.one_stack.specs.Plain.{slot_of};
ghost use Rattle.one_stack.specs.Tables.{count_in, place_in, plan_in, room_in, seen};

use crate::levels::{ceiling_at, level_at, level_count, limit_at, run_level_at};
use crate::widths::put_slots;
use application::app::{App, Task};
use chk_base::expr::Expr;
use chk_base::word::{Width, Widths};
use std::alloc::AllocError;
use std::marker::Model;

/// What is kept of the scheduler, each in a cell of its own: whether an entity is on the stack, how many requests a task has, the fresh
/// requests of a level with the oldest first, whether a resource is held, and the resources of an entity with the last taken first.
#[derive(Clone, Copy)]
pub enum Slot {
    On(u8),
    Count(u8),
    Waits { level: u8, at: u8 },
    Held(u8),
    Kept { entity: u8, at: u8 },
}

/// An application with the numbers from which the places of slots and points follow: those of the code's cells, of the entities and the
/// resources, of the places that each level has, and of the points of each entity; and the widths of the program's cells.
#[derive(Drop)]
pub struct Layout<'a> {
    pub(crate) app: &'a App,
    pub(crate) cells: u16,
    pub(crate) entities: u8,
    pub(crate) resources: u8,
    pub(crate) rooms: Vec<u8>,
    pub(crate) counts: Vec<u16>,
    pub(crate) widths: Widths,
}

impl<'a> Model for Layout<'a> {
    ghost use Rattle.one_stack.specs.Tables.{Tables};

    ghost Value = { Tables };

    ghost use Rattle.one_stack.specs.Inside.{tables_of, IsSmall};

    ghost view = { tables_of };

    ghost invariant = { IsSmall };
}

impl<'a> Layout<'a> {
    pub fn tasks(&self) -> &[Task]
        ensures { result.now ≡ self.now.app.tasks }
    {
        self.app.tasks.items()
    }

    pub fn level(&self, e: u8) -> u8
        ensures { result ≡ (seen self.now).level e }
    {
        level_at(self.app, e)
    }

    pub fn run_level(&self, e: u8) -> u8
        ensures { result ≡ (seen self.now).run_level e }
    {
        run_level_at(self.app, e)
    }

    /// How many requests a task may have.
    pub fn limit(&self, t: u8) -> u8
        ensures { result ≡ (seen self.now).limit t }
    {
        limit_at(self.app, t)
    }

    pub fn ceiling(&self, r: u8) -> u8
        ensures { result ≡ (seen self.now).ceiling r }
    {
        ceiling_at(self.app, r)
    }

    /// How many levels there are, with the idle one.
    pub fn levels(&self) -> u8
        ensures count { result ≡ (seen self.now).top + 1 }
        ensures few { result ≤ 81 }
    {
        let _ = &self.cells;
        level_count()
    }

    pub fn entities(&self) -> u8
        ensures count { result ≡ self.now.entities }
        ensures few { result ≤ 16 }
    {
        self.entities
    }

    pub fn resources(&self) -> u8
        ensures count { result ≡ self.now.resources }
        ensures few { result ≤ 17 }
    {
        self.resources
    }

    pub fn widths(&self) -> &[Width]
        ensures { result.now ≡ self.now.widths }
    {
        self.widths.items()
    }

    /// How many places a level has.
    pub fn room(&self, level: u8) -> u8
        ensures count { result ≡ room_in self.now level }
        ensures few { result ≤ 128 }
    {
        match self.rooms.get(level as usize) {
            Some(room) => *room,
            None => 0,
        }
    }

    // How many places the levels below this one have.
    fn places_below(&self, level: u8) -> u16
        ensures count { result ≡ sum_below level (room_in self.now) }
        ensures few { result ≤ 128 * level }
    {
        let mut sum = 0;
        for l in 0..level {
            sum += self.room(l) as u16;
        }
        sum
    }

    fn count(&self, e: u8) -> u16
        ensures { result ≡ count_in self.now e }
    {
        match self.counts.get(e as usize) {
            Some(count) => *count,
            None => 0,
        }
    }

    // How many points the entities before this one have.
    fn points_before(&self, e: u8) -> u16
        ensures count { result ≡ sum_below e (count_in self.now) }
        ensures few { result ≤ 2048 }
    {
        let _ = &self.counts;
        let mut sum = 0;
        for x in 0..e {
            sum += self.count(x);
        }
        sum
    }

    /// The number of a point of an entity.
    pub fn number(&self, e: u8, n: u16) -> u16
        requires { n ≤ 2048 }
        ensures { result ≡ (plan_in self.now).number e n }
    {
        1 + (self.points_before(e) + n)
    }

    /// The label of the rule with number k of an entity's point.
    pub fn label(&self, e: u8, k: u32) -> u32
        requires { k ≤ 40000 }
        ensures { result ≡ (plan_in self.now).label e k }
    {
        1 + (e as u32 + self.entities as u32 * k)
    }

    // The first cell of the requests.
    fn first_place(&self) -> u16
        ensures first { result ≡ self.now.cells + (self.now.entities + self.now.entities) }
        ensures few { result ≤ 8224 }
    {
        self.cells + 2 * self.entities as u16
    }

    // The first cell of the resources.
    fn first_held(&self) -> u16
        ensures first { result ≡ self.now.cells + (self.now.entities + (self.now.entities + sum_below ((seen self.now).top + 1) (room_in self.now))) }
        ensures few { result ≤ 18592 }
    {
        self.first_place() + self.places_below(self.levels())
    }

    // How many places the resources of the entities before this one have.
    fn kept_below(&self, e: u8) -> u16
        ensures count { result ≡ sum_below e (λ x. self.now.resources) }
        ensures few { result ≤ 17 * e }
    {
        let mut sum = 0;
        for _x in 0..e {
            sum += self.resources() as u16;
        }
        sum
    }

    /// Puts the widths of slots after those of the code's cells.
    pub fn put_slot_widths(&mut self) -> Result<(), AllocError>
        ensures { OnOk result (self.new ≡ record self.old {
          widths = self.old.widths
              ++ (table self.old.entities (λ x. W1) ++ (table self.old.entities (λ t. W8)
              ++ (table (sum_below ((seen self.old).top + 1) (room_in self.old)) (λ q. W8)
              ++ (table self.old.resources (λ q. W1) ++ table (self.old.entities * self.old.resources) (λ q. W8)))));
        }) }
    {
        let places = self.places_below(self.levels());
        put_slots(&mut self.widths, self.entities, places, self.resources)
    }

    /// The widths of all cells.
    pub fn into_widths(self) -> Widths
        ensures { result ≡ self.entry.widths }
    {
        let Layout { widths, .. } = self;
        widths
    }

    /// The cell of a slot.
    pub fn place(&self, slot: Slot) -> u16
        ensures { result ≡ place_in self.now (slot_of slot) }
    {
        match slot {
            Slot::On(x) => self.cells + x as u16,
            Slot::Count(t) => self.cells + self.entities as u16 + t as u16,
            Slot::Waits { level, at } => {
                self.first_place() + self.places_below(level) + at as u16
            }
            Slot::Held(r) => self.first_held() + r as u16,
            Slot::Kept { entity, at } => {
                self.first_held() + self.resources as u16 + self.kept_below(entity) + at as u16
            }
        }
    }

    /// The value of a slot.
    pub fn cell(&self, slot: Slot) -> Expr
        ensures { term_of result ≡ Cell (place_in self.now (slot_of slot)) false }
    {
        Expr::Cell {
            at: self.place(slot),
            signed: false,
        }
    }
}
