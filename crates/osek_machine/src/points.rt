// The points of entities.
ghost use Rattle.std.specs.Option.{option_copied};
ghost use Rattle.std.specs.Prelude.{◌≡◌, ◌≤◌, length, slice_get, slice_index, vec_capacity};
ghost use Rattle.osek_machine.specs.CellWords.{bits, widths};
ghost use Rattle.osek_machine.specs.Faults.{beyond};
ghost use Rattle.osek_machine.specs.Inputs.{input_in};
ghost use Rattle.osek_machine.specs.Kept.{IsFixed, IsOver};
ghost use Rattle.osek_machine.specs.Performing.{IsPerformed, choice_of};
ghost use Rattle.step_ir.specs.Points.{points_in, points_of};
ghost use Rattle.step_ir.specs.PointStep.{behaviour_of};

use crate::perform::{Performed, perform};
use application::app::App;
use chk_base::cells::Cells;
use chk_base::place::Place;
use chk_base::word::Word;
use step_ir::code::{Action, Code, Point};
use step_ir::law::cells_within;

const NOWHERE: Place = Place {
    line: 0,
    column: 0,
    offset: 0,
};

fn point_at(code: &Code, e: u8, at: u16) -> Option<&Point>
    ensures { option_copied result ≡ slice_get (points_of (slice_get code.now.entities e)) at }
{
    match code.entities.get(e as usize) {
        None => None,
        Some(entity) => entity.points.get(at as usize),
    }
}

/// The place of an entity's point.
pub fn place_at(code: &Code, e: u8, at: u16) -> Place
    ensures { result ≡ (behaviour_of code.now).place e at }
{
    match point_at(code, e, at) {
        None => NOWHERE,
        Some(point) => point.place,
    }
}

/// The cell that takes the word of an entity's point, if it is an input.
pub fn input_at(code: &Code, e: u8, at: u16) -> Option<u16>
    ensures { result ≡ input_in (slice_get (points_in code.now e) at) }
{
    match point_at(code, e, at)?.action {
        Action::Input(cell) => Some(cell),
        _ => None,
    }
}

/// The point at which an entity stands.
pub fn point_number(points: &[u16], at: u8) -> u16
    ensures { result ≡ slice_index points.now at }
{
    if (at as usize) < points.len() {
        points[at as usize]
    } else {
        0
    }
}

// What an entity does of a step where it stands at no point.
fn without_point(word: Option<Word>) -> Performed
    ensures { result ≡ beyond word }
{
    match word {
        None => Performed::Ends,
        Some(_) => Performed::Refused,
    }
}

/// What an entity does of a step, with its effect on the cells.
pub fn perform_at(
    app: &App,
    code: &Code,
    e: u8,
    at: u16,
    cells: &mut Cells,
    values: &mut Vec<u32>,
    word: Option<Word>,
) -> Performed
    requires fixed { IsFixed app.now code.now }
    requires over { IsOver code.now cells.old }
    requires room { length cells.old ≤ vec_capacity values.old }
    ensures performed { IsPerformed ((behaviour_of code.now).wants e at (bits cells.old))
        (choice_of word) cells.old result cells.new }
    ensures widths { widths cells.new ≡ widths cells.old }
    ensures length { length cells.new ≡ length cells.old }
    ensures capacity { vec_capacity values.new ≡ vec_capacity values.old }
{
    cells_within();
    match point_at(code, e, at) {
        None => without_point(word),
        Some(point) => perform(point, cells, values, word),
    }
}
