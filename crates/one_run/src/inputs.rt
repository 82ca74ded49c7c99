// Whether a code takes an input.
ghost use Rattle.std.specs.Prelude.{◌≡◌, true};
ghost use Rattle.step_ir.specs.Points.{plain_action};
ghost use Rattle.one_run.specs.OneRun.{TakesNoInput, are_inputless, is_input, is_inputless, is_inputless_entity};

use step_ir::code::{Action, Code, EntityCode, Point};

fn is_input(action: &Action) -> bool
    ensures { result ≡ is_input (plain_action action.now) }
{
    matches!(action, Action::Input(_))
}

fn is_inputless(point: &Point) -> bool
    ensures { result ≡ is_inputless point.now }
{
    !is_input(&point.action)
}

// No point of the entity takes an input.
fn is_inputless_entity(entity: &EntityCode) -> bool
    ensures { result ≡ is_inputless_entity entity.now }
{
    entity
        .points
        .items()
        .iter()
        .all(|point| is_inputless(point))
}

// No point of any entity takes an input.
fn are_inputless(code: &Code) -> bool
    ensures { result ≡ are_inputless code.now }
{
    code.entities
        .items()
        .iter()
        .all(|entity| is_inputless_entity(entity))
}

/// Whether no point of a code takes an input.
pub fn takes_no_input(code: &Code) -> bool
    ensures none { result ≡ true → TakesNoInput code.now }
    ensures all { TakesNoInput code.now → result ≡ true }
{
    are_inputless(code)
}
