// The form of the applications that are encoded.
ghost use Rattle.std.specs.Prelude.{◌≡◌};
ghost use Rattle.std.specs.List.{list_all};
ghost use Rattle.one_stack.specs.TaskForm.{is_form_action, is_form_entity, is_form_point, is_form_service, is_task_form};
ghost use Rattle.step_ir.specs.Points.{plain_action};

use application::app::App;
use step_ir::code::{Action, Code, EntityCode, Point};
use step_ir::event::Service;

fn is_form_service(service: Service) -> bool
    ensures { result ≡ is_form_service service }
{
    match service {
        Service::Activate(_) => true,
        Service::Terminate => true,
        Service::Chain(_) => true,
        Service::Get(_) => true,
        Service::Release(_) => true,
        _ => false,
    }
}

fn is_form_action(action: &Action) -> bool
    ensures { result ≡ is_form_action (plain_action action.now) }
{
    match action {
        Action::Input(_) => false,
        Action::Service(service) => is_form_service(*service),
        _ => true,
    }
}

fn is_form_point(point: &Point) -> bool
    ensures { result ≡ is_form_point point.now }
{
    is_form_action(&point.action) && point.next.len() <= 2048
}

fn is_form_entity(entity: &EntityCode) -> bool
    ensures { result ≡ is_form_entity entity.now }
{
    entity
        .points
        .items()
        .iter()
        .all(|point| is_form_point(point))
}

fn are_form_entities(code: &Code) -> bool
    ensures { result ≡ list_all is_form_entity code.now.entities }
{
    code.entities
        .items()
        .iter()
        .all(|entity| is_form_entity(entity))
}

/// Whether an application and its code have the task form: no routine, no input, no `Schedule` and no section.
pub fn is_task_form(app: &App, code: &Code) -> bool
    ensures { result ≡ is_task_form app.now code.now }
{
    app.routines.len() == 0 && are_form_entities(code)
}
