// What a certificate says of the labels of an application's turns.
ghost use Rattle.std.specs.Prelude.{◌≡◌, ◌<◌, ◌^◌, IfOk, OnOk};
ghost use Rattle.certified_run.specs.Names.{ArePoints, entity_name, text_of, texts_of};

use application::app::{App, Entity};
use cert_text::label::{LabelText, LabelTexts};
use chk_base::text::Text;
use one_stack::label::Label;
use std::alloc::{AllocError, Global};

// The name of the entity with this number; there is none without it.
fn entity_name(app: &App, entity: Entity) -> &[u8]
    ensures { result.now ≡ entity_name app.now entity.0 }
{
    let at = entity.0 as usize;
    if let Some(task) = app.tasks.get(at) {
        return task.name.as_bytes();
    }
    match app.routines.get(at - app.tasks.len()) {
        Some(routine) => routine.name.as_bytes(),
        None => b"",
    }
}

// The point of a label.
fn point_of(label: &Label) -> u16
    ensures { result ≡ label.now.point }
{
    label.point
}

// What a label stands for.
fn label_text(alloc: Global, app: &App, label: &Label) -> Result<LabelText, AllocError>
    ensures text { IfOk result (λ text. text ≡ text_of app.now label.now) }
    ensures point { OnOk result (label.now.point < 2 ^ 16) }
{
    let point = point_of(label);
    let name = Text::from_bytes(alloc, entity_name(app, label.entity))?;
    if label.arrives {
        Ok(LabelText::Arrive(name))
    } else {
        Ok(LabelText::Step(name, point))
    }
}

/// What labels stand for: label 0 is idle, and the others follow.
pub fn label_texts(alloc: Global, app: &App, labels: &[Label]) -> Result<LabelTexts, AllocError>
    ensures texts { IfOk result (λ texts. texts ≡ texts_of app.now labels.now) }
    ensures points { OnOk result (ArePoints labels.now) }
{
    let mut texts = LabelTexts::new(alloc);
    texts.push(LabelText::Idle)?;
    for label in labels {
        texts.push(label_text(alloc, app, label)?)?;
    }
    Ok(texts)
}
