// From two texts to an application and a checked unit of C.
ghost use Rattle.std.specs.Prelude.{◌≤◌, length, IfOk, IfErr};
ghost use Rattle.std.specs.Option.{option_copied};
ghost use Rattle.application.specs.InOrder.{IsInOrder};
ghost use Rattle.static_rules.specs.Checked.{Fits};
ghost use Rattle.text_stages.specs.Prepared.{IsRead, IsReadStop};

use crate::stages::{application_of, checked_of, first_input, tokens_of, tree_of, written_of};
use crate::stop::Stop;
use application::app::App;
use chk_base::place::Place;
use chk_base::text::Text;
use static_rules::check::Checked;
use std::alloc::Global;

/// An application and the checked unit of its C text, with the place at which the name `oschk_input` first stands in it.
#[derive(Drop)]
pub struct Texts {
    pub app: App,
    pub unit: Checked,
    pub input: Option<Place>,
}

/// The application and the checked unit of two texts, by stages: the OIL text, its rules, the tokens of the C text, its grammar, its rules,
/// and then the rules on what its bodies do. Without a mode, the first of the text is meant.
///
/// # Errors
///
/// `Refused` exactly where a stage refuses the texts, with the refusal of the first; `Memory` is want of memory alone.
pub fn read_texts(alloc: Global, oil: &Text, c: &Text, mode: Option<&Text>) -> Result<Texts, Stop>
    requires oil { length oil.now ≤ 262144 }
    requires c { length c.now ≤ 262144 }
    ensures read { IfOk result (IsRead oil.now c.now (option_copied mode.entry)) }
    ensures order { IfOk result (λ texts. IsInOrder texts.app) }
    ensures fits { IfOk result (λ texts. Fits texts.app texts.unit) }
    ensures stop { IfErr result (IsReadStop oil.now c.now (option_copied mode.entry)) }
{
    let tree = tree_of(alloc, oil)?;
    let app = application_of(alloc, &tree, mode)?;
    let tokens = tokens_of(alloc, c)?;
    let input = first_input(&tokens);
    let written = written_of(alloc, &tokens)?;
    let unit = checked_of(alloc, &app, &written)?;
    Ok(Texts { app, unit, input })
}
