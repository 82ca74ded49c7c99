// Deciding and writing.
ghost use Rattle.std.specs.Prelude.{◌≡◌, ◌≤◌, ◌^◌, true, IfOk, IsSome};
ghost use Rattle.application.specs.InOrder.{IsInOrder};
ghost use Rattle.bounded_check.specs.Verdicts.{Means};
ghost use Rattle.cert_text.specs.CertificateText.{ending_of};
ghost use Rattle.certified_run.specs.Certified.{IsCertified, ending_by};
ghost use Rattle.one_stack.specs.TaskForm.{is_task_form};
ghost use Rattle.step_ir.specs.Fits.{Fits};

use crate::names::label_texts;
use application::app::App;
use bounded_check::decide::{Decided, Verdict, decide};
use bounded_check::encode::encode;
use cert_text::front::{Bounds, write_front};
use cert_text::law::{front_and_rest_are_whole, pieces_in_turn};
use cert_text::rest::{Ending, write_rest};
use chk_base::desk::{Desk, PutFault};
use std::alloc::Global;
use step_ir::code::Code;

// How the certificate of a verdict ends.
fn ending<'a>(verdict: &'a Verdict) -> Ending<'a>
    ensures { ending_of result ≡ ending_by verdict.now }
{
    match verdict {
        Verdict::Holds => Ending::Holds,
        Verdict::Fails(values, _) => Ending::Fails(values),
        Verdict::Undecided => Ending::Undecided,
    }
}

/// Decides whether an application of the task form has a permitted schedule within the bounds that fails, and appends the certificate to
/// the current file: what stands before the log before it is decided, and the rest afterwards.
pub fn decide_and_write<D: Desk>(
    alloc: Global,
    desk: &mut D,
    app: &App,
    code: &Code,
    bounds: Bounds,
) -> Result<Verdict, PutFault>
    requires order { IsInOrder app.now }
    requires fits { Fits app.now code.now }
    requires form { is_task_form app.now code.now ≡ true }
    requires least { 1 ≤ bounds.turns }
    requires most { bounds.turns ≤ 512 }
    requires arrivals { bounds.arrivals ≤ 15 }
    requires budget { bounds.budget ≤ 10 ^ 12 }
    requires begun { IsSome (D.state desk.old).current }

    // The text of a certificate of one encoding that depicts the application is appended, or a prefix of one; and why, where it fails.
    ensures certified { IsCertified app.now code.now bounds (D.state desk.old) (D.state desk.new) result }

    // It holds only if no permitted schedule within the bounds fails, and it fails by choices that are such a schedule.
    ensures means { IfOk result (Means app.now code.now bounds.turns bounds.arrivals) }
{
    front_and_rest_are_whole();
    pieces_in_turn();
    let encoded = encode(alloc, app, code, bounds.turns, bounds.arrivals)?;
    let labels = label_texts(alloc, app, encoded.stack.labels.items())?;
    write_front(alloc, desk, bounds, &encoded.encoding, &labels)?;
    let Decided { verdict, lines } = decide(alloc, encoded, bounds.budget)?;
    write_rest(alloc, desk, lines.log(), &ending(&verdict))?;
    Ok(verdict)
}
