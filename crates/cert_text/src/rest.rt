// The log of a certificate, and its end.
ghost use Rattle.std.specs.Prelude.{IsSome};
ghost use Rattle.chk_base.specs.Desk.{AppendsAll};
ghost use Rattle.cert_text.specs.CertificateText.{ending_of};
ghost use Rattle.cert_text.specs.CertificateParts.{ending_text, model_text, rest_text, values_text};
ghost use Rattle.cert_text.specs.Spills.{Spills};

use crate::streams::{put_log, put_model};
use chk_base::desk::{Desk, PutFault, append_all};
use chk_base::text::Text;
use clause_form::assignment::Assignment;
use clause_form::line::Log;
use std::alloc::Global;

/// The verdict of a run, with the model where it fails.
#[derive(Clone, Copy)]
pub enum Ending<'a> {
    Holds,
    Fails(&'a Assignment),
    Undecided,
}

// The values of the model, and the end.
fn put_values<D: Desk>(
    alloc: Global,
    desk: &mut D,
    held: &mut Text,
    values: &Assignment,
) -> Result<(), PutFault>
    ensures { Spills (D.state desk.old) (D.state desk.new) held.old held.new (values_text values.now) result }
{
    put_model(alloc, desk, held, values)?;
    held.append(b"0\nend\n")?;
    Ok(())
}

// The model, and the end.
fn put_failure<D: Desk>(
    alloc: Global,
    desk: &mut D,
    held: &mut Text,
    values: &Assignment,
) -> Result<(), PutFault>
    ensures { Spills (D.state desk.old) (D.state desk.new) held.old held.new (model_text values.now) result }
{
    held.append(b"verdict fails\nmodel ")?;
    put_values(alloc, desk, held, values)
}

// The verdict without a model, and the end.
fn put_words<D: Desk>(desk: &mut D, held: &mut Text, words: &[u8]) -> Result<(), PutFault>
    ensures { Spills (D.state desk.old) (D.state desk.new) held.old held.new words.now result }
{
    let _ = desk;
    held.append(words)?;
    Ok(())
}

fn put_ending<D: Desk>(
    alloc: Global,
    desk: &mut D,
    held: &mut Text,
    ending: &Ending,
) -> Result<(), PutFault>
    ensures { Spills (D.state desk.old) (D.state desk.new) held.old held.new (ending_text (ending_of ending.now)) result }
{
    match ending {
        Ending::Holds => put_words(desk, held, b"verdict holds\nend\n"),
        Ending::Fails(values) => put_failure(alloc, desk, held, values),
        Ending::Undecided => put_words(desk, held, b"verdict undecided\nend\n"),
    }
}

fn put_rest<D: Desk>(
    alloc: Global,
    desk: &mut D,
    held: &mut Text,
    log: &Log,
    ending: &Ending,
) -> Result<(), PutFault>
    ensures { Spills (D.state desk.old) (D.state desk.new) held.old held.new (rest_text log.now (ending_of ending.now)) result }
{
    put_log(alloc, desk, held, log)?;
    put_ending(alloc, desk, held, ending)
}

/// Appends the log, the verdict, the model where it fails, and the end to the current file. Where it fails or finds no memory, a prefix of
/// that was appended.
pub fn write_rest<D: Desk>(
    alloc: Global,
    desk: &mut D,
    log: &Log,
    ending: &Ending,
) -> Result<(), PutFault>
    requires { IsSome (D.state desk.old).current }
    ensures { AppendsAll (D.state desk.old) (D.state desk.new) (rest_text log.now (ending_of ending.now)) result }
{
    let mut held = Text::new(alloc);
    put_rest(alloc, desk, &mut held, log, ending)?;
    append_all(desk, held.as_bytes())
}
