// What is replied to the words of a run, and of one whose texts are made.
ghost use Rattle.std.specs.Prelude.{◌≡◌, ◌≤◌, length, IfOk, IfErr};
ghost use Rattle.std.specs.Option.{option_copied};
ghost use Rattle.application.specs.InOrder.{IsInOrder};
ghost use Rattle.step_ir.specs.Fits.{Fits};
ghost use Rattle.oschk_cmd.specs.Fit.{IsFit};
ghost use Rattle.oschk_cmd.specs.Runs.{AreUnwritten, IsBounded, IsMakeReply, IsMakeUnwritten, IsRunReply, IsRunReplyOf, IsRunUnwritten, IsTextsReply, IsUnwrittenOf};

use crate::fetch::{Both, fetch_both};
use crate::reply::{Ran, Reply, Unwritten};
use app_generator::generate::generate;
use cert_text::front::Bounds;
use chk_base::desk::{Desk, PutFault};
use chk_base::text::Text;
use command_words::asked::{MakeWords, RunWords};
use decided_run::decide::decide_run;
use std::alloc::Global;
use text_stages::prepare::{Prepared, prepare_run};
use text_stages::stop::Stop;

// The run of what was prepared.
#[tactic(auto, using(crate::proofs::Told::undone_told))]
fn reply_to_prepared<D: Desk>(
    alloc: Global,
    desk: &mut D,
    prepared: Prepared,
    bounds: Bounds,
    cert: &Text,
    made: Option<u32>,
) -> Result<Reply, Unwritten>
    requires order { IsInOrder prepared.app }
    requires fits { Fits prepared.app prepared.code }
    requires bounded { IsBounded bounds.turns bounds.budget }
    requires arrivals { bounds.arrivals ≡ 0 }
    ensures reply { IfOk result (IsRunReplyOf prepared.app prepared.code bounds cert.now made (D.state desk.old) (D.state desk.new)) }
    ensures fit { IfOk result IsFit }
    ensures unwritten { IfErr result (λ _. IsUnwrittenOf prepared.app prepared.code bounds cert.now (D.state desk.old) (D.state desk.new)) }
{
    match decide_run(alloc, desk, &prepared.app, &prepared.code, bounds, cert) {
        Ok(decision) => Ok(Reply::Ran(Ran {
            made,
            app: prepared.app,
            code: prepared.code,
            turns: bounds.turns,
            decision,
        })),
        Err(PutFault::Memory) => Ok(Reply::OutOfMemory),
        Err(PutFault::Failed) => Err(Unwritten),
    }
}

// What two texts lead to.
fn reply_to_texts<D: Desk>(
    alloc: Global,
    desk: &mut D,
    both: &Both,
    mode: Option<&Text>,
    bounds: Bounds,
    cert: &Text,
    made: Option<u32>,
) -> Result<Reply, Unwritten>
    requires oil { length both.now.oil ≤ 262144 }
    requires c { length both.now.c ≤ 262144 }
    requires bounded { IsBounded bounds.turns bounds.budget }
    requires arrivals { bounds.arrivals ≡ 0 }
    ensures reply { IfOk result (IsTextsReply both.now.oil both.now.c (option_copied mode.entry) bounds cert.now made (D.state desk.old) (D.state desk.new)) }
    ensures fit { IfOk result IsFit }
    ensures unwritten { IfErr result (λ _. AreUnwritten both.now.oil both.now.c (option_copied mode.entry) bounds cert.now (D.state desk.old) (D.state desk.new)) }
{
    match prepare_run(alloc, &both.oil, &both.c, mode, bounds.turns) {
        Ok(prepared) => reply_to_prepared(alloc, desk, prepared, bounds, cert, made),
        Err(Stop::Refused(refusal)) => Ok(Reply::Refused(refusal)),
        Err(Stop::Memory) => Ok(Reply::OutOfMemory),
    }
}

/// What is replied to the words of a run.
///
/// # Errors
///
/// Only where the desk failed at the begin of the certificate's file or at an append to it.
pub fn reply_to_run<D: Desk>(
    alloc: Global,
    run: &RunWords,
    desk: &mut D,
) -> Result<Reply, Unwritten>
    requires { IsBounded run.now.turns run.now.budget }
    ensures reply { IfOk result (IsRunReply run.now (D.state desk.old) (D.state desk.new)) }
    ensures fit { IfOk result IsFit }
    ensures unwritten { IfErr result (λ _. IsRunUnwritten run.now (D.state desk.old) (D.state desk.new)) }
{
    let bounds = Bounds {
        turns: run.turns,
        arrivals: 0,
        budget: run.budget,
    };
    match fetch_both(alloc, desk, &run.oil, &run.c) {
        Ok(both) => reply_to_texts(
            alloc,
            desk,
            &both,
            run.mode.as_ref(),
            bounds,
            &run.cert,
            None,
        ),
        Err(reply) => Ok(reply),
    }
}

/// What is replied to the words of a run whose texts belong to a number.
///
/// # Errors
///
/// Only where the desk failed at the begin of the certificate's file or at an append to it.
pub fn reply_to_make<D: Desk>(
    alloc: Global,
    make: &MakeWords,
    desk: &mut D,
) -> Result<Reply, Unwritten>
    requires { IsBounded make.now.turns make.now.budget }
    ensures reply { IfOk result (IsMakeReply make.now (D.state desk.old) (D.state desk.new)) }
    ensures fit { IfOk result IsFit }
    ensures unwritten { IfErr result (λ _. IsMakeUnwritten make.now (D.state desk.old) (D.state desk.new)) }
{
    let Ok(texts) = generate(alloc, make.number, make.arrivals) else {
        return Ok(Reply::OutOfMemory);
    };
    let both = Both {
        oil: texts.oil,
        c: texts.c,
    };
    let bounds = Bounds {
        turns: make.turns,
        arrivals: 0,
        budget: make.budget,
    };
    reply_to_texts(
        alloc,
        desk,
        &both,
        None,
        bounds,
        &make.cert,
        Some(make.number),
    )
}
