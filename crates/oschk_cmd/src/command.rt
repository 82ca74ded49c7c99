// The top call.
ghost use Rattle.std.specs.Prelude.{◌≡◌, ◌⊎◌, IfOk, IfErr, false};
ghost use Rattle.chk_base.specs.Causes.{Rose};
ghost use Rattle.command_words.specs.Asked.{AreNone};
ghost use Rattle.oschk_cmd.specs.Answers.{AreFilesKept, HasBounds, HasReadFault, IsAnswered, IsCurrentKept, IsRefused, IsReply, IsReplyTo, IsTold, IsUnwritten, IsUnwrittenTo, may_write};
ghost use Rattle.oschk_cmd.specs.Checks.{HasBadCert, HasGoodCert};
ghost use Rattle.oschk_cmd.specs.Fit.{IsFit};
ghost use Rattle.oschk_cmd.specs.Headline.{AreChecked, HasFailed, Holds, IsUndecided};
ghost use Rattle.oschk_cmd.specs.Replays.{Replays};
ghost use Rattle.oschk_cmd.specs.Shows.{Shows};

use crate::check::reply_to_check;
use crate::replays::reply_to_replay;
use crate::reply::{Reply, Unwritten, is_fault, report_of, status_of};
use crate::run::{reply_to_make, reply_to_run};
use crate::show::reply_to_show;
use crate::status::Status;
use cert_law::law::certificates_are_good;
use chk_base::desk::Desk;
use chk_base::sink::Sink;
use chk_base::text::Words;
use command_words::asked::{Asked, read_words};
use name_law::law::entities_have_names;
use report::writing::write_report;
use std::alloc::Global;

// What is replied to what is asked for.
fn reply_to<D: Desk>(alloc: Global, what: &Asked, desk: &mut D) -> Result<Reply, Unwritten>
    requires { HasBounds what.now }
    ensures reply { IfOk result (IsReplyTo what.now (D.state desk.old) (D.state desk.new)) }
    ensures fit { IfOk result IsFit }
    ensures unwritten { IfErr result (λ _. IsUnwrittenTo what.now (D.state desk.old) (D.state desk.new)) }
    ensures files { may_write what.now ≡ false → (D.state desk.new).files ≡ (D.state desk.old).files }
    ensures current { may_write what.now ≡ false → (D.state desk.new).current ≡ (D.state desk.old).current }
{
    match what {
        Asked::Run(run) => reply_to_run(alloc, run, desk),
        Asked::Make(make) => reply_to_make(alloc, make, desk),
        Asked::Show(show) => Ok(reply_to_show(alloc, show, desk)),
        Asked::Replay(replay) => Ok(reply_to_replay(alloc, replay, desk)),
        Asked::Check(cert) => Ok(reply_to_check(alloc, cert, desk)),
    }
}

// What is replied to words.
#[tactic(auto, using(crate::proofs::Bounded::has_bounds, crate::proofs::Told::asked_told, crate::proofs::Told::asked_unwritten, crate::proofs::Told::asked_kept, crate::proofs::Told::asked_current))]
fn reply<D: Desk>(alloc: Global, words: &Words, desk: &mut D) -> Result<Reply, Unwritten>
    ensures reply { IfOk result (IsReply words.now (D.state desk.old) (D.state desk.new)) }
    ensures fit { IfOk result IsFit }
    ensures none { AreNone words.now → IfOk result (λ reply. (reply ≡ Reply.Usage) ⊎ (reply ≡ Reply.OutOfMemory)) }
    ensures unwritten { IfErr result (λ _. IsUnwritten words.now (D.state desk.old) (D.state desk.new)) }
    ensures files { AreFilesKept words.now (D.state desk.old) (D.state desk.new) }
    ensures current { IsCurrentKept words.now (D.state desk.old) (D.state desk.new) }
{
    match read_words(alloc, words) {
        Ok(Some(what)) => reply_to(alloc, &what, desk),
        Ok(None) => Ok(Reply::Usage),
        Err(_) => Ok(Reply::OutOfMemory),
    }
}

// Writes a reply.
fn write_reply<S: Sink>(reply: &Reply, out: &mut S) -> Status
    requires fit { IsFit reply.now }
    ensures { IsTold reply.now (S.state out.old) (S.state out.new) result }
{
    match write_report(&report_of(reply), out) {
        Ok(()) => status_of(reply),
        Err(_) => {
            if is_fault(reply) {
                status_of(reply)
            } else {
                Status::WriteFault
            }
        }
    }
}

/// Does what the words say: reads files by `desk`, writes the certificate of a run that is decided by clauses to its file, and writes what there
/// is to tell to `out`. Where that certificate can't be written, nothing is told. The words are the command line without the program's name.
pub fn oschk<D: Desk, S: Sink>(alloc: Global, words: &Words, desk: &mut D, out: &mut S) -> Status
    ensures answered { IsAnswered words.now (D.state desk.old) (D.state desk.new) (S.state out.old) (S.state out.new) result }

    // The headline: a run ends well only if no permitted schedule within its bounds fails, and in a failure only if one does; a replay ends as its
    // choices do.
    ensures good { result ≡ Status.Good → Holds words.now (D.state desk.old) (D.state desk.new) ⊎ (Shows words.now (D.state desk.old) ⊎ (Replays words.now (D.state desk.old) Status.Good ⊎ HasGoodCert words.now (D.state desk.old))) }
    ensures fails { result ≡ Status.Fails → HasFailed words.now (D.state desk.old) (D.state desk.new) ⊎ Replays words.now (D.state desk.old) Status.Fails }
    ensures undecided { result ≡ Status.Undecided → IsUndecided words.now (D.state desk.old) (D.state desk.new) }

    // Of every run that is decided by clauses, the check of certificates accepts the certificate.
    ensures accepted { AreChecked words.now (D.state desk.old) (D.state desk.new) }

    // Each way to end badly comes by its cause.
    ensures refused { result ≡ Status.Refused → IsRefused words.now (D.state desk.old) (D.state desk.new) (S.state out.old) (S.state out.new) }
    ensures usage { result ≡ Status.Usage → AreNone words.now }
    ensures always_usage { AreNone words.now → (result ≡ Status.Usage) ⊎ (result ≡ Status.Memory) }
    ensures read_fault { result ≡ Status.ReadFault → HasReadFault words.now (D.state desk.old) (D.state desk.new) }
    ensures write_fault { result ≡ Status.WriteFault → Rose (S.state out.old).faults (S.state out.new).faults ⊎ IsUnwritten words.now (D.state desk.old) (D.state desk.new) }
    ensures not_permitted { result ≡ Status.NotPermitted → Replays words.now (D.state desk.old) Status.NotPermitted ⊎ HasBadCert words.now (D.state desk.old) }

    // No file changes, and none becomes current, unless the words ask for a run or a made one.
    ensures files { AreFilesKept words.now (D.state desk.old) (D.state desk.new) }
    ensures current { IsCurrentKept words.now (D.state desk.old) (D.state desk.new) }
{
    // The calls of laws do nothing: the proof takes what they ensure.
    entities_have_names();
    certificates_are_good();
    match reply(alloc, words, desk) {
        Ok(reply) => write_reply(&reply, out),
        Err(_) => Status::WriteFault,
    }
}
