// What is replied to the words of a replay.
ghost use Rattle.std.specs.Prelude.{◌≡◌, ◌≤◌, ◌<◌, ◌-◌, ◌^◌, length, IfSome};
ghost use Rattle.application.specs.InOrder.{IsInOrder};
ghost use Rattle.step_ir.specs.Fits.{Fits};
ghost use Rattle.oschk_cmd.specs.Replays.{IsPreparedReply, IsReplayReply, IsResultOf, IsScheduleReply};
ghost use Rattle.oschk_cmd.specs.Fit.{IsFit};

use crate::fetch::{LIMIT, fetch_both};
use crate::reply::{Reply, Rerun};
use application::app::App;
use chk_base::desk::{Desk, FetchFault};
use chk_base::text::Text;
use command_words::asked::ReplayWords;
use replay::run::{ReplayFault, Replayed, replay};
use replay::schedule::{ScheduleFault, read_schedule};
use report::reports::Refusal;
use std::alloc::Global;
use step_ir::code::Code;
use step_ir::event::Choices;
use text_stages::prepare::{Prepared, prepare};
use text_stages::stop::Stop;

// The replay of choices, or want of memory.
fn result_of(
    alloc: Global,
    app: &App,
    code: &Code,
    choices: &Choices,
) -> Option<Result<Replayed, ReplayFault>>
    requires order { IsInOrder app.now }
    requires fit { Fits app.now code.now }
    requires few { length choices.now < 2 ^ 32 - 1 }
    ensures { IfSome result (IsResultOf app.now code.now choices.now) }
{
    match replay(alloc, app, code, choices) {
        Ok(replayed) => Some(Ok(replayed)),
        Err(
            ReplayFault::NotPermitted {
                step,
                state,
                events,
            },
        ) => Some(Err(ReplayFault::NotPermitted {
            step,
            state,
            events,
        })),
        Err(ReplayFault::Memory) => None,
    }
}

// What the schedule of an application and its code leads to.
fn reply_to_schedule(alloc: Global, prepared: Prepared, schedule: &Text) -> Reply
    requires order { IsInOrder prepared.app }
    requires fits { Fits prepared.app prepared.code }
    requires short { length schedule.now ≤ 262144 }
    ensures reply { IsPreparedReply prepared.app prepared.code schedule.now result }
    ensures fit { IsFit result }
{
    let choices = match read_schedule(alloc, schedule, &prepared.app, &prepared.code) {
        Ok(choices) => choices,
        Err(ScheduleFault::Line(place)) => return Reply::Refused(Refusal::ScheduleLine(place)),
        Err(ScheduleFault::Memory) => return Reply::OutOfMemory,
    };
    match result_of(alloc, &prepared.app, &prepared.code, &choices) {
        Some(result) => Reply::Rerun(Rerun {
            app: prepared.app,
            code: prepared.code,
            result,
        }),
        None => Reply::OutOfMemory,
    }
}

// What three texts lead to.
fn reply_to_texts(
    alloc: Global,
    oil: &Text,
    c: &Text,
    schedule: &Text,
    words: &ReplayWords,
) -> Reply
    requires oil { length oil.now ≤ 262144 }
    requires c { length c.now ≤ 262144 }
    requires schedule { length schedule.now ≤ 262144 }
    ensures reply { IsScheduleReply oil.now c.now schedule.now words.now.mode result }
    ensures fit { IsFit result }
{
    match prepare(alloc, oil, c, words.mode.as_ref()) {
        Ok(prepared) => reply_to_schedule(alloc, prepared, schedule),
        Err(Stop::Refused(refusal)) => Reply::Refused(refusal),
        Err(Stop::Memory) => Reply::OutOfMemory,
    }
}

/// What is replied to the words of a replay. All three texts are fetched before one of them is read.
pub fn reply_to_replay<D: Desk>(alloc: Global, words: &ReplayWords, desk: &mut D) -> Reply
    ensures reply { IsReplayReply words.now (D.state desk.old) (D.state desk.new) result }
    ensures fit { IsFit result }
    ensures files { (D.state desk.new).files ≡ (D.state desk.old).files }
    ensures current { (D.state desk.new).current ≡ (D.state desk.old).current }
{
    let both = match fetch_both(alloc, desk, &words.oil, &words.c) {
        Ok(both) => both,
        Err(reply) => return reply,
    };
    let schedule = match desk.fetch(alloc, &words.schedule, LIMIT) {
        Ok(text) => text,
        Err(FetchFault::Failed) => return Reply::ReadFault,
        Err(FetchFault::TooLong) => return Reply::Refused(Refusal::LongSchedule),
        Err(FetchFault::Memory) => return Reply::OutOfMemory,
    };
    reply_to_texts(alloc, &both.oil, &both.c, &schedule, words)
}
