// What is replied to the words of a show.
ghost use Rattle.std.specs.Prelude.{◌≡◌, ◌≤◌, length};
ghost use Rattle.std.specs.Option.{option_copied};
ghost use Rattle.oschk_cmd.specs.Fit.{IsFit};
ghost use Rattle.oschk_cmd.specs.Shows.{IsShowReply, IsShownReply};

use crate::fetch::fetch_both;
use crate::reply::{Reply, Shown};
use chk_base::desk::Desk;
use chk_base::text::Text;
use command_words::asked::ShowWords;
use std::alloc::Global;
use text_stages::prepare::prepare;
use text_stages::stop::Stop;

// What two texts lead to.
fn reply_to_texts(alloc: Global, oil: &Text, c: &Text, mode: Option<&Text>) -> Reply
    requires oil { length oil.now ≤ 262144 }
    requires c { length c.now ≤ 262144 }
    ensures reply { IsShownReply oil.now c.now (option_copied mode.entry) result }
    ensures fit { IsFit result }
{
    match prepare(alloc, oil, c, mode) {
        Ok(prepared) => Reply::Shown(Shown {
            app: prepared.app,
            code: prepared.code,
        }),
        Err(Stop::Refused(refusal)) => Reply::Refused(refusal),
        Err(Stop::Memory) => Reply::OutOfMemory,
    }
}

/// What is replied to the words of a show.
pub fn reply_to_show<D: Desk>(alloc: Global, show: &ShowWords, desk: &mut D) -> Reply
    ensures reply { IsShowReply show.now (D.state desk.old) (D.state desk.new) result }
    ensures fit { IsFit result }
    ensures files { (D.state desk.new).files ≡ (D.state desk.old).files }
    ensures current { (D.state desk.new).current ≡ (D.state desk.old).current }
{
    match fetch_both(alloc, desk, &show.oil, &show.c) {
        Ok(both) => reply_to_texts(alloc, &both.oil, &both.c, show.mode.as_ref()),
        Err(reply) => reply,
    }
}
