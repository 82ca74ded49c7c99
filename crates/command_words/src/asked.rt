// What the words of a command line ask for.
ghost use Rattle.std.specs.Prelude.{◌≡◌, ℕ, List, All, IsUtf8, Some, Option, IfOk, IfSome, IfNone, slice_get, codes, option_map};
ghost use Rattle.clap.specs.Words.{found_of, rows_of, first_of};
ghost use Rattle.command_words.specs.Asked.{AreNames, AreBounds, IsBudget, IsRunOf, IsRun, IsReplayOf, IsReplay, IsCheck, IsShowOf, IsShow, IsMakeOf, IsMake, IsAsked, AreNone};
ghost use Rattle.command_words.specs.Lines.{plain_texts};

use crate::line::{Line, Order, line_of};
use crate::matches::{matches_for, value};
use crate::number::{number_between, number_within};
use crate::texts::texts_of;
use chk_base::text::{Text, Words};
use clap::ArgMatches;
use std::alloc::{AllocError, Global};

/// What the words of `run` ask for: the names of both texts and of the certificate, at most so many turns (1 to 512) and arrivals (none
/// yet), at most so many learned clauses (up to 10^12; 1,000,000 where nothing is said), and the application mode, if one is named.
#[derive(Drop)]
pub struct RunWords {
    pub oil: Text,
    pub c: Text,
    pub cert: Text,
    pub turns: u16,
    pub arrivals: u8,
    pub budget: u64,
    pub mode: Option<Text>,
}

/// What the words of `replay` ask for: the names of both texts and of the schedule, and the application mode, if one is named.
#[derive(Drop)]
pub struct ReplayWords {
    pub oil: Text,
    pub c: Text,
    pub schedule: Text,
    pub mode: Option<Text>,
}

/// What the words of `show` ask for: the names of both texts, and the application mode, if one is named.
#[derive(Drop)]
pub struct ShowWords {
    pub oil: Text,
    pub c: Text,
    pub mode: Option<Text>,
}

/// What the words of `make` ask for: the number that an application is made of, the bounds of its run as those of `run`, and the name of
/// the certificate.
#[derive(Drop)]
pub struct MakeWords {
    pub number: u32,
    pub turns: u16,
    pub arrivals: u8,
    pub cert: Text,
    pub budget: u64,
}

/// A run, the replay of a schedule, a check of the certificate of this name, a show of the code, or a run of an application that is made.
#[derive(Drop)]
pub enum Asked {
    Run(RunWords),
    Replay(ReplayWords),
    Check(Text),
    Show(ShowWords),
    Make(MakeWords),
}

// The names of the files of a run.
#[derive(Clone, Copy)]
struct Names<'a> {
    oil: &'a str,
    c: &'a str,
    cert: &'a str,
}

// The bounds of a run.
#[derive(Clone, Copy)]
struct Bounds {
    turns: u16,
    arrivals: u8,
    budget: u64,
}

fn names_in<'a>(matches: &ArgMatches<'a>) -> Option<Names<'a>>
    ensures found { IfSome result (λ n. AreNames (rows_of (found_of matches.now)) n.oil.now n.c.now n.cert.now) }
    ensures none { IfNone result ((oil c cert : List ℕ) → AreNames (rows_of (found_of matches.now)) oil c cert → ⊥) }
{
    let oil = value(matches, "APP.oil")?;
    let c = value(matches, "APP.c")?;
    let cert = value(matches, "cert")?;
    if cert == oil {
        return None;
    }
    if cert == c {
        return None;
    }
    Some(Names { oil, c, cert })
}

// The budget that is given, or the usual one.
fn budget_in(text: Option<&str>) -> Option<u64>
    ensures found { IfSome result (IsBudget (option_map (λ t. t.now) text.entry)) }
    ensures none { IfNone result ((n : ℕ) → IsBudget (option_map (λ t. t.now) text.entry) n → ⊥) }
{
    match text {
        None => Some(1_000_000),
        Some(text) => number_between(text, 0, 1_000_000_000_000),
    }
}

fn bounds_in(matches: &ArgMatches<'_>) -> Option<Bounds>
    ensures found { IfSome result (λ b. AreBounds (rows_of (found_of matches.now)) b.turns b.arrivals b.budget) }
    ensures none { IfNone result ((turns arrivals budget : ℕ) → AreBounds (rows_of (found_of matches.now)) turns arrivals budget → ⊥) }
{
    let turns = number_within(value(matches, "turns"), 1, 512)?;
    let arrivals = number_within(value(matches, "arrivals"), 0, 0)?;
    let budget = budget_in(value(matches, "budget"))?;
    Some(Bounds {
        turns: turns as u16,
        arrivals: arrivals as u8,
        budget,
    })
}

fn own(alloc: Global, text: &str) -> Result<Text, AllocError>
    ensures { IfOk result (λ own. own ≡ text.now) }
{
    Text::from_bytes(alloc, text.as_bytes())
}

fn own_if_given(alloc: Global, text: Option<&str>) -> Result<Option<Text>, AllocError>
    ensures { IfOk result (λ own. own ≡ option_map (λ t. t.now) text.entry) }
{
    match text {
        None => Ok(None),
        Some(text) => Ok(Some(own(alloc, text)?)),
    }
}

fn run_in(alloc: Global, matches: &ArgMatches<'_>) -> Result<Option<RunWords>, AllocError>
    ensures found { IfOk result (λ found. IfSome found (IsRunOf (rows_of (found_of matches.now)))) }
    ensures none { IfOk result (λ found. IfNone found ((run : RunWords) → IsRunOf (rows_of (found_of matches.now)) run → ⊥)) }
{
    let Some(names) = names_in(matches) else {
        return Ok(None);
    };
    let Some(bounds) = bounds_in(matches) else {
        return Ok(None);
    };
    Ok(Some(RunWords {
        oil: own(alloc, names.oil)?,
        c: own(alloc, names.c)?,
        cert: own(alloc, names.cert)?,
        turns: bounds.turns,
        arrivals: bounds.arrivals,
        budget: bounds.budget,
        mode: own_if_given(alloc, value(matches, "mode"))?,
    }))
}

fn replay_in(alloc: Global, matches: &ArgMatches<'_>) -> Result<Option<ReplayWords>, AllocError>
    ensures found { IfOk result (λ found. IfSome found (IsReplayOf (rows_of (found_of matches.now)))) }
    ensures none { IfOk result (λ found. IfNone found ((replay : ReplayWords) → IsReplayOf (rows_of (found_of matches.now)) replay → ⊥)) }
{
    let Some(oil) = value(matches, "APP.oil") else {
        return Ok(None);
    };
    let Some(c) = value(matches, "APP.c") else {
        return Ok(None);
    };
    let Some(schedule) = value(matches, "SCHEDULE") else {
        return Ok(None);
    };
    Ok(Some(ReplayWords {
        oil: own(alloc, oil)?,
        c: own(alloc, c)?,
        schedule: own(alloc, schedule)?,
        mode: own_if_given(alloc, value(matches, "mode"))?,
    }))
}

fn show_in(alloc: Global, matches: &ArgMatches<'_>) -> Result<Option<ShowWords>, AllocError>
    ensures found { IfOk result (λ found. IfSome found (IsShowOf (rows_of (found_of matches.now)))) }
    ensures none { IfOk result (λ found. IfNone found ((show : ShowWords) → IsShowOf (rows_of (found_of matches.now)) show → ⊥)) }
{
    let Some(oil) = value(matches, "APP.oil") else {
        return Ok(None);
    };
    let Some(c) = value(matches, "APP.c") else {
        return Ok(None);
    };
    Ok(Some(ShowWords {
        oil: own(alloc, oil)?,
        c: own(alloc, c)?,
        mode: own_if_given(alloc, value(matches, "mode"))?,
    }))
}

fn make_in(alloc: Global, matches: &ArgMatches<'_>) -> Result<Option<MakeWords>, AllocError>
    ensures found { IfOk result (λ found. IfSome found (IsMakeOf (rows_of (found_of matches.now)))) }
    ensures none { IfOk result (λ found. IfNone found ((make : MakeWords) → IsMakeOf (rows_of (found_of matches.now)) make → ⊥)) }
{
    let Some(number) = number_within(value(matches, "N"), 0, 4_294_967_295) else {
        return Ok(None);
    };
    let Some(bounds) = bounds_in(matches) else {
        return Ok(None);
    };
    let Some(cert) = value(matches, "cert") else {
        return Ok(None);
    };
    Ok(Some(MakeWords {
        number: number as u32,
        turns: bounds.turns,
        arrivals: bounds.arrivals,
        cert: own(alloc, cert)?,
        budget: bounds.budget,
    }))
}

// What texts ask for whose first is `run`.
fn run_asked<'a>(alloc: Global, texts: &'a [&'a str]) -> Result<Option<Asked>, AllocError>
    requires text { All IsUtf8 (plain_texts texts.now) }
    requires name { slice_get (plain_texts texts.now) 0 ≡ Some (codes "run") }
    ensures found { IfOk result (λ found. IfSome found (IsAsked (plain_texts texts.now))) }
    ensures none { IfOk result (λ found. IfNone found ((run : RunWords) → IsRun (plain_texts texts.now) run → ⊥)) }
{
    let Some(matches) = matches_for(alloc, line_of(Order::Run), texts)? else {
        return Ok(None);
    };
    match run_in(alloc, &matches)? {
        Some(run) => Ok(Some(Asked::Run(run))),
        None => Ok(None),
    }
}

// What texts ask for whose first is `replay`.
fn replay_asked<'a>(alloc: Global, texts: &'a [&'a str]) -> Result<Option<Asked>, AllocError>
    requires text { All IsUtf8 (plain_texts texts.now) }
    requires name { slice_get (plain_texts texts.now) 0 ≡ Some (codes "replay") }
    ensures found { IfOk result (λ found. IfSome found (IsAsked (plain_texts texts.now))) }
    ensures none { IfOk result (λ found. IfNone found ((replay : ReplayWords) → IsReplay (plain_texts texts.now) replay → ⊥)) }
{
    let Some(matches) = matches_for(alloc, line_of(Order::Replay), texts)? else {
        return Ok(None);
    };
    match replay_in(alloc, &matches)? {
        Some(replay) => Ok(Some(Asked::Replay(replay))),
        None => Ok(None),
    }
}

// What texts ask for whose first is `check`.
fn check_asked<'a>(alloc: Global, texts: &'a [&'a str]) -> Result<Option<Asked>, AllocError>
    requires text { All IsUtf8 (plain_texts texts.now) }
    requires name { slice_get (plain_texts texts.now) 0 ≡ Some (codes "check") }
    ensures found { IfOk result (λ found. IfSome found (IsAsked (plain_texts texts.now))) }
    ensures none { IfOk result (λ found. IfNone found ((cert : List ℕ) → IsCheck (plain_texts texts.now) cert → ⊥)) }
{
    let Some(matches) = matches_for(alloc, line_of(Order::Check), texts)? else {
        return Ok(None);
    };
    match value(&matches, "CERT") {
        Some(cert) => Ok(Some(Asked::Check(own(alloc, cert)?))),
        None => Ok(None),
    }
}

// What texts ask for whose first is `show`.
fn show_asked<'a>(alloc: Global, texts: &'a [&'a str]) -> Result<Option<Asked>, AllocError>
    requires text { All IsUtf8 (plain_texts texts.now) }
    requires name { slice_get (plain_texts texts.now) 0 ≡ Some (codes "show") }
    ensures found { IfOk result (λ found. IfSome found (IsAsked (plain_texts texts.now))) }
    ensures none { IfOk result (λ found. IfNone found ((show : ShowWords) → IsShow (plain_texts texts.now) show → ⊥)) }
{
    let Some(matches) = matches_for(alloc, line_of(Order::Show), texts)? else {
        return Ok(None);
    };
    match show_in(alloc, &matches)? {
        Some(show) => Ok(Some(Asked::Show(show))),
        None => Ok(None),
    }
}

// What texts ask for whose first is `make`.
fn make_asked<'a>(alloc: Global, texts: &'a [&'a str]) -> Result<Option<Asked>, AllocError>
    requires text { All IsUtf8 (plain_texts texts.now) }
    requires name { slice_get (plain_texts texts.now) 0 ≡ Some (codes "make") }
    ensures found { IfOk result (λ found. IfSome found (IsAsked (plain_texts texts.now))) }
    ensures none { IfOk result (λ found. IfNone found ((make : MakeWords) → IsMake (plain_texts texts.now) make → ⊥)) }
{
    let Some(matches) = matches_for(alloc, line_of(Order::Make), texts)? else {
        return Ok(None);
    };
    match make_in(alloc, &matches)? {
        Some(make) => Ok(Some(Asked::Make(make))),
        None => Ok(None),
    }
}

// What texts ask for.
fn texts_asked<'a>(alloc: Global, texts: &'a [&'a str]) -> Result<Option<Asked>, AllocError>
    requires text { All IsUtf8 (plain_texts texts.now) }
    ensures found { IfOk result (λ found. IfSome found (IsAsked (plain_texts texts.now))) }
    ensures none { IfOk result (λ found. IfNone found (AreNone (plain_texts texts.now))) }
{
    let Some(name) = texts.first() else {
        return Ok(None);
    };
    match *name {
        "run" => run_asked(alloc, texts),
        "replay" => replay_asked(alloc, texts),
        "check" => check_asked(alloc, texts),
        "show" => show_asked(alloc, texts),
        "make" => make_asked(alloc, texts),
        _ => Ok(None),
    }
}

/// What the words ask for; None where they are those of no command: a word isn't UTF-8, the first names no command, `clap` refuses
/// the words, a number is out of its range, or a name is taken.
pub fn read_words(alloc: Global, words: &Words) -> Result<Option<Asked>, AllocError>
    ensures found { IfOk result (λ found. IfSome found (IsAsked words.now)) }
    ensures none { IfOk result (λ found. IfNone found (AreNone words.now)) }
{
    match texts_of(alloc, words.items())? {
        Some(texts) => texts_asked(alloc, &texts),
        None => Ok(None),
    }
}
