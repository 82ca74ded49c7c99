// The line of each command, and the command of `clap` that it makes.
ghost use Rattle.std.specs.Prelude.{◌≡◌, IfOk, false, map};
ghost use Rattle.clap.specs.Words.{app_of, rule_of};
ghost use Rattle.command_words.specs.Lines.{plain_line, plain_texts, line_of, rule_for, with_rules, app_for};

use clap::{Arg, ArgAction, Command};
use std::alloc::{AllocError, Global};

/// A command's name, its positionals in order, and the long names of its options.
#[derive(Clone, Copy)]
pub struct Line<'a> {
    pub name: &'a str,
    pub positionals: &'a [&'a str],
    pub required: &'a [&'a str],
    pub optional: &'a [&'a str],
}

/// The commands.
#[derive(Clone, Copy, PartialEq, Eq, Debug)]
pub enum Order {
    Run,
    Replay,
    Check,
    Show,
    Make,
}

/// How a command takes an argument.
#[derive(Clone, Copy, PartialEq, Eq, Debug)]
pub enum Kind {
    Positional,
    Required,
    Optional,
}

/// The line of a command.
pub fn line_of<'a>(order: Order) -> Line<'a>
    ensures { plain_line result ≡ line_of order }
{
    match order {
        Order::Run => Line {
            name: "run",
            positionals: &["APP.oil", "APP.c"],
            required: &["turns", "arrivals", "cert"],
            optional: &["budget", "mode"],
        },
        Order::Replay => Line {
            name: "replay",
            positionals: &["APP.oil", "APP.c", "SCHEDULE"],
            required: &[],
            optional: &["mode"],
        },
        Order::Check => Line {
            name: "check",
            positionals: &["CERT"],
            required: &[],
            optional: &[],
        },
        Order::Show => Line {
            name: "show",
            positionals: &["APP.oil", "APP.c"],
            required: &[],
            optional: &["mode"],
        },
        Order::Make => Line {
            name: "make",
            positionals: &["N"],
            required: &["turns", "arrivals", "cert"],
            optional: &["budget"],
        },
    }
}

// An argument of this name, which takes one text.
fn argument<'a>(alloc: Global, kind: Kind, name: &'a str) -> Arg<'a>
    ensures rule { rule_of result ≡ rule_for kind name.now }
    ensures local { result.global ≡ false }
{
    let argument = Arg::new(alloc, name).action(ArgAction::Set);
    match kind {
        Kind::Positional => argument.required(true),
        Kind::Required => argument.long(name).required(true),
        Kind::Optional => argument.long(name),
    }
}

// The command with arguments of these names more.
fn with_arguments<'a>(
    alloc: Global,
    command: Command<'a>,
    kind: Kind,
    names: &[&'a str],
) -> Result<Command<'a>, AllocError>
    ensures { IfOk result (λ r. app_of r ≡ with_rules (app_of command.entry) (map (rule_for kind) (plain_texts names.now))) }
{
    let Some((name, names)) = names.split_first() else {
        return Ok(command);
    };
    let command = command.arg(argument(alloc, kind, name))?;
    with_arguments(alloc, command, kind, names)
}

/// The command of `clap` for a line.
pub fn command_for<'a>(alloc: Global, line: Line<'a>) -> Result<Command<'a>, AllocError>
    ensures { IfOk result (λ r. app_of r ≡ app_for (plain_line line.entry)) }
{
    let command = Command::new(alloc, line.name);
    let command = with_arguments(alloc, command, Kind::Positional, line.positionals)?;
    let command = with_arguments(alloc, command, Kind::Required, line.required)?;
    with_arguments(alloc, command, Kind::Optional, line.optional)
}
