//! A command and what it is given, as `clap` is told of it: plain texts, each set once, and flags.
ghost use Rattle.std.specs.Prelude.{◌≡◌, IfOk, false};
ghost use Rattle.clap.specs.Words.{App, app_of, new_app, rule_of, with_rule};
ghost use Rattle.gtfs_commands.specs.CommandLine.{choice_rule, flag_rule, option_rule, text_rule, word_rule};

use crate::fault::OutOfMemory;
use clap::{Arg, ArgAction, Command};
use std::alloc::Global;

// What help says of the folder of a feed.
pub(super) const DIR: &str = "The folder of the feed";

// What help says of the zone file.
pub(super) const ZONE: &str = "The zone file (TZif) of the time zone";

// What help says of the flag that fills times in.
pub(super) const INTERPOLATE: &str =
    "Fill in missing times, at an even pace between the given ones";

// A command that is given no texts yet; help ends with notes.
pub(super) fn new_command<'w>(
    alloc: Global,
    name: &'w str,
    about: &'w str,
    usage: &'w str,
    notes: &'w str,
) -> Command<'w>
    ensures { app_of result ≡ new_app name.entry.now }
{
    described(alloc, name, about, usage).after_help(notes)
}

// A program or a command; help says what it is about, and how it is called.
pub(super) fn described<'w>(
    alloc: Global,
    name: &'w str,
    about: &'w str,
    usage: &'w str,
) -> Command<'w>
    ensures { app_of result ≡ new_app name.entry.now }
{
    Command::new(alloc, name).about(about).override_usage(usage)
}

// The command, if it was made, with one more text that must be given,
// known by its position among the words.
pub(super) fn with_word<'w>(
    command: Result<Command<'w>, OutOfMemory>,
    alloc: Global,
    id: &'w str,
    help: &'w str,
) -> Result<Command<'w>, OutOfMemory>
    ensures { (app : App) → IfOk command.entry (λ c. app_of c ≡ app)
        → IfOk result (λ c. app_of c ≡ with_rule app (word_rule id.entry.now)) }
{
    command?.arg(needed_word(alloc, id, help))
}

// The command, if it was made, with one more text that must be given after `--id`;
// help names the text `value`.
pub(super) fn with_option<'w>(
    command: Result<Command<'w>, OutOfMemory>,
    alloc: Global,
    id: &'w str,
    value: &'w str,
    help: &'w str,
) -> Result<Command<'w>, OutOfMemory>
    ensures { (app : App) → IfOk command.entry (λ c. app_of c ≡ app)
        → IfOk result (λ c. app_of c ≡ with_rule app (option_rule id.entry.now)) }
{
    command?.arg(needed_option(alloc, id, value, help))
}

// The command, if it was made, with one more text that may be given after `--id`;
// help names the text `value`.
pub(super) fn with_choice<'w>(
    command: Result<Command<'w>, OutOfMemory>,
    alloc: Global,
    id: &'w str,
    value: &'w str,
    help: &'w str,
) -> Result<Command<'w>, OutOfMemory>
    ensures { (app : App) → IfOk command.entry (λ c. app_of c ≡ app)
        → IfOk result (λ c. app_of c ≡ with_rule app (choice_rule id.entry.now)) }
{
    command?.arg(free_option(alloc, id, value, help))
}

// The command, if it was made, with one more flag `--id`, which has no text and may be given once.
pub(super) fn with_flag<'w>(
    command: Result<Command<'w>, OutOfMemory>,
    alloc: Global,
    id: &'w str,
    help: &'w str,
) -> Result<Command<'w>, OutOfMemory>
    ensures { (app : App) → IfOk command.entry (λ c. app_of c ≡ app)
        → IfOk result (λ c. app_of c ≡ with_rule app (flag_rule id.entry.now)) }
{
    command?.arg(flag(alloc, id, help))
}

fn needed_word<'w>(alloc: Global, id: &'w str, help: &'w str) -> Arg<'w>
    ensures rule { rule_of result ≡ word_rule id.entry.now }
    ensures local { result.global ≡ false }
{
    text(alloc, id, help).required(true)
}

fn needed_option<'w>(alloc: Global, id: &'w str, value: &'w str, help: &'w str) -> Arg<'w>
    ensures rule { rule_of result ≡ option_rule id.entry.now }
    ensures local { result.global ≡ false }
{
    free_option(alloc, id, value, help).required(true)
}

fn free_option<'w>(alloc: Global, id: &'w str, value: &'w str, help: &'w str) -> Arg<'w>
    ensures rule { rule_of result ≡ choice_rule id.entry.now }
    ensures local { result.global ≡ false }
{
    text(alloc, id, help).long(id).value_name(value)
}

fn text<'w>(alloc: Global, id: &'w str, help: &'w str) -> Arg<'w>
    ensures rule { rule_of result ≡ text_rule id.entry.now }
    ensures local { result.global ≡ false }
{
    Arg::new(alloc, id).action(ArgAction::Set).help(help)
}

fn flag<'w>(alloc: Global, id: &'w str, help: &'w str) -> Arg<'w>
    ensures rule { rule_of result ≡ flag_rule id.entry.now }
    ensures local { result.global ≡ false }
{
    Arg::new(alloc, id)
        .long(id)
        .action(ArgAction::SetTrue)
        .help(help)
}
