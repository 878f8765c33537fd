// The arguments of a command line, as clap takes them.
ghost use Rattle.std.specs.Prelude.{◌≡◌, false, IfOk};
ghost use Rattle.clap.specs.Simple.{app_of, new_app, with_rule};
ghost use Rattle.clap.specs.Walk.{rule_of};
ghost use Rattle.command_line.specs.Arguments.{flag_rule, option_rule, required_rule, versioned, words_rule};

use clap::{Arg, ArgAction, Command};
use std::alloc::{AllocError, Global};

/// The version of the programs, as `--version` prints it.
pub const VERSION: &str = "0.1.0";

/// The command line of a program, with `--version`.
pub(crate) fn versioned<'a>(alloc: Global, program: &'static str) -> Command<'a>
    ensures { app_of result ≡ versioned (new_app program.now) }
{
    Command::new(alloc, program).version(VERSION)
}

/// An option with a value.
pub(crate) fn with_option<'a>(
    alloc: Global,
    command: Command<'a>,
    id: &'static str,
    value: &'static str,
    help: &'static str,
) -> Result<Command<'a>, AllocError>
    ensures { IfOk result (λ c. app_of c ≡ with_rule (app_of command.entry) (option_rule id.now)) }
{
    command.arg(Arg::new(alloc, id).long(id).value_name(value).help(help))
}

/// A required option, with a value.
pub(crate) fn with_required<'a>(
    alloc: Global,
    command: Command<'a>,
    id: &'static str,
    value: &'static str,
    help: &'static str,
) -> Result<Command<'a>, AllocError>
    ensures { IfOk result (λ c. app_of c ≡ with_rule (app_of command.entry) (required_rule id.now)) }
{
    command.arg(
        Arg::new(alloc, id)
            .long(id)
            .value_name(value)
            .required(true)
            .help(help),
    )
}

/// An option without a value.
pub(crate) fn with_flag<'a>(
    alloc: Global,
    command: Command<'a>,
    id: &'static str,
    help: &'static str,
) -> Result<Command<'a>, AllocError>
    ensures { IfOk result (λ c. app_of c ≡ with_rule (app_of command.entry) (flag_rule id.now)) }
{
    command.arg(
        Arg::new(alloc, id)
            .long(id)
            .action(ArgAction::SetTrue)
            .help(help),
    )
}

/// Positional arguments.
pub(crate) fn with_words<'a>(
    alloc: Global,
    command: Command<'a>,
    id: &'static str,
    help: &'static str,
) -> Result<Command<'a>, AllocError>
    ensures { IfOk result (λ c. app_of c ≡ with_rule (app_of command.entry) (words_rule id.now)) }
{
    command.arg(Arg::new(alloc, id).num_args(1..).help(help))
}
