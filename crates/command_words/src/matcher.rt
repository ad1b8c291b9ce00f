//! The command that clap matches words with: a subcommand for each form, with a required argument for each part.
ghost use Rattle.std.specs.Prelude.{◌≡◌, IfOk, true, false, map};
ghost use Rattle.clap.specs.Simple.{with_subcommand};
ghost use Rattle.clap.specs.Words.{app_of, rule_of};
ghost use Rattle.clap.specs.declared.builder.command.Command.TheViews.{out-Command};
ghost use Rattle.command_words.specs.Matched.{operand_rule, tool, with_labels};

use clap::{Arg, Command};
use std::alloc::{AllocError, Global};

/// A subcommand for each command, one of which has to be there. There is no flag and no subcommand `help`.
pub(crate) fn matcher<'a>(alloc: Global) -> Result<Command<'a>, AllocError>
    ensures { IfOk result (λ command. app_of command ≡ tool) }
{
    let command = Command::new(alloc, "anvil")
        .no_binary_name(true)
        .disable_help_flag(true)
        .disable_help_subcommand(true)
        .disable_version_flag(true)
        .subcommand_required(true);
    let command = with_form(alloc, command, "check", &["FILE"])?;
    let command = with_form(alloc, command, "compile", &["FILE"])?;
    let command = with_form(alloc, command, "run", &["FILE", "PROC", "STIM"])?;
    let command = with_form(alloc, command, "runsv", &["FILE", "SV", "PROC", "STIM"])?;
    with_form(alloc, command, "gen", &["NUMBER"])
}

// With one subcommand more: of the name, with an argument for each label, in order.
fn with_form<'a>(
    alloc: Global,
    command: Command<'a>,
    name: &'a str,
    labels: &[&'a str],
) -> Result<Command<'a>, AllocError>
    ensures { IfOk result (λ more. app_of more
        ≡ with_subcommand (app_of command.entry)
        (with_labels name.entry.now (map (λ label. label.now) labels.entry.now))) }
{
    let form = with_operands(alloc, name, labels)?;
    command.subcommand(form)
}

// A subcommand of the name, with an argument for each label, in order.
fn with_operands<'a>(
    alloc: Global,
    name: &'a str,
    labels: &[&'a str],
) -> Result<Command<'a>, AllocError>
    ensures shape { IfOk result (λ command.
        (app_of command).top ≡ with_labels name.entry.now (map (λ label. label.now) labels.entry.now)) }
    ensures local { IfOk result (λ command. (out-Command command).has_globals ≡ false) }
{
    let mut command = Command::new(alloc, name);
    for label in labels {
        command = command.arg(operand(alloc, label))?;
    }
    Ok(command)
}

// An argument for a part.
fn operand<'a>(alloc: Global, label: &'a str) -> Arg<'a>
    ensures rule { rule_of result ≡ operand_rule label.entry.now }
    ensures local { result.global ≡ false }
{
    Arg::new(alloc, label).required(true)
}
