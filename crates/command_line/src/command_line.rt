//! The commands and their arguments.

ghost use Rattle.clap.specs.Words.{app_of, first_of, found_of, rule_of, rows_of};
ghost use Rattle.clap.specs.Words.{subcommand_rows_of, with_subcommand};
ghost use Rattle.clap.specs.declared.builder.command.Command.TheViews.{out-Command};
ghost use Rattle.std.specs.List.{list_all};
ghost use Rattle.std.specs.Prelude.{IfErr, IfOk, List, MatchResult, Some, false, map, string_bytes};
ghost use Rattle.std.specs.Prelude.{true, ◌≡◌, ℕ};
ghost use Rattle.command_line.specs.internal.CommandLine.{argument, bare_tool, command, tool};
ghost use Rattle.command_line.specs.internal.Met.{IsFound, IsGenFound, IsGenRead, IsMemory, IsMet};
ghost use Rattle.command_words.specs.Requests.{request_of};
ghost use Rattle.command_words.specs.Words.{AskFor, IsSettingsStop, is_argument};
ghost use Rattle.command_words.specs.declared.requests.Settings.{Settings};

use crate::line_count;
use clap::error::ErrorKind;
use clap::{Arg, ArgAction, ArgMatches, Command};
use command_words::{Settings, SettingsStop, Word};
use std::alloc::{AllocError, Global};

/// The line that is written if the arguments are not a valid command.
pub const USAGE: &[u8] =
    b"usage: caesar verify FILE | print FILE | run FILE PROC SCRIPT | certify FILE | check FILE CERT | gen N | pgcl FILE | omega FILE PROC NAME | remainder FILE PROC NAME | refute FILE PROC SCRIPT\n";

fn is_argument(word: &str) -> bool
    ensures { result ≡ is_argument word.now }
{
    match word.as_bytes() {
        [] => false,
        [first, ..] => *first != b'-',
    }
}

fn are_arguments(words: &[String]) -> bool
    ensures { result ≡ list_all (λ word. is_argument (string_bytes word)) words.now }
{
    words.iter().all(|word| is_argument(word.as_str()))
}

/// Returns an argument of `clap` with this name, which has one value and is required.
fn argument<'a>(alloc: Global, name: &'a str) -> Arg<'a>
    ensures rule { rule_of result ≡ argument name.entry.now }
    ensures local { result.global ≡ false }
{
    Arg::new(alloc, name).action(ArgAction::Set).required(true)
}

/// Returns a command of `clap` with arguments of these names, in their order.
fn command<'a>(
    alloc: Global,
    name: &'a str,
    arguments: &[&'a str],
) -> Result<Command<'a>, AllocError>
    ensures shape { IfOk result
        (λ made. app_of made
        ≡ command name.entry.now (map (λ argument. argument.now) arguments.now)) }
    ensures local { IfOk result (λ made. (out-Command made).has_globals ≡ false) }
{
    let mut made = Command::new(alloc, name);
    for &name in arguments {
        made = made.arg(argument(alloc, name))?;
    }
    Ok(made)
}

/// Returns the program of `clap` without commands.
fn bare_tool<'a>(alloc: Global) -> Command<'a>
    ensures { app_of result ≡ bare_tool }
{
    Command::new(alloc, "caesar")
        .no_binary_name(true)
        .disable_help_flag(true)
        .disable_help_subcommand(true)
        .subcommand_required(true)
}

/// Returns the program with one more command.
fn with_command<'a>(
    alloc: Global,
    tool: Command<'a>,
    name: &'a str,
    arguments: &[&'a str],
) -> Result<Command<'a>, AllocError>
    ensures { IfOk result (λ made. app_of made
        ≡ with_subcommand (app_of tool.entry)
        (command name.entry.now (map (λ argument. argument.now) arguments.now)).top) }
{
    tool.subcommand(command(alloc, name, arguments)?)
}

/// Returns the program with its commands.
fn tool<'a>(alloc: Global) -> Result<Command<'a>, AllocError>
    ensures { IfOk result (λ command. app_of command ≡ tool) }
{
    let tool = with_command(alloc, bare_tool(alloc), "verify", &["FILE"])?;
    let tool = with_command(alloc, tool, "print", &["FILE"])?;
    let tool = with_command(alloc, tool, "run", &["FILE", "PROC", "SCRIPT"])?;
    let tool = with_command(alloc, tool, "certify", &["FILE"])?;
    let tool = with_command(alloc, tool, "check", &["FILE", "CERT"])?;
    let tool = with_command(alloc, tool, "gen", &["N"])?;
    let tool = with_command(alloc, tool, "pgcl", &["FILE"])?;
    let tool = with_command(alloc, tool, "omega", &["FILE", "PROC", "NAME"])?;
    let tool = with_command(alloc, tool, "remainder", &["FILE", "PROC", "NAME"])?;
    with_command(alloc, tool, "refute", &["FILE", "PROC", "SCRIPT"])
}

/// Returns what `clap` makes of arguments that are all allowed.
fn matches_of<'a>(alloc: Global, words: &'a [String]) -> Result<ArgMatches<'a>, SettingsStop>
    requires { list_all (λ word. is_argument (string_bytes word)) words.now ≡ true }
    ensures met { IfOk result
        (λ matches. IsMet (map string_bytes words.entry.now) (subcommand_rows_of matches)) }
    ensures stop { IfErr result (λ stop. IsSettingsStop (map string_bytes words.entry.now) stop) }
{
    match tool(alloc)?.try_get_matches_from(words) {
        Ok(matches) => Ok(matches),
        Err(error) => {
            if error.kind() == ErrorKind::OutOfMemory {
                Err(SettingsStop::Memory(AllocError))
            } else {
                Err(SettingsStop::Usage)
            }
        }
    }
}

/// Returns the value of the argument with this name.
fn value(alloc: Global, matches: &ArgMatches<'_>, name: &str) -> Result<Word, SettingsStop>
    ensures { (text : List ℕ) → first_of name.now (rows_of (found_of matches.now)) ≡ Some text
        → MatchResult result (λ word. word ≡ text) (λ stop. IsMemory stop) }
{
    let Some(text) = matches.get_str(name) else {
        return Err(SettingsStop::Usage);
    };
    Ok(Word::new(alloc, text)?)
}

/// Returns the command `gen` with the number of lines that `word` is.
fn generation(word: &Word) -> Result<Settings, SettingsStop>
    ensures { IsGenRead word.now result }
{
    match line_count(word.as_str()) {
        Some(lines) => Ok(Settings::Gen(lines)),
        None => Err(SettingsStop::Usage),
    }
}

/// Returns the command with this name, with the values of its arguments.
fn command_met(
    alloc: Global,
    name: &str,
    matches: &ArgMatches<'_>,
) -> Result<Settings, SettingsStop>
    ensures found { (settings : Settings) → (request_of settings).fits ≡ true
        → IsFound settings (Some (name.now, rows_of (found_of matches.now)))
        → MatchResult result (λ found. found ≡ settings) (λ stop. IsMemory stop) }
    ensures numbered { (word : List ℕ)
        → IsGenFound word (Some (name.now, rows_of (found_of matches.now)))
        → IsGenRead word result }
{
    match name {
        "verify" => Ok(Settings::Verify(value(alloc, matches, "FILE")?)),
        "print" => Ok(Settings::Print(value(alloc, matches, "FILE")?)),
        "run" => {
            let file = value(alloc, matches, "FILE")?;
            let procedure = value(alloc, matches, "PROC")?;
            let script = value(alloc, matches, "SCRIPT")?;
            Ok(Settings::Run(file, procedure, script))
        }
        "certify" => Ok(Settings::Certify(value(alloc, matches, "FILE")?)),
        "check" => {
            let file = value(alloc, matches, "FILE")?;
            let certificates = value(alloc, matches, "CERT")?;
            Ok(Settings::Check(file, certificates))
        }
        "gen" => generation(&value(alloc, matches, "N")?),
        "pgcl" => Ok(Settings::Pgcl(value(alloc, matches, "FILE")?)),
        "omega" => {
            let file = value(alloc, matches, "FILE")?;
            let procedure = value(alloc, matches, "PROC")?;
            let second = value(alloc, matches, "NAME")?;
            Ok(Settings::Omega(file, procedure, second))
        }
        "remainder" => {
            let file = value(alloc, matches, "FILE")?;
            let procedure = value(alloc, matches, "PROC")?;
            let second = value(alloc, matches, "NAME")?;
            Ok(Settings::Remainder(file, procedure, second))
        }
        "refute" => {
            let file = value(alloc, matches, "FILE")?;
            let procedure = value(alloc, matches, "PROC")?;
            let script = value(alloc, matches, "SCRIPT")?;
            Ok(Settings::Refute(file, procedure, script))
        }
        _ => Err(SettingsStop::Usage),
    }
}

/// Returns the command that `clap` found, with its arguments.
fn met(alloc: Global, matches: &ArgMatches<'_>) -> Result<Settings, SettingsStop>
    ensures found { (settings : Settings) → (request_of settings).fits ≡ true
        → IsFound settings (subcommand_rows_of matches.now)
        → MatchResult result (λ found. found ≡ settings) (λ stop. IsMemory stop) }
    ensures numbered { (word : List ℕ) → IsGenFound word (subcommand_rows_of matches.now)
        → IsGenRead word result }
{
    let Some((name, inner)) = matches.subcommand() else {
        return Err(SettingsStop::Usage);
    };
    command_met(alloc, name, inner)
}

/// Returns the command that the arguments ask for, by the table of the requests. No argument may be
/// empty or begin with `-`.
///
/// # Errors
///
/// - `Usage`: the arguments are not a valid command.
/// - `Memory`: memory ran out.
pub fn settings(alloc: Global, words: &Vec<String>) -> Result<Settings, SettingsStop>
    ensures asked { IfOk result (λ settings. AskFor (map string_bytes words.now.items) settings) }
    ensures stop { IfErr result (λ stop. IsSettingsStop (map string_bytes words.now.items) stop) }
{
    if !are_arguments(words) {
        return Err(SettingsStop::Usage);
    }
    let matches = matches_of(alloc, words)?;
    met(alloc, &matches)
}
