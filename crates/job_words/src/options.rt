//! The options of the words, as clap reads them.
ghost use Rattle.std.specs.Prelude.{◌≡◌, IfOk, false, option_map, map};
ghost use Rattle.clap.specs.Words.{app_of, first_of, found_of, rows_of, rule_of};
ghost use Rattle.job_words.specs.Command.{bare_command, flag_option, list_option};
ghost use Rattle.job_words.specs.Command.{list_command, option_command, value_command};
ghost use Rattle.job_words.specs.Command.{value_option};
ghost use Rattle.job_words.specs.Options.{has_flag, options_at, options_of, options_read};
ghost use Rattle.job_words.specs.Options.{all_given};
ghost use Rattle.job_words.specs.Asks.{texts_of};

use clap::error::ErrorKind;
use clap::{Arg, ArgAction, ArgMatches, Command};
use std::alloc::{AllocError, Global};

/// What was given on how to search, except the number of nodes.
#[derive(Clone, Copy)]
pub(crate) struct SearchOptions<'a> {
    pub(crate) workers: Option<&'a str>,
    pub(crate) shards: Option<&'a str>,
    pub(crate) room: Option<&'a str>,
    pub(crate) no_table: bool,
    pub(crate) no_cuts: bool,
}

/// The value of each option that was given, or all its values, and whether each flag was.
#[derive(Drop)]
pub(crate) struct Options<'a> {
    pub(crate) job: Option<&'a str>,
    pub(crate) deal: Option<&'a str>,
    pub(crate) layouts: Option<&'a str>,
    pub(crate) report: Option<&'a str>,
    pub(crate) moves: Option<&'a str>,
    pub(crate) number: Option<&'a str>,
    pub(crate) layout: Option<&'a str>,
    pub(crate) switch: Option<&'a str>,
    pub(crate) log: Option<&'a str>,
    pub(crate) nodes: Option<&'a str>,
    pub(crate) search: SearchOptions<'a>,
    pub(crate) form: Option<&'a str>,
    pub(crate) from: Option<&'a str>,
    pub(crate) games: bool,
    pub(crate) draw: Option<&'a str>,
    pub(crate) seed: Option<&'a str>,
    pub(crate) north: Vec<&'a str>,
    pub(crate) east: Vec<&'a str>,
    pub(crate) south: Vec<&'a str>,
    pub(crate) west: Vec<&'a str>,
}

/// The options in the words, or None where clap finds a fault in them.
pub(crate) fn read_options<'a>(
    alloc: Global,
    words: &'a [String],
) -> Result<Option<Options<'a>>, AllocError>
    ensures { IfOk result (λ r. option_map options_of r ≡ options_read (texts_of words.now)) }
{
    let command = option_command(alloc)?;
    match command.try_get_matches_from(words) {
        Ok(matches) => {
            let options = options_in(alloc, &matches)?;
            Ok(Some(options))
        }
        Err(error) => match error.kind() {
            ErrorKind::OutOfMemory => Err(AllocError),
            _ => Ok(None),
        },
    }
}

const VALUE_NAMES: [&str; 17] = [
    "job", "deal", "layouts", "report", "moves", "number", "layout", "switch", "log", "nodes",
    "workers", "shards", "room", "form", "from", "draw", "seed",
];

const LIST_NAMES: [&str; 4] = ["north", "east", "south", "west"];

const FLAG_NAMES: [&str; 3] = ["no-table", "no-cuts", "games"];

fn value_command<'a>(alloc: Global) -> Result<Command<'a>, AllocError>
    ensures { IfOk result (λ command. app_of command ≡ value_command) }
{
    let mut command = bare_command(alloc);
    for name in VALUE_NAMES {
        command = command.arg(value_option(alloc, name))?;
    }
    Ok(command)
}

fn list_command<'a>(alloc: Global) -> Result<Command<'a>, AllocError>
    ensures { IfOk result (λ command. app_of command ≡ list_command) }
{
    let mut command = value_command(alloc)?;
    for name in LIST_NAMES {
        command = command.arg(list_option(alloc, name))?;
    }
    Ok(command)
}

fn option_command<'a>(alloc: Global) -> Result<Command<'a>, AllocError>
    ensures { IfOk result (λ command. app_of command ≡ option_command) }
{
    let mut command = list_command(alloc)?;
    for name in FLAG_NAMES {
        command = command.arg(flag_option(alloc, name))?;
    }
    Ok(command)
}

fn value_option<'a>(alloc: Global, name: &'a str) -> Arg<'a>
    ensures rule { rule_of result ≡ value_option name.entry.now }
    ensures local { result.global ≡ false }
{
    Arg::new(alloc, name).long(name).action(ArgAction::Set)
}

fn list_option<'a>(alloc: Global, name: &'a str) -> Arg<'a>
    ensures rule { rule_of result ≡ list_option name.entry.now }
    ensures local { result.global ≡ false }
{
    Arg::new(alloc, name).long(name).action(ArgAction::Append)
}

fn flag_option<'a>(alloc: Global, name: &'a str) -> Arg<'a>
    ensures rule { rule_of result ≡ flag_option name.entry.now }
    ensures local { result.global ≡ false }
{
    Arg::new(alloc, name).long(name).action(ArgAction::SetTrue)
}

fn bare_command<'a>(alloc: Global) -> Command<'a>
    ensures { app_of result ≡ bare_command }
{
    Command::new(alloc, "alphamu")
        .no_binary_name(true)
        .disable_help_flag(true)
        .disable_help_subcommand(true)
        .disable_version_flag(true)
}

fn options_in<'a>(alloc: Global, matches: &ArgMatches<'a>) -> Result<Options<'a>, AllocError>
    ensures { IfOk result (λ options.
        options_of options ≡ options_at (rows_of (found_of matches.now))) }
{
    Ok(Options {
        job: value_of(matches, "job"),
        deal: value_of(matches, "deal"),
        layouts: value_of(matches, "layouts"),
        report: value_of(matches, "report"),
        moves: value_of(matches, "moves"),
        number: value_of(matches, "number"),
        layout: value_of(matches, "layout"),
        switch: value_of(matches, "switch"),
        log: value_of(matches, "log"),
        nodes: value_of(matches, "nodes"),
        search: SearchOptions {
            workers: value_of(matches, "workers"),
            shards: value_of(matches, "shards"),
            room: value_of(matches, "room"),
            no_table: has_flag(matches, "no-table"),
            no_cuts: has_flag(matches, "no-cuts"),
        },
        form: value_of(matches, "form"),
        from: value_of(matches, "from"),
        games: has_flag(matches, "games"),
        draw: value_of(matches, "draw"),
        seed: value_of(matches, "seed"),
        north: values_of(alloc, matches, "north")?,
        east: values_of(alloc, matches, "east")?,
        south: values_of(alloc, matches, "south")?,
        west: values_of(alloc, matches, "west")?,
    })
}

fn value_of<'a>(matches: &ArgMatches<'a>, name: &str) -> Option<&'a str>
    ensures { option_map (λ s. s.now) result ≡ first_of name.now (rows_of (found_of matches.now)) }
{
    matches.get_str(name)
}

fn values_of<'a>(
    alloc: Global,
    matches: &ArgMatches<'a>,
    name: &str,
) -> Result<Vec<&'a str>, AllocError>
    ensures { IfOk result (λ values. map (λ s. s.now) values.items
        ≡ all_given name.now (rows_of (found_of matches.now))) }
{
    match matches.get_strs(name) {
        Some(values) => Vec::from_slice(alloc, values),
        None => Ok(Vec::new(alloc)),
    }
}

fn has_flag(matches: &ArgMatches<'_>, name: &str) -> bool
    ensures { result ≡ has_flag name.now (rows_of (found_of matches.now)) }
{
    matches.get_one::<bool>(name).unwrap_or(false)
}
