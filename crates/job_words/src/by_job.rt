//! What the options ask of `alphamu`, by the job that they name.
ghost use Rattle.std.specs.Prelude.{◌≡◌, ◌≤◌, ◌*◌, IfOk, IfSome};
ghost use Rattle.job_words.specs.Asks.{IsJobWithinLimits, IsMoves, IsSearchWithinLimits};
ghost use Rattle.job_words.specs.Asks.{IsSwitch, IsWithinLimits, ask_of, job_of, most_entries};
ghost use Rattle.job_words.specs.Options.{options_of};
ghost use Rattle.job_words.specs.Values.{result_map};
ghost use Rattle.job_words.specs.Words.{ask_in, audit_in, boards_in, card_in, check_in, job_in};
ghost use Rattle.job_words.specs.Words.{list_in, made_in, match_in, moves_in, on_layouts, prove_in};
ghost use Rattle.job_words.specs.Words.{search_in, solve_in, switch_in, table_in};

use crate::asks::{Ask, GameNames, LayoutsJob, MOST_ENTRIES, MOST_LOGGED, NamedAsk, Search};
use crate::bad_word::{BadWord, OptionName};
use crate::options::Options;
use crate::table::{Job, uses_by};
use crate::values::{file_of, job_named, number_of, number_or};
use trick_rules::MOST_MOVES;

/// What the options ask for, or what in them isn't understood.
#[tactic(auto, unfolding(crate::specs::Words::ask_in))]
pub(crate) fn ask_in<'a>(options: &Options<'a>) -> Result<NamedAsk<'a>, BadWord>
    ensures ask { result_map ask_of result ≡ ask_in (options_of options.now) }
    ensures limits { IfOk result (λ ask. IsWithinLimits (ask_of ask)) }
{
    match job_in(options)? {
        Job::Solve => on_layouts(options, solve_in(options)?),
        Job::Card => on_layouts(options, card_in(options)?),
        Job::Match => on_layouts(options, match_in(options)?),
        Job::Fusion => on_layouts(options, LayoutsJob::Fusion),
        Job::List => list_in(options),
        Job::Check => on_layouts(options, check_in(options)?),
        Job::Made => made_in(options),
        Job::Prove => on_layouts(options, prove_in(options)?),
        Job::Audit => on_layouts(options, audit_in(options)?),
        Job::Boards => boards_in(options),
    }
}

#[tactic(auto, unfolding(crate::specs::Words::job_in))]
fn job_in(options: &Options<'_>) -> Result<Job, BadWord>
    ensures { result ≡ job_in (options_of options.now) }
{
    let name = options.job.ok_or(BadWord::Missing(OptionName::Job))?;
    let job = job_named(name).ok_or(BadWord::Value(OptionName::Job))?;
    match uses_by(job).misused(options) {
        Some(fault) => Err(fault),
        None => Ok(job),
    }
}

#[tactic(auto, unfolding(crate::specs::Words::table_in))]
fn table_in(options: &Options<'_>) -> Result<(u32, u32), BadWord>
    ensures size { result ≡ table_in (options_of options.now) }
    ensures limits { IfOk result (λ size. (1 ≤ size.0) × (size.0 ≤ 64) × (1 ≤ size.1)
        × (size.1 ≤ 65536) × (size.0 * size.1 ≤ most_entries)) }
{
    let shards = number_or(OptionName::Shards, 16, 1, 64, options.search.shards)?;
    let room = number_or(OptionName::Room, 16_384, 1, 65_536, options.search.room)?;
    if shards * room <= MOST_ENTRIES {
        Ok((shards as u32, room as u32))
    } else {
        Err(BadWord::Value(OptionName::Room))
    }
}

#[tactic(auto, unfolding(crate::specs::Words::search_in))]
pub(crate) fn search_in(options: &Options<'_>) -> Result<Search, BadWord>
    ensures search { result ≡ search_in (options_of options.now) }
    ensures limits { IfOk result IsSearchWithinLimits }
{
    let nodes = number_or(OptionName::Nodes, 10_000_000, 1, u64::MAX, options.nodes)?;
    let workers = number_or(OptionName::Workers, 1, 1, 64, options.search.workers)?;
    let (shards, room) = table_in(options)?;
    Ok(Search {
        nodes,
        workers: workers as u32,
        shards,
        room,
        table: !options.search.no_table,
        cuts: !options.search.no_cuts,
    })
}

#[tactic(auto, unfolding(crate::specs::Words::moves_in))]
pub(crate) fn moves_in(options: &Options<'_>) -> Result<u8, BadWord>
    ensures moves { result ≡ moves_in (options_of options.now) }
    ensures limits { IfOk result IsMoves }
{
    let moves = number_of(OptionName::Moves, 1, u64::from(MOST_MOVES), options.moves)?;
    Ok(moves as u8)
}

#[tactic(auto, unfolding(crate::specs::Words::solve_in))]
pub(crate) fn solve_in<'a>(options: &Options<'a>) -> Result<LayoutsJob<&'a str>, BadWord>
    ensures job { result_map job_of result ≡ solve_in (options_of options.now) }
    ensures limits { IfOk result (λ job. IsJobWithinLimits (job_of job)) }
{
    let moves = moves_in(options)?;
    let search = search_in(options)?;
    Ok(LayoutsJob::Solve { moves, search })
}

#[tactic(auto, unfolding(crate::specs::Words::card_in))]
pub(crate) fn card_in<'a>(options: &Options<'a>) -> Result<LayoutsJob<&'a str>, BadWord>
    ensures job { result_map job_of result ≡ card_in (options_of options.now) }
    ensures limits { IfOk result (λ job. IsJobWithinLimits (job_of job)) }
{
    let moves = moves_in(options)?;
    let search = search_in(options)?;
    Ok(LayoutsJob::Card { moves, search })
}

#[tactic(auto, unfolding(crate::specs::Words::switch_in))]
fn switch_in(options: &Options<'_>) -> Result<Option<u16>, BadWord>
    ensures switch { result ≡ switch_in (options_of options.now) }
    ensures limits { IfOk result (λ switch. IfSome switch IsSwitch) }
{
    match options.switch {
        Some(_) => {
            let at = number_of(OptionName::Switch, 1, 52, options.switch)?;
            Ok(Some(at as u16))
        }
        None => Ok(None),
    }
}

#[tactic(auto, unfolding(crate::specs::Words::match_in))]
fn match_in<'a>(options: &Options<'a>) -> Result<LayoutsJob<&'a str>, BadWord>
    ensures job { result_map job_of result ≡ match_in (options_of options.now) }
    ensures limits { IfOk result (λ job. IsJobWithinLimits (job_of job)) }
{
    let moves = moves_in(options)?;
    let search = search_in(options)?;
    let layout = number_of(OptionName::Layout, 1, 256, options.layout)?;
    let switch = switch_in(options)?;
    Ok(LayoutsJob::Match {
        moves,
        search,
        layout: layout as u16,
        switch,
    })
}

#[tactic(auto, unfolding(crate::specs::Words::check_in))]
pub(crate) fn check_in<'a>(options: &Options<'a>) -> Result<LayoutsJob<&'a str>, BadWord>
    ensures job { result_map job_of result ≡ check_in (options_of options.now) }
    ensures limits { IfOk result (λ job. IsJobWithinLimits (job_of job)) }
{
    let report = file_of(OptionName::Report, options.report)?;
    Ok(LayoutsJob::Check { report })
}

#[tactic(auto, unfolding(crate::specs::Words::prove_in))]
fn prove_in<'a>(options: &Options<'a>) -> Result<LayoutsJob<&'a str>, BadWord>
    ensures job { result_map job_of result ≡ prove_in (options_of options.now) }
    ensures limits { IfOk result (λ job. IsJobWithinLimits (job_of job)) }
{
    let moves = moves_in(options)?;
    let nodes = number_or(OptionName::Nodes, 10_000_000, 1, MOST_LOGGED, options.nodes)?;
    Ok(LayoutsJob::Prove { moves, nodes })
}

#[tactic(auto, unfolding(crate::specs::Words::audit_in))]
fn audit_in<'a>(options: &Options<'a>) -> Result<LayoutsJob<&'a str>, BadWord>
    ensures job { result_map job_of result ≡ audit_in (options_of options.now) }
    ensures limits { IfOk result (λ job. IsJobWithinLimits (job_of job)) }
{
    let report = file_of(OptionName::Report, options.report)?;
    let log = file_of(OptionName::Log, options.log)?;
    Ok(LayoutsJob::Audit { report, log })
}

#[tactic(auto, unfolding(crate::specs::Words::on_layouts))]
pub(crate) fn on_layouts<'a>(
    options: &Options<'a>,
    job: LayoutsJob<&'a str>,
) -> Result<NamedAsk<'a>, BadWord>
    ensures ask { result_map ask_of result
        ≡ on_layouts (options_of options.now) (job_of job.entry) }
    ensures limits { IsJobWithinLimits (job_of job.entry)
        → IfOk result (λ ask. IsWithinLimits (ask_of ask)) }
{
    let deal = file_of(OptionName::Deal, options.deal)?;
    let layouts = file_of(OptionName::Layouts, options.layouts)?;
    Ok(Ask::OnLayouts { deal, layouts, job })
}

#[tactic(auto, unfolding(crate::specs::Words::list_in))]
fn list_in<'a>(options: &Options<'a>) -> Result<NamedAsk<'a>, BadWord>
    ensures ask { result_map ask_of result ≡ list_in (options_of options.now) }
    ensures limits { IfOk result (λ ask. IsWithinLimits (ask_of ask)) }
{
    let deal = file_of(OptionName::Deal, options.deal)?;
    Ok(Ask::List { deal })
}

#[tactic(auto, unfolding(crate::specs::Words::boards_in))]
pub(crate) fn boards_in<'a>(options: &Options<'a>) -> Result<NamedAsk<'a>, BadWord>
    ensures ask { result_map ask_of result ≡ boards_in (options_of options.now) }
    ensures limits { IfOk result (λ ask. IsWithinLimits (ask_of ask)) }
{
    let deal = file_of(OptionName::Deal, options.deal)?;
    let layouts = file_of(OptionName::Layouts, options.layouts)?;
    let moves = moves_in(options)?;
    let search = search_in(options)?;
    let games = GameNames { deal, layouts };
    Ok(Ask::Boards {
        games,
        moves,
        search,
    })
}

#[tactic(auto, unfolding(crate::specs::Words::made_in))]
fn made_in<'a>(options: &Options<'a>) -> Result<NamedAsk<'a>, BadWord>
    ensures ask { result_map ask_of result ≡ made_in (options_of options.now) }
    ensures limits { IfOk result (λ ask. IsWithinLimits (ask_of ask)) }
{
    let number = number_of(OptionName::Number, 0, u64::MAX, options.number)?;
    let search = search_in(options)?;
    Ok(Ask::Made { number, search })
}
