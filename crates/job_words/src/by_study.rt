//! What the options ask of `alphamu_study`, by the job that they name.
ghost use Rattle.std.specs.Prelude.{◌≡◌, ◌≤◌, ◌<◌, ◌^◌, IfOk, is_some};
ghost use Rattle.job_words.specs.Asks.{IsJobWithinLimits, IsMoves, IsWithinLimits};
ghost use Rattle.job_words.specs.Asks.{ask_of, job_of};
ghost use Rattle.job_words.specs.Draws.{conditions_in, draw_in};
ghost use Rattle.job_words.specs.Options.{options_of};
ghost use Rattle.job_words.specs.StudyAsks.{IsDrawWithin, IsStudyWithin};
ghost use Rattle.job_words.specs.StudyAsks.{IsStudyWithinLimits, study_ask_of};
ghost use Rattle.job_words.specs.StudyWords.{cards_by, cards_in, draw_ask_in, drawn_in, form_in};
ghost use Rattle.job_words.specs.StudyWords.{from_in, games_in, judged_in, judged_of_files_in};
ghost use Rattle.job_words.specs.StudyWords.{moves_or_all, told_of_files_in};
ghost use Rattle.job_words.specs.StudyWords.{report_in, review_in, study_in, study_job_in, told_in};
ghost use Rattle.job_words.specs.Values.{result_map};

use crate::asks::{LayoutsJob, NamedAsk};
use crate::bad_word::{BadWord, OptionName};
use crate::by_job::{boards_in, card_in, check_in, moves_in, on_layouts, search_in, solve_in};
use crate::draw::{Draw, SeatConditions};
use crate::options::Options;
use crate::study::{FormName, NamedStudyAsk, Study, StudyAsk};
use crate::table::{StudyJob, uses_by_study};
use crate::values::{file_of, form_named, number_of, number_or, study_job_named, trick_named};
use trick_rules::MOST_MOVES;

/// What the options ask for, or what in them isn't understood.
#[tactic(auto, unfolding(crate::specs::StudyWords::study_in))]
///
/// `conditions` is what the conditions in the options tell.
pub(crate) fn study_in<'a>(
    options: &Options<'a>,
    conditions: Result<SeatConditions, BadWord>,
) -> Result<NamedStudyAsk<'a>, BadWord>
    requires conditions { conditions ≡ conditions_in (options_of options.now) }
    ensures ask { result_map study_ask_of result ≡ study_in (options_of options.now) }
    ensures limits { IfOk result (λ ask. IsStudyWithinLimits (study_ask_of ask)) }
{
    match study_job_in(options)? {
        StudyJob::Words => told_in(options, conditions, Study::Words),
        StudyJob::Lines => told_in(options, conditions, Study::Lines),
        StudyJob::Page => told_in(options, conditions, Study::Page),
        StudyJob::Cards => cards_in(options, conditions),
        StudyJob::Review => review_in(options),
        StudyJob::Draw => draw_ask_in(options, conditions),
    }
}

#[tactic(auto, unfolding(crate::specs::StudyWords::study_job_in))]
fn study_job_in(options: &Options<'_>) -> Result<StudyJob, BadWord>
    ensures { result ≡ study_job_in (options_of options.now) }
{
    let name = options.job.ok_or(BadWord::Missing(OptionName::Job))?;
    let job = study_job_named(name).ok_or(BadWord::Value(OptionName::Job))?;
    match uses_by_study(job).misused(options) {
        Some(fault) => Err(fault),
        None => Ok(job),
    }
}

#[tactic(auto, unfolding(crate::specs::StudyWords::report_in))]
fn report_in<'a>(options: &Options<'a>) -> Result<LayoutsJob<&'a str>, BadWord>
    ensures job { result_map job_of result ≡ report_in (options_of options.now) }
    ensures limits { IfOk result (λ job. IsJobWithinLimits (job_of job)) }
{
    match options.moves {
        Some(_) => solve_in(options),
        None => check_in(options),
    }
}

#[tactic(auto, unfolding(crate::specs::StudyWords::told_in))]
fn told_in<'a>(
    options: &Options<'a>,
    conditions: Result<SeatConditions, BadWord>,
    study: Study,
) -> Result<NamedStudyAsk<'a>, BadWord>
    requires conditions { conditions ≡ conditions_in (options_of options.now) }
    requires study { IsStudyWithin study }
    ensures ask { result_map study_ask_of result ≡ told_in study (options_of options.now) }
    ensures limits { IfOk result (λ ask. IsStudyWithinLimits (study_ask_of ask)) }
{
    if options.draw.is_some() {
        let moves = moves_in(options)?;
        return drawn_in(options, conditions, study, moves);
    }
    told_of_files_in(options, study)
}

#[tactic(auto, unfolding(crate::specs::StudyWords::told_of_files_in))]
fn told_of_files_in<'a>(options: &Options<'a>, study: Study) -> Result<NamedStudyAsk<'a>, BadWord>
    requires study { IsStudyWithin study }
    ensures ask { result_map study_ask_of result
        ≡ told_of_files_in study (options_of options.now) }
    ensures limits { IfOk result (λ ask. IsStudyWithinLimits (study_ask_of ask)) }
{
    let job = report_in(options)?;
    let reads = on_layouts(options, job)?;
    Ok(StudyAsk::OfFiles { study, reads })
}

// Which layouts are drawn.
#[tactic(auto, unfolding(crate::specs::Draws::draw_in))]
fn draw_in(
    options: &Options<'_>,
    conditions: Result<SeatConditions, BadWord>,
) -> Result<Draw, BadWord>
    requires conditions { conditions ≡ conditions_in (options_of options.now) }
    ensures draw { result ≡ draw_in (options_of options.now) }
    ensures limits { IfOk result IsDrawWithin }
{
    let amount = number_of(OptionName::Draw, 1, 256, options.draw)?;
    let seed = number_or(OptionName::Seed, 1, 0, u64::MAX, options.seed)?;
    let conditions = conditions?;
    Ok(Draw {
        amount: amount as u16,
        seed,
        conditions,
    })
}

// What is told of layouts that are drawn, with this many moves.
#[tactic(auto, unfolding(crate::specs::StudyWords::drawn_in))]
fn drawn_in<'a>(
    options: &Options<'a>,
    conditions: Result<SeatConditions, BadWord>,
    study: Study,
    moves: u8,
) -> Result<NamedStudyAsk<'a>, BadWord>
    requires conditions { conditions ≡ conditions_in (options_of options.now) }
    requires study { IsStudyWithin study }
    requires moves { IsMoves moves }
    ensures ask { result_map study_ask_of result ≡ drawn_in study moves (options_of options.now) }
    ensures limits { IfOk result (λ ask. IsStudyWithinLimits (study_ask_of ask)) }
{
    let search = search_in(options)?;
    let deal = file_of(OptionName::Deal, options.deal)?;
    let draw = draw_in(options, conditions)?;
    Ok(StudyAsk::OfDrawn {
        study,
        deal,
        draw,
        moves,
        search,
    })
}

#[tactic(auto, unfolding(crate::specs::StudyWords::draw_ask_in))]
fn draw_ask_in<'a>(
    options: &Options<'a>,
    conditions: Result<SeatConditions, BadWord>,
) -> Result<NamedStudyAsk<'a>, BadWord>
    requires conditions { conditions ≡ conditions_in (options_of options.now) }
    ensures ask { result_map study_ask_of result ≡ draw_ask_in (options_of options.now) }
    ensures limits { IfOk result (λ ask. IsStudyWithinLimits (study_ask_of ask)) }
{
    let deal = file_of(OptionName::Deal, options.deal)?;
    let draw = draw_in(options, conditions)?;
    Ok(StudyAsk::Draw { deal, draw })
}

#[tactic(auto, unfolding(crate::specs::StudyWords::form_in))]
fn form_in(options: &Options<'_>) -> Result<FormName, BadWord>
    ensures { result ≡ form_in (options_of options.now) }
{
    match options.form {
        Some(name) => form_named(name).ok_or(BadWord::Value(OptionName::Form)),
        None => Ok(FormName::Text),
    }
}

#[tactic(auto, unfolding(crate::specs::StudyWords::from_in))]
fn from_in(options: &Options<'_>) -> Result<u8, BadWord>
    ensures trick { result ≡ from_in (options_of options.now) }
    ensures limits { IfOk result (λ from. (1 ≤ from) × (from ≤ 13)) }
{
    match options.from {
        Some(text) => trick_named(text).ok_or(BadWord::Value(OptionName::From)),
        None => Ok(1),
    }
}

// How many moves are planned: all if the options don't say.
#[tactic(auto, unfolding(crate::specs::StudyWords::moves_or_all))]
fn moves_or_all(options: &Options<'_>) -> Result<u8, BadWord>
    ensures moves { result ≡ moves_or_all (options_of options.now) }
    ensures limits { IfOk result IsMoves }
{
    match options.moves {
        Some(_) => moves_in(options),
        None => Ok(MOST_MOVES),
    }
}

// The cards in a form: by a number of moves, or exactly if the options name none.
fn cards_by(options: &Options<'_>, form: FormName) -> Study
    ensures study { result ≡ cards_by form (is_some (options_of options.now).moves) }
    ensures limits { IsStudyWithin result }
{
    match options.moves {
        Some(_) => Study::Cards { form },
        None => Study::ExactCards { form },
    }
}

// What is told of a search for this many moves, of layouts from a file or of drawn ones.
#[tactic(auto, unfolding(crate::specs::StudyWords::judged_in))]
fn judged_in<'a>(
    options: &Options<'a>,
    conditions: Result<SeatConditions, BadWord>,
    study: Study,
    moves: u8,
) -> Result<NamedStudyAsk<'a>, BadWord>
    requires conditions { conditions ≡ conditions_in (options_of options.now) }
    requires study { IsStudyWithin study }
    requires moves { IsMoves moves }
    ensures ask { result_map study_ask_of result
        ≡ judged_in study moves (options_of options.now) }
    ensures limits { IfOk result (λ ask. IsStudyWithinLimits (study_ask_of ask)) }
{
    if options.draw.is_some() {
        return drawn_in(options, conditions, study, moves);
    }
    judged_of_files_in(options, study, moves)
}

#[tactic(auto, unfolding(crate::specs::StudyWords::judged_of_files_in))]
fn judged_of_files_in<'a>(
    options: &Options<'a>,
    study: Study,
    moves: u8,
) -> Result<NamedStudyAsk<'a>, BadWord>
    requires study { IsStudyWithin study }
    requires moves { IsMoves moves }
    ensures ask { result_map study_ask_of result
        ≡ judged_of_files_in study moves (options_of options.now) }
    ensures limits { IfOk result (λ ask. IsStudyWithinLimits (study_ask_of ask)) }
{
    let search = search_in(options)?;
    let reads = on_layouts(options, LayoutsJob::Card { moves, search })?;
    Ok(StudyAsk::OfFiles { study, reads })
}

#[tactic(auto, unfolding(crate::specs::StudyWords::cards_in))]
fn cards_in<'a>(
    options: &Options<'a>,
    conditions: Result<SeatConditions, BadWord>,
) -> Result<NamedStudyAsk<'a>, BadWord>
    requires conditions { conditions ≡ conditions_in (options_of options.now) }
    ensures ask { result_map study_ask_of result ≡ cards_in (options_of options.now) }
    ensures limits { IfOk result (λ ask. IsStudyWithinLimits (study_ask_of ask)) }
{
    let form = form_in(options)?;
    let moves = moves_or_all(options)?;
    judged_in(options, conditions, cards_by(options, form), moves)
}

#[tactic(auto, unfolding(crate::specs::StudyWords::games_in))]
fn games_in<'a>(options: &Options<'a>) -> Result<NamedAsk<'a>, BadWord>
    ensures ask { result_map ask_of result ≡ games_in (options_of options.now) }
    ensures limits { IfOk result (λ ask. IsWithinLimits (ask_of ask)) }
{
    if options.games {
        return boards_in(options);
    }
    let job = card_in(options)?;
    on_layouts(options, job)
}

#[tactic(auto, unfolding(crate::specs::StudyWords::review_in))]
fn review_in<'a>(options: &Options<'a>) -> Result<NamedStudyAsk<'a>, BadWord>
    ensures ask { result_map study_ask_of result ≡ review_in (options_of options.now) }
    ensures limits { IfOk result (λ ask. IsStudyWithinLimits (study_ask_of ask)) }
{
    let form = form_in(options)?;
    let from = from_in(options)?;
    let reads = games_in(options)?;
    Ok(StudyAsk::OfFiles {
        study: Study::Review { form, from },
        reads,
    })
}
