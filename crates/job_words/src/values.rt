//! The tests on values, numbers and names.
ghost use Rattle.std.specs.Prelude.{◌≡◌, ◌≤◌, ◌^◌, ◌<◌, ◌-◌, IfOk, IfSome, option_map, true};
ghost use Rattle.byte_text.specs.Numerals.{number_within};
ghost use Rattle.job_words.specs.Values.{file_of, form_named, is_value, job_named, number_in};
ghost use Rattle.job_words.specs.Values.{number_of, number_or, result_map, study_job_named};

use crate::bad_word::{BadWord, OptionName};
use crate::study::FormName;
use crate::table::{Job, StudyJob};
use byte_text::{are_digits, read_number};

/// The value of an option that names a file: it isn't empty and doesn't begin with a dash.
#[tactic(auto, unfolding(crate::specs::Values::file_of))]
pub(crate) fn file_of<'a>(name: OptionName, value: Option<&'a str>) -> Result<&'a str, BadWord>
    ensures value { result_map (λ s. s.now) result
        ≡ file_of name (option_map (λ s. s.now) value.entry) }
    ensures named { IfOk result (λ file. is_value file.now ≡ true) }
{
    let text = value.ok_or(BadWord::Missing(name))?;
    if is_value(text) {
        Ok(text)
    } else {
        Err(BadWord::Value(name))
    }
}

fn is_value(text: &str) -> bool
    ensures { result ≡ is_value text.now }
{
    match text.as_bytes().first() {
        Some(byte) => *byte != b'-',
        None => false,
    }
}

/// The number that the text writes in decimal digits, if it lies in its range. Leading zeros are
/// allowed.
pub(crate) fn number_in(least: u64, most: u64, text: &str) -> Option<u64>
    ensures value { result ≡ number_in least most text.now }
    ensures range { IfSome result (λ number. (least ≤ number) × (number ≤ most)) }
{
    if !are_digits(text.as_bytes()) {
        return None;
    }
    let number = text.parse::<u64>().ok()?;
    if least <= number && number <= most {
        Some(number)
    } else {
        None
    }
}

/// The number that an option has for its value.
#[tactic(auto, unfolding(crate::specs::Values::number_of))]
pub(crate) fn number_of(
    name: OptionName,
    least: u64,
    most: u64,
    value: Option<&str>,
) -> Result<u64, BadWord>
    ensures value { result ≡ number_of name least most (option_map (λ s. s.now) value.entry) }
    ensures range { IfOk result (λ number. (least ≤ number) × (number ≤ most)) }
{
    let text = value.ok_or(BadWord::Missing(name))?;
    number_in(least, most, text).ok_or(BadWord::Value(name))
}

/// The same of an option that may be left out, for its default.
#[tactic(auto, unfolding(crate::specs::Values::number_or))]
pub(crate) fn number_or(
    name: OptionName,
    default: u64,
    least: u64,
    most: u64,
    value: Option<&str>,
) -> Result<u64, BadWord>
    ensures value { result
        ≡ number_or name default least most (option_map (λ s. s.now) value.entry) }
    ensures range { least ≤ default → default ≤ most
        → IfOk result (λ number. (least ≤ number) × (number ≤ most)) }
{
    match value {
        Some(_) => number_of(name, least, most, value),
        None => Ok(default),
    }
}

/// The number of a trick, which has no leading zeros.
pub(crate) fn trick_named(text: &str) -> Option<u8>
    ensures value { result ≡ number_within 1 13 text.now }
    ensures range { IfSome result (λ trick. (1 ≤ trick) × (trick ≤ 13)) }
{
    let trick = read_number(text.as_bytes(), 1, 13)?;
    Some(trick as u8)
}

/// The form of this name.
#[tactic(auto, unfolding(crate::specs::Values::form_named))]
pub(crate) fn form_named(name: &str) -> Option<FormName>
    ensures { result ≡ form_named name.now }
{
    match name {
        "text" => Some(FormName::Text),
        "csv" => Some(FormName::Csv),
        "json" => Some(FormName::Json),
        _ => None,
    }
}

/// The job of `alphamu` of this name.
#[tactic(auto, unfolding(crate::specs::Values::job_named))]
pub(crate) fn job_named(name: &str) -> Option<Job>
    ensures { result ≡ job_named name.now }
{
    match name {
        "solve" => Some(Job::Solve),
        "card" => Some(Job::Card),
        "match" => Some(Job::Match),
        "fusion" => Some(Job::Fusion),
        "list" => Some(Job::List),
        "check" => Some(Job::Check),
        "made" => Some(Job::Made),
        "prove" => Some(Job::Prove),
        "audit" => Some(Job::Audit),
        "boards" => Some(Job::Boards),
        _ => None,
    }
}

/// The job of `alphamu_study` of this name.
#[tactic(auto, unfolding(crate::specs::Values::study_job_named))]
pub(crate) fn study_job_named(name: &str) -> Option<StudyJob>
    ensures { result ≡ study_job_named name.now }
{
    match name {
        "words" => Some(StudyJob::Words),
        "lines" => Some(StudyJob::Lines),
        "page" => Some(StudyJob::Page),
        "cards" => Some(StudyJob::Cards),
        "review" => Some(StudyJob::Review),
        "draw" => Some(StudyJob::Draw),
        _ => None,
    }
}
