//! The first word that isn't understood as an option or its value.
ghost use Rattle.std.specs.Prelude.{◌≡◌, ◌++◌, ◌∷◌, ◌≤◌, [], IfOk, codes, is_some, length, option_map};
ghost use Rattle.job_words.specs.Asks.{texts_of};
ghost use Rattle.job_words.specs.Options.{options_of};
ghost use Rattle.job_words.specs.Words.{are_begun, bad_place, has_two_dashes, options_found};

use crate::options::{Options, read_options};
use std::alloc::{AllocError, Global};

/// The options in the words, if these are nothing but options with their values.
#[tactic(auto, unfolding(crate::specs::Words::options_found))]
pub(crate) fn find_options<'a>(
    alloc: Global,
    words: &'a [String],
) -> Result<Option<Options<'a>>, AllocError>
    ensures { IfOk result (λ r. option_map options_of r ≡ options_found (texts_of words.now)) }
{
    if has_two_dashes(words) {
        return Ok(None);
    }
    read_options(alloc, words)
}

fn has_two_dashes(words: &[String]) -> bool
    ensures { result ≡ has_two_dashes (texts_of words.now) }
{
    words.iter().any(|word| word.as_str() == "--")
}

// The words, and a value after them.
fn with_value(alloc: Global, words: &[String]) -> Result<Vec<String>, AllocError>
    ensures { IfOk result (λ more. texts_of more.items
        ≡ texts_of words.now ++ codes "0" ∷ []) }
{
    let mut more = Vec::new(alloc);
    for word in words {
        more.push(String::from_str(alloc, word.as_str())?)?;
    }
    more.push(String::from_str(alloc, "0")?)?;
    Ok(more)
}

// Whether the words are options with their values, except perhaps the last value.
fn are_begun(alloc: Global, words: &[String]) -> Result<bool, AllocError>
    ensures { IfOk result (λ begun. begun ≡ are_begun (texts_of words.now)) }
{
    if find_options(alloc, words)?.is_some() {
        return Ok(true);
    }
    let more = with_value(alloc, words)?;
    Ok(find_options(alloc, &more)?.is_some())
}

/// The place of the first word that is neither an option nor its value, counted from 0, or the
/// number of words if the last value is missing.
pub(crate) fn bad_place(alloc: Global, words: &[String]) -> Result<usize, AllocError>
    ensures place { IfOk result (λ place. place ≡ bad_place (texts_of words.now)) }
    ensures within { IfOk result (λ place. place ≤ length words.now) }
{
    for place in 0..words.len() {
        if !are_begun(alloc, &words[..place + 1])? {
            return Ok(place);
        }
    }
    Ok(words.len())
}
