//! What the words of the command line ask for: a job of `alphamu` or of `alphamu_study`, with just
//! what that job needs. It builds on clap, which reads the options of both as one simple command.
//! Its contracts promise the one ask that the grammar of the words gives, or the refusal of all
//! other words, and for a study what in them isn't understood.
#![tactic(auto)]

ghost use Rattle.std.specs.Prelude.{◌≡◌, ◌-◌, ◌^◌, ℕ, List, None, Some, IfOk, IfSome, option_map, true};
ghost use Rattle.trick_rules.specs.Nodes.{most_moves};
ghost use Rattle.job_words.specs.Asks.{IsWithinLimits, ask_of, texts_of};
ghost use Rattle.job_words.specs.declared.asks.Ask.TheVariants.{OnLayouts, Boards, Made};
ghost use Rattle.job_words.specs.declared.asks.Ask.TheVariants as asks;
ghost use Rattle.job_words.specs.declared.asks.LayoutsJob.TheVariants.{Solve, Card, Match, Fusion};
ghost use Rattle.job_words.specs.declared.asks.LayoutsJob.TheVariants.{Check, Prove, Audit};
ghost use Rattle.job_words.specs.Plain.{audit_words, boards_words, card_words, check_words};
ghost use Rattle.job_words.specs.Plain.{fusion_words, list_words, made_words, match_words};
ghost use Rattle.job_words.specs.Plain.{plain_search, prove_words, solve_words};
ghost use Rattle.job_words.specs.StudyAsks.{IsStudyWithinLimits, study_ask_of};
ghost use Rattle.job_words.specs.StudyWords.{study_read};
ghost use Rattle.job_words.specs.Values.{is_value, number_in, result_map};
ghost use Rattle.job_words.specs.Words.{words_read};

mod asks;
mod bad_word;
mod by_job;
mod by_study;
mod conditions;
mod draw;
mod options;
mod place;
mod study;
mod table;
mod values;

pub use asks::{Ask, GameNames, LayoutsJob, NamedAsk, Search};
pub use bad_word::{BadWord, OptionName};
use by_job::ask_in;
use by_study::study_in;
use conditions::conditions_in;
pub use draw::{Draw, SeatConditions};
use place::{bad_place, find_options};
use std::alloc::{AllocError, Global};
pub use study::{FormName, NamedStudyAsk, Study, StudyAsk};

/// What the words ask of `alphamu`, or `None` if it takes no such words. The program's own name
/// isn't one of them.
#[tactic(auto, unfolding(crate::specs::Words::words_read))]
pub fn read_words<'a>(
    alloc: Global,
    words: &'a [String],
) -> Result<Option<NamedAsk<'a>>, AllocError>
    ensures read { IfOk result (λ r. option_map ask_of r ≡ words_read (texts_of words.now)) }
    ensures limits { IfOk result (λ r. IfSome r (λ ask. IsWithinLimits (ask_of ask))) }
{
    match find_options(alloc, words)? {
        Some(options) => Ok(ask_in(&options).ok()),
        None => Ok(None),
    }
}

/// What the words ask of `alphamu_study`, or what in them it doesn't understand. The program's own
/// name isn't one of them.
#[tactic(auto, unfolding(crate::specs::StudyWords::study_read))]
pub fn read_study<'a>(
    alloc: Global,
    words: &'a [String],
) -> Result<Result<NamedStudyAsk<'a>, BadWord>, AllocError>
    ensures read { IfOk result (λ r.
        result_map study_ask_of r ≡ study_read (texts_of words.now)) }
    ensures limits { IfOk result (λ r. IfOk r (λ ask. IsStudyWithinLimits (study_ask_of ask))) }
{
    match find_options(alloc, words)? {
        Some(options) => {
            let conditions = conditions_in(alloc, &options)?;
            Ok(study_in(&options, conditions))
        }
        None => Ok(Err(BadWord::At(bad_place(alloc, words)?))),
    }
}

/// The plain words for a job, which give just what it requires, ask for just that, whatever the
/// names of the files. A number among them is written in decimal digits.
#[tactic(auto, using(crate::proofs::PlainLemmas::solve_asks, crate::proofs::PlainLemmas::card_asks, crate::proofs::PlainLemmas::match_asks, crate::proofs::PlainLemmas::fusion_asks, crate::proofs::PlainLemmas::list_asks, crate::proofs::PlainLemmas::check_asks, crate::proofs::PlainLemmas::made_asks, crate::proofs::PlainLemmas::prove_asks, crate::proofs::PlainLemmas::audit_asks, crate::proofs::PlainLemmas::boards_asks))]
pub fn plain_words_are_read()
    ensures solve { (deal layouts moves : List ℕ) (number : ℕ) → is_value deal ≡ true
        → is_value layouts ≡ true
        → number_in 1 most_moves moves ≡ Some number
        → words_read (solve_words deal layouts moves)
        ≡ Some (OnLayouts deal layouts (Solve number plain_search)) }
    ensures card { (deal layouts moves : List ℕ) (number : ℕ) → is_value deal ≡ true
        → is_value layouts ≡ true
        → number_in 1 most_moves moves ≡ Some number
        → words_read (card_words deal layouts moves)
        ≡ Some (OnLayouts deal layouts (Card number plain_search)) }
    ensures played { (deal layouts moves layout : List ℕ) (number kept : ℕ) → is_value deal ≡ true
        → is_value layouts ≡ true
        → number_in 1 most_moves moves ≡ Some number → number_in 1 256 layout ≡ Some kept
        → words_read (match_words deal layouts moves layout)
        ≡ Some (OnLayouts deal layouts (Match number plain_search kept None)) }
    ensures fusion { (deal layouts : List ℕ) → is_value deal ≡ true → is_value layouts ≡ true
        → words_read (fusion_words deal layouts) ≡ Some (OnLayouts deal layouts Fusion) }
    ensures list { (deal : List ℕ) → is_value deal ≡ true
        → words_read (list_words deal) ≡ Some (asks.List deal) }
    ensures check { (deal layouts report : List ℕ) → is_value deal ≡ true → is_value layouts ≡ true
        → is_value report ≡ true
        → words_read (check_words deal layouts report)
        ≡ Some (OnLayouts deal layouts (Check report)) }
    ensures made { (digits : List ℕ) (number : ℕ) → number_in 0 (2 ^ 64 - 1) digits ≡ Some number
        → words_read (made_words digits) ≡ Some (Made number plain_search) }
    ensures prove { (deal layouts moves : List ℕ) (number : ℕ) → is_value deal ≡ true
        → is_value layouts ≡ true
        → number_in 1 most_moves moves ≡ Some number
        → words_read (prove_words deal layouts moves)
        ≡ Some (OnLayouts deal layouts (Prove number 10000000)) }
    ensures audit { (deal layouts report log : List ℕ) → is_value deal ≡ true
        → is_value layouts ≡ true
        → is_value report ≡ true → is_value log ≡ true
        → words_read (audit_words deal layouts report log)
        ≡ Some (OnLayouts deal layouts (Audit report log)) }
    ensures boards { (deal layouts moves : List ℕ) (number : ℕ) → is_value deal ≡ true
        → is_value layouts ≡ true
        → number_in 1 most_moves moves ≡ Some number
        → words_read (boards_words deal layouts moves)
        ≡ Some (Boards (record { deal = deal; layouts = layouts }) number plain_search) }
{}
