//! What a search has found for declarer's side.
use card_sets::Card;
use std::marker::Model;
use strategy_tree::Plan;
use win_vectors::WinVector;

/// A vector of the front, and the plan that is printed for it.
#[derive(Debug, Drop)]
pub struct Entry {
    pub vector: WinVector,
    pub plan: Plan,
}

impl Model for Entry {
    ghost use Rattle.strategy_tree.specs.PlanMeaning.{plan_of};
    ghost use Rattle.am_report.specs.Answers.{EntryValue};
    ghost use Rattle.am_report.specs.Codes.{entry_code};

    ghost Value = { EntryValue };

    ghost coded = { entry_code };

    ghost view = { λ entry. record { vector = entry.vector; plan = plan_of entry.plan } };
}

/// An entry as a report gives it, with the number behind the vector: how many layouts it wins, or
/// their weight.
#[derive(Debug, Drop)]
pub struct ReadEntry {
    pub entry: Entry,
    pub weight: u32,
}

impl Model for ReadEntry {
    ghost use Rattle.am_report.specs.Answers.{ReadEntryValue};
    ghost use Rattle.am_report.specs.Codes.{read_entry_code};

    ghost Value = { ReadEntryValue };

    ghost coded = { read_entry_code };

    ghost view = { λ read. record { entry = read.entry; weight = read.weight } };
}

/// The front with a plan for each of its vectors, in report order; the card to play, and the weight
/// of the kept layouts in which the contract is made.
#[derive(Debug, Drop)]
pub struct SolveAnswer {
    pub entries: Vec<Entry>,
    pub card: Card,
    pub weight: u32,
}

impl Model for SolveAnswer {
    ghost use Rattle.am_report.specs.Answers.{SolveAnswerValue};
    ghost use Rattle.am_report.specs.Codes.{answer_code};

    ghost Value = { SolveAnswerValue };

    ghost coded = { answer_code };

    ghost view = { λ answer. record {
      entries = answer.entries.items;
      card = answer.card;
      weight = answer.weight;
    } };
}
