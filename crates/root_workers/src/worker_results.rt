//! What workers know of root cards.
ghost use Rattle.std.specs.Prelude.{◌≡◌, IfOk, IfErr};
ghost use Rattle.root_workers.specs.Rounds.{known_as};

use crate::searches::SearchResult;
use alphamu_core::{Entered, Found};
use card_sets::Card;
use pareto_fronts::Front;
use strategy_tree::RootFault;

/// What is known of a root card, and how many nodes its search entered.
#[derive(Drop)]
pub enum Known {
    /// The front after it.
    Exact(Front, Entered),
    /// The cards before it cover what is won after it.
    Below(Entered),
    /// The tree after it is too large.
    Spent,
}

impl Known {
    /// What a search tells of a card.
    pub fn of(searched: SearchResult) -> Known
        ensures { result ≡ known_as searched.found searched.entered }
    {
        let entered = searched.entered;
        match searched.found {
            Found::Exact(front) => Known::Exact(front, entered),
            Found::Below => Known::Below(entered),
        }
    }

    /// What a search of the card gives if this is known of it.
    pub fn result(self, card: Card) -> Result<SearchResult, RootFault>
        ensures known { IfOk result (λ searched.
            self ≡ known_as searched.found searched.entered) }
        ensures spent { IfErr result (λ fault.
            (fault ≡ RootFault.Spent card) × (self ≡ Known.Spent)) }
    {
        match self {
            Known::Exact(won, entered) => Ok(SearchResult {
                found: Found::Exact(won),
                entered,
            }),
            Known::Below(entered) => Ok(SearchResult {
                found: Found::Below,
                entered,
            }),
            Known::Spent => Err(RootFault::Spent(card)),
        }
    }
}
