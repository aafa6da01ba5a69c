//! Sets of layouts by their numbers.
ghost use Rattle.std.specs.Prelude.{◌≡◌, ◌≤◌, ◌<◌, true, false, [], length, replicate, get_or, slice_set};
ghost use Rattle.win_vectors.specs.Vectors.{meet_of, most_layouts};
ghost use Rattle.set_nodes.specs.SetNodes.{still_held, legal_at};

use card_sets::{Card, CardSet};
use trick_rules::Position;
use win_vectors::WinVector;

/// Left's hand in a layout at a later position. The layouts are numbered as in the list, which has
/// Left's hands at an earlier node.
pub fn left_at(layouts: &[CardSet], position: &Position, place: u16) -> CardSet
    requires { place < length layouts.now }
    ensures { result ≡ still_held position.now (get_or layouts.now place []) }
{
    layouts[usize::from(place)].both(position.unseen)
}

// Whether a card is legal in a layout.
fn is_legal_there(layouts: &[CardSet], position: &Position, card: Card, place: u16) -> bool
    requires { place < length layouts.now }
    ensures { result ≡ get_or (legal_at layouts.now position.now card) place false }
{
    position
        .legal_in(left_at(layouts, position, place))
        .has(card)
}

/// The layouts of a set in which a card is legal.
pub fn legal_layouts(
    layouts: &[CardSet],
    position: &Position,
    set: WinVector,
    card: Card,
) -> WinVector
    requires { length set ≡ length layouts.now }
    ensures { result ≡ meet_of set (legal_at layouts.now position.now card) }
{
    let mut legal = WinVector::none(set.width());
    for place in 0..set.width() {
        if set.get(place) && is_legal_there(layouts, position, card, place) {
            legal = legal.set(place, true);
        }
    }
    legal
}

/// A set of one layout.
pub fn only(width: u16, place: u16) -> WinVector
    requires within { place < width }
    requires high { width ≤ most_layouts }
    ensures { result ≡ slice_set (replicate width false) place true }
{
    WinVector::none(width).set(place, true)
}
