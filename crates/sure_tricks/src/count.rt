//! How many cards of the side on lead are sure, suit by suit.
ghost use Rattle.std.specs.Prelude.{◌≡◌, ◌≤◌, ◌<◌, ◌+◌, false, not, ◌&&◌, ◌||◌, length, min, nat_lt};
ghost use Rattle.std.specs.List.{list_all};
ghost use Rattle.trick_rules.specs.Positions.{seat_after, to_play, FitsLeft, IsState};
ghost use Rattle.trick_rules.specs.Play.{of_suit, hand_of};
ghost use Rattle.trick_rules.specs.declared.trump.Trump.TheVariants.{NoTrump, Suit as Suited};
ghost use Rattle.card_sets.specs.declared.card.Suit.{Suit};
ghost use Rattle.card_sets.specs.declared.card.Suit.TheVariants.{Spades, Hearts, Diamonds, Clubs};
ghost use Rattle.sure_tricks.specs.Sure.{top_count as count_above, high_count as count_of_high, taken_from, trumps_of, is_suit, sure_of, own_count, partners_of, partners_count};

use card_sets::{Card, CardSet, Seat, Suit};
use trick_rules::{Position, Trump};

/// The hand of a seat, and the three others clockwise.
#[derive(Clone, Copy)]
pub struct SeenHands {
    pub own: CardSet,
    pub next: CardSet,
    pub partner: CardSet,
    pub last: CardSet,
}

/// Which of the three others may ruff.
#[derive(Clone, Copy)]
struct Ruffs {
    next: bool,
    partner: bool,
    last: bool,
}

impl Ruffs {
    // None may.
    fn none() -> Ruffs
        ensures { result ≡ record { next = false; partner = false; last = false } }
    {
        Ruffs {
            next: false,
            partner: false,
            last: false,
        }
    }
}

/// Of one suit: how many cards of a hand, from the top, are high against these of another.
pub fn high_count(own: CardSet, theirs: CardSet) -> u8
    ensures { result ≡ count_of_high own theirs }
{
    let top = own.after_each(theirs).count();
    if top < theirs.count() {
        top
    } else {
        own.count()
    }
}

// How many of them are safe too.
fn safe_count(own: CardSet, theirs: CardSet, may_ruff: bool) -> u8
    ensures { result ≡ taken_from may_ruff own theirs }
{
    let high = high_count(own, theirs);
    if may_ruff {
        high.min(theirs.count())
    } else {
        high
    }
}

impl SeenHands {
    /// The hands as this seat sees them.
    pub fn of(position: &Position, left: CardSet, seat: Seat) -> SeenHands
        ensures own { result.own ≡ hand_of
            (record { position = position.now; left = left }) seat }
        ensures next { result.next ≡ hand_of
            (record { position = position.now; left = left }) (seat_after 1 seat) }
        ensures partner { result.partner ≡ hand_of
            (record { position = position.now; left = left }) (seat_after 2 seat) }
        ensures last { result.last ≡ hand_of
            (record { position = position.now; left = left }) (seat_after 3 seat) }
    {
        let next = seat.next();
        let partner = next.next();
        SeenHands {
            own: position.hand(seat, left),
            next: position.hand(next, left),
            partner: position.hand(partner, left),
            last: position.hand(partner.next(), left),
        }
    }

    // The sure cards of a suit.
    fn sure_of(&self, ruffs: &Ruffs, suit: Suit) -> u8
        ensures { result ≡ min
            (taken_from ruffs.now.next (of_suit suit self.now.own) (of_suit suit self.now.next))
            (min (taken_from ruffs.now.partner (of_suit suit self.now.own)
            (of_suit suit self.now.partner))
            (taken_from ruffs.now.last (of_suit suit self.now.own) (of_suit suit self.now.last))) }
    {
        let own = self.own.of_suit(suit);
        let others = self.next.either(self.partner).either(self.last);
        if own.after_each(others.of_suit(suit)).is_empty() {
            return 0;
        }
        let next = safe_count(own, self.next.of_suit(suit), ruffs.next);
        let partner = safe_count(own, self.partner.of_suit(suit), ruffs.partner);
        let last = safe_count(own, self.last.of_suit(suit), ruffs.last);
        next.min(partner.min(last))
    }

    // The sure trumps: what the hand on lead draws.
    fn drawn(&self, trump: Trump) -> u8
        ensures none { trump ≡ NoTrump → result ≡ 0 }
        ensures some { (suit : Suit) → trump ≡ Suited suit → result
            ≡ min (taken_from false (of_suit suit self.now.own) (of_suit suit self.now.next))
            (min (taken_from false (of_suit suit self.now.own) (of_suit suit self.now.partner))
            (taken_from false (of_suit suit self.now.own) (of_suit suit self.now.last))) }
    {
        match trump {
            Trump::NoTrump => 0,
            Trump::Suit(suit) => self.sure_of(&Ruffs::none(), suit),
        }
    }

    // Which hands have a trump more than are drawn.
    fn ruffs(&self, trump: Trump, drawn: u8) -> Ruffs
        ensures next { result.next ≡ nat_lt drawn (length (trumps_of trump self.now.next)) }
        ensures partner { result.partner
            ≡ nat_lt drawn (length (trumps_of trump self.now.partner)) }
        ensures last { result.last ≡ nat_lt drawn (length (trumps_of trump self.now.last)) }
    {
        Ruffs {
            next: has_more(self.next, trump, drawn),
            partner: has_more(self.partner, trump, drawn),
            last: has_more(self.last, trump, drawn),
        }
    }

    // The sure cards of a suit, if this many trumps are drawn and these hands may ruff then.
    fn sure_after(&self, trump: Trump, drawn: u8, ruffs: &Ruffs, suit: Suit) -> u8
        requires { (suit : Suit) → trump ≡ Suited suit → drawn
            ≡ min (taken_from false (of_suit suit self.now.own) (of_suit suit self.now.next))
            (min (taken_from false (of_suit suit self.now.own) (of_suit suit self.now.partner))
            (taken_from false (of_suit suit self.now.own) (of_suit suit self.now.last))) }
        ensures { result ≡ min (taken_from (not (is_suit trump suit) && ruffs.now.next)
            (of_suit suit self.now.own) (of_suit suit self.now.next))
            (min (taken_from (not (is_suit trump suit) && ruffs.now.partner)
            (of_suit suit self.now.own) (of_suit suit self.now.partner))
            (taken_from (not (is_suit trump suit) && ruffs.now.last)
            (of_suit suit self.now.own) (of_suit suit self.now.last))) }
    {
        if trump == Trump::Suit(suit) {
            drawn
        } else {
            self.sure_of(ruffs, suit)
        }
    }
}

// The trumps of a hand.
#[tactic(auto, using(crate::proofs::Looking::no_trumps))]
fn trumps_in(hand: CardSet, trump: Trump) -> CardSet
    ensures { result ≡ trumps_of trump hand }
{
    match trump {
        Trump::NoTrump => CardSet::empty(),
        Trump::Suit(suit) => hand.of_suit(suit),
    }
}

// Whether a hand has more trumps than this many.
#[tactic(auto, using(crate::proofs::Looking::some_by_length))]
fn has_more(hand: CardSet, trump: Trump, many: u8) -> bool
    ensures { result ≡ nat_lt many (length (trumps_of trump hand)) }
{
    let trumps = trumps_in(hand, trump);
    if many == 0 {
        !trumps.is_empty()
    } else {
        many < trumps.count()
    }
}

/// Sure cards, suit by suit.
#[derive(Clone, Copy)]
pub struct Counts {
    pub spades: u8,
    pub hearts: u8,
    pub diamonds: u8,
    pub clubs: u8,
}

impl Counts {
    /// The sure cards of the four suits together.
    pub fn total(&self) -> u8
        requires { self.now.spades + self.now.hearts + self.now.diamonds + self.now.clubs ≤ 52 }
        ensures { result
            ≡ self.now.spades + self.now.hearts + self.now.diamonds + self.now.clubs }
    {
        self.spades + self.hearts + self.diamonds + self.clubs
    }
}

/// The sure cards of the hand on lead.
pub fn own_counts(position: &Position, left: CardSet) -> Counts
    requires { FitsLeft position.now left }
    ensures spades { result.spades
        ≡ sure_of (record { position = position.now; left = left }) Spades }
    ensures hearts { result.hearts
        ≡ sure_of (record { position = position.now; left = left }) Hearts }
    ensures diamonds { result.diamonds
        ≡ sure_of (record { position = position.now; left = left }) Diamonds }
    ensures clubs { result.clubs
        ≡ sure_of (record { position = position.now; left = left }) Clubs }
    ensures few { own_count (record { position = position.now; left = left }) ≤ 52 }
    ensures state { IsState (record { position = position.now; left = left }) }
{
    let hands = SeenHands::of(position, left, position.to_play());
    let trump = position.trump;
    let drawn = hands.drawn(trump);
    let ruffs = hands.ruffs(trump, drawn);
    Counts {
        spades: hands.sure_after(trump, drawn, &ruffs, Suit::Spades),
        hearts: hands.sure_after(trump, drawn, &ruffs, Suit::Hearts),
        diamonds: hands.sure_after(trump, drawn, &ruffs, Suit::Diamonds),
        clubs: hands.sure_after(trump, drawn, &ruffs, Suit::Clubs),
    }
}

/// At no trump, those of its partner.
pub fn partners_counts(position: &Position, left: CardSet) -> Counts
    requires { FitsLeft position.now left }
    ensures spades { result.spades
        ≡ partners_of (record { position = position.now; left = left }) Spades }
    ensures hearts { result.hearts
        ≡ partners_of (record { position = position.now; left = left }) Hearts }
    ensures diamonds { result.diamonds
        ≡ partners_of (record { position = position.now; left = left }) Diamonds }
    ensures clubs { result.clubs
        ≡ partners_of (record { position = position.now; left = left }) Clubs }
    ensures few { partners_count (record { position = position.now; left = left }) ≤ 52 }
{
    let hands = SeenHands::of(position, left, position.to_play().next().next());
    let none = Ruffs::none();
    Counts {
        spades: hands.sure_of(&none, Suit::Spades),
        hearts: hands.sure_of(&none, Suit::Hearts),
        diamonds: hands.sure_of(&none, Suit::Diamonds),
        clubs: hands.sure_of(&none, Suit::Clubs),
    }
}

// Whether a hand has a card of a suit in which its partner has this many sure cards.
fn leads_over(hand: CardSet, suit: Suit, sure: u8) -> bool
    ensures { result ≡ (nat_lt 0 sure && nat_lt 0 (length (of_suit suit hand))) }
{
    sure > 0 && hand.of_suit(suit).count() > 0
}

/// Whether the hand on lead can lead over to a sure card of its partner.
pub fn can_lead_over(position: &Position, left: CardSet, partners: &Counts) -> bool
    ensures { result ≡ ((nat_lt 0 partners.now.spades && nat_lt 0 (length (of_suit Spades
        (hand_of (record { position = position.now; left = left }) (to_play position.now)))))
        || (nat_lt 0 partners.now.hearts && nat_lt 0 (length (of_suit Hearts
        (hand_of (record { position = position.now; left = left }) (to_play position.now)))))
        || (nat_lt 0 partners.now.diamonds && nat_lt 0 (length (of_suit Diamonds
        (hand_of (record { position = position.now; left = left }) (to_play position.now)))))
        || (nat_lt 0 partners.now.clubs && nat_lt 0 (length (of_suit Clubs
        (hand_of (record { position = position.now; left = left }) (to_play position.now)))))) }
{
    let hand = position.hand(position.to_play(), left);
    leads_over(hand, Suit::Spades, partners.spades)
        || leads_over(hand, Suit::Hearts, partners.hearts)
        || leads_over(hand, Suit::Diamonds, partners.diamonds)
        || leads_over(hand, Suit::Clubs, partners.clubs)
}
