//! Seats as declarer sees the table, and as the compass names them.
ghost use Rattle.std.specs.Prelude.{◌≡◌};
ghost use Rattle.card_sets.specs.Seats.{next_seat, next_compass};

/// A seat at the table, named from declarer's side, clockwise.
#[derive(Clone, Copy, Debug, PartialEq, Eq, Hash)]
pub enum Seat {
    Declarer,
    Left,
    Dummy,
    Right,
}

impl Seat {
    /// The seat that plays after this one.
    pub fn next(self) -> Seat
        ensures { result ≡ next_seat self }
    {
        match self {
            Seat::Declarer => Seat::Left,
            Seat::Left => Seat::Dummy,
            Seat::Dummy => Seat::Right,
            Seat::Right => Seat::Declarer,
        }
    }
}

/// A side of the table, named by the compass, clockwise.
#[derive(Clone, Copy, Debug, PartialEq, Eq, Hash)]
pub enum Compass {
    N,
    E,
    S,
    W,
}

impl Compass {
    /// The side that plays after this one.
    pub fn next(self) -> Compass
        ensures { result ≡ next_compass self }
    {
        match self {
            Compass::N => Compass::E,
            Compass::E => Compass::S,
            Compass::S => Compass::W,
            Compass::W => Compass::N,
        }
    }
}
