// A part of a region.
use std::marker::Model;

/// Some words of a region that lie side by side. Contracts see the place of its first word, counted from 0, and the number of
/// its words.
#[derive(Clone, Copy, Debug, PartialEq, Eq)]
pub struct Window {
    place: usize,
    len: usize,
}

impl Model for Window {
    ghost use Rattle.cdl_pool.specs.Windows.{Extent};

    ghost Value = { Extent };

    ghost view = { λ w. record { place = w.place; len = w.len } };

    ghost inverse = { λ e. record { place = e.place; len = e.len } };
}

impl Window {
    ghost use Rattle.std.specs.Prelude.{◌≡◌};

    pub(crate) fn new(place: usize, len: usize) -> Window
        ensures { result ≡ record { place = place; len = len } }
    {
        Window { place, len }
    }

    /// The place of its first word.
    pub fn place(&self) -> usize
        ensures { result ≡ self.now.place }
    {
        self.place
    }

    /// The number of its words.
    pub fn len(&self) -> usize
        ensures { result ≡ self.now.len }
    {
        self.len
    }
}
