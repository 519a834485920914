// Parts of the world: a lot with a span.
ghost use Rattle.std.specs.Prelude.{◌≡◌};
ghost use Rattle.position.specs.Parts.{good_part};

use crate::lot::Lot;
use crate::span::Span;

// Document 01's part.
#[derive(Clone, Copy, Debug, PartialEq, Eq, Hash)]
pub struct Part {
    pub lot: Lot,
    pub span: Span,
}

impl Part {
    // The whole world and all time.
    pub const EVERYTHING: Part = Part {
        lot: Lot::WORLD,
        span: Span::ALL_TIME,
    };

    // Tells whether neither the lot nor the span is bad.
    pub fn is_good(self) -> bool
        ensures { result ≡ good_part self }
    {
        self.lot.is_good() && self.span.is_good()
    }
}
