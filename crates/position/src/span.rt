// Spans: runs of seconds, the first inside and the last outside.
ghost use Rattle.std.specs.Prelude.{◌≡◌};
ghost use Rattle.position.specs.Spans.{good_span, in_span, all_time, span_of, told_span};

// `from` is inside, `until` is not. It crosses to a host as it is.
#[repr(C)]
#[derive(Clone, Copy, Debug, PartialEq, Eq, Hash)]
pub struct Span {
    pub from: u32,
    pub until: u32,
}

impl Span {
    pub const ALL_TIME: Span = Span {
        from: 0,
        until: 0xffff_ffff,
    };

    // Tells whether the span is not turned round.
    pub fn is_good(self) -> bool
        ensures { result ≡ good_span self }
    {
        self.from <= self.until
    }

    // Makes a span, if it is good; else none. A constant has no contract of its own, so this one says what all time is.
    #[tactic(auto, unfolding(crate::specs::Spans::span_of))]
    pub fn new(from: u32, until: u32) -> Option<Span>
        ensures told { told_span result ≡ span_of from until }
        ensures constant { (Span.ALL_TIME.from ≡ all_time.from)
            × (Span.ALL_TIME.until ≡ all_time.until) }
    {
        let span = Span { from, until };
        span.is_good().then_some(span)
    }

    // Tells whether a second lies in the span.
    pub fn has(self, second: u32) -> bool
        ensures { result ≡ in_span self second }
    {
        self.from <= second && second < self.until
    }
}
