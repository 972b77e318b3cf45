//! The closing tally of a session (W-206): a kind for each request's line, by the two numbers that it shows, and how many lines of each kind there are.
#![tactic(auto)]

ghost use Rattle.std.specs.Prelude.{◌≡◌, ◌<◌, [], ◌∷◌, true, Some};
ghost use Rattle.tally.specs.Kinds.{is, kind_of};
ghost use Rattle.tally.specs.Texts.{line_text, totals_text};
ghost use Rattle.tally.specs.Taken.{taken_of};
ghost use Rattle.tally.specs.Totals.{Sums, totals, no_totals, counted, after, is_last};

use codes::{CallError, ReturnCode};
use std::fmt;
use std::marker::Model;

/// A request's line: the call's number, and the return code where that is 0.
// Two numbers of any value, and no enums: so a record has them as bytes, which a C caller lends (`ascheknopf_tally`).
#[derive(Clone, Copy, Debug, PartialEq, Eq, Hash)]
pub struct Line {
    pub call: u32,
    pub code: u32,
}

/// The code of a line whose request got none.
pub const NO_CODE: u32 = u32::MAX;

/// What a line counts as: "granted", "denied", "otherwise refused" or one of the "100s".
#[derive(Clone, Copy, Debug, PartialEq, Eq, Hash)]
pub enum Kind {
    Granted,
    Denied,
    Otherwise,
    Short,
}

impl Line {
    /// Its kind.
    pub fn kind(self) -> Kind
        ensures { is (kind_of result) self ≡ true }
    {
        if self.call == u32::from(CallError::ShortBuffer) {
            Kind::Short
        } else if self.call != 0 {
            Kind::Otherwise
        } else if self.code == codes::SUCCESS {
            Kind::Granted
        } else if self.code == u32::from(ReturnCode::WriteAttempted) {
            Kind::Denied
        } else {
            Kind::Otherwise
        }
    }
}

/// `0 CODE`, or `CALL -` where the call gave a number and wrote no code.
impl fmt::Display for Line {
    ghost output = { λ l. Some (line_text l) };

    fn fmt<W: fmt::Write>(&self, f: &mut fmt::Formatter<W>) -> fmt::Result {
        let Line { call, code } = *self;
        if call == 0 {
            write!(f, "{call} {code}")
        } else {
            write!(f, "{call} -")
        }
    }
}

/// A request was cut short, or is too long: the session ends.
#[derive(Clone, Copy, Debug, PartialEq, Eq, Hash)]
pub struct Cut;

/// What comes of reading on in a session: the line of a request that was handled, or `None` where no request was left.
pub type Taken = Result<Option<Line>, Cut>;

/// Nothing is read behind a cut request, nor at the end.
pub fn is_last(taken: Taken) -> bool
    ensures { result ≡ is_last (taken_of taken) }
{
    match taken {
        Ok(Some(_)) => false,
        Ok(None) => true,
        Err(Cut) => true,
    }
}

/// How many lines there are, and how many of each kind, which sum to all.
#[derive(Clone, Copy, Debug, PartialEq, Eq, Hash)]
pub struct Totals {
    requests: u64,
    granted: u64,
    denied: u64,
    otherwise: u64,
    short: u64,
}

impl Model for Totals {
    ghost use Rattle.tally.specs.Totals.{Totals, totals, Sums};

    ghost Value = { Totals };

    ghost view = { λ t. totals t.requests t.granted t.denied t.otherwise t.short };

    ghost invariant = { λ t. Sums (totals t.requests t.granted t.denied t.otherwise t.short) };

    ghost inverse = { λ t. record { requests = t.requests; granted = t.granted; denied = t.denied; otherwise = t.otherwise; short = t.short } };
}

impl Totals {
    /// The totals of these numbers, of which the last four sum to the first.
    pub fn new(requests: u64, granted: u64, denied: u64, otherwise: u64, short: u64) -> Totals
        requires { Sums (totals requests granted denied otherwise short) }
        ensures { result ≡ totals requests granted denied otherwise short }
    {
        Totals {
            requests,
            granted,
            denied,
            otherwise,
            short,
        }
    }

    /// Before the first line.
    pub fn none() -> Totals
        ensures { result ≡ no_totals }
    {
        Totals {
            requests: 0,
            granted: 0,
            denied: 0,
            otherwise: 0,
            short: 0,
        }
    }

    /// One line more. The four sum to the requests, so room for one more request is room in each.
    #[tactic(auto, using(crate::proofs::TotalsLaws::counted_granted, crate::proofs::TotalsLaws::counted_denied, crate::proofs::TotalsLaws::counted_otherwise, crate::proofs::TotalsLaws::counted_short))]
    pub fn count(self, line: Line) -> Totals
        requires requests_bound { self.requests < 18446744073709551615 }
        ensures { result ≡ counted self line }
    {
        let requests = self.requests + 1;
        match line.kind() {
            Kind::Granted => Totals {
                requests,
                granted: self.granted + 1,
                ..self
            },
            Kind::Denied => Totals {
                requests,
                denied: self.denied + 1,
                ..self
            },
            Kind::Otherwise => Totals {
                requests,
                otherwise: self.otherwise + 1,
                ..self
            },
            Kind::Short => Totals {
                requests,
                short: self.short + 1,
                ..self
            },
        }
    }

    /// After what was taken from a session.
    pub fn after(self, taken: Taken) -> Totals
        requires requests_bound { self.requests < 18446744073709551615 }
        ensures { result ≡ after self (taken_of taken) }
    {
        match taken {
            Ok(Some(line)) => self.count(line),
            Ok(None) => self,
            Err(Cut) => self,
        }
    }

    /// All five, in the order of the line `total`.
    pub fn as_array(self) -> [u64; 5]
        ensures { result ≡ self.requests ∷ self.granted ∷ self.denied ∷ self.otherwise ∷ self.short ∷ [] }
    {
        [
            self.requests,
            self.granted,
            self.denied,
            self.otherwise,
            self.short,
        ]
    }
}

/// The five numbers, each behind a space: requests, granted, denied, otherwise refused, 100s.
impl fmt::Display for Totals {
    ghost output = { λ t. Some (totals_text t) };

    fn fmt<W: fmt::Write>(&self, f: &mut fmt::Formatter<W>) -> fmt::Result {
        let [requests, granted, denied, otherwise, short] = self.as_array();
        write!(f, "{requests} {granted} {denied} {otherwise} {short}")
    }
}
