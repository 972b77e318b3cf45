//! What stands before each request of a session: how long it is and, where both headers may come, which one it has (document 01, "Starred
//! cases", its last paragraphs; W-201).
#![tactic(auto)]

ghost use Rattle.std.specs.Prelude.{◌≡◌, ◌≤◌, length, IfSome};
ghost use Rattle.frames.specs.Frames.{prefix_size, prefix_of, says_kind, kind_of, first_size, first_said};

use header::Kind;

/// Which requests a session has, and so what stands before each.
#[derive(Clone, Copy, Debug, PartialEq, Eq, Hash)]
pub enum Framing {
    /// Under the first header: a length.
    FirstHeader,
    /// Under either: its header, its control code, its length.
    BothHeaders,
}

/// What stands before a request. Where that is a length alone, the header is the first and the control code 0.
// The header stays a number: the definition `first_size` asks `says_kind` of what was read, a number that is neither header too.
#[derive(Clone, Copy, Debug, PartialEq, Eq, Hash)]
pub struct Prefix {
    pub header: u32,
    pub control: u32,
    pub length: u32,
}

// Values of `header`.
const FIRST_HEADER: u32 = 0;

const LINUX_HEADER: u32 = 1;

/// The bytes before a request's own.
pub fn prefix_size(framing: Framing) -> usize
    ensures { result ≡ prefix_size framing }
{
    match framing {
        Framing::FirstHeader => 4,
        Framing::BothHeaders => 12,
    }
}

/// What they say.
pub fn read_prefix(framing: Framing, session: &[u8]) -> Prefix
    requires { prefix_size framing ≤ length session.now }
    ensures { result ≡ prefix_of framing session.now }
{
    match framing {
        Framing::FirstHeader => Prefix {
            header: FIRST_HEADER,
            control: 0,
            length: wire::read32(session, 0),
        },
        Framing::BothHeaders => Prefix {
            header: wire::read32(session, 0),
            control: wire::read32(session, 4),
            length: wire::read32(session, 8),
        },
    }
}

// They say a header, and a control code beside the Linux one alone.
#[tactic(auto, unfolding(crate::specs::Frames::says_kind))]
fn says_kind(prefix: Prefix) -> bool
    ensures { result ≡ says_kind prefix }
{
    match prefix.header {
        FIRST_HEADER => prefix.control == 0,
        LINUX_HEADER => true,
        _ => false,
    }
}

/// The header that they say.
#[tactic(auto, unfolding(crate::specs::Frames::kind_of))]
pub fn kind_of(prefix: Prefix) -> Kind
    ensures { result ≡ kind_of prefix }
{
    match prefix.header {
        FIRST_HEADER => Kind::Srb,
        _ => Kind::Linux(prefix.control),
    }
}

/// The bytes that the first request of a session stands in, with what is before it; none where no
/// whole request does.
#[tactic(auto, unfolding(crate::specs::Frames::first_size))]
pub fn first_size(framing: Framing, session: &[u8]) -> Option<usize>
    ensures value { first_said result ≡ first_size framing session.now }
    ensures bounds { IfSome result (λ size. (prefix_size framing ≤ size) × (size ≤ length session.now)) }
{
    let before = prefix_size(framing);
    if session.len() < before {
        return None;
    }
    let prefix = read_prefix(framing, session);
    if !says_kind(prefix) {
        return None;
    }
    let size = before + prefix.length as usize;
    if session.len() < size {
        return None;
    }
    Some(size)
}
