// The declared types of the pattern cache, with what they say of themselves, and the numbers of document 01 that code uses. What they
// mean, and what every call does with them, is in specs/.
#![tactic(auto)]

ghost use Rattle.std.specs.Prelude.{◌≡◌, ◌<◌, ◌^◌, [], ◌∷◌, ◌++◌, Some, Ok, codes};
ghost use Rattle.std.specs.Fmt.{decimal};
ghost use Rattle.rules.specs.Refusals.{number};
ghost use Rattle.rules.specs.States.{state_number};
ghost use Rattle.rules.specs.Journal.{word_of};
ghost use Rattle.rules.specs.Calls.{must, verdict};

use std::error::Error;
use std::fmt;

// L: the most that the total may be.
pub const MOST_TOTAL: u64 = 4294967295;
// The most that a read or an update may weigh.
pub const MOST_WEIGHT: u64 = 65535;
// The serial at which no more tickets are given.
pub const SERIAL_LIMIT: u64 = 9223372036854775808;
// The most records that a table may have.
pub const MOST_RECORDS: usize = 1024;

// The causes of refusal. A caller in C is told them by number.
#[derive(Clone, Copy, Debug, PartialEq, Eq)]
pub enum Refusal {
    WrongSizes = 1,
    WrongWeight = 2,
    NotInOrder = 3,
    WrongPicture = 4,
    NoLine = 5,
    AlreadyFilled = 6,
    UnknownForm = 7,
    ShortEnd = 8,
    StaleTicket = 9,
    SerialSpent = 10,
    DoubledPosition = 11,
    WrongRing = 12,
    WrongEpoch = 13,
}

impl From<Refusal> for u64 {
    ghost from_gives = { λ cause n. n ≡ number cause };

    fn from(cause: Refusal) -> u64 {
        cause as u64
    }
}

impl fmt::Display for Refusal {
    ghost output = { λ cause. Some (codes "refused " ++ decimal (number cause)) };

    fn fmt<W: fmt::Write>(&self, f: &mut fmt::Formatter<W>) -> fmt::Result {
        write!(f, "refused {}", u64::from(*self))
    }
}

impl Error for Refusal {}

// One test: refused with a cause, unless it is good.
#[tactic(auto, unfolding(crate::specs::Calls::verdict))]
pub fn must(good: bool, cause: Refusal) -> Result<(), Refusal>
    ensures { result ≡ verdict (must good cause ∷ []) }
{
    if good { Ok(()) } else { Err(cause) }
}

// One of the table's records: a class that is tracked, or a free place.
#[derive(Clone, Copy, Debug, PartialEq, Eq, Default)]
pub struct Record {
    // The class.
    pub key: u64,
    // CoT's hotness: what was read, less what was updated, never below the true heat.
    pub heat: u64,
    // Space-Saving's error bound: heat exceeds the true heat by at most this.
    pub slack: u64,
    // Free, tracked, or on a cache line that is empty or filled (specs/Table.antt).
    pub state: u64,
    // Names the turn in which its line waits for a picture; 0 without a line.
    pub ticket: u64,
}

// What a record's state says. A record holds its number, as the lent bytes do.
#[derive(Clone, Copy, Debug, PartialEq, Eq)]
pub enum State {
    Free,
    // Tracked without a line.
    Unlined,
    // On a line that is empty.
    Empty(u64),
    // On a line that is filled.
    Filled(u64),
}

impl From<u64> for State {
    ghost from_gives = { λ n state. n ≡ state_number state };

    #[tactic(auto, unfolding(crate::specs::States::state_number, crate::specs::Table::empty_state, crate::specs::Table::filled_state))]
    fn from(n: u64) -> State {
        match n {
            0 => State::Free,
            1 => State::Unlined,
            _ if n % 2 == 0 => State::Empty((n - 2) / 2),
            _ => State::Filled((n - 3) / 2),
        }
    }
}

impl State {
    // Its number. (No From: that of a very large line does not fit.)
    #[tactic(auto, unfolding(crate::specs::States::state_number, crate::specs::Table::empty_state, crate::specs::Table::filled_state))]
    pub fn number(self) -> u64
        requires { state_number self < 2 ^ 64 }
        ensures { result ≡ state_number self }
    {
        match self {
            State::Free => 0,
            State::Unlined => 1,
            State::Empty(line) => 2 + 2 * line,
            State::Filled(line) => 3 + 2 * line,
        }
    }
}

// The three numbers that go with a table.
#[derive(Clone, Copy, Debug, PartialEq, Eq, Default)]
pub struct Gauge {
    // All weight read so far, halved by each aging.
    pub total: u64,
    // Bounds the true heat of every class that has no record.
    pub ceiling: u64,
    // The last ticket that was given.
    pub serial: u64,
}

// A key, looked up, by the three cases of the definition. (No Option of a line: a class without a record and one without a line are
// told apart.)
#[derive(Clone, Copy, Debug, PartialEq, Eq)]
pub enum Lookup {
    // No record.
    Untracked,
    // A record without a line.
    Unlined,
    // A record on a line, whether the line is filled, and the record's ticket.
    Lined {
        place: usize,
        line: usize,
        filled: bool,
        ticket: u64,
    },
}

// The answer of a read, update, fill, aging or withdrawal that is not refused.
#[derive(Clone, Copy, Debug, PartialEq, Eq)]
pub enum Answer {
    Aged,
    Changed,
    Unknown,
    Stored,
    Passed,
    Withdrawn,
    Hit(u64),
    // With the ticket that its fill has to bring.
    Wanted { line: u64, ticket: u64 },
}

impl Answer {
    // Its word, without a number.
    #[tactic(auto, unfolding(crate::specs::Journal::word_of))]
    pub fn word(self) -> &'static str
        ensures { result.now ≡ word_of (Ok self) }
    {
        match self {
            Answer::Aged => "aged",
            Answer::Changed => "changed",
            Answer::Unknown => "unknown",
            Answer::Stored => "stored",
            Answer::Passed => "passed",
            Answer::Withdrawn => "withdrawn",
            Answer::Hit(_) => "hit",
            Answer::Wanted { .. } => "wanted",
        }
    }
}

// One journal record, decoded. A fill's picture is given by its place in the journal.
#[derive(Clone, Copy, Debug, PartialEq, Eq)]
pub enum Entry {
    Read {
        key: u64,
        weight: u64,
    },
    Update {
        key: u64,
        weight: u64,
    },
    Fill {
        key: u64,
        picture: usize,
        ticket: u64,
    },
    Age,
    Withdraw {
        key: u64,
    },
}

// What reading the journal at a position gives: the entry, if there is one left and it is not refused, and the position after it.
#[derive(Clone, Copy, Debug, PartialEq, Eq)]
pub struct Decoded {
    pub entry: Option<Result<Entry, Refusal>>,
    pub next: usize,
}

// ---- what a call is lent

// To look at.
#[derive(Clone, Copy, Debug)]
pub struct View<'a> {
    pub table: &'a [u8],
    pub gauge: Gauge,
    pub lines: &'a [u8],
}

// To change: table and gauge where they lie. The lines' bytes stay.
#[derive(Drop)]
pub struct Hub<'a> {
    pub table: &'a mut [u8],
    pub gauge: &'a mut Gauge,
    pub lines: &'a [u8],
}
