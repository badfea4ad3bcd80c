// The journal: a decoder on a plain slice and a position, and a reader that holds the lent slice and its position.
#![tactic(auto)]

ghost use Rattle.std.specs.Prelude.{◌≡◌, ◌==◌, ℕ, List, take, drop};
ghost use Rattle.std.specs.List.{list_all};
ghost use Rattle.rules.specs.Answers.{entry_said};
ghost use Rattle.rules.specs.Journal.{entry_size, picture_place, whole_entry, decoded, entry_at};
ghost use Rattle.rules.specs.Numbers.{said_at};
ghost use Rattle.journal.specs.Kinds.{Decodes};

use records::get_u64;
use rules::{Decoded, Entry, Refusal};

// The size of a journal record, in bytes.
pub const ENTRY_SIZE: usize = 88;
// Where its key, its picture and its ticket lie in it.
const KEY_AT: usize = 8;

const PICTURE_AT: usize = 16;

const TICKET_AT: usize = 80;

// ---- the forms

// What a record's first byte says that it is.
#[derive(Clone, Copy, Debug)]
enum Kind {
    Read,
    Update,
    Fill,
    Age,
    Withdraw,
}

impl TryFrom<u8> for Kind {
    type Error = Refusal;

    ghost try_from_gives = { Decodes };

    fn try_from(byte: u8) -> Result<Kind, Refusal> {
        match byte {
            1 => Ok(Kind::Read),
            2 => Ok(Kind::Update),
            3 => Ok(Kind::Fill),
            4 => Ok(Kind::Age),
            5 => Ok(Kind::Withdraw),
            _ => Err(Refusal::UnknownForm),
        }
    }
}

// Whether bytes are all 0. It reads them all, which is faster than to stop at one that is not.
fn zeros(bytes: &[u8]) -> bool
    ensures { result ≡ list_all (λ b. b == 0) bytes.now }
{
    let mut good = true;
    for b in bytes {
        good &= *b == 0;
    }
    good
}

// The entry of a whole record, whose picture has a place in the journal.
#[tactic(auto, using(crate::proofs::Parts::parts), unfolding(rules::specs::Journal::whole_entry, rules::specs::Journal::of_form, rules::specs::Journal::weight_zero, rules::specs::Journal::key_zero, rules::specs::Journal::ticket_zero))]
fn whole_entry(bytes: &[u8; ENTRY_SIZE], picture: usize) -> Result<Entry, Refusal>
    ensures { (j : List ℕ) (at : ℕ) → bytes.now ≡ take entry_size (drop at j) → picture ≡ picture_place at → result ≡ whole_entry j at }
{
    let kind = Kind::try_from(bytes[0])?;
    let gaps = zeros(&bytes[1..2]) && zeros(&bytes[4..KEY_AT]);
    let weight = u64::from(u16::from_le_bytes([bytes[2], bytes[3]]));
    let key = get_u64(bytes, KEY_AT);
    let ticket = get_u64(bytes, TICKET_AT);
    // Only a fill may have a ticket or a picture.
    let bare = gaps && ticket == 0 && zeros(&bytes[PICTURE_AT..TICKET_AT]);
    match kind {
        Kind::Read if bare => Ok(Entry::Read { key, weight }),
        Kind::Update if bare => Ok(Entry::Update { key, weight }),
        Kind::Fill if gaps && weight == 0 => Ok(Entry::Fill {
            key,
            picture,
            ticket,
        }),
        Kind::Age if bare && weight == 0 && key == 0 => Ok(Entry::Age),
        Kind::Withdraw if bare && weight == 0 => Ok(Entry::Withdraw { key }),
        _ => Err(Refusal::UnknownForm),
    }
}

// The record at a position and the position after it. One of unknown form is passed over; a short end and an end are stayed at.
#[tactic(auto, using(crate::proofs::Said::said_of), unfolding(rules::specs::Journal::entry_at, rules::specs::Journal::picture_place, rules::specs::Journal::decoded))]
pub fn decode(bytes: &[u8], at: usize) -> Decoded
    ensures { (result ≡ entry_at bytes.now at) × (entry_said result.entry ≡ said_at bytes.now at) }
{
    if bytes.len() <= at {
        return Decoded {
            entry: None,
            next: at,
        };
    }
    let Some(record) = bytes[at..].first_chunk() else {
        return Decoded {
            entry: Some(Err(Refusal::ShortEnd)),
            next: at,
        };
    };
    Decoded {
        entry: Some(whole_entry(record, at + PICTURE_AT)),
        next: at + ENTRY_SIZE,
    }
}

// ---- the reader

// A lent journal and the position that is read next.
#[derive(Clone, Copy, Debug)]
pub struct Reader<'a> {
    pub bytes: &'a [u8],
    pub at: usize,
}

impl<'a> Reader<'a> {
    // A reader at the journal's first record.
    pub fn open(bytes: &'a [u8]) -> Reader<'a>
        ensures { (result.bytes ≡ bytes.entry) × (result.at ≡ 0) }
    {
        Reader { bytes, at: 0 }
    }
}

// One record after another. It need not come to `None`, since a short end is given again each time.
impl Iterator for Reader<'_> {
    type Item = Result<Entry, Refusal>;

    ghost next_gives = { λ was given is.
        (decoded given is.at ≡ entry_at was.bytes.now was.at)
        × (is.bytes ≡ was.bytes)
        × (entry_said given ≡ said_at was.bytes.now was.at) };

    // The next record. The reader moves to the position after it.
    #[tactic(auto, unfolding(rules::specs::Journal::decoded))]
    fn next(&mut self) -> Option<Result<Entry, Refusal>> {
        let step = decode(self.bytes, self.at);
        self.at = step.next;
        step.entry
    }
}

// The first two records of a journal, and the position after them.
#[derive(Clone, Copy, Debug)]
pub struct Pair {
    pub first: Option<Result<Entry, Refusal>>,
    pub second: Option<Result<Entry, Refusal>>,
    pub at: usize,
}

// One record after another, by one reader.
#[tactic(auto, unfolding(rules::specs::Journal::decoded))]
pub fn first_two(bytes: &[u8]) -> Pair
    ensures { (result.first ≡ (entry_at bytes.now 0).entry) × (decoded result.second result.at ≡ entry_at bytes.now (entry_at bytes.now 0).next) }
{
    let mut reader = Reader::open(bytes);
    let first = reader.next();
    let second = reader.next();
    Pair {
        first,
        second,
        at: reader.at,
    }
}
