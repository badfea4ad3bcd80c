// Numbers, records and lines in lent bytes. Only proved callers reach these functions, so each may ask that its place lies inside.
#![tactic(auto)]

ghost use Rattle.std.specs.Prelude.{◌≡◌, ◌+◌, ◌*◌, ◌<◌, ◌≤◌, length};
ghost use Rattle.rules.specs.Bytes.{get64, put64, record_at, put_record, record_count, line_size, line_count, line_at, put_line};
ghost use Rattle.rules.specs.declared.Record.{Record};

use rules::Record;

// The size of a record, in bytes.
pub const RECORD_SIZE: usize = 40;
// Where its numbers lie in it, after the key.
const HEAT_AT: usize = 8;

const SLACK_AT: usize = 16;

const STATE_AT: usize = 24;

const TICKET_AT: usize = 32;

// The size of a line and of a picture, in bytes.
pub const LINE_SIZE: usize = 64;

// The 64-bit number at a place, least significant byte first.
#[tactic(auto, unfolding(rules::specs::Bytes::get64))]
pub fn get_u64(bytes: &[u8], at: usize) -> u64
    requires { at + 8 ≤ length bytes.now }
    ensures { result ≡ get64 bytes.now at }
{
    u64::from_le_bytes(bytes[at..at + 8].try_into().unwrap())
}

// Puts a 64-bit number at a place.
#[tactic(auto, using(crate::proofs::Words::put64_part))]
pub fn put_u64(bytes: &mut [u8], at: usize, n: u64)
    requires { at + 8 ≤ length bytes.old }
    ensures { bytes.new ≡ put64 bytes.old at n }
{
    bytes[at..at + 8].copy_from_slice(&n.to_le_bytes());
}

// How many whole records a table has.
#[tactic(auto, unfolding(rules::specs::Bytes::record_count))]
pub fn record_count(table: &[u8]) -> usize
    ensures { result ≡ record_count table.now }
{
    table.len() / RECORD_SIZE
}

// How many whole lines the lent lines have.
#[tactic(auto, unfolding(rules::specs::Bytes::line_count))]
pub fn line_count(lines: &[u8]) -> usize
    ensures { result ≡ line_count lines.now }
{
    lines.len() / LINE_SIZE
}

// The record at place i of a table.
#[tactic(auto, unfolding(rules::specs::Bytes::record_count, rules::specs::Bytes::record_at))]
pub fn record_at(table: &[u8], i: usize) -> Record
    requires { i < record_count table.now }
    ensures { result ≡ record_at table.now i }
{
    let at = RECORD_SIZE * i;
    Record {
        key: get_u64(table, at),
        heat: get_u64(table, at + HEAT_AT),
        slack: get_u64(table, at + SLACK_AT),
        state: get_u64(table, at + STATE_AT),
        ticket: get_u64(table, at + TICKET_AT),
    }
}

// The record at place i becomes r.
#[tactic(auto, unfolding(rules::specs::Bytes::record_count, rules::specs::Bytes::put_record))]
pub fn put_record(table: &mut [u8], i: usize, r: Record)
    requires { i < record_count table.old }
    ensures { table.new ≡ put_record table.old i r }
{
    let at = RECORD_SIZE * i;
    put_u64(table, at, r.key);
    put_u64(table, at + HEAT_AT, r.heat);
    put_u64(table, at + SLACK_AT, r.slack);
    put_u64(table, at + STATE_AT, r.state);
    put_u64(table, at + TICKET_AT, r.ticket);
}

// The record at place i becomes what a function makes of it.
pub fn change_record<F: FnOnce(Record) -> Record>(table: &mut [u8], i: usize, change: F)
    requires { (i < record_count table.old) × F.pre change (record_at table.old i) }
    ensures { (changed : Record) → ((r : _) → F.post change (record_at table.old i) r → r ≡ changed) → table.new ≡ put_record table.old i changed }
{
    let r = record_at(table, i);
    put_record(table, i, change(r));
}

// The bytes of line n.
#[tactic(auto, unfolding(rules::specs::Bytes::line_count, rules::specs::Bytes::line_at))]
pub fn line_at(lines: &[u8], n: usize) -> &[u8]
    requires { n < line_count lines.now }
    ensures value { result.now ≡ line_at lines.entry.now n }
    ensures place { result.ref_ptr ≡ (lines.entry.ref_ptr.0, lines.entry.ref_ptr.1 + line_size * n) }
{
    let at = LINE_SIZE * n;
    &lines[at..at + LINE_SIZE]
}

// Line n becomes a picture. (Inlined: a fill is run often, and takes no call for it.)
#[tactic(auto, unfolding(rules::specs::Bytes::line_count, rules::specs::Bytes::put_line))]
#[inline(always)]
pub fn put_line(lines: &mut [u8], n: usize, picture: &[u8; LINE_SIZE])
    requires { n < line_count lines.old }
    ensures { lines.new ≡ put_line lines.old n picture.now }
{
    let at = LINE_SIZE * n;
    lines[at..at + LINE_SIZE].copy_from_slice(picture);
}
