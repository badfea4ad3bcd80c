// Runs a journal on a cache: what each record does, and the row that it prints. A program over it only reads and writes.
#![tactic(auto)]

ghost use Rattle.std.specs.Prelude.{◌≡◌, ◌+◌, ◌≤◌, ◌<◌, ◌^◌, length};
ghost use Rattle.rules.specs.Journal.{performed, going_on};
ghost use Rattle.rules.specs.Calls.{lent};
ghost use Rattle.rules.specs.Steps.{outcome};
ghost use Rattle.rows.specs.Written.{row_size};
ghost use Rattle.runner.specs.Progress.{PictureInside, Steps, room_for, Ends};

use journal::{ENTRY_SIZE, decode};
use records::LINE_SIZE;
use rows::{ROW_SIZE, Rows};
use rules::{Answer, Entry, Gauge, Refusal};

// Does what a record says, on the cache.
#[tactic(auto, unfolding(rules::specs::Journal::performed, rules::specs::Journal::picture_at))]
fn perform(
    table: &mut [u8],
    gauge: &mut Gauge,
    lines: &mut [u8],
    journal: &[u8],
    entry: Result<Entry, Refusal>,
) -> Result<Answer, Refusal>
    requires { PictureInside journal.now entry }
    ensures { outcome result (lent table.new gauge.new lines.new) ≡ performed journal.now entry (lent table.old gauge.old lines.old) }
{
    match entry? {
        Entry::Read { key, weight } => cache::read(table, gauge, lines, key, weight),
        Entry::Update { key, weight } => cache::update(table, gauge, lines, key, weight),
        Entry::Fill {
            key,
            picture,
            ticket,
        } => {
            let bytes = &journal[picture..picture + LINE_SIZE];
            cache::fill(table, *gauge, lines, key, bytes, ticket)
        }
        Entry::Age => cache::age(table, gauge, lines),
        Entry::Withdraw { key } => cache::withdraw(table, gauge, lines, key),
    }
}

// How far a run has come: the gauge, the places in the journal and in the output, and how many records have been numbered.
#[derive(Clone, Copy, Debug)]
pub struct Progress {
    pub gauge: Gauge,
    pub at: usize,
    pub end: usize,
    pub numbered: u64,
}

// One record: it is done, and its row is written. (It is decoded at its place, and not by a reader, which would hold the place again.)
#[tactic(auto, unfolding(rules::specs::Journal::row_of))]
fn step(table: &mut [u8], lines: &mut [u8], journal: &[u8], out: &mut [u8], p: &mut Progress)
    requires { (p.old.end + row_size ≤ length out.old) × (p.old.numbered + 1 < 2 ^ 64) }
    ensures { Steps journal.now p.old (lent table.old p.old.gauge lines.old) out.old p.new (lent table.new p.new.gauge lines.new) out.new }
{
    let d = decode(journal, p.at);
    let Some(entry) = d.entry else {
        return;
    };
    let reply = perform(table, &mut p.gauge, lines, journal, entry);
    p.at = d.next;
    p.numbered += 1;
    let mut rows = Rows { out, end: p.end };
    rows.put_row(p.numbered, reply, p.gauge);
    p.end = rows.end;
}

// Whether one more row has room in an output of so many bytes, and a number.
#[tactic(auto, unfolding(crate::specs::Progress::room_for))]
fn has_room(most: usize, p: Progress) -> bool
    requires { p.end ≤ most }
    ensures { result ≡ room_for most p.end p.numbered }
{
    ROW_SIZE <= most - p.end && p.numbered < u64::MAX
}

// How far a run came, and whether that is the whole journal. Where it is not, the next row found no room. (No enum: how far it came is
// there in both cases, and callers want it without asking which.)
#[derive(Clone, Copy, Debug)]
pub struct Ended {
    pub progress: Progress,
    pub whole: bool,
}

// Runs a piece of a journal that holds whole records, and perhaps a short end, numbering on from the records before it. It stops
// before a record whose row has no room: ROW_SIZE bytes, and a number below 2^64. The records that are left begin at `progress.at`.
#[tactic(auto, unfolding(crate::specs::Progress::room_for, crate::specs::Progress::records_run, rules::specs::Journal::run_for, rules::specs::Journal::printed_all, rules::specs::Journal::entry_count), using(rows::proofs::Written::written_none))]
pub fn run(
    table: &mut [u8],
    gauge: Gauge,
    lines: &mut [u8],
    journal: &[u8],
    numbered: u64,
    out: &mut [u8],
) -> Ended
    ensures { Ends journal.now (going_on (lent table.old gauge lines.old) numbered) out.old result (lent table.new result.progress.gauge lines.new) out.new }
{
    let mut progress = Progress {
        gauge,
        at: 0,
        end: 0,
        numbered,
    };
    for i in 0..journal.len().div_ceil(ENTRY_SIZE) {
        if !has_room(out.len(), progress) {
            return Ended {
                progress,
                whole: false,
            };
        }
        step(table, lines, journal, out, &mut progress);
    }
    Ended {
        progress,
        whole: true,
    }
}
