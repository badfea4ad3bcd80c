// Runs what a Rattle caller can call and nothing else here runs, and prints what each call gives: fresh on memory that is not zero,
// show, the levelled sum, the calls on a gauge that the caller holds, looks and withdrawals among them, a late fill, resizes, a serial
// that is spent, a key's store by a ring, the ends of epochs, the journal's reader, and a run whose rows have no room.
#![tactic(auto)]

use journal::{ENTRY_SIZE, decode, first_two};
use records::{RECORD_SIZE, put_record};
use rules::{Answer, Entry, Gauge, Record, Refusal, SERIAL_LIMIT, State};
use scaler::{Epoch, Ratio, Scale};
use std::io::Write;
use std::{fmt, io};

// ---- what is printed of a value

#[derive(Clone, Copy)]
struct Told(Result<Answer, Refusal>);

impl fmt::Display for Told {
    fn fmt<W: fmt::Write>(&self, f: &mut fmt::Formatter<W>) -> fmt::Result {
        let answer = match self.0 {
            Ok(answer) => answer,
            Err(cause) => return write!(f, "{cause}"),
        };
        f.write_str(answer.word())?;
        match answer {
            Answer::Hit(line) => write!(f, " {line}"),
            Answer::Wanted { line, ticket } => write!(f, " {line} {ticket}"),
            _ => Ok(()),
        }
    }
}

#[derive(Clone, Copy)]
struct Heard(Option<Result<Entry, Refusal>>);

impl fmt::Display for Heard {
    fn fmt<W: fmt::Write>(&self, f: &mut fmt::Formatter<W>) -> fmt::Result {
        match self.0 {
            Some(Ok(Entry::Read { key, weight })) => write!(f, "read {key} {weight}"),
            Some(Ok(Entry::Update { key, weight })) => write!(f, "update {key} {weight}"),
            Some(
                Ok(
                    Entry::Fill {
                        key,
                        picture,
                        ticket,
                    },
                ),
            ) => write!(f, "fill {key} {picture} {ticket}"),
            Some(Ok(Entry::Age)) => write!(f, "age"),
            Some(Ok(Entry::Withdraw { key })) => write!(f, "withdraw {key}"),
            Some(Err(cause)) => write!(f, "{cause}"),
            None => write!(f, "done"),
        }
    }
}

#[derive(Clone, Copy)]
struct Stands(Gauge);

impl fmt::Display for Stands {
    fn fmt<W: fmt::Write>(&self, f: &mut fmt::Formatter<W>) -> fmt::Result {
        let Gauge {
            total,
            ceiling,
            serial,
        } = self.0;
        write!(f, "gauge {total} {ceiling} {serial}")
    }
}

#[derive(Clone, Copy)]
struct Bytes<'a>(&'a [u8]);

impl fmt::Display for Bytes<'_> {
    fn fmt<W: fmt::Write>(&self, f: &mut fmt::Formatter<W>) -> fmt::Result {
        for byte in self.0 {
            write!(f, " {byte}")?;
        }
        Ok(())
    }
}

// Where it is printed: standard output, as far as that takes it. A print that fails is passed over and the next one tried, so that the
// program ends with 0 wherever a write fails.
#[derive(Drop)]
struct Tried<'a, P>(&'a P);

impl<P: Print> Print for Tried<'_, P> {
    fn print<D: fmt::Display + Drop>(&self, value: D) -> io::Result<()> {
        let _ = self.0.print(value);
        Ok(())
    }

    fn println<D: fmt::Display + Drop>(&self, value: D) -> io::Result<()> {
        let _ = self.0.println(value);
        Ok(())
    }

    fn write_all(&self, bytes: &[u8]) -> io::Result<()> {
        let _ = self.0.write_all(bytes);
        Ok(())
    }
}

// ---- the calls

// Whether a call is done, and the memory that it leaves.
fn left(
    rt: &impl Print,
    call: &str,
    completion: Result<(), Refusal>,
    table: &[u8],
    gauge: Gauge,
    lines: &[u8],
) -> io::Result<()> {
    match completion {
        Ok(()) => print!(rt; "{call}: done")?,
        Err(cause) => print!(rt; "{call}: {cause}")?,
    }
    println!(rt; "; {}", Stands(gauge))?;
    println!(rt; "table{}", Bytes(table))?;
    println!(rt; "lines{}", Bytes(lines))
}

fn start(rt: &impl Print, table: &mut [u8], gauge: &mut Gauge, lines: &[u8]) -> io::Result<()> {
    let completion = cache::fresh(table, gauge, lines);
    left(rt, "fresh", completion, table, *gauge, lines)
}

fn show(rt: &impl Print, table: &[u8], gauge: Gauge, lines: &[u8], key: u64) -> io::Result<()> {
    println!(rt;
        "show:{}",
        Bytes(cache::show(table, gauge, lines, key, b"none"))
    )
}

fn sum(rt: &impl Print, table: &[u8], gauge: Gauge, lines: &[u8]) -> io::Result<()> {
    match cache::levelled_sum(table, gauge, lines) {
        Ok(levels) => println!(rt; "levelled sum: {levels}"),
        Err(cause) => println!(rt; "levelled sum: {cause}"),
    }
}

// The memory of a cache of three records and two lines, and the calls on it.
#[derive(Drop)]
struct Hub {
    table: [u8; 120],
    gauge: Gauge,
    lines: [u8; 128],
}

impl Hub {
    fn told(&self, rt: &impl Print, call: &str, reply: Result<Answer, Refusal>) -> io::Result<()> {
        println!(rt; "{call}: {}; {}", Told(reply), Stands(self.gauge))
    }

    fn read(&mut self, rt: &impl Print, key: u64, weight: u64) -> io::Result<()> {
        let reply = cache::read(&mut self.table, &mut self.gauge, &self.lines, key, weight);
        self.told(rt, "read", reply)
    }

    fn update(&mut self, rt: &impl Print, key: u64, weight: u64) -> io::Result<()> {
        let reply = cache::update(&mut self.table, &mut self.gauge, &self.lines, key, weight);
        self.told(rt, "update", reply)
    }

    fn fill(&mut self, rt: &impl Print, key: u64, picture: &[u8], ticket: u64) -> io::Result<()> {
        let gauge = self.gauge;
        let reply = cache::fill(
            &mut self.table,
            gauge,
            &mut self.lines,
            key,
            picture,
            ticket,
        );
        self.told(rt, "fill", reply)
    }

    fn withdraw(&mut self, rt: &impl Print, key: u64) -> io::Result<()> {
        let reply = cache::withdraw(&mut self.table, &mut self.gauge, &self.lines, key);
        self.told(rt, "withdraw", reply)
    }

    fn age(&mut self, rt: &impl Print) -> io::Result<()> {
        let reply = cache::age(&mut self.table, &mut self.gauge, &self.lines);
        self.told(rt, "age", reply)
    }

    fn show(&self, rt: &impl Print, key: u64) -> io::Result<()> {
        show(rt, &self.table, self.gauge, &self.lines, key)
    }
}

// ---- what is run

// 5 gets line 0 with ticket 1, and is filled.
fn filled(rt: &impl Print, hub: &mut Hub, picture: &[u8]) -> io::Result<()> {
    hub.read(rt, 5, 3)?;
    hub.fill(rt, 5, picture, 1)?;
    hub.read(rt, 5, 1)
}

// 7 gets line 1 with ticket 2, 9 gets none. 7 cools and keeps its line with ticket 3, and a fill with ticket 2 comes too late.
fn late(rt: &impl Print, hub: &mut Hub, picture: &[u8]) -> io::Result<()> {
    hub.read(rt, 7, 4)?;
    hub.read(rt, 9, 2)?;
    hub.update(rt, 7, 1)?;
    hub.fill(rt, 7, picture, 2)
}

// An untracked class and two wrong weights change nothing.
fn unchanged(rt: &impl Print, hub: &mut Hub) -> io::Result<()> {
    hub.update(rt, 99, 1)?;
    hub.read(rt, 5, 65536)?;
    hub.update(rt, 5, 65536)
}

// 5 is on a filled line, 7 on an empty one, 9 on none; 42 is untracked. An update of weight 0 is no look.
fn looks(rt: &impl Print, hub: &mut Hub) -> io::Result<()> {
    for key in [5, 7, 9, 42] {
        hub.read(rt, key, 0)?;
    }
    hub.update(rt, 5, 0)
}

// One aging, and one that is refused, since lines of one byte are not whole. Then 9 leaves for 11, which takes 7's line
// with ticket 4.
fn agings(rt: &impl Print, hub: &mut Hub) -> io::Result<()> {
    hub.age(rt)?;
    let reply = cache::age(&mut hub.table, &mut hub.gauge, b"x");
    hub.told(rt, "age", reply)?;
    hub.read(rt, 11, 1)
}

// The line as it lies; and the stand-in: for an empty line, no line, no record, lines that are not whole, and heats over the total.
fn shown(rt: &impl Print, hub: &Hub) -> io::Result<()> {
    for key in [5, 11, 7, 42] {
        hub.show(rt, key)?;
    }
    show(rt, &hub.table, hub.gauge, b"x", 5)?;
    show(rt, &hub.table, Gauge::default(), &hub.lines, 5)
}

// 5 leaves line 0 to 7, with ticket 5. Then 7 is withdrawn, and nobody waits for the line. 5 is not tracked any more, and begins at the
// ceiling when it is read again, with ticket 6.
fn withdrawn(rt: &impl Print, hub: &mut Hub) -> io::Result<()> {
    hub.withdraw(rt, 5)?;
    hub.read(rt, 7, 0)?;
    hub.withdraw(rt, 7)?;
    hub.withdraw(rt, 5)?;
    hub.read(rt, 5, 1)?;
    sum(rt, &hub.table, hub.gauge, &hub.lines)
}

// What a hub holds, resized into other memory.
fn resize(rt: &impl Print, hub: &Hub, to_table: &mut [u8], to_lines: &mut [u8]) -> io::Result<()> {
    let mut to_gauge = Gauge {
        total: 6,
        ceiling: 7,
        serial: 8,
    };
    let completion = resizing::resize(
        &hub.table,
        hub.gauge,
        &hub.lines,
        to_table,
        &mut to_gauge,
        to_lines,
    );
    left(rt, "resize", completion, to_table, to_gauge, to_lines)
}

// 5 and 11 are equally hot, and on lines; 11's is filled. Two records and one line: 5, the first, loses its line. Four and three: each
// keeps its own. One and none: 11 is left. As many lines as records are refused.
fn resized(rt: &impl Print, hub: &Hub) -> io::Result<()> {
    resize(rt, hub, &mut [255u8; 80], &mut [171u8; 64])?;
    resize(rt, hub, &mut [255u8; 160], &mut [171u8; 192])?;
    resize(rt, hub, &mut [255u8; 40], &mut [])?;
    resize(rt, hub, &mut [255u8; 40], &mut [171u8; 64])
}

// No more tickets can be given: a read and a withdrawal are refused, and a look is answered.
fn spent(rt: &impl Print, hub: &mut Hub) -> io::Result<()> {
    hub.gauge.serial = SERIAL_LIMIT;
    hub.read(rt, 5, 1)?;
    hub.withdraw(rt, 5)?;
    hub.read(rt, 5, 0)
}

// The bytes of a record that is tracked, without a line.
#[tactic(auto, unfolding(rules::specs::Bytes::record_count, rules::specs::States::state_number, rules::specs::Table::empty_state, rules::specs::Table::filled_state))]
fn tracked(heat: u64) -> [u8; RECORD_SIZE] {
    let mut bytes = [0; RECORD_SIZE];
    put_record(
        &mut bytes,
        0,
        Record {
            heat,
            state: State::Unlined.number(),
            ..Record::default()
        },
    );
    bytes
}

// Five records, the last free: heats 9, 1, 4 and 2. One record; none; and heats over the total.
fn sums(rt: &impl Print) -> io::Result<()> {
    let gauge = Gauge {
        total: 20,
        ceiling: 3,
        serial: 0,
    };
    let five = [
        tracked(9),
        tracked(1),
        tracked(4),
        tracked(2),
        [0; RECORD_SIZE],
    ];
    let five = five.as_flattened();
    sum(rt, five, gauge, b"")?;
    sum(rt, &tracked(7), gauge, b"")?;
    sum(rt, b"", gauge, b"")?;
    sum(rt, five, Gauge { total: 8, ..gauge }, b"")
}

fn store(rt: &impl Print, ring: &[u8], position: u64) -> io::Result<()> {
    match ring::store_of(ring, position) {
        Ok(store) => println!(rt; "store: {store}"),
        Err(cause) => println!(rt; "store: {cause}"),
    }
}

// Three points, in any order: a key on one, between two, and past the last. A point and a byte; none; and two at one position.
fn stores(rt: &impl Print) -> io::Result<()> {
    let three = [
        20u64.to_le_bytes(),
        2u64.to_le_bytes(),
        10u64.to_le_bytes(),
        1u64.to_le_bytes(),
        4000u64.to_le_bytes(),
        3u64.to_le_bytes(),
    ];
    let three = three.as_flattened();
    for position in [10, 11, 4001] {
        store(rt, three, position)?;
    }
    store(rt, &[0u8; 17], 10)?;
    store(rt, b"", 10)?;
    store(rt, &[0u8; 32], 10)
}

fn epoch(rt: &impl Print, lookups: &[u8], epoch: Epoch) -> io::Result<()> {
    match scaler::decide(lookups, epoch) {
        Ok(
            Scale::Grow {
                lines,
                records,
                target,
            },
        ) => {
            println!(rt;
                "epoch: grow {lines} {records}, target {} / {}",
                target.over, target.under
            )
        }
        Ok(Scale::Shrink { lines, records }) => println!(rt; "epoch: shrink {lines} {records}"),
        Ok(Scale::Age) => println!(rt; "epoch: age"),
        Ok(Scale::Stay) => println!(rt; "epoch: stay"),
        Err(cause) => println!(rt; "epoch: {cause}"),
    }
}

// Two stores, uneven and even: a grow, a shrink, an aging and a stay; then no store, and as many lines as records.
fn epochs(rt: &impl Print) -> io::Result<()> {
    let uneven = [111u64.to_le_bytes(), 100u64.to_le_bytes()];
    let uneven = uneven.as_flattened();
    let even = [110u64.to_le_bytes(), 100u64.to_le_bytes()];
    let even = even.as_flattened();
    let first = Epoch {
        on: 100,
        off: 300,
        lines: 2,
        records: 8,
        imbalance: Ratio {
            over: 11,
            under: 10,
        },
        target: Ratio { over: 50, under: 1 },
        tolerance: 100,
    };
    epoch(rt, uneven, first)?;
    let colder = Epoch {
        on: 89,
        off: 269,
        ..first
    };
    epoch(rt, even, colder)?;
    epoch(rt, even, Epoch { off: 271, ..colder })?;
    epoch(rt, even, first)?;
    epoch(rt, b"", first)?;
    epoch(rt, even, Epoch { lines: 8, ..first })
}

// The bytes of a journal record without a picture and a ticket.
fn entry(kind: u8, weight: u16, key: u64) -> [u8; ENTRY_SIZE] {
    let mut bytes = [0; ENTRY_SIZE];
    bytes[0] = kind;
    bytes[2..4].copy_from_slice(&weight.to_le_bytes());
    bytes[8..16].copy_from_slice(&key.to_le_bytes());
    bytes
}

// Two records, by one reader.
fn pairs(rt: &impl Print, journal: &[u8]) -> io::Result<()> {
    let pair = first_two(journal);
    println!(rt;
        "{}; {}; at {}",
        Heard(pair.first),
        Heard(pair.second),
        pair.at
    )
}

// A read, a fill, an update, an aging, a withdrawal, a record of unknown form and a short end.
fn entries(rt: &impl Print) -> io::Result<()> {
    let mut fill = entry(3, 0, 7);
    fill[16] = 9;
    fill[80..].copy_from_slice(&0x0102_0304_0506_0708u64.to_le_bytes());
    let journal = [
        entry(1, 259, 5),
        fill,
        entry(2, 2, 6),
        entry(4, 0, 0),
        entry(5, 0, 8),
        entry(9, 0, 0),
        [0; ENTRY_SIZE],
    ];
    // The last of the seven keeps 30 bytes. (The proof asks that the cut lies inside.)
    let whole = journal.as_flattened();
    let journal = &whole[..whole.len().min(558)];
    pairs(rt, journal)?;
    for at in [176, 264, 352, 440, 528, 558, 559] {
        let decoded = decode(journal, at);
        println!(rt; "{}; next {}", Heard(decoded.entry), decoded.next)?;
    }
    pairs(rt, &[9u8; 100])?;
    pairs(rt, b"")
}

// A run of a journal on a fresh cache: how far it came, and its rows.
fn ran(rt: &impl Print, journal: &[u8], numbered: u64, out: &mut [u8]) -> io::Result<()> {
    let mut table = [0u8; 120];
    let mut lines = [0u8; 64];
    let ended = runner::run(
        &mut table,
        Gauge::default(),
        &mut lines,
        journal,
        numbered,
        out,
    );
    let progress = ended.progress;
    let how_far = if ended.whole { "whole run" } else { "run" };
    let at = progress.at;
    let numbered = progress.numbered;
    println!(rt;
        "{how_far}: at {at}; numbered {numbered}; {}",
        Stands(progress.gauge)
    )?;
    io::writer(rt).write_all(&out[..progress.end])
}

// Two reads and an aging. The first two rows have 13 bytes each, and a record is run while 92 are left. The last number is 2^64 − 1.
fn runs(rt: &impl Print) -> io::Result<()> {
    let journal = [entry(1, 3, 5), entry(1, 1, 5), entry(4, 0, 0)];
    let journal = journal.as_flattened();
    ran(rt, journal, 7, &mut [0u8; 91])?;
    ran(rt, journal, 7, &mut [0u8; 104])?;
    ran(rt, journal, 7, &mut [0u8; 105])?;
    ran(rt, journal, 7, &mut [0u8; 118])?;
    ran(rt, journal, u64::MAX - 1, &mut [0u8; 118])
}

// A picture between its first and its last byte alike.
fn picture(first: u8, middle: u8, last: u8) -> [u8; 64] {
    let mut picture = [middle; 64];
    picture[0] = first;
    picture[63] = last;
    picture
}

fn main(rt: HostRuntime) -> io::Result<()> {
    let rt = Tried(&rt);
    let mut gauge = Gauge {
        total: 6,
        ceiling: 7,
        serial: 8,
    };
    start(&rt, &mut [255u8; 119], &mut gauge, b"")?;
    let mut hub = Hub {
        table: [255; 120],
        gauge,
        lines: [170; 128],
    };
    start(&rt, &mut hub.table, &mut hub.gauge, &hub.lines)?;
    let one = picture(1, 7, 9);
    filled(&rt, &mut hub, &one)?;
    late(&rt, &mut hub, &one)?;
    unchanged(&rt, &mut hub)?;
    looks(&rt, &mut hub)?;
    agings(&rt, &mut hub)?;
    shown(&rt, &hub)?;
    hub.fill(&rt, 11, &picture(2, 8, 3), 4)?;
    hub.show(&rt, 11)?;
    sum(&rt, &hub.table, hub.gauge, &hub.lines)?;
    withdrawn(&rt, &mut hub)?;
    resized(&rt, &hub)?;
    spent(&rt, &mut hub)?;
    sums(&rt)?;
    stores(&rt)?;
    epochs(&rt)?;
    entries(&rt)?;
    runs(&rt)
}
