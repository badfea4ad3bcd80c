// Tables that follow the trade: a table, its gauge and its lines are copied into others of another K and C. The source stays as it is, so
// who loses a line and who is dropped is settled in a copy of its table.
#![tactic(auto)]

ghost use Rattle.std.specs.Prelude.{ℕ, ◌≡◌, ◌≤◌, ◌<◌, ◌+◌, ◌-◌, ◌^◌, true, length};
ghost use Rattle.rules.specs.Bytes.{record_at, record_count, line_size, line_count};
ghost use Rattle.rules.specs.declared.Gauge.{Gauge};
ghost use Rattle.rules.specs.declared.Record.{Record};
ghost use Rattle.rules.specs.Table.{is_tracked, is_lined, line_of, line_total, most_total};
ghost use Rattle.rules.specs.Answers.{completion_said};
ghost use Rattle.rules.specs.Calls.{most_records, lent, seen, memory, SameLent};
ghost use Rattle.rules.specs.Steps.{outcome, next_ticket};
ghost use Rattle.resizing.specs.Room.{PackFits, ResizeFits};
ghost use Rattle.resizing.specs.Resize.{unline_coldest, demoted, drop_victim, evicted, kept, place_of, line_for, moved, packed_one, packed_first, give_hottest, promoted, filled_up, resize_steps, resize_verdict, resize_outcome, resize_said, lined_count, tracked_count};

use fields::{is_filled, is_free, is_lined, line_of, unlined};
use lines::give_line;
use records::{
    LINE_SIZE, RECORD_SIZE, line_at, line_count, put_line, put_record, record_at, record_count,
};
use rules::{Gauge, Hub, MOST_RECORDS, Record, Refusal, State, View, must};
use tracker::{coldest_lined, hottest_unlined, lined_count, tracked_count, victim};
use verdicts::{sizes_good, withdraw_verdict};

// The most bytes that a table may have.
const MOST_BYTES: usize = RECORD_SIZE * MOST_RECORDS;

// ---- what is kept

// The coldest record on a line loses it.
#[tactic(auto, unfolding(crate::specs::Resize::unline_coldest, crate::specs::Resize::unline, rules::specs::Table::write, rules::specs::Table::with_table, rules::specs::Table::places, rules::specs::Table::size), using(rules::proofs::Finds::coldest_inside))]
fn unline_coldest(hub: &mut Hub)
    ensures same_lent { SameLent hub.old hub.new }
    ensures memory { memory hub.new ≡ unline_coldest (memory hub.old) }
{
    let table = &mut *hub.table;
    if let Some((i, r)) = coldest_lined(table) {
        put_record(table, i, unlined(r));
    }
}

// The coldest lose their lines, until no more are on lines than there will be.
#[tactic(auto, unfolding(crate::specs::Resize::demoted, crate::specs::Resize::times, crate::specs::Resize::lined_count, rules::specs::Table::places, rules::specs::Table::size))]
fn demote(hub: &mut Hub, lines: usize)
    ensures same_lent { SameLent hub.old hub.new }
    ensures memory { memory hub.new ≡ demoted lines (memory hub.old) }
{
    let table = &mut *hub.table;
    let more = lined_count(table).saturating_sub(lines);
    for _ in 0..more {
        unline_coldest(hub);
    }
}

// The victim is dropped.
#[tactic(auto, unfolding(crate::specs::Resize::drop_victim, crate::specs::Resize::drop, rules::specs::Steps::raised, rules::specs::Table::freed, rules::specs::Table::with_gauge, rules::specs::Table::write, rules::specs::Table::with_table, rules::specs::Table::places, rules::specs::Table::size), using(rules::proofs::Finds::victim_inside))]
fn drop_victim(hub: &mut Hub)
    ensures same_lent { SameLent hub.old hub.new }
    ensures memory { memory hub.new ≡ drop_victim (memory hub.old) }
{
    let table = &mut *hub.table;
    if let Some((i, r)) = victim(table) {
        put_record(table, i, Record::default());
        hub.gauge.ceiling = hub.gauge.ceiling.max(r.heat);
    }
}

// Victims are dropped, until no more are tracked than there will be records. (Not inlined: it is rarely run, and the exports keep their
// places in memory.)
#[tactic(auto, unfolding(crate::specs::Resize::evicted, crate::specs::Resize::times, crate::specs::Resize::tracked_count, rules::specs::Table::places, rules::specs::Table::size))]
#[inline(never)]
fn evict(hub: &mut Hub, records: usize)
    ensures same_lent { SameLent hub.old hub.new }
    ensures memory { memory hub.new ≡ evicted records (memory hub.old) }
{
    let table = &mut *hub.table;
    let more = tracked_count(table).saturating_sub(records);
    for _ in 0..more {
        drop_victim(hub);
    }
}

// What is kept of a table for so many records and lines: the coldest lose their lines, and then victims are dropped.
#[tactic(auto, unfolding(crate::specs::Resize::kept))]
fn keep(table: &mut [u8], gauge: &mut Gauge, lines: &[u8], to_records: usize, to_lines: usize)
    ensures memory { lent table.new gauge.new lines.now ≡ kept to_records to_lines (lent table.old gauge.old lines.now) }
    ensures length { length table.new ≡ length table.old }
{
    let hub = &mut Hub {
        table,
        gauge,
        lines,
    };
    demote(hub, to_lines);
    evict(hub, to_records);
}

// ---- the copy

// A record with its line, if it is on one, being line n.
#[tactic(auto, unfolding(crate::specs::Resize::moved, rules::specs::Table::is_filled, rules::specs::Table::is_lined, rules::specs::Table::filled_state, rules::specs::Table::empty_state, rules::specs::States::state_number))]
fn moved(n: usize, r: Record) -> Record
    requires { is_lined r ≡ true → n < most_records }
    ensures { result ≡ moved n r }
{
    let line = n as u64;
    match State::from(r.state) {
        State::Empty(_) => Record {
            state: State::Empty(line).number(),
            ..r
        },
        State::Filled(_) => Record {
            state: State::Filled(line).number(),
            ..r
        },
        State::Free | State::Unlined => r,
    }
}

// The record at place i of what is kept comes to the target, if it is one that is tracked: to this place, and if it is on a line, to this
// one, with the picture.
#[tactic(auto, unfolding(crate::specs::Resize::packed_one, crate::specs::Resize::carried, crate::specs::Resize::place_of, crate::specs::Resize::line_for, rules::specs::Table::is_tracked, rules::specs::Table::is_free, rules::specs::Table::is_lined, rules::specs::Table::line_of, rules::specs::Table::with_lines, rules::specs::Table::write, rules::specs::Table::with_table, rules::specs::Table::places), using(crate::proofs::Copying::line_length, crate::proofs::Copying::put_line_length))]
fn pack_one(
    table: &[u8],
    lines: &[u8],
    i: usize,
    place: usize,
    line: usize,
    to_table: &mut [u8],
    to_lines: &mut [u8],
)
    requires { (i < record_count table.now) × (place ≡ place_of (record_at table.now) i) × (line ≡ line_for (record_at table.now) i) × (is_tracked (record_at table.now i) ≡ true → place < record_count to_table.old) × (is_lined (record_at table.now i) ≡ true → (line < line_count to_lines.old) × (line_of (record_at table.now i) < line_count lines.now)) × (line_count to_lines.old ≤ most_records) }
    ensures memory { (g h : Gauge) → lent to_table.new h to_lines.new ≡ packed_one (lent table.now g lines.now) i (lent to_table.old h to_lines.old) }
    ensures lengths { (length to_table.new ≡ length to_table.old) × (length to_lines.new ≡ length to_lines.old) }
{
    let r = record_at(table, i);
    if is_free(r) {
        return;
    }
    put_record(to_table, place, moved(line, r));
    if is_lined(r) {
        put_line(
            to_lines,
            line,
            line_at(lines, line_of(r)).try_into().unwrap(),
        );
    }
}

// All that is kept is packed into the target, in its old order.
#[tactic(auto, unfolding(crate::specs::Resize::packed_first, crate::specs::Resize::place_of, crate::specs::Resize::line_for, rules::specs::Pass::count_of, rules::specs::Pass::sum_of, rules::specs::Pass::pass, rules::specs::Table::is_tracked, rules::specs::Table::is_free))]
fn pack(table: &[u8], lines: &[u8], to_table: &mut [u8], to_lines: &mut [u8])
    requires { PackFits (record_at table.now) (record_count table.now) (line_count lines.now) (record_count to_table.old) (line_count to_lines.old) }
    ensures { (g h : Gauge) → lent to_table.new h to_lines.new ≡ packed_first (lent table.now g lines.now) (record_count table.now) (lent to_table.old h to_lines.old) }
{
    let mut place = 0;
    let mut line = 0;
    for i in 0..record_count(table) {
        pack_one(table, lines, i, place, line, to_table, to_lines);
        let r = record_at(table, i);
        place += usize::from(!is_free(r));
        line += usize::from(is_lined(r));
    }
}

// ---- spare lines

// A spare line goes to the hottest record without one, if there is one.
#[tactic(auto, unfolding(crate::specs::Resize::give_hottest, crate::specs::Resize::give_spare, rules::specs::Table::empty_state, rules::specs::Steps::next_ticket, rules::specs::Steps::give_line, rules::specs::Steps::ticketed, rules::specs::Table::with_gauge, rules::specs::Table::write, rules::specs::Table::with_table, rules::specs::Table::places, rules::specs::Table::size), using(rules::proofs::Finds::hottest_inside))]
fn give_hottest(hub: &mut Hub, line: usize)
    requires { (line < most_records) × (next_ticket (memory hub.old) < 2 ^ 64) }
    ensures same_lent { SameLent hub.old hub.new }
    ensures memory { memory hub.new ≡ give_hottest line (memory hub.old) }
    ensures serial { hub.new.gauge.now.serial ≤ next_ticket (memory hub.old) }
{
    let table = &mut *hub.table;
    if let Some((i, _)) = hottest_unlined(table) {
        give_line(hub, i, line);
    }
}

// The spare lines go, lowest first, to the hottest records without one.
#[tactic(auto, unfolding(crate::specs::Resize::filled_up, crate::specs::Resize::promoted, crate::specs::Resize::lined_count, rules::specs::Table::places, rules::specs::Table::size, rules::specs::Table::line_total, rules::specs::Bytes::line_count, rules::specs::Steps::next_ticket))]
fn fill_up(hub: &mut Hub)
    requires { (line_total (memory hub.old) ≤ most_records) × (hub.old.gauge.now.serial + line_total (memory hub.old) < 2 ^ 64) }
    ensures same_lent { SameLent hub.old hub.new }
    ensures memory { memory hub.new ≡ filled_up (memory hub.old) }
{
    let table = &mut *hub.table;
    for line in lined_count(table)..line_count(hub.lines) {
        give_hottest(hub, line);
    }
}

// ---- the call

// Whether a resize is refused: the sizes of both come first, then the source's order and serial.
#[tactic(auto, unfolding(crate::specs::Resize::resize_verdict, rules::specs::Calls::withdraw_verdict, rules::specs::Calls::verdict, rules::specs::Calls::sizes_test))]
fn resize_verdict(source: View, to_table: &[u8], to_lines: &[u8]) -> Result<(), Refusal>
    ensures { (g : Gauge) → result ≡ resize_verdict (seen source.entry) (lent to_table.now g to_lines.now) }
{
    must(sizes_good(to_table, to_lines), Refusal::WrongSizes)?;
    withdraw_verdict(source)
}

// An accepted resize.
#[tactic(auto, unfolding(crate::specs::Resize::resize_steps, crate::specs::Resize::packed, rules::specs::Table::fresh_memory, rules::specs::Table::with_gauge, rules::specs::Table::places, rules::specs::Table::size, rules::specs::Table::line_total, rules::specs::Bytes::record_count, rules::specs::Bytes::line_count))]
fn resize_steps(
    table: &[u8],
    gauge: Gauge,
    lines: &[u8],
    to_table: &mut [u8],
    to_gauge: &mut Gauge,
    to_lines: &mut [u8],
)
    requires { ResizeFits (lent table.now gauge lines.now) (lent to_table.old to_gauge.old to_lines.old) }
    ensures { lent to_table.new to_gauge.new to_lines.new ≡ resize_steps (lent table.now gauge lines.now) (lent to_table.old to_gauge.old to_lines.old) }
{
    let mut copy = [0; MOST_BYTES];
    let kept = &mut copy[..table.len()];
    kept.copy_from_slice(table);
    *to_gauge = gauge;
    keep(
        kept,
        to_gauge,
        lines,
        record_count(to_table),
        line_count(to_lines),
    );
    to_table.fill(0);
    pack(kept, lines, to_table, to_lines);
    fill_up(&mut Hub {
        table: to_table,
        gauge: to_gauge,
        lines: to_lines,
    });
}

// Copies a table, its gauge and its lines into others of another K and C.
#[tactic(auto, unfolding(crate::specs::Resize::resize_outcome, crate::specs::Resize::resize_said, rules::specs::Calls::unless, rules::specs::Answers::completion_said))]
pub fn resize(
    table: &[u8],
    gauge: Gauge,
    lines: &[u8],
    to_table: &mut [u8],
    to_gauge: &mut Gauge,
    to_lines: &mut [u8],
) -> Result<(), Refusal>
    ensures outcome { outcome result (lent to_table.new to_gauge.new to_lines.new) ≡ resize_outcome (lent table.now gauge lines.now) (lent to_table.old to_gauge.old to_lines.old) }
    ensures said { completion_said result ≡ resize_said (lent table.now gauge lines.now) (lent to_table.old to_gauge.old to_lines.old) }
{
    let source = View {
        table,
        gauge,
        lines,
    };
    resize_verdict(source, to_table, to_lines)?;
    resize_steps(table, gauge, lines, to_table, to_gauge, to_lines);
    Ok(())
}
