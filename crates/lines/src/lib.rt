// Which records are on lines: a record takes a line that is free or a colder one's, a cooled one is demoted for a hotter, and that of a
// withdrawn class goes to the hottest. Whoever takes a line, or keeps it through an update, gets a new ticket.
#![tactic(auto)]

ghost use Rattle.std.specs.Prelude.{◌≡◌, true, ◌<◌, ◌^◌};
ghost use Rattle.rules.specs.Bytes.{record_at, record_count};
ghost use Rattle.rules.specs.declared.Record.{Record};
ghost use Rattle.rules.specs.Table.{is_lined, empty_state};
ghost use Rattle.rules.specs.Calls.{serial_limit, memory, SameLent};
ghost use Rattle.rules.specs.Steps.{next_ticket, ticketed, renew, give_line, hand_on, hand_over, admit, demote, vacate};
ghost use Rattle.lines.specs.Room.{LinesFit, HeatsBelow};

use fields::{is_lined, line_of, on_empty_line, unlined};
use records::{change_record, line_count, put_record, record_at};
use rules::{Hub, Record};
use tracker::{claimable, hottest_unlined};

// What a line and a heat must be (`LinesFit`, `HeatsBelow`) is a clause and no ghost field of `Hub`: it would have to be shown again at
// each record that is written, also where nothing asks for it any more. That the serial is below its limit is a clause, too: a ticket
// that is taken uses it up, and a resize, which takes many, may go on where the limit is passed, as long as they fit 64 bits.

// The next ticket, which the gauge has given from now on.
#[tactic(auto, unfolding(rules::specs::Steps::ticketed, rules::specs::Steps::next_ticket, rules::specs::Table::with_gauge))]
fn take_ticket(hub: &mut Hub) -> u64
    requires { next_ticket (memory hub.old) < 2 ^ 64 }
    ensures same_lent { SameLent hub.old hub.new }
    ensures memory { memory hub.new ≡ ticketed (memory hub.old) }
    ensures ticket { result ≡ next_ticket (memory hub.old) }
{
    hub.gauge.serial += 1;
    hub.gauge.serial
}

// The record at place i keeps its line, and gets a new ticket.
#[tactic(auto, unfolding(rules::specs::Steps::renew, rules::specs::Steps::next_ticket, rules::specs::Steps::ticketed, rules::specs::Table::write, rules::specs::Table::with_table, rules::specs::Table::with_gauge, rules::specs::Table::places))]
fn renew(hub: &mut Hub, i: usize)
    requires { (i < record_count hub.old.table.now) × (hub.old.gauge.now.serial < serial_limit) }
    ensures same_lent { SameLent hub.old hub.new }
    ensures memory { memory hub.new ≡ renew (memory hub.old) i }
{
    let ticket = take_ticket(hub);
    change_record(hub.table, i, |r| Record { ticket, ..r });
}

// The record at place i takes a line, empty, with a new ticket.
#[tactic(auto, unfolding(rules::specs::Table::empty_state, rules::specs::Steps::give_line, rules::specs::Steps::ticketed, rules::specs::Table::write, rules::specs::Table::with_table, rules::specs::Table::with_gauge, rules::specs::Table::places))]
pub fn give_line(hub: &mut Hub, i: usize, line: usize)
    requires { (i < record_count hub.old.table.now) × (empty_state line < 2 ^ 64) × (next_ticket (memory hub.old) < 2 ^ 64) }
    ensures same_lent { SameLent hub.old hub.new }
    ensures memory { memory hub.new ≡ give_line (memory hub.old) i line }
{
    let ticket = take_ticket(hub);
    change_record(hub.table, i, |r| on_empty_line(line, ticket, r));
}

// A record becomes one without a line, and its line goes to another.
#[tactic(auto, unfolding(rules::specs::Bytes::record_count, rules::specs::Table::is_lined, rules::specs::Table::line_of, rules::specs::Table::empty_state, rules::specs::Steps::next_ticket, rules::specs::Steps::hand_on, rules::specs::Table::write, rules::specs::Table::with_table, rules::specs::Table::places))]
fn hand_on(hub: &mut Hub, from: usize, left: Record, to: usize)
    requires { (from < record_count hub.old.table.now) × (to < record_count hub.old.table.now) × (is_lined (record_at hub.old.table.now from) ≡ true) × (hub.old.gauge.now.serial < serial_limit) }
    ensures same_lent { SameLent hub.old hub.new }
    ensures memory { memory hub.new ≡ hand_on (memory hub.old) from left to }
{
    let table = &mut *hub.table;
    let line = line_of(record_at(table, from));
    put_record(table, from, left);
    give_line(hub, to, line)
}

// A record gives its line to another, and stays tracked.
#[tactic(auto, unfolding(rules::specs::Steps::hand_over, rules::specs::Table::places))]
fn hand_over(hub: &mut Hub, from: usize, to: usize)
    requires { (from < record_count hub.old.table.now) × (to < record_count hub.old.table.now) × (is_lined (record_at hub.old.table.now from) ≡ true) × (hub.old.gauge.now.serial < serial_limit) }
    ensures same_lent { SameLent hub.old hub.new }
    ensures memory { memory hub.new ≡ hand_over (memory hub.old) from to }
{
    let table = &mut *hub.table;
    let left = unlined(record_at(table, from));
    hand_on(hub, from, left, to)
}

// Step 5: the record at place i gets a line if one is unused, or if it is hotter than the coldest on a line.
#[tactic(auto, unfolding(rules::specs::Table::empty_state, rules::specs::Steps::next_ticket, rules::specs::Steps::admit, rules::specs::Table::places, rules::specs::Table::size, rules::specs::Table::line_total, rules::specs::Bytes::line_count, rules::specs::Steps::promote, rules::specs::Steps::replace_coldest, rules::specs::Table::is_lined, rules::specs::Table::line_of, rules::specs::Table::hotter))]
pub fn admit(hub: &mut Hub, i: usize)
    requires { (i < record_count hub.old.table.now) × LinesFit (memory hub.old) × HeatsBelow (memory hub.old) × (hub.old.gauge.now.serial < serial_limit) }
    ensures same_lent { SameLent hub.old hub.new }
    ensures memory { memory hub.new ≡ admit (memory hub.old) i }
{
    let table = &mut *hub.table;
    let r = record_at(table, i);
    if is_lined(r) {
        return;
    }
    let claim = claimable(table, line_count(hub.lines));
    if let Some(line) = claim.line {
        give_line(hub, i, line);
        return;
    }
    if let Some((j, s)) = claim.coldest
        && s.heat < r.heat
    {
        hand_over(hub, j, i);
    }
}

// The record at place i keeps its line unless the hottest record without one is hotter.
#[tactic(auto, unfolding(rules::specs::Steps::demote, rules::specs::Table::places, rules::specs::Table::size, rules::specs::Steps::demote_for, rules::specs::Table::line_of, rules::specs::Table::line_total, rules::specs::Table::hotter), using(rules::proofs::Finds::hottest_inside))]
pub fn demote(hub: &mut Hub, i: usize)
    requires { (i < record_count hub.old.table.now) × (hub.old.gauge.now.serial < serial_limit) }
    ensures same_lent { SameLent hub.old hub.new }
    ensures memory { memory hub.new ≡ demote (memory hub.old) i }
{
    let table = &mut *hub.table;
    let r = record_at(table, i);
    if !is_lined(r) {
        return;
    }
    match hottest_unlined(table) {
        Some((j, s)) if r.heat < s.heat => hand_over(hub, i, j),
        _ => renew(hub, i),
    }
}

// The record at place i is freed. A line that it had goes to the hottest record without one, or becomes unused. (Not inlined: it is rarely
// run, and the loops of the exports have better places in memory without it.)
#[tactic(auto, unfolding(rules::specs::Steps::vacate, rules::specs::Steps::vacate_for, rules::specs::Table::freed, rules::specs::Table::write, rules::specs::Table::with_table, rules::specs::Table::places, rules::specs::Table::size), using(rules::proofs::Finds::hottest_inside))]
#[inline(never)]
pub fn vacate(hub: &mut Hub, i: usize)
    requires { (i < record_count hub.old.table.now) × (hub.old.gauge.now.serial < serial_limit) }
    ensures same_lent { SameLent hub.old hub.new }
    ensures memory { memory hub.new ≡ vacate (memory hub.old) i }
{
    let table = &mut *hub.table;
    let freed = Record::default();
    if is_lined(record_at(table, i))
        && let Some((j, _)) = hottest_unlined(table)
    {
        hand_on(hub, i, freed, j);
    } else {
        put_record(table, i, freed);
    }
}
