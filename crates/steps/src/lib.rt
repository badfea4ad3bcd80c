// What an accepted aging, read, update or withdrawal does.
#![tactic(auto)]

ghost use Rattle.std.specs.Prelude.{◌≡◌, ◌≤◌, ◌<◌, ◌^◌, Some, None, Ok};
ghost use Rattle.rules.specs.Bytes.{record_at, record_count};
ghost use Rattle.rules.specs.Table.{most_total, aged_record, key_record, change_all};
ghost use Rattle.rules.specs.Calls.{serial_limit, memory, SameLent};
ghost use Rattle.rules.specs.Answers.{answer_number};
ghost use Rattle.rules.specs.Steps.{outcome, aged, decay_for, track, evict, admission, place, read_counted, peek_answer, read_steps, update_steps, withdraw_steps};
ghost use Rattle.lines.specs.Room.{LinesFit};
ghost use Rattle.steps.specs.Room.{HeatsFit, EachAged, Admits, admitted};

use fields::{aged_record, cooled, emptied, heated, new_record, read_answer};
use lines::{admit, demote, vacate};
use records::{change_record, put_record, record_at, record_count};
use rules::{Answer, Hub, MOST_TOTAL, Record};
use tracker::{key_record, some_place, walk};

// ---- Age

// Ages every record.
#[tactic(auto, unfolding(rules::specs::Table::change_all, rules::specs::Bytes::record_count))]
fn age_records(table: &mut [u8])
    ensures table { table.new ≡ change_all aged_record table.old (record_count table.old) }
    ensures each { EachAged table.old table.new }
{
    for i in 0..record_count(table) {
        change_record(table, i, aged_record);
    }
}

// An aging, of table and gauge.
#[tactic(auto, unfolding(rules::specs::Steps::aged, rules::specs::Steps::aged_gauge, rules::specs::Table::half_down, rules::specs::Table::with_gauge, rules::specs::Table::with_table, rules::specs::Table::size))]
pub fn age_all(hub: &mut Hub)
    ensures same_lent { SameLent hub.old hub.new }
    ensures memory { memory hub.new ≡ aged (memory hub.old) }
    ensures each { EachAged hub.old.table.now hub.new.table.now }
{
    let table = &mut *hub.table;
    age_records(table);
    hub.gauge.total /= 2;
    hub.gauge.ceiling /= 2;
}

// ---- Read

// Step 1: an aging where the total would exceed L.
#[tactic(auto, unfolding(rules::specs::Steps::decay_for))]
fn decay_for(hub: &mut Hub, weight: u16)
    requires { (hub.old.gauge.now.total ≤ most_total) × HeatsFit (memory hub.old) × LinesFit (memory hub.old) }
    ensures same_lent { SameLent hub.old hub.new }
    ensures memory { memory hub.new ≡ decay_for weight (memory hub.old) }
    ensures room { HeatsFit (memory hub.new) × LinesFit (memory hub.new) }
{
    if MOST_TOTAL < hub.gauge.total + u64::from(weight) {
        age_all(hub);
    }
}

// The record at place i becomes the key's.
#[tactic(auto, unfolding(rules::specs::Steps::track, rules::specs::Table::write, rules::specs::Table::with_table))]
fn track(hub: &mut Hub, key: u64, weight: u16, i: usize)
    requires { (i < record_count hub.old.table.now) × (hub.old.gauge.now.ceiling ≤ most_total) }
    ensures same_lent { SameLent hub.old hub.new }
    ensures memory { memory hub.new ≡ track (memory hub.old) key weight i }
{
    let table = &mut *hub.table;
    put_record(table, i, new_record(key, hub.gauge.ceiling, weight));
}

// Step 4: the victim leaves, and its record becomes the key's.
#[tactic(auto, unfolding(rules::specs::Steps::evict, rules::specs::Steps::raised, rules::specs::Table::with_gauge))]
fn evict(hub: &mut Hub, key: u64, weight: u16, i: usize, v: Record)
    requires { (i < record_count hub.old.table.now) × (hub.old.gauge.now.ceiling ≤ most_total) × (v.heat ≤ most_total) }
    ensures same_lent { SameLent hub.old hub.new }
    ensures memory { memory hub.new ≡ evict (memory hub.old) key weight i v }
{
    hub.gauge.ceiling = hub.gauge.ceiling.max(v.heat);
    track(hub, key, weight, i);
}

// Steps 2 to 4: the place of the record that the key has then, if it has one. One walk finds the key's record, or else the first free one
// and the victim.
#[tactic(auto, unfolding(rules::specs::Steps::read_counted, rules::specs::Steps::place, rules::specs::Table::places, rules::specs::Table::size, rules::specs::Table::heated, rules::specs::Table::write, rules::specs::Table::with_table), using(tracker::proofs::Walking::own_is, tracker::proofs::Walking::own_inside, tracker::proofs::Walking::free_is, tracker::proofs::Walking::free_inside, tracker::proofs::Walking::victim_is, tracker::proofs::Walking::victim_inside))]
fn place(hub: &mut Hub, key: u64, weight: u16) -> Option<usize>
    requires { HeatsFit (memory hub.old) × LinesFit (memory hub.old) × (hub.old.gauge.now.serial < serial_limit) }
    ensures same_lent { SameLent hub.old hub.new }
    ensures placed { admitted result (memory hub.new) ≡ read_counted (memory hub.old) key weight }
    ensures admits { Admits result (memory hub.new) }
{
    let table = &mut *hub.table;
    let found = walk(table, key);
    if let Some(i) = some_place(found.own) {
        put_record(table, i, heated(weight, record_at(table, i)));
        return Some(i);
    }
    if let Some(i) = some_place(found.free) {
        track(hub, key, weight, i);
        return Some(i);
    }
    let i = some_place(found.victim)?;
    let v = record_at(table, i);
    evict(hub, key, weight, i, v);
    Some(i)
}

// Steps 5 and 6: the record gets a line if it may, and the answer says how it stands.
#[tactic(auto, unfolding(rules::specs::Bytes::record_count, rules::specs::Steps::admission, rules::specs::Table::places))]
fn admission(hub: &mut Hub, i: usize) -> Answer
    requires { Admits (Some i) (memory hub.old) }
    ensures same_lent { SameLent hub.old hub.new }
    ensures outcome { outcome (Ok result) (memory hub.new) ≡ admission i (memory hub.old) }
    ensures answer_bound { answer_number result < 2 ^ 64 }
{
    admit(hub, i);
    let table = &mut *hub.table;
    read_answer(record_at(table, i))
}

// Steps 2 to 6, once the total has grown.
#[tactic(auto, unfolding(rules::specs::Answers::answer_number))]
fn read_counted(hub: &mut Hub, key: u64, weight: u16) -> Answer
    requires { HeatsFit (memory hub.old) × LinesFit (memory hub.old) × (hub.old.gauge.now.serial < serial_limit) }
    ensures same_lent { SameLent hub.old hub.new }
    ensures outcome { outcome (Ok result) (memory hub.new) ≡ read_counted (memory hub.old) key weight }
    ensures answer_bound { answer_number result < 2 ^ 64 }
{
    let Some(i) = place(hub, key, weight) else {
        return Answer::Passed;
    };
    admission(hub, i)
}

// A look: how the table stands.
#[tactic(auto, unfolding(rules::specs::Steps::peek_answer, rules::specs::Answers::answer_number))]
fn peek(table: &[u8], key: u64) -> Answer
    ensures value { result ≡ peek_answer (key_record key (record_at table.now) (record_count table.now)) }
    ensures result_bound { answer_number result < 2 ^ 64 }
{
    match key_record(table, key) {
        None => Answer::Passed,
        Some((_, r)) => read_answer(r),
    }
}

// An accepted read: a look where the weight is 0, and else steps 1 to 6.
#[tactic(auto, unfolding(rules::specs::Steps::read_steps, rules::specs::Steps::peek_steps, rules::specs::Table::places, rules::specs::Table::size, rules::specs::Steps::decay_for, rules::specs::Steps::aged, rules::specs::Steps::aged_gauge, rules::specs::Table::with_gauge, rules::specs::Table::half_down, rules::specs::Steps::warm_steps, rules::specs::Steps::grown))]
pub fn read_steps(hub: &mut Hub, key: u64, weight: u16) -> Answer
    requires { (hub.old.gauge.now.total ≤ most_total) × HeatsFit (memory hub.old) × LinesFit (memory hub.old) × (0 < weight → hub.old.gauge.now.serial < serial_limit) }
    ensures same_lent { SameLent hub.old hub.new }
    ensures outcome { outcome (Ok result) (memory hub.new) ≡ read_steps (memory hub.old) key weight }
    ensures answer_bound { answer_number result < 2 ^ 64 }
{
    let table = &mut *hub.table;
    if weight == 0 {
        return peek(table, key);
    }
    decay_for(hub, weight);
    hub.gauge.total += u64::from(weight);
    read_counted(hub, key, weight)
}

// ---- Update

// An accepted update.
#[tactic(auto, unfolding(rules::specs::Steps::update_steps, rules::specs::Steps::change, rules::specs::Table::places, rules::specs::Table::size, rules::specs::Answers::answer_number, rules::specs::Table::emptied, rules::specs::Table::is_lined, rules::specs::Table::empty_state, rules::specs::Table::line_of, rules::specs::Bytes::record_count, rules::specs::Table::cooled, rules::specs::Table::write, rules::specs::Table::with_table), using(rules::proofs::Finds::key_inside))]
pub fn update_steps(hub: &mut Hub, key: u64, weight: u64) -> Answer
    requires { hub.old.gauge.now.serial < serial_limit }
    ensures same_lent { SameLent hub.old hub.new }
    ensures outcome { outcome (Ok result) (memory hub.new) ≡ update_steps (memory hub.old) key weight }
    ensures answer_bound { answer_number result < 2 ^ 64 }
{
    let table = &mut *hub.table;
    let Some((i, was)) = key_record(table, key) else {
        return Answer::Unknown;
    };
    put_record(table, i, emptied(cooled(weight, was)));
    demote(hub, i);
    Answer::Changed
}

// ---- Withdraw

// An accepted withdrawal.
#[tactic(auto, unfolding(rules::specs::Steps::withdraw_steps, rules::specs::Steps::withdraw, rules::specs::Table::places, rules::specs::Table::size, rules::specs::Answers::answer_number), using(rules::proofs::Finds::key_inside))]
pub fn withdraw_steps(hub: &mut Hub, key: u64) -> Answer
    requires { hub.old.gauge.now.serial < serial_limit }
    ensures same_lent { SameLent hub.old hub.new }
    ensures outcome { outcome (Ok result) (memory hub.new) ≡ withdraw_steps (memory hub.old) key }
    ensures answer_bound { answer_number result < 2 ^ 64 }
{
    let table = &mut *hub.table;
    let Some((i, _)) = key_record(table, key) else {
        return Answer::Unknown;
    };
    vacate(hub, i);
    Answer::Withdrawn
}
