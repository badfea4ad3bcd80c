// One record: what its numbers say, and what becomes of it.
#![tactic(auto)]

ghost use Rattle.std.specs.Prelude.{◌≡◌, true, ◌≤◌, ◌<◌, ◌^◌};
ghost use Rattle.rules.specs.Table.{is_free, is_unlined, is_lined, line_of, is_filled, is_zero, most_total, heated, cooled, aged_record, new_record, unlined, empty_state, on_empty_line, emptied, filled};
ghost use Rattle.rules.specs.Calls.{most_records};
ghost use Rattle.rules.specs.Answers.{answer_number};
ghost use Rattle.rules.specs.Steps.{read_answer, level};

use rules::{Answer, Record, State};

// ---- what a record's state says

// Whether it is free.
#[tactic(auto, unfolding(rules::specs::Table::is_free, rules::specs::States::state_number, rules::specs::Table::empty_state, rules::specs::Table::filled_state))]
pub fn is_free(r: Record) -> bool
    ensures { result ≡ is_free r }
{
    State::from(r.state) == State::Free
}

// Whether it is tracked without a line.
#[tactic(auto, unfolding(rules::specs::Table::is_unlined, rules::specs::States::state_number, rules::specs::Table::empty_state, rules::specs::Table::filled_state))]
pub fn is_unlined(r: Record) -> bool
    ensures { result ≡ is_unlined r }
{
    State::from(r.state) == State::Unlined
}

// Whether it is on a line.
#[tactic(auto, unfolding(rules::specs::Table::is_lined, rules::specs::States::state_number, rules::specs::Table::empty_state, rules::specs::Table::filled_state))]
pub fn is_lined(r: Record) -> bool
    ensures { result ≡ is_lined r }
{
    matches!(State::from(r.state), State::Empty(_) | State::Filled(_))
}

// Whether it is on a line that is filled.
#[tactic(auto, unfolding(rules::specs::Table::is_filled, rules::specs::Table::is_lined, rules::specs::States::state_number, rules::specs::Table::empty_state, rules::specs::Table::filled_state))]
pub fn is_filled(r: Record) -> bool
    ensures { result ≡ is_filled r }
{
    matches!(State::from(r.state), State::Filled(_))
}

// The line that it is on.
#[tactic(auto, unfolding(rules::specs::Table::is_lined, rules::specs::Table::line_of, rules::specs::States::state_number, rules::specs::Table::empty_state, rules::specs::Table::filled_state))]
pub fn line_of(r: Record) -> usize
    requires { is_lined r ≡ true }
    ensures { result ≡ line_of r }
{
    match State::from(r.state) {
        State::Empty(line) | State::Filled(line) => line as usize,
        State::Free | State::Unlined => unreachable!(),
    }
}

// Whether it is all zero, as a free one has to be.
#[tactic(auto, unfolding(rules::specs::Table::is_zero), using(crate::proofs::Zero::or_is_zero))]
pub fn is_zero(r: Record) -> bool
    ensures { result ≡ is_zero r }
{
    (r.key | r.heat | r.slack | r.state | r.ticket) == 0
}

// ---- what becomes of a record

// After a read.
#[tactic(auto, unfolding(rules::specs::Table::heated))]
pub fn heated(weight: u16, r: Record) -> Record
    requires { r.heat ≤ most_total }
    ensures { result ≡ heated weight r }
{
    Record {
        heat: r.heat + u64::from(weight),
        ..r
    }
}

// After an update.
#[tactic(auto, unfolding(rules::specs::Table::cooled))]
pub fn cooled(weight: u64, r: Record) -> Record
    ensures { result ≡ cooled weight r }
{
    Record {
        heat: r.heat.saturating_sub(weight),
        ..r
    }
}

// After an aging.
#[tactic(auto, unfolding(rules::specs::Table::aged_record, rules::specs::Table::half_down, rules::specs::Table::half_up))]
pub fn aged_record(r: Record) -> Record
    ensures { result ≡ aged_record r }
{
    Record {
        heat: r.heat / 2,
        slack: r.slack.div_ceil(2),
        ..r
    }
}

// Of a key that is tracked anew.
#[tactic(auto, unfolding(rules::specs::Table::new_record, rules::specs::States::state_number, rules::specs::Table::empty_state, rules::specs::Table::filled_state))]
pub fn new_record(key: u64, ceiling: u64, weight: u16) -> Record
    requires { ceiling ≤ most_total }
    ensures { result ≡ new_record key ceiling weight }
{
    Record {
        key,
        heat: ceiling + u64::from(weight),
        slack: ceiling,
        state: State::Unlined.number(), // no line yet
        ticket: 0,
    }
}

// Off its line.
#[tactic(auto, unfolding(rules::specs::Table::unlined, rules::specs::States::state_number, rules::specs::Table::empty_state, rules::specs::Table::filled_state))]
pub fn unlined(r: Record) -> Record
    ensures { result ≡ unlined r }
{
    Record {
        state: State::Unlined.number(),
        ticket: 0, // as all records without a line
        ..r
    }
}

// On a line that it has just got, with the ticket that it got with it.
#[tactic(auto, unfolding(rules::specs::Table::empty_state, rules::specs::Table::on_empty_line, rules::specs::States::state_number, rules::specs::Table::filled_state))]
pub fn on_empty_line(line: usize, ticket: u64, r: Record) -> Record
    requires { empty_state line < 2 ^ 64 }
    ensures { result ≡ on_empty_line line ticket r }
{
    Record {
        state: State::Empty(line as u64).number(),
        ticket,
        ..r
    }
}

// With its line, if it is on one, empty.
#[tactic(auto, unfolding(rules::specs::Table::line_of, rules::specs::Table::emptied, rules::specs::Table::empty_state, rules::specs::States::state_number, rules::specs::Table::filled_state, rules::specs::Table::is_lined))]
pub fn emptied(r: Record) -> Record
    ensures { result ≡ emptied r }
{
    match State::from(r.state) {
        State::Filled(line) => Record {
            state: State::Empty(line).number(),
            ..r
        },
        _ => r,
    }
}

// With its line filled.
#[tactic(auto, unfolding(rules::specs::Table::filled, rules::specs::Table::filled_state, rules::specs::States::state_number, rules::specs::Table::empty_state))]
pub fn filled(r: Record) -> Record
    requires { (is_lined r ≡ true) × (line_of r < most_records) }
    ensures { result ≡ filled r }
{
    Record {
        state: State::Filled(line_of(r) as u64).number(),
        ..r
    }
}

// ---- what a call makes of it

// Step 6: what a read answers. (An enum takes no ghost field and no model, so that its number fits 64 bits is a clause of each function
// that answers.)
#[tactic(auto, unfolding(rules::specs::Table::is_filled, rules::specs::Steps::read_answer, rules::specs::Answers::answer_number, rules::specs::Table::line_of, rules::specs::States::state_number, rules::specs::Table::empty_state, rules::specs::Table::filled_state, rules::specs::Table::is_lined))]
pub fn read_answer(r: Record) -> Answer
    ensures value { result ≡ read_answer r }
    ensures result_bound { answer_number result < 2 ^ 64 }
{
    match State::from(r.state) {
        State::Filled(line) => Answer::Hit(line),
        State::Empty(line) => Answer::Wanted {
            line,
            ticket: r.ticket,
        },
        State::Free | State::Unlined => Answer::Passed,
    }
}

// What it counts in the levelled sum.
#[tactic(auto, unfolding(rules::specs::Steps::level))]
pub fn level(ceiling: u64, r: Record) -> u64
    ensures { result ≡ level ceiling r }
{
    if is_free(r) {
        ceiling
    } else {
        r.heat.max(ceiling)
    }
}
