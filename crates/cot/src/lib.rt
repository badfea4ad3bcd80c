// The functions that a C program links: the calls of the cache with the gauge as lent bytes, each returning one number.
#![tactic(auto)]

ghost use Rattle.std.specs.Prelude.{ℕ, ◌≡◌, ◌<◌, ◌^◌, Result, Err};
ghost use Rattle.rules.specs.declared.Refusal.{Refusal};
ghost use Rattle.rules.specs.declared.Refusal.TheVariants.{WrongSizes};
ghost use Rattle.rules.specs.Bytes.{gauge_at, put_gauge};
ghost use Rattle.rules.specs.Answers.{number_of, completion_number};
ghost use Rattle.rules.specs.Table.{Memory};
ghost use Rattle.rules.specs.Steps.{Outcome, outcome};
ghost use Rattle.rules.specs.Calls.{lent, host_lent, hosted, read_lent, put_ticket, exported, exported_read, read_outcome, update_outcome, fill_outcome, withdraw_outcome, age_outcome, exported_fresh, exported_sum};
ghost use Rattle.resizing.specs.Resize.{hosted_resize, exported_resize};
ghost use Rattle.ring.specs.Ring.{exported_store};
ghost use Rattle.scaler.specs.Scale.{exported_scale, epoch};

use records::{get_u64, put_u64};
use rules::{Answer, Gauge, Refusal};
use scaler::{Epoch, Ratio};

// The size of a host's gauge, in bytes.
pub const GAUGE_SIZE: usize = 24;
// Where its numbers lie in it, after the total.
const CEILING_AT: usize = 8;

const SERIAL_AT: usize = 16;
// The size of a number, in bytes.
const NUMBER_SIZE: usize = 8;
// What a host is told for done.
const DONE: u64 = 0;

// A host's gauge.
#[tactic(auto, unfolding(rules::specs::Bytes::gauge_at))]
fn gauge_at(bytes: &[u8; GAUGE_SIZE]) -> Gauge
    ensures { result ≡ gauge_at bytes.now }
{
    Gauge {
        total: get_u64(bytes, 0),
        ceiling: get_u64(bytes, CEILING_AT),
        serial: get_u64(bytes, SERIAL_AT),
    }
}

#[tactic(auto, unfolding(rules::specs::Bytes::put_gauge))]
fn put_gauge(bytes: &mut [u8; GAUGE_SIZE], g: Gauge)
    ensures { bytes.new ≡ put_gauge bytes.old g }
{
    put_u64(bytes, 0, g.total);
    put_u64(bytes, CEILING_AT, g.ceiling);
    put_u64(bytes, SERIAL_AT, g.serial);
}

// The number of an answer, or of the cause of a refusal. (No `From`, since a line's number has to leave room for 4,000.)
#[tactic(auto, unfolding(rules::specs::Answers::number_of, rules::specs::Answers::answer_number))]
fn number_of(reply: Result<Answer, Refusal>) -> u64
    requires { number_of reply < 2 ^ 64 }
    ensures { result ≡ number_of reply }
{
    match reply {
        Ok(Answer::Aged) => 100,
        Ok(Answer::Changed) => 101,
        Ok(Answer::Unknown) => 102,
        Ok(Answer::Stored) => 103,
        Ok(Answer::Passed) => 104,
        Ok(Answer::Withdrawn) => 105,
        Ok(Answer::Hit(line)) => 2000 + line,
        Ok(Answer::Wanted { line, .. }) => 4000 + line,
        Err(cause) => cause.into(),
    }
}

// Puts the ticket of a wanted into lent bytes.
#[tactic(auto, unfolding(rules::specs::Calls::put_ticket))]
fn put_ticket(bytes: &mut [u8; NUMBER_SIZE], reply: Result<Answer, Refusal>)
    ensures { bytes.new ≡ put_ticket bytes.old reply }
{
    if let Ok(Answer::Wanted { ticket, .. }) = reply {
        put_u64(bytes, 0, ticket);
    }
}

// The number of a completion.
#[tactic(auto, unfolding(rules::specs::Answers::completion_number))]
fn completion_number(completion: Result<(), Refusal>) -> u64
    ensures { result ≡ completion_number completion }
{
    completion.map_or_else(u64::from, |()| DONE)
}

// Makes a call of the cache on a host's memory: refuses a gauge of another size, and puts the gauge back as the call leaves it.
#[tactic(auto, unfolding(rules::specs::Calls::hosted, rules::specs::Calls::gauge_test, rules::specs::Calls::verdict, rules::specs::Calls::unless, rules::specs::Calls::held, rules::specs::Calls::stored, rules::specs::Answers::number_of), using(rules::proofs::Refusals::number_few))]
fn hosted<T, F: FnOnce(&mut [u8], &mut Gauge, &[u8]) -> Result<T, Refusal>>(
    table: &mut [u8],
    gauge: &mut [u8],
    lines: &[u8],
    call: F,
) -> Result<T, Refusal>
    requires { F.IsAlwaysCallable call }
    ensures outcome { (m : Memory → Outcome (Result T Refusal) Memory) → ((t g l r t' g' : _) → F.post call t g l r t' g' → outcome r (lent t'.now g'.now l.now) ≡ m (lent t.now g.now l.now)) → outcome result (host_lent table.new gauge.new lines.now) ≡ hosted m (host_lent table.old gauge.old lines.now) }
    ensures bounded { (n : Result T Refusal → ℕ) → n (Err WrongSizes) < 2 ^ 64 → ((t g l r t' g' : _) → F.post call t g l r t' g' → n r < 2 ^ 64) → n result < 2 ^ 64 }
{
    let gauge = gauge.as_mut_array().ok_or(Refusal::WrongSizes)?;
    let mut own = gauge_at(gauge);
    let reply = call(table, &mut own, lines);
    put_gauge(gauge, own);
    reply
}

// Starts a table: every record free, the gauge zero. The lines keep their bytes.
#[unsafe(no_mangle)]
#[tactic(auto, unfolding(rules::specs::Calls::exported_fresh))]
pub extern "C" fn cot_fresh(table: &mut [u8], gauge: &mut [u8], lines: &[u8]) -> u64
    ensures { outcome result (host_lent table.new gauge.new lines.now) ≡ exported_fresh (host_lent table.old gauge.old lines.now) }
{
    completion_number(hosted(table, gauge, lines, cache::fresh))
}

// Counts weight pieces of a class, and answers where its picture is. A weight of 0 is a look: it changes nothing. The 8 lent bytes get
// the ticket of a wanted.
#[unsafe(no_mangle)]
#[tactic(auto, unfolding(rules::specs::Calls::exported_read, rules::specs::Calls::hosted_read, rules::specs::Calls::number_test, rules::specs::Calls::verdict, rules::specs::Calls::unless, rules::specs::Answers::number_of))]
pub extern "C" fn cot_read(
    table: &mut [u8],
    gauge: &mut [u8],
    lines: &[u8],
    key: u64,
    weight: u64,
    ticket: &mut [u8],
) -> u64
    ensures { outcome result (read_lent (host_lent table.new gauge.new lines.now) ticket.new) ≡ exported_read (λ m. read_outcome m key weight) (read_lent (host_lent table.old gauge.old lines.now) ticket.old) }
{
    let Some(ticket) = ticket.as_mut_array() else {
        return Refusal::WrongSizes.into();
    };
    let reply = hosted(table, gauge, lines, |table, gauge, lines| {
        cache::read(table, gauge, lines, key, weight)
    });
    put_ticket(ticket, reply);
    number_of(reply)
}

// Cools a class whose picture has changed, and empties its line.
#[unsafe(no_mangle)]
#[tactic(auto, unfolding(rules::specs::Calls::exported))]
pub extern "C" fn cot_update(
    table: &mut [u8],
    gauge: &mut [u8],
    lines: &[u8],
    key: u64,
    weight: u64,
) -> u64
    ensures { outcome result (host_lent table.new gauge.new lines.now) ≡ exported (λ m. update_outcome m key weight) (host_lent table.old gauge.old lines.now) }
{
    number_of(hosted(table, gauge, lines, |table, gauge, lines| {
        cache::update(table, gauge, lines, key, weight)
    }))
}

// Stores the picture of a class into its line, if it brings the ticket that the class was last given.
#[unsafe(no_mangle)]
#[tactic(auto, unfolding(rules::specs::Calls::exported, rules::specs::Calls::hosted, rules::specs::Calls::gauge_test, rules::specs::Calls::verdict, rules::specs::Calls::unless, rules::specs::Calls::held, rules::specs::Calls::stored, rules::specs::Answers::number_of), using(rules::proofs::Places::gauge_kept))]
pub extern "C" fn cot_fill(
    table: &mut [u8],
    gauge: &[u8],
    lines: &mut [u8],
    key: u64,
    picture: &[u8],
    ticket: u64,
) -> u64
    ensures { outcome result (host_lent table.new gauge.now lines.new) ≡ exported (λ m. fill_outcome m key picture.now ticket) (host_lent table.old gauge.now lines.old) }
{
    match gauge.as_array() {
        Some(gauge) => number_of(cache::fill(table, gauge_at(gauge), lines, key, picture, ticket)),
        None => Refusal::WrongSizes.into(),
    }
}

// Frees the record of a class that is struck from the books. A line that it had goes to the hottest class without one, or becomes unused.
#[unsafe(no_mangle)]
#[tactic(auto, unfolding(rules::specs::Calls::exported))]
pub extern "C" fn cot_withdraw(table: &mut [u8], gauge: &mut [u8], lines: &[u8], key: u64) -> u64
    ensures { outcome result (host_lent table.new gauge.new lines.now) ≡ exported (λ m. withdraw_outcome m key) (host_lent table.old gauge.old lines.now) }
{
    number_of(hosted(table, gauge, lines, |table, gauge, lines| {
        cache::withdraw(table, gauge, lines, key)
    }))
}

// Halves every heat, total and ceiling downward and every slack upward.
#[unsafe(no_mangle)]
#[tactic(auto, unfolding(rules::specs::Calls::exported))]
pub extern "C" fn cot_age(table: &mut [u8], gauge: &mut [u8], lines: &[u8]) -> u64
    ensures { outcome result (host_lent table.new gauge.new lines.now) ≡ exported age_outcome (host_lent table.old gauge.old lines.now) }
{
    number_of(hosted(table, gauge, lines, cache::age))
}

// A levelled sum on a host's memory.
#[tactic(auto, unfolding(rules::specs::Calls::exported_sum, rules::specs::Calls::put_value, rules::specs::Calls::gauge_test, rules::specs::Calls::number_test, rules::specs::Calls::verdict, rules::specs::Calls::unless, rules::specs::Calls::held, rules::specs::Answers::completion_number))]
fn levelled_sum(table: &[u8], gauge: &[u8], lines: &[u8], sum: &mut [u8]) -> Result<(), Refusal>
    ensures { outcome (completion_number result) sum.new ≡ exported_sum (host_lent table.now gauge.now lines.now) sum.old }
{
    let own = gauge_at(gauge.as_array().ok_or(Refusal::WrongSizes)?);
    let sum: &mut [u8; NUMBER_SIZE] = sum.as_mut_array().ok_or(Refusal::WrongSizes)?;
    put_u64(sum, 0, cache::levelled_sum(table, own, lines)?);
    Ok(())
}

// Puts the sum, over all records, of the larger of heat and ceiling into 8 lent bytes.
#[unsafe(no_mangle)]
pub extern "C" fn cot_levelled_sum(table: &[u8], gauge: &[u8], lines: &[u8], sum: &mut [u8]) -> u64
    ensures { outcome result sum.new ≡ exported_sum (host_lent table.now gauge.now lines.now) sum.old }
{
    completion_number(levelled_sum(table, gauge, lines, sum))
}

// A resize on a host's memory.
#[tactic(auto, unfolding(resizing::specs::Resize::hosted_resize, rules::specs::Calls::gauge_test, rules::specs::Calls::verdict, rules::specs::Calls::unless, rules::specs::Calls::held, rules::specs::Calls::stored))]
fn resize(
    table: &[u8],
    gauge: &[u8],
    lines: &[u8],
    to_table: &mut [u8],
    to_gauge: &mut [u8],
    to_lines: &mut [u8],
) -> Result<(), Refusal>
    ensures { outcome result (host_lent to_table.new to_gauge.new to_lines.new) ≡ hosted_resize (host_lent table.now gauge.now lines.now) (host_lent to_table.old to_gauge.old to_lines.old) }
{
    let source = gauge_at(gauge.as_array().ok_or(Refusal::WrongSizes)?);
    let to_gauge = to_gauge.as_mut_array().ok_or(Refusal::WrongSizes)?;
    let mut left = gauge_at(to_gauge);
    let completion = resizing::resize(table, source, lines, to_table, &mut left, to_lines);
    put_gauge(to_gauge, left);
    completion
}

// Copies a table, its gauge and its lines into others of another K and C.
#[unsafe(no_mangle)]
#[tactic(auto, unfolding(resizing::specs::Resize::exported_resize))]
pub extern "C" fn cot_resize(
    table: &[u8],
    gauge: &[u8],
    lines: &[u8],
    to_table: &mut [u8],
    to_gauge: &mut [u8],
    to_lines: &mut [u8],
) -> u64
    ensures { outcome result (host_lent to_table.new to_gauge.new to_lines.new) ≡ exported_resize (host_lent table.now gauge.now lines.now) (host_lent to_table.old to_gauge.old to_lines.old) }
{
    completion_number(resize(table, gauge, lines, to_table, to_gauge, to_lines))
}

// A store on a host's memory.
#[tactic(auto, unfolding(ring::specs::Ring::exported_store, rules::specs::Calls::put_value, rules::specs::Calls::number_test, rules::specs::Calls::verdict, rules::specs::Calls::unless, rules::specs::Answers::completion_number))]
fn store_of(ring: &[u8], position: u64, store: &mut [u8]) -> Result<(), Refusal>
    ensures { outcome (completion_number result) store.new ≡ exported_store ring.now position store.old }
{
    let store: &mut [u8; NUMBER_SIZE] = store.as_mut_array().ok_or(Refusal::WrongSizes)?;
    put_u64(store, 0, ring::store_of(ring, position)?);
    Ok(())
}

// Puts the store from which a key's picture is fetched into 8 lent bytes.
#[unsafe(no_mangle)]
pub extern "C" fn cot_store(ring: &[u8], position: u64, store: &mut [u8]) -> u64
    ensures { outcome result store.new ≡ exported_store ring.now position store.old }
{
    completion_number(store_of(ring, position, store))
}

// Whether a table should grow, shrink, age or stay at the end of an epoch with so many lookups to each store. The 32 lent bytes get the
// lines and records to which it grows or shrinks, and where it grows the new target.
#[unsafe(no_mangle)]
pub extern "C" fn cot_scale(
    lookups: &[u8],
    on: u64,
    off: u64,
    lines: u64,
    records: u64,
    imbalance_over: u64,
    imbalance_under: u64,
    target_over: u64,
    target_under: u64,
    tolerance: u64,
    out: &mut [u8],
) -> u64
    ensures { outcome result out.new ≡ exported_scale lookups.now (epoch on off lines records imbalance_over imbalance_under target_over target_under tolerance) out.old }
{
    let epoch = Epoch {
        on,
        off,
        lines,
        records,
        imbalance: Ratio {
            over: imbalance_over,
            under: imbalance_under,
        },
        target: Ratio {
            over: target_over,
            under: target_under,
        },
        tolerance,
    };
    scaler::tell(lookups, epoch, out)
}
