// The calls of the cache. Each refuses bad input with its cause and leaves everything as it was; otherwise it does what the
// definitions of its outcome say, byte for byte. Table, gauge and lines are lent one by one, as a C host lends them: a fill may change
// the lines, no other call may, and to show and to sum may change nothing.
#![tactic(auto)]

ghost use Rattle.std.specs.Prelude.{◌≡◌, ◌≤◌, ◌<◌, ◌*◌, ◌^◌};
ghost use Rattle.rules.specs.Bytes.{record_at, record_count};
ghost use Rattle.rules.specs.Pass.{sum_of};
ghost use Rattle.rules.specs.Table.{most_total};
ghost use Rattle.rules.specs.Calls.{most_records, lent, seen, fresh_outcome, read_outcome, update_outcome, fill_outcome, withdraw_outcome, age_outcome, show_line, levelled_outcome};
ghost use Rattle.rules.specs.Answers.{number_of, answer_said, completion_said, value_said};
ghost use Rattle.rules.specs.Numbers.{read_said, update_number, fill_number, withdraw_number, age_number, fresh_said, levelled_said};
ghost use Rattle.rules.specs.Steps.{outcome, fill_steps, level};
ghost use Rattle.lines.specs.Room.{LinesFit};
ghost use Rattle.cache.specs.Room.{LevelsFit};
ghost use Rattle.cache.specs.AsLent.{AsLent};

use fields::{filled, level};
use records::{LINE_SIZE, RECORD_SIZE, change_record, line_at, put_line, record_at, record_count};
use rules::{Answer, Gauge, Hub, Lookup, Refusal, View, must};
use steps::{age_all, read_steps, update_steps, withdraw_steps};
use tracker::lookup;
use verdicts::{
    fill_verdict, plain_verdict, read_verdict, sizes_good, update_verdict, withdraw_verdict,
};

// ---- Fresh

// Starts a table: every record free, the gauge zero. The lines keep their bytes.
#[tactic(auto, unfolding(rules::specs::Calls::fresh_outcome, rules::specs::Calls::unless, rules::specs::Calls::verdict, rules::specs::Calls::sizes_test, rules::specs::Table::fresh_memory, rules::specs::Table::fresh_gauge, rules::specs::Numbers::fresh_said, rules::specs::Answers::completion_said))]
pub fn fresh(table: &mut [u8], gauge: &mut Gauge, lines: &[u8]) -> Result<(), Refusal>
    ensures outcome { outcome result (lent table.new gauge.new lines.now) ≡ fresh_outcome (lent table.old gauge.old lines.now) }
    ensures said { completion_said result ≡ fresh_said (lent table.old gauge.old lines.now) }
{
    must(sizes_good(table, lines), Refusal::WrongSizes)?;
    table.fill(0);
    *gauge = Gauge::default();
    Ok(())
}

// ---- Read, update, withdraw and age

// What a call is lent, to look at.
fn view<'a>(table: &'a [u8], gauge: Gauge, lines: &'a [u8]) -> View<'a>
    ensures { seen result ≡ lent table.entry.now gauge lines.entry.now }
{
    View {
        table,
        gauge,
        lines,
    }
}

// Counts weight pieces of a class, and answers where its picture is. A weight of 0 is a look: it changes nothing.
#[tactic(auto, unfolding(rules::specs::Calls::read_outcome, rules::specs::Calls::unless, rules::specs::Answers::number_of, rules::specs::Answers::answer_said, rules::specs::Answers::values_of, rules::specs::Numbers::read_said, rules::specs::Numbers::refusal), using(rules::proofs::Refusals::number_few))]
pub fn read(
    table: &mut [u8],
    gauge: &mut Gauge,
    lines: &[u8],
    key: u64,
    weight: u64,
) -> Result<Answer, Refusal>
    ensures outcome { outcome result (lent table.new gauge.new lines.now) ≡ read_outcome (lent table.old gauge.old lines.now) key weight }
    ensures said { answer_said result ≡ read_said (lent table.old gauge.old lines.now) key weight }
    ensures answer_bound { number_of result < 2 ^ 64 }
{
    read_verdict(view(table, *gauge, lines), weight)?;
    Ok(read_steps(
        &mut Hub {
            table,
            gauge,
            lines,
        },
        key,
        weight as u16, // after the verdict it fits
    ))
}

// Cools a class whose picture has changed, and empties its line.
#[tactic(auto, unfolding(rules::specs::Calls::update_outcome, rules::specs::Calls::unless, rules::specs::Answers::number_of, rules::specs::Numbers::update_number), using(rules::proofs::Refusals::number_few, rules::proofs::Verdicts::update_accepted))]
pub fn update(
    table: &mut [u8],
    gauge: &mut Gauge,
    lines: &[u8],
    key: u64,
    weight: u64,
) -> Result<Answer, Refusal>
    ensures outcome { outcome result (lent table.new gauge.new lines.now) ≡ update_outcome (lent table.old gauge.old lines.now) key weight }
    ensures said { number_of result ≡ update_number (lent table.old gauge.old lines.now) key weight }
    ensures answer_bound { number_of result < 2 ^ 64 }
{
    update_verdict(view(table, *gauge, lines), weight)?;
    Ok(update_steps(
        &mut Hub {
            table,
            gauge,
            lines,
        },
        key,
        weight,
    ))
}

// Frees the record of a class that is struck from the books. A line that it had goes to the hottest class without one, or becomes unused.
#[tactic(auto, unfolding(rules::specs::Calls::withdraw_outcome, rules::specs::Calls::unless, rules::specs::Answers::number_of, rules::specs::Numbers::withdraw_number), using(rules::proofs::Refusals::number_few, rules::proofs::Verdicts::withdraw_accepted))]
pub fn withdraw(
    table: &mut [u8],
    gauge: &mut Gauge,
    lines: &[u8],
    key: u64,
) -> Result<Answer, Refusal>
    ensures outcome { outcome result (lent table.new gauge.new lines.now) ≡ withdraw_outcome (lent table.old gauge.old lines.now) key }
    ensures said { number_of result ≡ withdraw_number (lent table.old gauge.old lines.now) key }
    ensures answer_bound { number_of result < 2 ^ 64 }
{
    withdraw_verdict(view(table, *gauge, lines))?;
    Ok(withdraw_steps(
        &mut Hub {
            table,
            gauge,
            lines,
        },
        key,
    ))
}

// Halves every heat, total and ceiling downward and every slack upward.
#[tactic(auto, unfolding(rules::specs::Calls::age_outcome, rules::specs::Calls::unless, rules::specs::Answers::number_of, rules::specs::Steps::age_steps, rules::specs::Answers::answer_number, rules::specs::Numbers::age_number), using(rules::proofs::Refusals::number_few))]
pub fn age(table: &mut [u8], gauge: &mut Gauge, lines: &[u8]) -> Result<Answer, Refusal>
    ensures outcome { outcome result (lent table.new gauge.new lines.now) ≡ age_outcome (lent table.old gauge.old lines.now) }
    ensures said { number_of result ≡ age_number (lent table.old gauge.old lines.now) }
    ensures answer_bound { number_of result < 2 ^ 64 }
{
    plain_verdict(view(table, *gauge, lines))?;
    age_all(&mut Hub {
        table,
        gauge,
        lines,
    });
    Ok(Answer::Aged)
}

// ---- Fill

#[tactic(auto, unfolding(rules::specs::Table::places, rules::specs::Table::size, rules::specs::Steps::fill_steps, rules::specs::Steps::store, rules::specs::Answers::number_of, rules::specs::Answers::answer_number, rules::specs::Refusals::number, rules::specs::Steps::store_in, rules::specs::Table::with_lines, rules::specs::Table::write, rules::specs::Table::with_table))]
fn fill_steps(
    table: &mut [u8],
    gauge: Gauge,
    lines: &mut [u8],
    key: u64,
    picture: &[u8; LINE_SIZE],
    ticket: u64,
) -> Result<Answer, Refusal>
    requires { LinesFit (lent table.old gauge lines.old) }
    ensures outcome { outcome result (lent table.new gauge lines.new) ≡ fill_steps (lent table.old gauge lines.old) key picture.now ticket }
    ensures answer_bound { number_of result < 2 ^ 64 }
{
    let Lookup::Lined {
        place,
        line,
        filled: is_full,
        ticket: given,
    } = lookup(table, key)
    else {
        return Err(Refusal::NoLine);
    };
    if is_full {
        return Err(Refusal::AlreadyFilled);
    }
    if ticket != given {
        return Err(Refusal::StaleTicket);
    }
    put_line(lines, line, picture);
    change_record(table, place, filled);
    Ok(Answer::Stored)
}

// Stores the picture of a class into its line, if it brings the ticket that the class was last given.
#[tactic(auto, unfolding(rules::specs::Calls::fill_outcome, rules::specs::Calls::unless, rules::specs::Answers::number_of, rules::specs::Numbers::fill_number), using(rules::proofs::Refusals::number_few, rules::proofs::Verdicts::fill_accepted, steps::proofs::Rooms::order_fits))]
pub fn fill(
    table: &mut [u8],
    gauge: Gauge,
    lines: &mut [u8],
    key: u64,
    picture: &[u8],
    ticket: u64,
) -> Result<Answer, Refusal>
    ensures outcome { outcome result (lent table.new gauge lines.new) ≡ fill_outcome (lent table.old gauge lines.old) key picture.now ticket }
    ensures said { number_of result ≡ fill_number (lent table.old gauge lines.old) key picture.now ticket }
    ensures answer_bound { number_of result < 2 ^ 64 }
{
    fill_verdict(view(table, gauge, lines), picture)?;
    let picture = picture.try_into().unwrap(); // after the verdict it has 64 bytes
    fill_steps(table, gauge, lines, key, picture, ticket)
}

// ---- Show

// The picture of a class as it lies in its line, or the stand-in.
#[tactic(auto, unfolding(rules::specs::Calls::show_line, rules::specs::Calls::unless, rules::specs::Steps::shown_line, rules::specs::Table::places, rules::specs::Table::size))]
pub fn show<'a>(
    table: &[u8],
    gauge: Gauge,
    lines: &'a [u8],
    key: u64,
    stand_in: &'a [u8],
) -> &'a [u8]
    ensures { AsLent result lines.entry stand_in.entry (show_line (lent table.now gauge lines.now) key) }
{
    let Ok(()) = plain_verdict(view(table, gauge, lines)) else {
        return stand_in;
    };
    let Lookup::Lined {
        line,
        filled: has_picture,
        ..
    } = lookup(table, key)
    else {
        return stand_in;
    };
    if has_picture {
        line_at(lines, line)
    } else {
        stand_in
    }
}

// ---- Levelled sum

// The sum of a part's levels: of the first half of its records, and of the rest.
#[tactic(auto, unfolding(rules::specs::Bytes::record_count, rules::specs::Pass::sum_of, rules::specs::Steps::level, rules::specs::Pass::pass))]
fn sum_levels(part: &[u8], ceiling: u64) -> u64
    requires { (record_count part.now ≤ most_records) × LevelsFit part.now ceiling }
    ensures { (result ≡ sum_of (level ceiling) (record_at part.now) (record_count part.now)) × (result ≤ record_count part.now * most_total) }
{
    let n = record_count(part);
    if n == 0 {
        return 0;
    }
    if n == 1 {
        return level(ceiling, record_at(part, 0));
    }
    let (first, rest) = part.split_at(RECORD_SIZE * (n / 2));
    let front = sum_levels(first, ceiling);
    let back = sum_levels(rest, ceiling);
    front + back
}

// The sum, over all records, of the larger of heat and ceiling.
#[tactic(auto, unfolding(rules::specs::Bytes::record_count, rules::specs::Table::places, rules::specs::Table::size, rules::specs::Calls::levelled_outcome, rules::specs::Calls::unless, rules::specs::Steps::levelled_sum, rules::specs::Numbers::levelled_said, rules::specs::Answers::value_said))]
pub fn levelled_sum(table: &[u8], gauge: Gauge, lines: &[u8]) -> Result<u64, Refusal>
    ensures outcome { result ≡ levelled_outcome (lent table.now gauge lines.now) }
    ensures said { value_said result ≡ levelled_said (lent table.now gauge lines.now) }
{
    plain_verdict(view(table, gauge, lines))?;
    Ok(sum_levels(table, gauge.ceiling))
}
