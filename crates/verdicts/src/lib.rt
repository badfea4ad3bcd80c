// Whether a call is refused, and why: the tests of document 01, in its order, as document 02 has them.
#![tactic(auto)]

ghost use Rattle.std.specs.Prelude.{◌≡◌, true, [], ◌∷◌, ◌≤◌};
ghost use Rattle.rules.specs.Bytes.{record_at, record_count};
ghost use Rattle.rules.specs.Table.{in_order};
ghost use Rattle.rules.specs.Calls.{most_records, seen, sizes_good, verdict, sizes_test, order_test, serial_test, read_verdict, update_verdict, fill_verdict, withdraw_verdict, plain_verdict};

use fields::{is_unlined, is_zero};
use records::{LINE_SIZE, RECORD_SIZE, line_count, record_at, record_count};
use rules::{
    Gauge, MOST_RECORDS, MOST_TOTAL, MOST_WEIGHT, Record, Refusal, SERIAL_LIMIT, View, must,
};

// Whether the table has 1 to 1,024 whole records and the lines are whole and fewer.
#[tactic(auto, unfolding(rules::specs::Calls::sizes_good, rules::specs::Bytes::record_count, rules::specs::Bytes::line_count))]
pub fn sizes_good(table: &[u8], lines: &[u8]) -> bool
    ensures { result ≡ sizes_good table.now lines.now }
{
    let n = record_count(table);
    let c = line_count(lines);
    RECORD_SIZE * n == table.len()
        && 1 <= n
        && n <= MOST_RECORDS
        && LINE_SIZE * c == lines.len()
        && c < n
}

// ---- order

// Whether the table is in order, in one pass. A record without a line is asked first, since most are; of another, one number says whether
// its line is there; the rest have to be free, and zero. (By the names of the states it takes 8 to 50 in 100 longer. That a zero record is
// free goes without saying: the state is asked again for the place in memory that the loops behind this one come to have. Not inlined:
// inside an export the compiler takes the loop for one that is seldom run and does not align it, and a call is up to a fifth slower.)
#[tactic(auto, using(rules::proofs::Searches::count_within), unfolding(rules::specs::Table::record_in_order, rules::specs::Table::is_tracked, rules::specs::Table::is_lined, rules::specs::Table::is_unlined, rules::specs::Table::is_zero, rules::specs::Table::in_order, rules::specs::Pass::all_of, rules::specs::Pass::count_of, rules::specs::Pass::sum_of, rules::specs::Pass::pass, rules::specs::Bytes::record_count))]
#[inline(never)]
pub fn in_order(table: &[u8], gauge: Gauge, lines: usize) -> bool
    requires { lines ≤ most_records }
    ensures { result ≡ in_order (record_at table.now) (record_count table.now) lines gauge }
{
    let total = gauge.total;
    if MOST_TOTAL < total || total < gauge.ceiling {
        return false;
    }
    let mut lined = 0;
    for i in 0..record_count(table) {
        let r = record_at(table, i);
        if total < r.heat {
            return false;
        }
        if is_unlined(r) {
            if r.ticket != 0 {
                return false;
            }
        } else if r.state.wrapping_sub(2) < 2 * lines as u64 {
            lined += 1;
        } else if r.state != 0 || !is_zero(r) {
            return false;
        }
    }
    lined <= lines
}

// ---- the tests of a call

#[tactic(auto, unfolding(rules::specs::Calls::sizes_test))]
fn sizes_test(lent: View) -> Result<(), Refusal>
    ensures { result ≡ verdict (sizes_test (seen lent.entry) ∷ []) }
{
    must(sizes_good(lent.table, lent.lines), Refusal::WrongSizes)
}

// The table's order, once the sizes are good.
#[tactic(auto, using(rules::proofs::Memories::sizes_say), unfolding(rules::specs::Calls::order_test, rules::specs::Calls::order_good, rules::specs::Table::places, rules::specs::Table::size, rules::specs::Table::line_total))]
fn order_test(lent: View) -> Result<(), Refusal>
    requires { sizes_good lent.table.now lent.lines.now ≡ true }
    ensures { result ≡ verdict (order_test (seen lent.entry) ∷ []) }
{
    must(
        in_order(lent.table, lent.gauge, line_count(lent.lines)),
        Refusal::NotInOrder,
    )
}

// Whether the serial was good for the call.
#[tactic(auto, unfolding(rules::specs::Calls::serial_test))]
fn serial_test(good: bool) -> Result<(), Refusal>
    ensures { result ≡ verdict (serial_test good ∷ []) }
{
    must(good, Refusal::SerialSpent)
}

#[tactic(auto, unfolding(rules::specs::Calls::plain_verdict, rules::specs::Calls::verdict, rules::specs::Calls::sizes_test))]
pub fn plain_verdict(lent: View) -> Result<(), Refusal>
    ensures { result ≡ plain_verdict (seen lent.entry) }
{
    sizes_test(lent)?;
    order_test(lent)
}

#[tactic(auto, unfolding(rules::specs::Calls::read_verdict, rules::specs::Calls::verdict, rules::specs::Calls::sizes_test, rules::specs::Calls::read_weight_good, rules::specs::Calls::serial_good))]
pub fn read_verdict(lent: View, weight: u64) -> Result<(), Refusal>
    ensures { result ≡ read_verdict (seen lent.entry) weight }
{
    sizes_test(lent)?;
    must(weight <= MOST_WEIGHT, Refusal::WrongWeight)?;
    order_test(lent)?;
    serial_test(weight == 0 || lent.gauge.serial < SERIAL_LIMIT)
}

#[tactic(auto, unfolding(rules::specs::Calls::update_verdict, rules::specs::Calls::verdict, rules::specs::Calls::sizes_test, rules::specs::Calls::update_weight_good, rules::specs::Calls::serial_good))]
pub fn update_verdict(lent: View, weight: u64) -> Result<(), Refusal>
    ensures { result ≡ update_verdict (seen lent.entry) weight }
{
    sizes_test(lent)?;
    must(1 <= weight && weight <= MOST_WEIGHT, Refusal::WrongWeight)?;
    order_test(lent)?;
    serial_test(lent.gauge.serial < SERIAL_LIMIT)
}

#[tactic(auto, unfolding(rules::specs::Calls::fill_verdict, rules::specs::Calls::verdict, rules::specs::Calls::sizes_test, rules::specs::Calls::picture_good, rules::specs::Calls::serial_good))]
pub fn fill_verdict(lent: View, picture: &[u8]) -> Result<(), Refusal>
    ensures { result ≡ fill_verdict (seen lent.entry) picture.now }
{
    sizes_test(lent)?;
    must(picture.len() == LINE_SIZE, Refusal::WrongPicture)?;
    order_test(lent)?;
    serial_test(lent.gauge.serial < SERIAL_LIMIT)
}

#[tactic(auto, unfolding(rules::specs::Calls::withdraw_verdict, rules::specs::Calls::plain_verdict, rules::specs::Calls::verdict, rules::specs::Calls::sizes_test, rules::specs::Calls::order_test, rules::specs::Calls::serial_test, rules::specs::Calls::serial_good))]
pub fn withdraw_verdict(lent: View) -> Result<(), Refusal>
    ensures { result ≡ withdraw_verdict (seen lent.entry) }
{
    plain_verdict(lent)?;
    serial_test(lent.gauge.serial < SERIAL_LIMIT)
}
