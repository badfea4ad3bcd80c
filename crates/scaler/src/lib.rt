// Whether a table should grow, shrink, age or stay at the end of an epoch: Algorithm 3 of document 000, by document 02.
#![tactic(auto)]

ghost use Rattle.std.specs.Prelude.{ℕ, ◌≡◌, ◌<◌, ◌≤◌};
ghost use Rattle.rules.specs.Steps.{outcome};
ghost use Rattle.scaler.specs.Scale.{below, store_count, lookup_at, imbalance, over_target, on_average, off_average, whole, tolerated, sizes_good, stores_good, fraction_good, epoch_good, scale_verdict, scaled, scale_outcome, reply_said, scale_said, scale_number, scale_values, put_numbers, exported_scale};
ghost use Rattle.scaler.specs.Bounds.{InBounds, Narrow};

use records::{get_u64, put_u64};
use rules::{MOST_RECORDS, Refusal, must};

// The size of a number, in bytes.
const NUMBER_SIZE: usize = 8;
// The most stores that there may be.
const MOST_STORES: usize = 64;
// The most that a count or a part of a fraction may be.
const MOST_COUNT: u64 = 1048576;
// The parts of a whole in which a tolerance is given.
const WHOLE: u64 = 1000;
// The size of what a host is told besides a number, in bytes.
const OUT_SIZE: usize = 32;
// Where its numbers lie in it, after the lines.
const RECORDS_AT: usize = 8;

const OVER_AT: usize = 16;

const UNDER_AT: usize = 24;

// A fraction, an average or an imbalance: one number over another.
#[derive(Clone, Copy, Debug)]
pub struct Ratio {
    pub over: u64,
    pub under: u64,
}

// What the hub knows at the end of an epoch, but for the lookups to each store.
#[derive(Clone, Copy, Debug)]
pub struct Epoch {
    // The hits on lines in this epoch, and those off them.
    pub on: u64,
    pub off: u64,
    // C and K.
    pub lines: u64,
    pub records: u64,
    // The greatest imbalance that is aimed at.
    pub imbalance: Ratio,
    // The hits per line that are aimed at.
    pub target: Ratio,
    // In thousandths, how far below the target is still good.
    pub tolerance: u64,
}

// What is to be done at the end of an epoch.
#[derive(Clone, Copy, Debug)]
pub enum Scale {
    // To so many lines and records; and the hits per line that are aimed at from now on.
    Grow {
        lines: u64,
        records: u64,
        target: Ratio,
    },
    // To so many lines and records.
    Shrink {
        lines: u64,
        records: u64,
    },
    Age,
    Stay,
}

// Whether one ratio is below another, by cross products.
#[tactic(auto, unfolding(crate::specs::Scale::below))]
fn below(a: Ratio, b: Ratio) -> bool
    requires a_narrow { Narrow a }
    requires b_narrow { Narrow b }
    ensures { result ≡ below a b }
{
    a.over * b.under < b.over * a.under
}

// How many stores there are.
#[tactic(auto, unfolding(crate::specs::Scale::store_count))]
fn store_count(lookups: &[u8]) -> usize
    ensures { result ≡ store_count lookups.now }
{
    lookups.len() / NUMBER_SIZE
}

// The lookups to the store at place i.
#[tactic(auto, unfolding(crate::specs::Scale::store_count, crate::specs::Scale::lookup_at))]
fn lookup_at(lookups: &[u8], i: usize) -> u64
    requires { i < store_count lookups.now }
    ensures { result ≡ lookup_at lookups.now i }
{
    get_u64(lookups, NUMBER_SIZE * i)
}

// The most lookups to one store, over the fewest.
#[tactic(auto, unfolding(crate::specs::Scale::greatest, crate::specs::Scale::least, crate::specs::Scale::imbalance, rules::specs::Pass::pass))]
fn imbalance(lookups: &[u8]) -> Ratio
    requires { 1 ≤ store_count lookups.now }
    ensures { result ≡ imbalance lookups.now }
{
    let mut most = 0;
    let mut fewest = lookup_at(lookups, 0);
    for i in 0..store_count(lookups) {
        let n = lookup_at(lookups, i);
        most = most.max(n);
        fewest = fewest.min(n);
    }
    Ratio {
        over: most,
        under: fewest,
    }
}

// Whether both parts of a fraction are in bounds.
#[tactic(auto, unfolding(crate::specs::Scale::fraction_good))]
fn fraction_good(r: Ratio) -> bool
    ensures { result ≡ fraction_good r }
{
    r.over <= MOST_COUNT && 1 <= r.under && r.under <= MOST_COUNT
}

// Whether lines and records are as many as a table may have.
#[tactic(auto, unfolding(crate::specs::Scale::sizes_good))]
fn sizes_good(e: Epoch) -> bool
    ensures { result ≡ sizes_good e }
{
    1 <= e.lines && e.lines < e.records && e.records <= MOST_RECORDS as u64
}

// Whether there are lookups to 1 to 64 stores.
#[tactic(auto, unfolding(crate::specs::Scale::store_count, crate::specs::Scale::stores_good))]
fn stores_good(lookups: &[u8]) -> bool
    ensures { result ≡ stores_good lookups.now }
{
    let n = store_count(lookups);
    NUMBER_SIZE * n == lookups.len() && 1 <= n && n <= MOST_STORES
}

// Whether all else is in bounds.
#[tactic(auto, unfolding(crate::specs::Scale::epoch_good, crate::specs::Scale::stores_good, crate::specs::Scale::counts_good, crate::specs::Scale::imbalance_good, crate::specs::Scale::imbalance))]
fn epoch_good(lookups: &[u8], e: Epoch) -> bool
    ensures { result ≡ epoch_good lookups.now e }
{
    stores_good(lookups)
        && imbalance(lookups).over <= MOST_COUNT
        && e.on <= MOST_COUNT
        && e.off <= MOST_COUNT
        && fraction_good(e.imbalance)
        && e.imbalance.under <= e.imbalance.over
        && fraction_good(e.target)
        && e.tolerance < WHOLE
}

// Whether an epoch is refused, and why.
#[tactic(auto, unfolding(crate::specs::Scale::scale_verdict, rules::specs::Calls::verdict))]
fn scale_verdict(lookups: &[u8], e: Epoch) -> Result<(), Refusal>
    ensures { result ≡ scale_verdict lookups.now e }
{
    must(sizes_good(e), Refusal::WrongSizes)?;
    must(epoch_good(lookups, e), Refusal::WrongEpoch)
}

// Whether the imbalance is over the one that is aimed at.
#[tactic(auto, unfolding(crate::specs::Scale::over_target), using(crate::proofs::Bounds::imbalance_target_narrow))]
fn over_target(lookups: &[u8], e: Epoch) -> bool
    requires { InBounds lookups.now e }
    ensures { result ≡ over_target lookups.now e }
{
    below(e.imbalance, imbalance(lookups))
}

// The hits per line.
#[tactic(auto, unfolding(crate::specs::Scale::on_average))]
fn on_average(e: Epoch) -> Ratio
    ensures { result ≡ on_average e }
{
    Ratio {
        over: e.on,
        under: e.lines,
    }
}

// The hits per record that has no line.
#[tactic(auto, unfolding(crate::specs::Scale::off_average))]
fn off_average(e: Epoch) -> Ratio
    requires { e.lines ≤ e.records }
    ensures { result ≡ off_average e }
{
    Ratio {
        over: e.off,
        under: e.records - e.lines,
    }
}

// The target, less what is tolerated.
#[tactic(auto, unfolding(crate::specs::Scale::tolerated))]
fn tolerated(e: Epoch) -> Ratio
    requires part { e.tolerance ≤ whole }
    requires narrow { Narrow (tolerated e) }
    ensures { result ≡ tolerated e }
{
    Ratio {
        over: (WHOLE - e.tolerance) * e.target.over,
        under: WHOLE * e.target.under,
    }
}

// What is to be done. (Not inlined: it is rarely run, and the loops of the other exports keep their places in memory by it.)
#[tactic(auto, unfolding(crate::specs::Scale::scaled, crate::specs::Scale::decided, crate::specs::Scale::grow_due, crate::specs::Scale::on_below, crate::specs::Scale::off_below, crate::specs::Scale::off_above), using(crate::proofs::Bounds::on_narrow, crate::proofs::Bounds::off_narrow, crate::proofs::Bounds::tolerated_narrow))]
#[inline(never)]
fn scaled(lookups: &[u8], e: Epoch) -> Scale
    requires { InBounds lookups.now e }
    ensures { result ≡ scaled lookups.now e }
{
    let on = on_average(e);
    let off = off_average(e);
    let tolerated = tolerated(e);
    if over_target(lookups, e) && !below(on, off) {
        if 2 * e.records <= MOST_RECORDS as u64 {
            Scale::Grow {
                lines: 2 * e.lines,
                records: 2 * e.records,
                target: on,
            }
        } else {
            Scale::Stay
        }
    } else if below(on, tolerated) && below(off, tolerated) {
        if e.lines == 1 {
            Scale::Stay
        } else {
            Scale::Shrink {
                lines: e.lines / 2,
                records: e.records.div_ceil(2),
            }
        }
    } else if below(on, tolerated) && below(tolerated, off) {
        Scale::Age
    } else {
        Scale::Stay
    }
}

// What is to be done at the end of an epoch with so many lookups to each store.
#[tactic(auto, unfolding(crate::specs::Scale::scale_outcome, rules::specs::Calls::unless), using(crate::proofs::Bounds::in_bounds, crate::proofs::Told::so_said))]
pub fn decide(lookups: &[u8], epoch: Epoch) -> Result<Scale, Refusal>
    ensures outcome { result ≡ scale_outcome lookups.now epoch }
    ensures said { reply_said result ≡ scale_said lookups.now epoch }
{
    scale_verdict(lookups, epoch)?;
    Ok(scaled(lookups, epoch))
}

// The number that a C host is told.
#[tactic(auto, unfolding(crate::specs::Scale::scale_number))]
fn scale_number(reply: Result<Scale, Refusal>) -> u64
    ensures { result ≡ scale_number reply }
{
    match reply {
        Ok(Scale::Grow { .. }) => 106,
        Ok(Scale::Shrink { .. }) => 107,
        Ok(Scale::Age) => 108,
        Ok(Scale::Stay) => 109,
        Err(cause) => cause.into(),
    }
}

// Puts what a table grows or shrinks to into lent bytes, and what is aimed at from then on.
#[tactic(auto, unfolding(crate::specs::Scale::put_numbers, crate::specs::Scale::scale_values))]
fn put_values(out: &mut [u8; OUT_SIZE], reply: Result<Scale, Refusal>)
    ensures { out.new ≡ put_numbers out.old 0 (scale_values reply) }
{
    match reply {
        Ok(
            Scale::Grow {
                lines,
                records,
                target,
            },
        ) => {
            put_u64(out, 0, lines);
            put_u64(out, RECORDS_AT, records);
            put_u64(out, OVER_AT, target.over);
            put_u64(out, UNDER_AT, target.under);
        }
        Ok(Scale::Shrink { lines, records }) => {
            put_u64(out, 0, lines);
            put_u64(out, RECORDS_AT, records);
        }
        _ => {}
    }
}

// The same for a C host, which is told a number.
#[tactic(auto, unfolding(crate::specs::Scale::exported_scale, rules::specs::Calls::verdict, rules::specs::Calls::unless))]
pub fn tell(lookups: &[u8], epoch: Epoch, out: &mut [u8]) -> u64
    ensures { outcome result out.new ≡ exported_scale lookups.now epoch out.old }
{
    let Some(out) = out.as_mut_array() else {
        return Refusal::WrongSizes.into();
    };
    let reply = decide(lookups, epoch);
    put_values(out, reply);
    scale_number(reply)
}
