// What a pass over the table finds.
#![tactic(auto)]

ghost use Rattle.std.specs.Prelude.{ℕ, Bool, ◌&&◌, ◌≡◌, ◌≤◌, ◌<◌, length, if◌then◌else◌, Some, None};
ghost use Rattle.rules.specs.Bytes.{record_at, record_count};
ghost use Rattle.rules.specs.declared.Record.{Record};
ghost use Rattle.rules.specs.Pass.{Found, first, pass, best, first_of, count_of};
ghost use Rattle.rules.specs.Table.{is_free, is_tracked, is_unlined, is_lined, has_key, key_record, colder, leaves, victim, coldest_lined, hottest_unlined, lookup};
ghost use Rattle.rules.specs.Walk.{walk_step, walk};
ghost use Rattle.rules.specs.Answers.{lookup_said};
ghost use Rattle.rules.specs.Calls.{most_records};
ghost use Rattle.rules.specs.Numbers.{key_said};
ghost use Rattle.tracker.specs.Claiming.{largest, heat_of, HeatsUnder, ClaimFits, below, IsClaim};
ghost use Rattle.tracker.specs.Marks.{Unmarked, Marks, lowest_unmarked};
ghost use Rattle.tracker.specs.Walking.{at, found_in, held_records, NumbersOf, VictimHeld, walked};

use fields::{is_filled, is_free, is_lined, is_unlined, line_of};
use records::{record_at, record_count};
use rules::{Lookup, MOST_RECORDS, Record};

// So many marks do for a few lines.
const FEW: usize = 64;

// ---- searches that stop at the first record that serves

// The first record that passes a test.
#[tactic(auto, unfolding(rules::specs::Pass::first_of, rules::specs::Pass::pass), using(crate::proofs::Stops::found_here, crate::proofs::Stops::not_here))]
fn first<F: Fn(Record) -> bool>(table: &[u8], test: F) -> Option<(usize, Record)>
    requires { F.IsAlwaysCallable test }
    ensures { (p : Record → Bool) → ((r passes : _) → F.post test r passes → passes ≡ p r) → result ≡ first_of p (record_at table.now) (record_count table.now) }
{
    for i in 0..record_count(table) {
        let r = record_at(table, i);
        if test(r) {
            return Some((i, r));
        }
    }
    None
}

#[tactic(auto, unfolding(rules::specs::Table::has_key, rules::specs::Table::is_tracked, rules::specs::Table::is_free))]
fn has_key(r: Record, key: u64) -> bool
    ensures { result ≡ has_key key r }
{
    r.key == key && !is_free(r)
}

// The record of a key.
#[tactic(auto, unfolding(rules::specs::Table::key_record))]
pub fn key_record(table: &[u8], key: u64) -> Option<(usize, Record)>
    ensures { result ≡ key_record key (record_at table.now) (record_count table.now) }
{
    first(table, |r| has_key(r, key))
}

// A key, looked up.
#[tactic(auto, unfolding(rules::specs::Table::lookup, rules::specs::Table::looked_up))]
pub fn lookup(table: &[u8], key: u64) -> Lookup
    ensures value { result ≡ lookup (record_at table.now) (record_count table.now) key }
    ensures result_value { lookup_said result ≡ key_said (key_record key (record_at table.now) (record_count table.now)) }
{
    match key_record(table, key) {
        None => Lookup::Untracked,
        Some((place, r)) if is_lined(r) => Lookup::Lined {
            place,
            line: line_of(r),
            filled: is_filled(r),
            ticket: r.ticket,
        },
        Some(_) => Lookup::Unlined,
    }
}

// ---- one walk for a key that may be untracked

// The place of no record.
const NONE: usize = usize::MAX;

// What the walk holds, in places and numbers: the places of the key's record, of the first free one and of the victim, each NONE where
// there is none, and the victim's heat and slack, each the largest number where there is none.
#[derive(Clone, Copy, Debug)]
pub struct Held {
    pub own: usize,
    pub free: usize,
    pub victim: usize,
    pub heat: u64,
    pub slack: u64,
}

// A place, if it is that of a record.
pub fn some_place(place: usize) -> Option<usize>
    ensures { (f : ℕ → Record) → found_in f result ≡ at f place }
{
    if place == NONE { None } else { Some(place) }
}

// The first place that passes: the one that is held, or else this one, if it passes.
#[tactic(auto, unfolding(rules::specs::Pass::first))]
fn first_place(held: usize, i: usize, passes: bool) -> usize
    requires { i < largest }
    ensures { (test : Record → Bool) (f : ℕ → Record) (r : Record) → r ≡ f i → passes ≡ test r → at f result ≡ first test (at f held) i r }
{
    if passes && held == NONE { i } else { held }
}

// The order of step 4: whether a record leaves before the victim that is held, if one is. Its heat has to be less, or no more where it has
// more slack. (One comparison for both: no pattern tells the processor which of many equally cold records have more slack.)
#[tactic(auto, using(crate::proofs::Walking::leaves_by_numbers))]
fn leaves(r: Record, held: Held) -> bool
    requires { r.heat < largest }
    ensures { (i : ℕ) (found : Found) → NumbersOf held found → best is_unlined leaves found i r ≡ (if is_unlined r && result then Some (i, r) else found) }
{
    r.heat + u64::from(r.slack <= held.slack) <= held.heat
}

// The key's record and the first free one, a record further.
#[tactic(auto, using(crate::proofs::Walking::key_of_free, crate::proofs::Walking::key_alone, crate::proofs::Walking::free_of_taken))]
fn first_step(held: Held, key: u64, i: usize, r: Record) -> Held
    requires { i < largest }
    ensures own { (f : ℕ → Record) → r ≡ f i → at f result.own ≡ first (has_key key) (at f held.own) i r }
    ensures free { (f : ℕ → Record) → r ≡ f i → at f result.free ≡ first is_free (at f held.free) i r }
    ensures victim { (result.victim ≡ held.victim) × (result.heat ≡ held.heat) × (result.slack ≡ held.slack) }
{
    if is_free(r) {
        Held {
            free: first_place(held.free, i, true),
            ..held
        }
    } else {
        Held {
            own: first_place(held.own, i, r.key == key),
            ..held
        }
    }
}

// The walk, a record further: by the key, what it holds and that record with its place. (The order is asked first, and by itself, since few
// tracked records leave before the victim: of tests joined by `&&` the compiler makes both for every record, and the walk takes 1.3 to
// 1.5 times as long.)
#[tactic(auto, unfolding(rules::specs::Walk::walk_step), using(crate::proofs::Walking::held_here))]
fn walk_step(held: Held, key: u64, i: usize, r: Record) -> Held
    requires { (i < largest) × (r.heat < largest) }
    ensures { (f : ℕ → Record) → r ≡ f i → VictimHeld f held → (held_records f result ≡ walk_step key (held_records f held) i r) × VictimHeld f result }
{
    if !leaves(r, held) {
        first_step(held, key, i, r)
    } else if is_unlined(r) {
        Held {
            victim: i,
            heat: r.heat,
            slack: r.slack,
            ..first_step(held, key, i, r)
        }
    } else {
        first_step(held, key, i, r)
    }
}

// The walk over the table. It stops at the key's record, and not at a free one, after which the key's may come. (Not inlined, as the order
// test is not: its loop has to be aligned.)
#[tactic(auto, unfolding(rules::specs::Bytes::record_count, rules::specs::Walk::walk, rules::specs::Pass::pass, crate::specs::Claiming::heat_of, crate::specs::Walking::slack_of), using(rules::proofs::Walks::walk_next, crate::proofs::Walking::nowhere_yet))]
#[inline(never)]
pub fn walk(table: &[u8], key: u64) -> Held
    requires { HeatsUnder (record_at table.now) (record_count table.now) }
    ensures { held_records (record_at table.now) result ≡ walk key (record_at table.now) (walked (record_count table.now) (key_record key (record_at table.now) (record_count table.now))) }
{
    let mut held = Held {
        own: NONE,
        free: NONE,
        victim: NONE,
        heat: u64::MAX,
        slack: u64::MAX,
    };
    for i in 0..record_count(table) {
        held = walk_step(held, key, i, record_at(table, i));
        if held.own != NONE {
            return held;
        }
    }
    held
}

// ---- searches that see every record

// The first record without a line.
fn first_unlined(table: &[u8]) -> Option<(usize, Record)>
    ensures { result ≡ first_of is_unlined (record_at table.now) (record_count table.now) }
{
    first(table, is_unlined)
}

// The hottest record without a line: the first one, or one behind it. (Both tests of a record are made: no pattern tells the processor
// which records are on lines, but few are hotter than the one that is held. Not inlined, as the walk is not.)
#[tactic(auto, unfolding(rules::specs::Bytes::record_count), using(crate::proofs::Hottest::none_waits, crate::proofs::Hottest::first_waits, crate::proofs::Hottest::first_inside, crate::proofs::Hottest::hottest_is, crate::proofs::Hottest::hotter_moves, crate::proofs::Hottest::hotter_stays))]
#[inline(never)]
pub fn hottest_unlined(table: &[u8]) -> Option<(usize, Record)>
    ensures { result ≡ hottest_unlined (record_at table.now) (record_count table.now) }
{
    let (mut best, r) = first_unlined(table)?;
    let mut most = r.heat;
    for i in best + 1..record_count(table) {
        let r = record_at(table, i);
        if is_unlined(r) & (most < r.heat) {
            best = i;
            most = r.heat;
        }
    }
    Some((best, record_at(table, best)))
}

// ---- what a resize looks for: it is rare, so its searches hold records

// A pass over the records: a step decides by what is held, the place and the record what is held next.
#[tactic(auto, unfolding(rules::specs::Pass::pass))]
fn pass<F: Fn(Option<(usize, Record)>, usize, Record) -> Option<(usize, Record)>>(
    table: &[u8],
    step: F,
) -> Option<(usize, Record)>
    requires { F.IsAlwaysCallable step }
    ensures { (s : Found → ℕ → Record → Found) → ((held i r next : _) → F.post step held i r next → next ≡ s held i r) → result ≡ pass s None (record_at table.now) (record_count table.now) }
{
    let mut held = None;
    for i in 0..record_count(table) {
        held = step(held, i, record_at(table, i));
    }
    held
}

// The coldest record on a line, a record further.
#[tactic(auto, unfolding(rules::specs::Pass::best, rules::specs::Table::colder))]
fn coldest_step(held: Option<(usize, Record)>, i: usize, r: Record) -> Option<(usize, Record)>
    ensures { result ≡ best is_lined colder held i r }
{
    let is_colder = match held {
        None => true,
        Some((_, s)) => r.heat < s.heat,
    };
    if is_lined(r) && is_colder {
        Some((i, r))
    } else {
        held
    }
}

// The coldest record on a line.
#[tactic(auto, unfolding(rules::specs::Table::coldest_lined, rules::specs::Pass::best_of))]
pub fn coldest_lined(table: &[u8]) -> Option<(usize, Record)>
    ensures { result ≡ coldest_lined (record_at table.now) (record_count table.now) }
{
    pass(table, coldest_step)
}

// The victim, a record further.
#[tactic(auto, unfolding(rules::specs::Pass::best, rules::specs::Table::leaves, rules::specs::Table::colder))]
fn victim_step(held: Option<(usize, Record)>, i: usize, r: Record) -> Option<(usize, Record)>
    ensures { result ≡ best is_unlined leaves held i r }
{
    let leaves = match held {
        None => true,
        Some((_, s)) => r.heat < s.heat || (r.heat == s.heat && s.slack < r.slack),
    };
    if is_unlined(r) && leaves {
        Some((i, r))
    } else {
        held
    }
}

// The record without a line that leaves first.
#[tactic(auto, unfolding(rules::specs::Table::victim, rules::specs::Pass::best_of))]
pub fn victim(table: &[u8]) -> Option<(usize, Record)>
    ensures { result ≡ victim (record_at table.now) (record_count table.now) }
{
    pass(table, victim_step)
}

// How many records pass a test.
#[tactic(auto, unfolding(rules::specs::Pass::count_of, rules::specs::Pass::sum_of, rules::specs::Pass::pass))]
fn count<T: Fn(Record) -> bool>(table: &[u8], test: T) -> usize
    requires { T.IsAlwaysCallable test }
    ensures { (p : Record → Bool) → ((r passes : _) → T.post test r passes → passes ≡ p r) → result ≡ count_of p (record_at table.now) (record_count table.now) }
{
    let mut counted = 0;
    for i in 0..record_count(table) {
        if test(record_at(table, i)) {
            counted += 1;
        }
    }
    counted
}

#[tactic(auto, unfolding(rules::specs::Table::is_tracked, rules::specs::Table::is_free))]
fn is_tracked(r: Record) -> bool
    ensures { result ≡ is_tracked r }
{
    !is_free(r)
}

// How many records are tracked.
pub fn tracked_count(table: &[u8]) -> usize
    ensures { result ≡ count_of is_tracked (record_at table.now) (record_count table.now) }
{
    count(table, is_tracked)
}

// How many records are on lines.
pub fn lined_count(table: &[u8]) -> usize
    ensures { result ≡ count_of is_lined (record_at table.now) (record_count table.now) }
{
    count(table, is_lined)
}

// ---- the line that a record gets

// The lowest line that no record is on, and the coldest record on a line. (No enum: each is told whatever the other is.)
#[derive(Clone, Copy, Debug)]
pub struct Claim {
    pub line: Option<usize>,
    pub coldest: Option<(usize, Record)>,
}

// Marks the line of every record that is on one, and finds the coldest of these records.
#[tactic(auto, unfolding(rules::specs::Bytes::record_count, rules::specs::Table::is_lined, rules::specs::Table::line_of), using(crate::proofs::Marks::marks_none, crate::proofs::Claiming::coldest_none))]
fn mark_lines(table: &[u8], used: &mut [bool]) -> Option<(usize, Record)>
    requires { Unmarked used.old × ClaimFits (record_at table.now) (record_count table.now) (length used.old) }
    ensures { Marks (record_at table.now) (record_count table.now) used.new × (result ≡ coldest_lined (record_at table.now) (record_count table.now)) }
{
    let n = record_count(table);
    let mut best = n;
    let mut least = u64::MAX;
    for i in 0..n {
        let r = record_at(table, i);
        if is_lined(r) {
            used[line_of(r)] = true;
            if r.heat < least {
                best = i;
                least = r.heat;
            }
        }
    }
    if best < n {
        Some((best, record_at(table, best)))
    } else {
        None
    }
}

// The lowest of the first lines that has no mark.
fn lowest_unmarked(used: &[bool], lines: usize) -> Option<usize>
    requires { lines ≤ length used.now }
    ensures { result ≡ below lines (lowest_unmarked used.now lines) }
{
    used[..lines].iter().position(|mark| !*mark)
}

// What a record without a line can claim, over marks that are all clear. (Not inlined, as the order test is not.)
#[tactic(auto, using(crate::proofs::Marks::lowest_unmarked_unused))]
#[inline(never)]
fn claim_marking(table: &[u8], lines: usize, used: &mut [bool]) -> Claim
    requires { Unmarked used.old × (lines ≤ length used.old) × ClaimFits (record_at table.now) (record_count table.now) lines }
    ensures { IsClaim (record_at table.now) (record_count table.now) lines result.line result.coldest }
{
    let coldest = mark_lines(table, used);
    let line = lowest_unmarked(used, lines);
    Claim { line, coldest }
}

// What a record without a line can claim, in one pass over the records and one over the lines. Few lines want few marks.
pub fn claimable(table: &[u8], lines: usize) -> Claim
    requires { (lines ≤ most_records) × ClaimFits (record_at table.now) (record_count table.now) lines }
    ensures { IsClaim (record_at table.now) (record_count table.now) lines result.line result.coldest }
{
    if lines <= FEW {
        let mut few = [false; FEW];
        claim_marking(table, lines, &mut few)
    } else {
        let mut many = [false; MOST_RECORDS];
        claim_marking(table, lines, &mut many)
    }
}
