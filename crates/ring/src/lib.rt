// Which store a key's picture is fetched from: the ring of document 02.
#![tactic(auto)]

ghost use Rattle.std.specs.Prelude.{ℕ, ◌≡◌, ◌<◌, ◌≤◌, length, get_or, ltb};
ghost use Rattle.std.specs.List.{IsAllAdjacentAnswer};
ghost use Rattle.rules.specs.Answers.{value_said};
ghost use Rattle.ring.specs.Ring.{most_points, point_at, point_count, distance, nearer, chosen, ring_good, position_at, repeats, doubled, ring_verdict, store_outcome, store_said};

use records::get_u64;
use rules::{Refusal, must};

// The size of a point, in bytes.
const POINT_SIZE: usize = 16;
// Where its store lies in it, after the position.
const STORE_AT: usize = 8;
// The most points that a ring may have.
const MOST_POINTS: usize = 1024;
// So many positions do for a few points.
const FEW: usize = 64;

// A place on the ring, and the store whose it is.
#[derive(Clone, Copy, Debug)]
pub struct Point {
    pub position: u64,
    pub store: u64,
}

// How many whole points a ring has.
#[tactic(auto, unfolding(crate::specs::Ring::point_count))]
fn point_count(ring: &[u8]) -> usize
    ensures { result ≡ point_count ring.now }
{
    ring.len() / POINT_SIZE
}

// The point at place i of a ring.
#[tactic(auto, unfolding(crate::specs::Ring::point_count, crate::specs::Ring::point_at))]
fn point_at(ring: &[u8], i: usize) -> Point
    requires { i < point_count ring.now }
    ensures { result ≡ point_at ring.now i }
{
    let at = POINT_SIZE * i;
    Point {
        position: get_u64(ring, at),
        store: get_u64(ring, at + STORE_AT),
    }
}

// Whether a ring has 1 to 1,024 whole points.
#[tactic(auto, unfolding(crate::specs::Ring::point_count, crate::specs::Ring::ring_good))]
fn ring_good(ring: &[u8]) -> bool
    ensures { result ≡ ring_good ring.now }
{
    let n = point_count(ring);
    POINT_SIZE * n == ring.len() && 1 <= n && n <= MOST_POINTS
}

// How far a point lies clockwise from a key's position, wrapped at 64 bits.
#[tactic(auto, unfolding(crate::specs::Ring::distance))]
fn distance(key: u64, p: Point) -> u64
    ensures { result ≡ distance key p }
{
    p.position.wrapping_sub(key)
}

// The nearer one of two points.
#[tactic(auto, unfolding(crate::specs::Ring::nearer))]
fn nearer(key: u64, p: Point, q: Point) -> Point
    ensures { result ≡ nearer key p q }
{
    if distance(key, q) < distance(key, p) {
        q
    } else {
        p
    }
}

// The point of a key.
#[tactic(auto, unfolding(crate::specs::Ring::nearest, rules::specs::Pass::pass, crate::specs::Ring::chosen))]
fn chosen(ring: &[u8], key: u64) -> Point
    requires { 1 ≤ point_count ring.now }
    ensures { result ≡ chosen ring.now key }
{
    let mut p = point_at(ring, 0);
    for i in 0..point_count(ring) {
        p = nearer(key, p, point_at(ring, i));
    }
    p
}

// Puts the positions of a ring's points into a list.
#[tactic(auto, unfolding(crate::specs::Ring::position_at))]
fn positions_of(ring: &[u8], positions: &mut [u64])
    requires { length positions.old ≡ point_count ring.now }
    ensures len { length positions.new ≡ length positions.old }
    ensures positions { (i : ℕ) → i < length positions.old → get_or positions.new i 0 ≡ position_at ring.now i }
{
    for i in 0..positions.len() {
        positions[i] = point_at(ring, i).position;
    }
}

// Whether each number of a list is below the next.
fn rises(numbers: &[u64]) -> bool
    ensures { IsAllAdjacentAnswer (λ x y b. b ≡ ltb x y) numbers.now result }
{
    numbers.is_sorted_by(|a, b| a < b)
}

// Whether two numbers of a list are equal: once they are in order, one is then not below the next.
fn repeats(numbers: &mut [u64]) -> bool
    ensures { result ≡ repeats (λ i. get_or numbers.old i 0) (length numbers.old) }
{
    numbers.sort_unstable();
    !rises(numbers)
}

// Whether two points stand at one position, by a list that has room for each position.
#[tactic(auto, unfolding(crate::specs::Ring::doubled), using(crate::proofs::Apart::repeats_same))]
fn doubled_over(ring: &[u8], positions: &mut [u64]) -> bool
    requires { length positions.old ≡ point_count ring.now }
    ensures { result ≡ doubled ring.now }
{
    positions_of(ring, positions);
    repeats(positions)
}

// Whether two points stand at one position. Few points want a short list.
fn doubled(ring: &[u8]) -> bool
    requires { point_count ring.now ≤ most_points }
    ensures { result ≡ doubled ring.now }
{
    let n = point_count(ring);
    if n <= FEW {
        let mut few = [0; FEW];
        doubled_over(ring, &mut few[..n])
    } else {
        let mut many = [0; MOST_POINTS];
        doubled_over(ring, &mut many[..n])
    }
}

// Whether a ring is refused, and why.
#[tactic(auto, unfolding(crate::specs::Ring::ring_verdict, crate::specs::Ring::ring_good, rules::specs::Calls::verdict))]
fn ring_verdict(ring: &[u8]) -> Result<(), Refusal>
    ensures { result ≡ ring_verdict ring.now }
{
    must(ring_good(ring), Refusal::WrongRing)?;
    must(!doubled(ring), Refusal::DoubledPosition)
}

// The store from which a key's picture is fetched.
#[tactic(auto, unfolding(crate::specs::Ring::store_outcome, crate::specs::Ring::store_said, rules::specs::Calls::unless, rules::specs::Answers::value_said), using(crate::proofs::Nearest::some_point))]
pub fn store_of(ring: &[u8], position: u64) -> Result<u64, Refusal>
    ensures outcome { result ≡ store_outcome ring.now position }
    ensures said { value_said result ≡ store_said ring.now position }
{
    ring_verdict(ring)?;
    Ok(chosen(ring, position).store)
}
