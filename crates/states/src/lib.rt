// State records, their tally, rules 15 and 16 by it, and where a record of a variable set lies (document 01, "State records and unequal lengths").
#![tactic(auto)]

ghost use Rattle.std.specs.Prelude.{cond, ◌&&◌, ◌≡◌, eqb, ℕ, ◌+◌, ◌*◌, ◌-◌, ◌≤◌, ◌<◌, length};
ghost use Rattle.layout.specs.Answers.{verdict_is};
ghost use Rattle.layout.specs.Bytes.{part};
ghost use Rattle.layout.specs.Records.{variable_lengths};
ghost use Rattle.layout.specs.Rules.{state_rules};
ghost use Rattle.layout.specs.Search.{find, Below};
ghost use Rattle.layout.specs.States.{size_of_state, state_of, state_fits, state_count, states_of, tally_of};
ghost use Rattle.states.specs.States.{state_is, cap, capped, Capped, added, states_from, tally_is, tally_from, no_tally, with_state, found};
ghost use Rattle.states.specs.Roles.{describes_at, has_variable, only_states, unfilled, unfilled_at, rule16_by, described_by};
ghost use Rattle.states.specs.Laid.{Laid, Every, span_of};

use directory::Sets;
use dsd::Role;
use layout::{Refusal, refuse};

// Source 003, table 15.4.1.7.20-1. The kind stays the record's own byte: any may stand there, and rule 15 judges it.
#[derive(Clone, Copy)]
pub struct State {
    pub flag: u8,
    pub kind: u8,
    pub count: u16,
    pub record_length: u32,
}

impl State {
    pub const SIZE: usize = 1387;

    // The state whose record begins at a place.
    pub fn at(p: &[u8], at: usize) -> State
        requires { at + size_of_state ≤ length p.now }
        ensures { state_is result ≡ state_of (part p.now at size_of_state) }
    {
        State {
            flag: p[at + 12],
            kind: p[at + 1116],
            count: octets::unsigned(p, at + 1381, 2) as u16,
            record_length: octets::unsigned(p, at + 1383, 4) as u32,
        }
    }

    // Flag 0 or 1 and, at flag 0 only, both kind 1 to 4 and length at least 1 if its count is at least 1.
    pub fn fits(self) -> bool
        ensures { result ≡ state_fits (state_is self) }
    {
        if self.flag == 1 {
            return true;
        }
        if 1 < self.flag {
            return false;
        }
        if self.kind < 1 {
            return false;
        }
        if 4 < self.kind {
            return false;
        }
        if self.count == 0 {
            return true;
        }
        self.record_length != 0
    }

    // How many records the state adds to a set of the kind of this number, which may be any. Flag 0 means that records ARE attached. Its own number is compared
    // too: without that, a judgement of 1,000 states takes 2 % longer.
    pub fn adds_to(self, number: u8) -> u64
        ensures { (result ≡ state_count number (state_is self)) × (result < 65536) }
    {
        if self.flag != 0 {
            return 0;
        }
        if self.kind != number {
            return 0;
        }
        self.count as u64
    }
}

// The states of a product together, as layout's `Tally` has them: the number of the first state that does not fit, or how many there are; the records of
// kinds 1 to 4, and their bytes.
#[derive(Clone, Copy)]
pub struct Tally {
    pub bad: usize,
    pub counts: [u64; 4],
    pub totals: [u64; 4],
}

// 2^62, at which a sum stops: the states of a product can total more than 64 bits hold.
const CAP: u64 = 4611686018427387904;

fn plus(sum: u64, more: u64) -> u64
    requires { (sum ≤ cap) × (more ≤ cap) }
    ensures { result ≡ capped (sum + more) }
{
    let all = sum + more;
    if CAP < all {
        return CAP;
    }
    all
}

// So much more for the kind of this number, a state record's own byte, if it is one of the four. In place: to copy all four right behind a store to one
// would wait for it.
fn add_at(sums: &mut [u64; 4], kind: u8, more: u64)
    requires { Capped sums.old × (more ≤ cap) }
    ensures { sums.new ≡ added sums.old kind more }
{
    if kind < 1 {
        return;
    }
    if 4 < kind {
        return;
    }
    let place = (kind - 1) as usize;
    sums[place] = plus(sums[place], more);
}

// The number of the first state that does not fit, or how many there are, behind state i: one more only where all before it fit and it fits too.
fn bad_after(bad: usize, i: usize, fits: bool) -> usize
    requires { i < 18446744073709551615 }
    ensures { result ≡ cond (eqb bad i && fits) (bad + 1) bad }
{
    if bad != i {
        return bad;
    }
    if fits {
        return bad + 1;
    }
    bad
}

impl Tally {
    // Of no state.
    pub fn none() -> Tally
        ensures { result ≡ no_tally }
    {
        Tally {
            bad: 0,
            counts: [0; 4],
            totals: [0; 4],
        }
    }

    // One more state, number i, whatever the tally, if its sums are capped. Lent: a state that is handed on whole is packed into one word and taken apart again,
    // and a judgement of 1,000 states takes 1.25 times as long.
    pub fn add_state(&mut self, state: &State, i: usize)
        requires { Capped self.old.counts × Capped self.old.totals × (i < 18446744073709551615) }
        ensures { self.new ≡ with_state self.old (state_is state.now) i }
    {
        let more = state.adds_to(state.kind);
        self.bad = bad_after(self.bad, i, state.fits());
        add_at(&mut self.counts, state.kind, more);
        add_at(
            &mut self.totals,
            state.kind,
            more * state.record_length as u64,
        );
    }
}

// Of the states whose records begin at a place and follow each other.
pub fn tally_states(p: &[u8], start: usize, count: usize) -> Tally
    requires { start + size_of_state * count ≤ length p.now }
    ensures { result ≡ tally_is (tally_of (states_from p.now start count)) }
{
    let mut tally = Tally::none();
    for i in 0..count {
        tally.add_state(&State::at(p, start + State::SIZE * i), i);
    }
    tally
}

// A record of a variable set: the bytes of the records before it, and its length.
#[derive(Clone, Copy)]
pub struct Found {
    pub before: u64,
    pub length: u64,
}

// The record that is asked for, of the set of the kind of this number, which may be any.
pub fn find_record(p: &[u8], start: usize, count: usize, kind: u8, asked: usize) -> Option<Found>
    requires { start + size_of_state * count ≤ length p.now }
    ensures { result ≡ found (variable_lengths (states_from p.now start count) kind) asked }
{
    let mut before = 0;
    let mut left = asked as u64;
    for i in 0..count {
        let state = State::at(p, start + State::SIZE * i);
        let n = state.adds_to(kind);
        let length = state.record_length as u64;
        if left < n {
            return Some(Found {
                before: plus(before, left * length),
                length,
            });
        }
        left -= n;
        before = plus(before, n * length);
    }
    None
}

// ---- rules 15 and 16, by the numbers of a directory's entries

// Some entry is a variable set.
pub fn has_variable(roles: &[Role; 128], entries: usize) -> bool
    requires { entries ≤ 128 }
    ensures { result ≡ has_variable roles.now entries }
{
    roles[..entries].iter().any(|role| role.is_variable())
}

// The first entry from `from` on that describes the states.
fn first_states(sets: &Sets, from: usize) -> Option<usize>
    requires { (from ≤ sets.now.entries) × (sets.now.entries ≤ 128) }
    ensures { Below sets.now.entries result (find (describes_at sets.now.roles) from (sets.now.entries - from)) }
{
    (from..sets.entries).find(|i| sets.roles[*i].is_states())
}

// The entry that describes the states, if exactly one does.
fn only_states(sets: &Sets) -> Option<usize>
    requires { sets.now.entries ≤ 128 }
    ensures { Below sets.now.entries result (only_states sets.now.roles sets.now.entries) }
{
    let i = first_states(sets, 0)?;
    if first_states(sets, i + 1).is_some() {
        return None;
    }
    Some(i)
}

// Where the states begin that rules 15 and 16 look at, and how many there are: 0 and 0 where these look at none.
#[derive(Clone, Copy)]
pub struct StatesSpan {
    pub place: u64,
    pub count: u64,
}

impl StatesSpan {
    fn none() -> StatesSpan
        ensures { result ≡ record { place = 0; count = 0 } }
    {
        StatesSpan { place: 0, count: 0 }
    }
}

pub fn states_span(sets: &Sets) -> StatesSpan
    requires { (n : ℕ) × Laid sets.now n }
    ensures { Every sets.now (λ ds. result ≡ span_of ds) }
{
    let Some(i) = only_states(sets) else {
        return StatesSpan::none();
    };
    let size = sets.sizes[i];
    let count = sets.counts[i];
    if size == 0 {
        return StatesSpan::none();
    }
    if size != State::SIZE as u64 * count {
        return StatesSpan::none();
    }
    StatesSpan {
        place: sets.offsets[i],
        count,
    }
}

// A variable set whose records, of which there are so many of each kind with so many bytes, do not fill it.
fn is_unfilled(role: Role, count: u64, size: u64, tally: &Tally) -> bool
    ensures { result ≡ unfilled role count size tally.now.counts tally.now.totals }
{
    let Role::Variable(kind) = role else {
        return false;
    };
    let place = kind.place();
    if tally.counts[place] != count {
        return true;
    }
    tally.totals[place] != size
}

// Rule 16: the first variable set that its states do not fill.
fn first_unfilled(sets: &Sets, tally: &Tally) -> Option<usize>
    requires { sets.now.entries ≤ 128 }
    ensures { Below sets.now.entries result (find (unfilled_at sets.now.roles sets.now.counts sets.now.sizes tally.now.counts tally.now.totals) 0 sets.now.entries) }
{
    (0..sets.entries).find(|i| is_unfilled(sets.roles[*i], sets.counts[*i], sets.sizes[*i], tally))
}

// Rule 16, where the states are tallied.
fn judge_filled(sets: &Sets, tally: &Tally) -> Result<(), Refusal>
    requires { sets.now.entries ≤ 128 }
    ensures { verdict_is result ≡ rule16_by sets.now tally.now.counts tally.now.totals }
{
    match first_unfilled(sets, tally) {
        Some(unfilled) => refuse(16, sets.offsets[unfilled], unfilled),
        None => Ok(()),
    }
}

// Rules 15 and 16 by a tally, where entry i and no other describes the states.
fn judge_described(sets: &Sets, i: usize, tally: &Tally) -> Result<(), Refusal>
    requires { ((n : ℕ) × Laid sets.now n) × (i < sets.now.entries) × (i ≡ only_states sets.now.roles sets.now.entries) }
    ensures { verdict_is result ≡ described_by sets.now i tally.now }
{
    let size = sets.sizes[i];
    let count = sets.counts[i];
    let place = sets.offsets[i];
    if size == 0 {
        return judge_filled(sets, tally);
    }
    if size != State::SIZE as u64 * count {
        return refuse(15, place, i);
    }
    let bad = tally.bad as u64;
    if bad < count {
        return refuse(15, place + State::SIZE as u64 * bad, i);
    }
    judge_filled(sets, tally)
}

// Rules 15 and 16 by any tally of the states that these look at.
pub fn judge_tally(sets: &Sets, tally: &Tally) -> Result<(), Refusal>
    requires { (n : ℕ) × Laid sets.now n }
    ensures { Every sets.now (λ ds. verdict_is result ≡ state_rules ds (tally_from tally.now)) }
{
    if !has_variable(&sets.roles, sets.entries) {
        return Ok(());
    }
    match only_states(sets) {
        Some(i) => judge_described(sets, i, tally),
        None => refuse(15, 0, Refusal::NO_ENTRY),
    }
}

// Rules 15 and 16 of a product lent whole. Where it has no variable set, the states are not looked at.
pub fn judge_states(p: &[u8], sets: &Sets) -> Result<(), Refusal>
    requires { Laid sets.now (length p.now) }
    ensures { Every sets.now (λ ds. verdict_is result ≡ state_rules ds (tally_of (states_of p.now ds))) }
{
    if !has_variable(&sets.roles, sets.entries) {
        return Ok(());
    }
    let span = states_span(sets);
    let tally = tally_states(p, span.place as usize, span.count as usize);
    judge_tally(sets, &tally)
}
