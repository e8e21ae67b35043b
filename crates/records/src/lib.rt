// Where a record of an accepted product lies (document 01, "State records and unequal lengths"), or refusal 17 or 18.
#![tactic(auto, using(crate::proofs::Laws::told))]

ghost use Rattle.std.specs.Prelude.{◌≡◌, false, true, ◌+◌, ◌*◌, ◌<◌};
ghost use Rattle.layout.specs.Answers.{place_is};
ghost use Rattle.layout.specs.Entries.{directory, at, is_variable, kind_of};
ghost use Rattle.layout.specs.Records.{record_place};
ghost use Rattle.dsd.specs.Held.{kind_number};
ghost use Rattle.records.specs.Open.{Open, place_in};

use directory::Sets;
use dsd::{Kind, Role};
use layout::{Refusal, Span, refuse};

// A set whose records are of one length, which is then its size by their number.
fn place_of_equal(p: &[u8], sets: &Sets, entry: usize, asked: usize) -> Result<Span, Refusal>
    requires { Open p.now sets.now × (entry < sets.now.entries) × (is_variable (at (directory p.now) entry) ≡ false) }
    ensures { place_is result ≡ place_in p.now entry asked }
{
    let count = sets.counts[entry];
    if count <= asked as u64 {
        return refuse(18, 0, entry);
    }
    let length = sets.sizes[entry] / count;
    Ok(Span {
        place: sets.offsets[entry] + asked as u64 * length,
        length,
    })
}

// A variable set, whose records are those that the states give.
fn place_of_unequal(
    p: &[u8],
    sets: &Sets,
    entry: usize,
    kind: Kind,
    asked: usize,
) -> Result<Span, Refusal>
    requires { Open p.now sets.now × (entry < sets.now.entries) × (is_variable (at (directory p.now) entry) ≡ true) × (kind_number kind ≡ kind_of (at (directory p.now) entry)) }
    ensures { place_is result ≡ place_in p.now entry asked }
{
    let span = states::states_span(sets);
    let number = kind.number();
    match states::find_record(p, span.place as usize, span.count as usize, number, asked) {
        Some(found) => Ok(Span {
            place: sets.offsets[entry] + found.before,
            length: found.length,
        }),
        None => refuse(18, 0, entry),
    }
}

// Where a record stands.
pub fn place_of_record(p: &[u8], sets: &Sets, entry: usize, asked: usize) -> Result<Span, Refusal>
    requires { Open p.now sets.now }
    ensures { place_is result ≡ record_place p.now entry asked }
{
    if sets.entries <= entry {
        return refuse(17, 0, Refusal::NO_ENTRY);
    }
    match sets.roles[entry] {
        Role::Variable(kind) => place_of_unequal(p, sets, entry, kind, asked),
        _ => place_of_equal(p, sets, entry, asked),
    }
}
