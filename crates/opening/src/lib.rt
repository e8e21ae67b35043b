// The rules in their order: those of the headers over the bytes at hand and a length, and with those of the states all sixteen.
#![tactic(auto)]

ghost use Rattle.std.specs.Prelude.{◌≡◌, ◌≤◌, min};
ghost use lib.ListN.{length};
ghost use Rattle.layout.specs.Answers.{verdict_is};
ghost use Rattle.layout.specs.Entries.{directory};
ghost use Rattle.layout.specs.Rules.{verdict};
ghost use Rattle.directory.specs.Numbers.{no_sets};
ghost use Rattle.opening.specs.Opening.{longest_headers, set_rules, Fronted, FrontChecked, SetsRead, HeadersChecked, Opened, OpenedInto, OpenedWhole};

use directory::{Reading, Sets};
use header::HeaderCheck;
use layout::Refusal;

// A product of which the rules were asked: where the DSDs begin, and the numbers of the directory.
#[derive(Clone, Copy)]
pub struct Opening {
    pub dsds: usize,
    pub sets: Sets,
}

// Rules 1 to 8, which look at text and at the sizes of the headers.
fn check_front(p: &[u8], length: u64) -> Result<HeaderCheck, Refusal>
    requires { min length longest_headers ≤ lib.ListN.length p.now }
    ensures { FrontChecked p.now length result }
{
    let header = header::check_header(p, length)?;
    directory::check_text(p, header.dsds(), header.entries)?;
    Ok(header)
}

// Rules 9 to 14, by what a reading of the directory counts and holds.
fn check_sets(
    p: &[u8],
    length: u64,
    front: HeaderCheck,
    reading: Reading,
    sets: &Sets,
) -> Result<(), Refusal>
    requires { Fronted p.now length front × SetsRead (directory p.now) reading sets.now.offsets sets.now.sizes }
    ensures { verdict_is result ≡ set_rules p.now length }
{
    let entries = front.entries;
    directory::check_numbers(p, front.dsds(), entries, reading, &sets.offsets)?;
    directory::check_places(
        &sets.offsets,
        &sets.sizes,
        entries,
        front.headers_end as u64,
        length,
    )
}

// Rules 1 to 14 of a product of `length` bytes, of which all are at hand, or at least those of the longest headers. The numbers are read once, and lent by
// the caller.
pub fn check_headers(p: &[u8], length: u64, sets: &mut Sets) -> Result<HeaderCheck, Refusal>
    requires { (min length longest_headers ≤ lib.ListN.length p.now) × (sets.old ≡ no_sets) }
    ensures { HeadersChecked p.now length result sets.new }
{
    let front = check_front(p, length)?;
    let reading = directory::read_sets(p, front.dsds(), front.entries, sets);
    check_sets(p, length, front, reading, sets)?;
    Ok(front)
}

// The same, with the numbers: the answer is the one copy of them.
#[inline(never)] // its copies are off the stack before a caller reads the states
pub fn open_headers(p: &[u8], length: u64) -> Result<Opening, Refusal>
    requires { min length longest_headers ≤ lib.ListN.length p.now }
    ensures { Opened p.now length result }
{
    let mut sets = Sets::none();
    let headers = check_headers(p, length, &mut sets)?;
    Ok(Opening {
        dsds: headers.dsds(),
        sets,
    })
}

// All sixteen rules, of a product lent whole and opened.
#[inline(never)] // and what this takes is, before a caller goes on
pub fn judge_opened(p: &[u8], opened: &Result<Opening, Refusal>) -> Result<(), Refusal>
    requires { Opened p.now (length p.now) opened.now }
    ensures { verdict_is result ≡ verdict p.now }
{
    match opened {
        Ok(opening) => states::judge_states(p, &opening.sets),
        Err(refusal) => Err(*refusal),
    }
}

// All sixteen rules of a product lent whole, with the numbers lent by the caller: where the DSDs begin. Who goes on with the numbers copies none of them so.
pub fn open_sets(p: &[u8], sets: &mut Sets) -> Result<usize, Refusal>
    requires { sets.old ≡ no_sets }
    ensures { OpenedInto p.now result sets.new }
{
    let headers = check_headers(p, p.len() as u64, sets)?;
    states::judge_states(p, sets)?;
    Ok(headers.dsds())
}

// An accepted product opened.
pub fn open_product(p: &[u8]) -> Result<Opening, Refusal>
    ensures { OpenedWhole p.now result }
{
    let mut sets = Sets::none();
    let dsds = open_sets(p, &mut sets)?;
    Ok(Opening { dsds, sets })
}

// The verdict alone: the numbers are not copied.
#[tactic(auto, using(crate::proofs::Opened::judging), unfolding(layout::specs::Answers::verdict_is))]
pub fn judge_product(p: &[u8]) -> Result<(), Refusal>
    ensures { verdict_is result ≡ verdict p.now }
{
    let mut sets = Sets::none();
    check_headers(p, p.len() as u64, &mut sets)?;
    states::judge_states(p, &sets)
}
