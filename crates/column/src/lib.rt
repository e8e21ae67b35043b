// A column (document 02, order 8): the same field of up to 512 records of one entry, in 32 bits each, with one judgement and one walk.
#![tactic(auto)]

ghost use Rattle.std.specs.Prelude.{◌≡◌, ◌-◌, ◌≤◌, length, IfOk};
ghost use Rattle.layout.specs.Answers.{verdict_is};
ghost use Rattle.fields.specs.Kinds.{narrow_number};
ghost use Rattle.column.specs.Column.{column_reply, ColumnIs};
ghost use Rattle.column.specs.Gathering.{kind_refusal, count_refusal, Allowed, entry_reply};

mod gathering;

use directory::Sets;
use fields::{Kind, NarrowKind};
use gathering::{Request, gather};
use layout::{Refusal, refuse};

// Refusals 17 and 19, of a directory of so many entries, and 32, of a kind that is not narrow.
#[tactic(auto, using(crate::proofs::Requests::kinds), unfolding(layout::specs::Answers::verdict_is, crate::specs::Gathering::kind_refusal))]
fn narrow_kind(entries: usize, entry: usize, kind: usize) -> Result<NarrowKind, Refusal>
    ensures judged { verdict_is result ≡ kind_refusal entries entry kind }
    ensures numbered { IfOk result (λ k. narrow_number k ≡ kind) }
{
    if entries <= entry {
        return refuse(17, 0, Refusal::NO_ENTRY);
    }
    match Kind::try_from(kind) {
        Ok(Kind::Narrow(kind)) => Ok(kind),
        Ok(_) => refuse(32, 0, Refusal::NO_ENTRY),
        Err(_) => refuse(19, 0, entry),
    }
}

// Refusals 32 and 33, of the records asked for and a buffer of so many places. The difference is taken where `from` is not above.
#[tactic(auto, unfolding(layout::specs::Answers::verdict_is, crate::specs::Gathering::count_refusal))]
fn check_count(request: Request, places: usize) -> Result<(), Refusal>
    ensures { verdict_is result ≡ count_refusal request.from request.to places }
{
    if request.to < request.from || 512 < request.to - request.from {
        return refuse(32, 0, Refusal::NO_ENTRY);
    }
    if places < request.to - request.from {
        return refuse(33, 0, Refusal::NO_ENTRY);
    }
    Ok(())
}

// The column, gathered into room of our own and put into the lent one only where nothing is refused.
fn put_gathered(
    room: &mut [u32],
    column: &mut [u32],
    p: &[u8],
    sets: &Sets,
    request: Request,
) -> Result<(), Refusal>
    requires { Allowed p.now sets.now request (length column.old) × (request.to - request.from ≤ length room.old) }
    ensures { ColumnIs (entry_reply p.now request) room.old room.new result }
{
    gather(column, p, sets, request)?;
    let count = request.to - request.from;
    room[..count].copy_from_slice(&column[..count]);
    Ok(())
}

// The column, put into a lent buffer. Nothing is written where anything is refused, and nothing where no record is asked for.
// What is asked for comes number by number, as in the C interface's call.
pub fn put_column(
    room: &mut [u32],
    p: &[u8],
    entry: usize,
    from: usize,
    to: usize,
    offset: usize,
    kind: usize,
) -> Result<(), Refusal>
    ensures { ColumnIs (column_reply p.now entry from to offset kind (length room.old)) room.old room.new result }
{
    let mut sets = Sets::none();
    opening::open_sets(p, &mut sets)?;
    let kind = narrow_kind(sets.entries, entry, kind)?;
    let request = Request {
        entry,
        from,
        to,
        offset,
        kind,
    };
    check_count(request, room.len())?;
    if from == to {
        return Ok(());
    }
    let mut column = [0u32; 512];
    put_gathered(room, &mut column, p, &sets, request)
}
