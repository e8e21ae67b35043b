// The values of a column, gathered in one walk over the set's records: run by run, each of records of one length.
ghost use Rattle.std.specs.Prelude.{true, false, ◌≡◌, ◌+◌, ◌*◌, ◌≤◌, length};
ghost use Rattle.layout.specs.Entries.{directory, at, is_variable, kind_of};
ghost use Rattle.dsd.specs.Held.{kind_number};
ghost use Rattle.states.specs.States.{cap};
ghost use Rattle.column.specs.Gathering.{Fits, Allowed, reached, run_reply, entry_reply, Gathered};

use directory::Sets;
use dsd::{Kind, Role};
use fields::NarrowKind;
use layout::{Refusal, refuse};
use states::State;

// What a column asks for: the field of a kind at an offset, of an entry's records from one number up to another.
#[derive(Clone, Copy)]
pub struct Request {
    pub entry: usize,
    pub from: usize,
    pub to: usize,
    pub offset: usize,
    pub kind: NarrowKind,
}

// Records of one length that follow each other: the number of the first in its set, where that begins, how many they are, and their length.
#[derive(Clone, Copy)]
pub struct Run {
    pub first: usize,
    pub place: usize,
    pub count: usize,
    pub size: usize,
}

// What a request asks of a run, stored to its places; or the field passes the end of these records.
fn gather_run(column: &mut [u32], p: &[u8], run: Run, request: Request) -> Result<(), Refusal>
    requires { Fits request (length column.old) × (run.place + run.count * run.size ≤ length p.now) × (run.first + run.count ≤ cap) }
    ensures { Gathered (run_reply p.now request run) (reached request run.first) column.old column.new result }
{
    let low = run.first.max(request.from);
    let high = (run.first + run.count).min(request.to);
    if high <= low {
        return Ok(());
    }
    if !fields::ends_in(run.size, request.offset, request.kind.width()) {
        return refuse(20, request.offset as u64, request.entry);
    }
    let place = run.place + (low - run.first) * run.size;
    field_bits::store_fields(
        column,
        low - request.from,
        p,
        place,
        run.size,
        high - low,
        request.offset,
        request.kind,
    );
    Ok(())
}

// A set whose records are of one length, which is then its size by their number: one run.
fn gather_equal(column: &mut [u32], p: &[u8], sets: &Sets, request: Request) -> Result<(), Refusal>
    requires { Allowed p.now sets.now request (length column.old) × (is_variable (at (directory p.now) request.entry) ≡ false) }
    ensures { Gathered (entry_reply p.now request) 0 column.old column.new result }
{
    let entry = request.entry;
    let count = sets.counts[entry];
    if count == 0 {
        return refuse(18, 0, entry);
    }
    let run = Run {
        first: 0,
        place: sets.offsets[entry] as usize,
        count: count as usize,
        size: (sets.sizes[entry] / count) as usize,
    };
    gather_run(column, p, run, request)?;
    if run.count < request.to {
        return refuse(18, 0, entry);
    }
    Ok(())
}

// A variable set, whose records are those of its kind that the states give: a run for each state.
fn gather_states(
    column: &mut [u32],
    p: &[u8],
    sets: &Sets,
    kind: Kind,
    request: Request,
) -> Result<(), Refusal>
    requires { Allowed p.now sets.now request (length column.old) × (is_variable (at (directory p.now) request.entry) ≡ true) × (kind_number kind ≡ kind_of (at (directory p.now) request.entry)) }
    ensures { Gathered (entry_reply p.now request) 0 column.old column.new result }
{
    let span = states::states_span(sets);
    let number = kind.number();
    let mut first = 0;
    let mut place = sets.offsets[request.entry] as usize;
    for i in 0..span.count as usize {
        let state = State::at(p, span.place as usize + State::SIZE * i);
        let run = Run {
            first,
            place,
            count: state.adds_to(number) as usize,
            size: state.record_length as usize,
        };
        gather_run(column, p, run, request)?;
        first += run.count;
        if request.to <= first {
            return Ok(());
        }
        place += run.count * run.size;
    }
    refuse(18, 0, request.entry)
}

// A set of an accepted product, of equal records or not.
pub fn gather(column: &mut [u32], p: &[u8], sets: &Sets, request: Request) -> Result<(), Refusal>
    requires { Allowed p.now sets.now request (length column.old) }
    ensures { Gathered (entry_reply p.now request) 0 column.old column.new result }
{
    match sets.roles[request.entry] {
        Role::Variable(kind) => gather_states(column, p, sets, kind, request),
        _ => gather_equal(column, p, sets, request),
    }
}
