// The main header and the directory as a host gets them: their words and their texts, put into lent rooms.
ghost use Rattle.std.specs.Prelude.{◌+◌, ◌≤◌, length};
ghost use Rattle.layout.specs.Answers.{verdict_is};
ghost use Rattle.writing.specs.Put.{Put};
ghost use Rattle.words.specs.Headers.{identity_words, sensing_words, orbit_words, clock_words, sizes_words, header_words, identity_texts, header_texts, number_words, directory_words, directory_texts, PutTwo, PutThree};

use crate::{put_bytes, put_each, put_verdict, put_words, word_of};
use layout::{Directory, Refusal};
use values::{Clock, Identity, MainHeader, Orbit, Sensing, Sizes};
use writing::put_text;

#[tactic(auto, unfolding(crate::specs::Headers::identity_words))]
fn put_identity(room: &mut [u64], at: usize, header: Identity) -> usize
    requires { at + 1 ≤ length room.old }
    ensures { Put 1 (identity_words header) room.old room.new at result }
{
    put_words(room, at, &[header.proc_stage as u64])
}

#[tactic(auto, unfolding(crate::specs::Headers::sensing_words))]
fn put_sensing(room: &mut [u64], at: usize, header: Sensing) -> usize
    requires { at + 4 ≤ length room.old }
    ensures { Put 4 (sensing_words header) room.old room.new at result }
{
    let words = [
        header.phase as u64,
        word_of(header.cycle),
        word_of(header.rel_orbit),
        word_of(header.abs_orbit),
    ];
    put_words(room, at, &words)
}

#[tactic(auto, unfolding(crate::specs::Headers::orbit_words))]
fn put_orbit(room: &mut [u64], at: usize, header: Orbit) -> usize
    requires { at + 7 ≤ length room.old }
    ensures { Put 7 (orbit_words header) room.old room.new at result }
{
    let numbers = [
        header.delta_ut1,
        header.x_position,
        header.y_position,
        header.z_position,
        header.x_velocity,
        header.y_velocity,
        header.z_velocity,
    ];
    put_each(room, at, &numbers)
}

#[tactic(auto, unfolding(crate::specs::Headers::clock_words))]
fn put_clock(room: &mut [u64], at: usize, header: Clock) -> usize
    requires { at + 4 ≤ length room.old }
    ensures { Put 4 (clock_words header) room.old room.new at result }
{
    let words = [
        word_of(header.sat_binary_time),
        word_of(header.clock_step),
        word_of(header.leap_sign),
        header.leap_err as u64,
    ];
    put_words(room, at, &words)
}

#[tactic(auto, unfolding(crate::specs::Headers::sizes_words))]
fn put_sizes(room: &mut [u64], at: usize, header: Sizes) -> usize
    requires { at + 6 ≤ length room.old }
    ensures { Put 6 (sizes_words header) room.old room.new at result }
{
    let words = [
        header.product_err as u64,
        word_of(header.tot_size),
        word_of(header.sph_size),
        word_of(header.num_dsd),
        word_of(header.dsd_size),
        word_of(header.num_data_sets),
    ];
    put_words(room, at, &words)
}

pub(crate) fn put_header(
    room: &mut [u64],
    verdict: Result<(), Refusal>,
    header: MainHeader,
) -> usize
    requires { 25 ≤ length room.old }
    ensures { Put 25 (header_words (verdict_is verdict) header) room.old room.new 0 result }
{
    let judged = put_verdict(room, verdict);
    let identified = put_identity(room, judged, header.identity);
    let sensed = put_sensing(room, identified, header.sensing);
    let placed = put_orbit(room, sensed, header.orbit);
    let timed = put_clock(room, placed, header.clock);
    put_sizes(room, timed, header.sizes)
}

fn put_two_texts<'a>(room: &mut [u8], at: usize, first: &'a [u8], second: &'a [u8]) -> usize
    requires { at + (length first.now + length second.now) ≤ length room.old }
    ensures { PutTwo first.now second.now room.old room.new at result }
{
    let next = put_text(room, at, first);
    put_text(room, next, second)
}

fn put_identity_texts(room: &mut [u8], header: Identity) -> usize
    requires { 152 ≤ length room.old }
    ensures { Put 152 (identity_texts header) room.old room.new 0 result }
{
    let named = put_two_texts(room, 0, &header.product, &header.ref_doc);
    let acquired = put_two_texts(
        room,
        named,
        &header.acquisition_station,
        &header.proc_center,
    );
    put_two_texts(room, acquired, &header.proc_time, &header.software_ver)
}

pub(crate) fn put_header_texts(room: &mut [u8], header: MainHeader) -> usize
    requires { 289 ≤ length room.old }
    ensures { Put 289 (header_texts header) room.old room.new 0 result }
{
    let sensing = header.sensing;
    let orbit = header.orbit;
    let clock = header.clock;
    let identified = put_identity_texts(room, header.identity);
    let sensed = put_two_texts(
        room,
        identified,
        &sensing.sensing_start,
        &sensing.sensing_stop,
    );
    let placed = put_two_texts(room, sensed, &orbit.state_vector_time, &orbit.vector_source);
    put_two_texts(room, placed, &clock.utc_sbt_time, &clock.leap_utc)
}

fn put_arrays<'a>(
    room: &mut [u64],
    at: usize,
    offsets: &'a [u64],
    sizes: &'a [u64],
    counts: &'a [u64],
) -> usize
    requires { at + (length offsets.now + (length sizes.now + length counts.now)) ≤ length room.old }
    ensures { PutThree offsets.now sizes.now counts.now room.old room.new at result }
{
    let placed = put_words(room, at, offsets);
    let sized = put_words(room, placed, sizes);
    put_words(room, sized, counts)
}

// The numbers of a directory by its parts: array by array, as C gets them, of a `Directory` or of the numbers that an opening holds.
pub fn put_directory_numbers<'a>(
    room: &mut [u64],
    verdict: Result<(), Refusal>,
    entries: usize,
    types: &'a [u8; 128],
    offsets: &'a [u64; 128],
    sizes: &'a [u64; 128],
    counts: &'a [u64; 128],
    record_sizes: &'a [i64; 128],
    ranks: &'a [u64; 128],
) -> usize
    requires { 772 ≤ length room.old }
    ensures { Put 772 (number_words (verdict_is verdict) entries types.now offsets.now sizes.now counts.now record_sizes.now ranks.now) room.old room.new 0 result }
{
    let judged = put_verdict(room, verdict);
    let counted = put_words(room, judged, &[entries as u64]);
    let typed = put_bytes(room, counted, types);
    let filled = put_arrays(room, typed, offsets, sizes, counts);
    let measured = put_each(room, filled, record_sizes);
    put_words(room, measured, ranks)
}

#[tactic(auto, unfolding(crate::specs::Headers::directory_words))]
pub(crate) fn put_directory(
    room: &mut [u64],
    verdict: Result<(), Refusal>,
    directory: &Directory,
) -> usize
    requires { 772 ≤ length room.old }
    ensures { Put 772 (directory_words (verdict_is verdict) directory.now) room.old room.new 0 result }
{
    put_directory_numbers(
        room,
        verdict,
        directory.entries,
        &directory.types,
        &directory.offsets,
        &directory.sizes,
        &directory.counts,
        &directory.record_sizes,
        &directory.ranks,
    )
}

pub(crate) fn put_directory_texts(room: &mut [u8], directory: &Directory) -> usize
    requires { 11520 ≤ length room.old }
    ensures { Put 11520 (directory_texts directory.now) room.old room.new 0 result }
{
    put_two_texts(room, 0, &directory.names, &directory.filenames)
}
