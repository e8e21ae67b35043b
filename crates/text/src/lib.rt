// Header text (document 01, "Header text"): runs of blanks, plain bytes and digits, names, and decimal numbers, read at a place of the lent bytes. These are
// lent whole, with the places between which they are looked at, since what is refused is answered by its place in the product.
#![tactic(auto)]

ghost use Rattle.std.specs.Prelude.{ℕ, Bool, true, ◌&&◌, ◌≡◌, ◌+◌, ◌*◌, ◌-◌, ◌^◌, ◌<◌, ◌≤◌, not, T, length};
ghost use lib.Pointwise.{pointwise};
ghost use lib.Dec.{eqb};
ghost use Rattle.std.specs.List.{fold, prefix_len};
ghost use Rattle.layout.specs.Bytes.{part};
ghost use Rattle.layout.specs.Search.{find};
ghost use Rattle.layout.specs.Entries.{called};
ghost use Rattle.layout.specs.Text.{exactly, plain, digit, fits, digits};
ghost use Rattle.text.specs.Blanks.{not_blank};
ghost use Rattle.text.specs.Runs.{fails, Skipped};
ghost use Rattle.text.specs.Numbers.{AllDigits, capped, with_byte, number_in, whole_in};

// A class of bytes; the types that are classes are never made. A search for the first byte that is not of it goes over whole blocks, each tested without an
// exit, up to a place before which all is good, and byte by byte from there.
pub trait ByteClass {
    ghost test: { ℕ → Bool };

    // Whether blocks are followed by one more, which ends with the run and so overlaps the one before it.
    const OVERLAPS: bool = false;

    fn holds(byte: u8) -> bool
        ensures { result ≡ test byte };
}

struct Blank;

#[tactic(auto, unfolding(layout::specs::Text::fits))]
impl ByteClass for Blank {
    ghost test = { fits (exactly 32) };

    const OVERLAPS: bool = true;

    fn holds(byte: u8) -> bool {
        byte == 32
    }
}

struct Plain;

#[tactic(auto, unfolding(layout::specs::Text::fits))]
impl ByteClass for Plain {
    ghost test = { fits plain };

    fn holds(byte: u8) -> bool {
        is_plain(byte)
    }
}

struct Digit;

#[tactic(auto, unfolding(layout::specs::Text::fits))]
impl ByteClass for Digit {
    ghost test = { fits digit };

    fn holds(byte: u8) -> bool {
        (48 <= byte) & (byte <= 57)
    }
}

struct Zero;

#[tactic(auto, unfolding(layout::specs::Text::fits))]
impl ByteClass for Zero {
    ghost test = { fits (exactly 48) };

    fn holds(byte: u8) -> bool {
        byte == 48
    }
}

// All of these bytes are of the class: without an exit, so that they are tested side by side.
fn all_in<C: ByteClass>(bytes: &[u8]) -> bool
    ensures { result ≡ fold (λ all x. all && C.test x) true bytes.now }
{
    bytes.iter().fold(true, |all, x| all & C::holds(*x))
}

// A place up to which whole blocks of N bytes are of the class. The loop is a `while`: it goes on by a block, and where one fails its place is the answer.
pub fn blocks<C: ByteClass, const N: usize>(p: &[u8], from: usize, to: usize) -> usize
    requires { (from ≤ to) × (to ≤ length p.now) × (1 ≤ N) }
    ensures { Skipped (fails C.test p.now) from to result }
{
    if to - from < N {
        return from;
    }
    let mut i = from;
    while N < to - i {
        if !all_in::<C>(&p[i..i + N]) {
            return i;
        }
        i += N;
    }
    if C::OVERLAPS | (to - i == N) {
        if all_in::<C>(&p[to - N..to]) {
            return to;
        }
    }
    i
}

// A block of 16 alone, so that a short run pays for no more, then blocks of 96, and blocks of 16 again. Of 96 the compiler keeps a loop that it can turn
// into six wide tests and one exit, where it takes 64 apart.
fn run<C: ByteClass>(p: &[u8], from: usize, to: usize) -> usize
    requires { (from ≤ to) × (to ≤ length p.now) }
    ensures { Skipped (fails C.test p.now) from to result }
{
    if to - from < 16 {
        return from;
    }
    if !all_in::<C>(&p[from..from + 16]) {
        return from;
    }
    let wide = blocks::<C, 96>(p, from + 16, to);
    blocks::<C, 16>(p, wide, to)
}

// How many bytes at the front are of the class.
fn front<C: ByteClass>(bytes: &[u8]) -> usize
    ensures { (result ≡ prefix_len C.test bytes.now) × (result ≤ length bytes.now) }
{
    bytes.iter().take_while(|x| C::holds(**x)).count()
}

// The first place in `from..to` whose byte is not of the class, or `to`, as layout's `find` has it: byte by byte.
#[tactic(auto, using(crate::proofs::Runs::found))]
pub fn first_not<C: ByteClass>(p: &[u8], from: usize, to: usize) -> usize
    requires { (from ≤ to) × (to ≤ length p.now) }
    ensures { result ≡ find (fails C.test p.now) from (to - from) }
{
    from + front::<C>(&p[from..to])
}

// The first place in `from..to` whose byte is not a blank, or `to`.
#[tactic(auto, unfolding(crate::specs::Blanks::not_blank, crate::specs::Runs::fails, layout::specs::Text::fits))]
pub fn first_not_blank(p: &[u8], from: usize, to: usize) -> usize
    requires { (from ≤ to) × (to ≤ length p.now) }
    ensures { result ≡ find (not_blank p.now) from (to - from) }
{
    first_not::<Blank>(p, run::<Blank>(p, from, to), to)
}

// The first place in `from..to` whose byte is not of a q, or `to`.
pub fn first_not_plain(p: &[u8], from: usize, to: usize) -> usize
    requires { (from ≤ to) × (to ≤ length p.now) }
    ensures { result ≡ find (fails (fits plain) p.now) from (to - from) }
{
    first_not::<Plain>(p, run::<Plain>(p, from, to), to)
}

// The first place in `from..to` whose byte is not a digit, or `to`. A run of digits is short: there are no blocks.
pub fn first_not_digit(p: &[u8], from: usize, to: usize) -> usize
    requires { (from ≤ to) × (to ≤ length p.now) }
    ensures { result ≡ find (fails (fits digit) p.now) from (to - from) }
{
    first_not::<Digit>(p, from, to)
}

// The same bytes. The library's `==` reads four at once before it compares, and took up to twice as long: mostly the first byte of a name is another.
fn same(bytes: &[u8], name: &[u8]) -> bool
    ensures { result ≡ pointwise eqb bytes.now name.now }
{
    bytes.iter().eq(name)
}

// The 28 bytes from `start` on are this name, padded with blanks.
#[tactic(auto, using(crate::proofs::Names::name_is))]
pub fn is_called(p: &[u8], start: usize, name: &[u8]) -> bool
    requires { (start + 28 ≤ length p.now) × (length name.now ≤ 28) }
    ensures { result ≡ called (part p.now start 28) name.now }
{
    let end = start + name.len();
    same(&p[start..end], name) && first_not_blank(p, end, start + 28) == start + 28
}

// A byte of q or c: 32 to 126, never 34.
#[tactic(auto, unfolding(layout::specs::Text::fits))]
pub fn is_plain(x: u8) -> bool
    ensures { result ≡ fits plain x }
{
    ((32 <= x) & (x <= 126)) & (x != 34)
}

// A sign and a magnitude as they stand. The magnitude 2^63 stands for everything above 2^63 - 1.
#[derive(Clone, Copy)]
pub struct Number {
    pub minus: bool,
    pub magnitude: u64,
}

impl Number {
    // The value; minus zero is zero.
    #[tactic(auto, using(crate::proofs::Numbers::minus_whole, crate::proofs::Numbers::plus_whole))]
    pub fn whole(self) -> i64
        requires { self.magnitude < 9223372036854775808 }
        ensures { result ≡ whole_in self }
    {
        let value = self.magnitude as i64;
        if self.minus {
            return -value;
        }
        value
    }
}

// What a byte counts as a digit: a blank counts 0.
fn digit_of(x: u8) -> u64
    ensures { (result ≡ x - 48) × (result < 256) }
{
    if x < 48 { 0 } else { (x - 48) as u64 }
}

// One byte more behind a magnitude, which is held at 2^63. The point is passed over.
#[tactic(auto, unfolding(crate::specs::Numbers::capped, crate::specs::Numbers::with_byte))]
fn with_byte(magnitude: u64, x: u8) -> u64
    requires { magnitude ≤ 9223372036854775808 }
    ensures { result ≡ capped (with_byte magnitude x) }
{
    if x == 46 {
        return magnitude;
    }
    if 922337203685477580 < magnitude {
        return 9223372036854775808;
    }
    let next = magnitude * 10 + digit_of(x);
    if next < 9223372036854775808 {
        return next;
    }
    9223372036854775808
}

// The magnitude of the digits in `from..to`, with or without a point, held at 2^63: byte by byte.
#[tactic(auto, using(crate::proofs::Numbers::capped_most, crate::proofs::Numbers::digit_next, crate::proofs::Numbers::digits_end), unfolding(layout::specs::Bytes::part))]
fn digits_at(p: &[u8], from: usize, to: usize) -> u64
    requires { (from ≤ to) × (to ≤ length p.now) }
    ensures { result ≡ capped (digits 0 (part p.now from (to - from))) }
{
    let mut magnitude: u64 = 0;
    for x in &p[from..to] {
        magnitude = with_byte(magnitude, *x);
    }
    magnitude
}

// What a digit counts.
#[tactic(auto, using(crate::proofs::Tests::digit_bounds))]
fn value_of(x: u8) -> u64
    requires { T (fits digit x) }
    ensures { (result ≡ x - 48) × (result < 10) }
{
    x as u64 - 48
}

#[tactic(auto, using(crate::proofs::Numbers::pair_is), unfolding(layout::specs::Bytes::byte_at))]
pub fn two_digits(p: &[u8], at: usize) -> u64
    requires { (at + 2 ≤ length p.now) × AllDigits p.now at 2 }
    ensures { (result ≡ digits 0 (part p.now at 2)) × (result < 10 ^ 2) }
{
    value_of(p[at]) * 10 + value_of(p[at + 1])
}

// Ten digits, which need no cap: in pairs, which do not wait for each other.
#[tactic(auto, using(crate::proofs::Numbers::pairs_are))]
fn ten_digits(p: &[u8], at: usize) -> u64
    requires { (at + 10 ≤ length p.now) × AllDigits p.now at 10 }
    ensures { (result ≡ digits 0 (part p.now at 10)) × (result < 10 ^ 10) }
{
    let high = two_digits(p, at) * 10000 + two_digits(p, at + 2) * 100 + two_digits(p, at + 4);
    let low = two_digits(p, at + 6) * 100 + two_digits(p, at + 8);
    high * 10000 + low
}

// The same magnitude: at once of ten digits, and of twenty that begin with ten zeros, as the size and offset of every set do that holds bytes of a product.
fn magnitude_at(p: &[u8], from: usize, to: usize) -> u64
    requires { (from ≤ to) × (to ≤ length p.now) }
    ensures { result ≡ capped (digits 0 (part p.now from (to - from))) }
{
    if to - from == 20 {
        if all_in::<Zero>(&p[from..from + 10]) & all_in::<Digit>(&p[from + 10..from + 20]) {
            return ten_digits(p, from + 10);
        }
    }
    if to - from == 10 {
        if all_in::<Digit>(&p[from..from + 10]) {
            return ten_digits(p, from);
        }
    }
    digits_at(p, from, to)
}

// The number that `width` bytes from `at` on are: a sign, and digits with or without a point.
pub fn number_at(p: &[u8], at: usize, width: usize) -> Number
    requires { (1 ≤ width) × (at + width ≤ length p.now) }
    ensures { result ≡ number_in p.now at width }
{
    let magnitude = magnitude_at(p, at + 1, at + width);
    Number {
        minus: p[at] == 45,
        magnitude: magnitude,
    }
}
