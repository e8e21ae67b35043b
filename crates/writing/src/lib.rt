// Names, texts and numbers put into a lent buffer. A writer puts its text into `out` from the place `at` on, and answers the place behind it.
#![tactic(auto)]

ghost use Rattle.std.specs.Prelude.{◌≡◌, ◌∷◌, ◌++◌, [], ◌+◌, ◌≤◌, length, replicate};
ghost use Rattle.layout.specs.Bytes.{part};
ghost use Rattle.layout.specs.Listing.{decimal, signed_decimal, trimmed};
ghost use Rattle.writing.specs.Put.{Put};

pub fn put_byte(out: &mut [u8], at: usize, byte: u8) -> usize
    requires { at + 1 ≤ length out.old }
    ensures { Put 1 (byte ∷ []) out.old out.new at result }
{
    out[at] = byte;
    at + 1
}

// Items of any kind, as they are: one by one, since the library's `copy_from_slice` asks the C library for memmove, and users are promised that theirs needs
// memcpy and memset alone.
pub fn put_items<T: Copy>(out: &mut [T], at: usize, items: &[T]) -> usize
    requires { at + length items.now ≤ length out.old }
    ensures { Put (length items.now) items.now out.old out.new at result }
{
    for (i, item) in items.iter().enumerate() {
        out[at + i] = *item;
    }
    at + items.len()
}

pub fn put_text(out: &mut [u8], at: usize, text: &[u8]) -> usize
    requires { at + length text.now ≤ length out.old }
    ensures { Put (length text.now) text.now out.old out.new at result }
{
    put_items(out, at, text)
}

pub fn put_zeros(out: &mut [u8], at: usize, count: usize) -> usize
    requires { at + count ≤ length out.old }
    ensures { Put count (replicate count 0) out.old out.new at result }
{
    let end = at + count;
    out[at..end].fill(0);
    end
}

// Digits, the leading ones first: at most 20 deep. The library writes digits through a formatter, which is no plainer here.
fn put_digits(out: &mut [u8], at: usize, number: u64) -> usize
    requires { at + length (decimal number) ≤ length out.old }
    ensures { Put 20 (decimal number) out.old out.new at result }
{
    if number < 10 {
        return put_byte(out, at, (48 + number) as u8);
    }
    let next = put_digits(out, at, number / 10);
    put_byte(out, next, (48 + number % 10) as u8)
}

// A number, and the byte behind it.
pub fn put_number(out: &mut [u8], at: usize, number: u64, end: u8) -> usize
    requires { at + 21 ≤ length out.old }
    ensures { Put 21 (decimal number ++ end ∷ []) out.old out.new at result }
{
    let next = put_digits(out, at, number);
    put_byte(out, next, end)
}

// A number with its sign where it is negative, and the byte behind it.
pub fn put_signed(out: &mut [u8], at: usize, number: i64, end: u8) -> usize
    requires { at + 22 ≤ length out.old }
    ensures { Put 22 (signed_decimal number ++ end ∷ []) out.old out.new at result }
{
    if number < 0 {
        let next = put_byte(out, at, b'-');
        return put_number(out, next, number.unsigned_abs(), end);
    }
    put_number(out, at, number.unsigned_abs(), end)
}

// How many bytes of the name that starts here come before its trailing blanks.
pub fn name_length(names: &[u8], start: usize) -> usize
    requires { start + 28 ≤ length names.now }
    ensures { (result ≤ 28) × (trimmed (part names.now start 28) ≡ part names.now start result) }
{
    for last in (0..28).rev() {
        if names[start + last] != b' ' {
            return last + 1;
        }
    }
    0
}
