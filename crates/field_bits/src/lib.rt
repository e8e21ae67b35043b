// The 32 bits of a field of a narrow kind (document 02, order 8), and those of many records, stored one behind the other.
#![tactic(auto)]

ghost use Rattle.std.specs.Prelude.{map, ◌≡◌, ◌+◌, ◌*◌, ◌≤◌, length};
ghost use Rattle.std.proofs.lemmas.List.Edits.{sets};
ghost use Rattle.layout.specs.Fields.{bytes_of, value_at};
ghost use Rattle.layout.specs.Search.{upto};
ghost use Rattle.fields.specs.Kinds.{narrow_number, narrow_shape};
ghost use Rattle.field_bits.specs.Bits.{bits_of, field_bits};

use fields::NarrowKind;

// The bits of four bytes are sl's two's complement, ul's number and fl's float as they stand.
#[tactic(auto, using(crate::proofs::Complement::four_bytes), unfolding(layout::specs::Fields::shape_of, layout::specs::Fields::bytes_of, layout::specs::Fields::value_at, layout::specs::Bytes::signed_at, crate::specs::Bits::bits_of, crate::specs::Bits::complement))]
fn bits_at(bytes: &[u8], offset: usize, kind: NarrowKind) -> u32
    requires { offset + bytes_of (narrow_shape kind) ≤ length bytes.now }
    ensures { result ≡ bits_of (value_at bytes.now offset (narrow_shape kind)) }
{
    match kind {
        NarrowKind::SignedChar => (octets::signed(bytes, offset, 1) as i32).cast_unsigned(),
        NarrowKind::UnsignedChar => octets::unsigned(bytes, offset, 1) as u32,
        NarrowKind::SignedShort => (octets::signed(bytes, offset, 2) as i32).cast_unsigned(),
        NarrowKind::UnsignedShort => octets::unsigned(bytes, offset, 2) as u32,
        NarrowKind::SignedLong | NarrowKind::UnsignedLong | NarrowKind::Float => {
            octets::unsigned(bytes, offset, 4) as u32
        }
    }
}

// What `store_fields` stores, of a kind that the call names: there the loop stands anew, for this kind alone, and does not ask for it at each record.
#[inline(always)]
#[tactic(auto, using(crate::proofs::Stored::next), unfolding(crate::specs::Bits::field_bits))]
fn store_of(
    column: &mut [u32],
    at: usize,
    p: &[u8],
    place: usize,
    size: usize,
    count: usize,
    offset: usize,
    kind: NarrowKind,
)
    requires { (at + count ≤ length column.old) × (place + count * size ≤ length p.now) × (offset + bytes_of (narrow_shape kind) ≤ size) }
    ensures { column.new ≡ sets column.old at (map (field_bits p.now place size offset (narrow_number kind)) (upto 0 count)) }
{
    for k in 0..count {
        let start = place + k * size;
        column[at + k] = bits_at(&p[start..start + size], offset, kind);
    }
}

// The fields of so many records of one length, the first of which begins at a place, stored from place `at` of the column on.
#[inline(never)] // seven loops make `gather_run` too large to be put into the loop over the states, where its call costs 57 instructions a state
pub fn store_fields(
    column: &mut [u32],
    at: usize,
    p: &[u8],
    place: usize,
    size: usize,
    count: usize,
    offset: usize,
    kind: NarrowKind,
)
    requires { (at + count ≤ length column.old) × (place + count * size ≤ length p.now) × (offset + bytes_of (narrow_shape kind) ≤ size) }
    ensures { column.new ≡ sets column.old at (map (field_bits p.now place size offset (narrow_number kind)) (upto 0 count)) }
{
    macro_rules! store {
        ($($known:ident)*) => {
            match kind {
                $(NarrowKind::$known => {
                    store_of(column, at, p, place, size, count, offset, NarrowKind::$known)
                })*
            }
        };
    }
    store!(SignedChar UnsignedChar SignedShort UnsignedShort SignedLong UnsignedLong Float)
}
