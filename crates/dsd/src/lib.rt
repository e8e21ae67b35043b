// One DSD (document 01, "The DSD" and rules 9 and 10): what it answers, and what is asked of its numbers.
#![tactic(auto)]

ghost use Rattle.std.specs.Prelude.{◌≡◌, true, not, cond, ◌+◌, ◌≤◌, ◌<◌, pos, length, eqb};
ghost use Rattle.layout.specs.Bytes.{part};
ghost use Rattle.layout.specs.Lines.{size_of_dsd};
ghost use Rattle.layout.specs.Entries.{entry_of, is_data, non_empty, all_zero, in_range, is_fixed, is_variable, set_fits, numbers_fit, at_least};
ghost use Rattle.dsd.specs.Held.{kind_number, of_variable, of_states, role_numbered, name_role, number_from, held_of, view_of, spare_bytes, SpareByFirst, Read, over_place, role_of};

// The kinds of variable sets, by their numbers in source 003's level 1b name table.
#[derive(Clone, Copy)]
pub enum Kind {
    Nadir = 1,
    Limb = 2,
    Occultation = 3,
    Monitoring = 4,
}

impl Kind {
    #[tactic(auto, using(crate::proofs::Names::kind_tag))]
    pub fn number(self) -> u8
        ensures { result ≡ kind_number self }
    {
        self as u8
    }

    // Its place among the four.
    #[tactic(auto, using(crate::proofs::Names::kind_tag, crate::proofs::Names::kind_range))]
    pub fn place(self) -> usize
        ensures { (result + 1 ≡ kind_number self) × (result < 4) }
    {
        self as usize - 1
    }
}

// What a set is, or by its name may be, to rules 10, 15 and 16. Who holds it as a number may hold any byte: of one that is no role's, it is kept which.
#[derive(Clone, Copy)]
pub enum Role {
    Other,
    Variable(Kind),
    States,
    Unknown(u8),
}

#[tactic(auto, unfolding(crate::specs::Held::role_numbered))]
impl From<u8> for Role {
    ghost from_gives = { λ number role. role ≡ role_numbered number };

    fn from(number: u8) -> Self {
        match number {
            0 => Role::Other,
            1 => Role::Variable(Kind::Nadir),
            2 => Role::Variable(Kind::Limb),
            3 => Role::Variable(Kind::Occultation),
            4 => Role::Variable(Kind::Monitoring),
            5 => Role::States,
            _ => Role::Unknown(number),
        }
    }
}

impl Role {
    // A variable set's.
    #[tactic(auto, unfolding(crate::specs::Held::of_variable))]
    pub fn is_variable(self) -> bool
        ensures { result ≡ of_variable self }
    {
        matches!(self, Role::Variable(_))
    }

    // Of what describes the states.
    #[tactic(auto, unfolding(crate::specs::Held::of_states))]
    pub fn is_states(self) -> bool
        ensures { result ≡ of_states self }
    {
        matches!(self, Role::States)
    }
}

// What a set may be whose name is the 28 bytes from `start` on.
#[tactic(auto, unfolding(crate::specs::Held::name_role))]
pub fn role_of_name(p: &[u8], start: usize) -> Role
    requires { start + 28 ≤ length p.now }
    ensures { result ≡ name_role (part p.now start 28) }
{
    if text::is_called(p, start, b"NADIR") {
        return Role::Variable(Kind::Nadir);
    }
    if text::is_called(p, start, b"LIMB") {
        return Role::Variable(Kind::Limb);
    }
    if text::is_called(p, start, b"OCCULTATION") {
        return Role::Variable(Kind::Occultation);
    }
    if text::is_called(p, start, b"MONITORING") {
        return Role::Variable(Kind::Monitoring);
    }
    if text::is_called(p, start, b"STATES") {
        return Role::States;
    }
    Role::Other
}

// Below zero; minus zero is not.
pub fn is_negative(n: text::Number) -> bool
    ensures { result ≡ not (at_least (pos 0) (number_from n)) }
{
    if n.magnitude == 0 {
        return false;
    }
    n.minus
}

// What a DSD answers, with the role of its name. The type stays the DSD's own byte (M, A, G, R or a blank): hosts are handed it so.
#[derive(Clone, Copy)]
pub struct Entry {
    pub ds_type: u8,
    pub offset: text::Number,
    pub size: text::Number,
    pub count: text::Number,
    pub record_size: text::Number,
    pub name_role: Role,
}

impl Entry {
    pub const SIZE: usize = 280;

    // The entry of a spare: type 32 and zeros.
    fn spare() -> Entry
        ensures { result ≡ held_of (entry_of spare_bytes) }
    {
        let zero = text::Number {
            minus: false,
            magnitude: 0,
        };
        Entry {
            ds_type: b' ',
            offset: zero,
            size: zero,
            count: zero,
            record_size: zero,
            name_role: Role::Other,
        }
    }

    // The entry of the DSD that begins at `start`. Its first byte tells a spare, as it does where rule 8 holds.
    pub fn at(p: &[u8], start: usize) -> Entry
        requires { (start + size_of_dsd ≤ length p.now) × SpareByFirst p.now start }
        ensures { Read p.now start result }
    {
        if p[start] == b' ' {
            return Entry::spare();
        }
        Entry {
            ds_type: p[start + 47],
            offset: text::number_at(p, start + 133, 21),
            size: text::number_at(p, start + 170, 21),
            count: text::number_at(p, start + 207, 11),
            record_size: text::number_at(p, start + 228, 11),
            name_role: role_of_name(p, start + 9),
        }
    }

    // Type M, A or G.
    #[tactic(auto, unfolding(layout::specs::Entries::is_data, crate::specs::Held::view_of))]
    fn is_data(self) -> bool
        ensures { result ≡ is_data (view_of self) }
    {
        matches!(self.ds_type, b'M' | b'A' | b'G')
    }

    // Where in the DSD the number stands that passes 2^63 - 1 (rule 9), DS_OFFSET before DS_SIZE; or 0.
    #[tactic(auto, unfolding(crate::specs::Held::over_place, crate::specs::Held::view_of, crate::specs::Held::number_from))]
    pub fn over(self) -> usize
        ensures { result ≡ over_place (view_of self) }
    {
        if 9223372036854775807 < self.offset.magnitude {
            return 133;
        }
        if 9223372036854775807 < self.size.magnitude {
            return 170;
        }
        0
    }

    // One of the two does.
    pub fn is_over(self) -> bool
        ensures { result ≡ not (eqb (over_place (view_of self)) 0) }
    {
        self.over() != 0
    }

    // All four numbers are zero.
    fn is_zero(self) -> bool
        ensures { result ≡ all_zero (view_of self) }
    {
        if self.offset.magnitude != 0 {
            return false;
        }
        if self.size.magnitude != 0 {
            return false;
        }
        if self.count.magnitude != 0 {
            return false;
        }
        self.record_size.magnitude == 0
    }

    // No number is negative but for DSR_SIZE, which is at least -1.
    fn is_in_range(self) -> bool
        ensures { result ≡ in_range (view_of self) }
    {
        if is_negative(self.offset) {
            return false;
        }
        if is_negative(self.size) {
            return false;
        }
        if is_negative(self.count) {
            return false;
        }
        if !self.record_size.minus {
            return true;
        }
        self.record_size.magnitude <= 1
    }

    // DSR_SIZE at least 1 and NUM_DSR x DSR_SIZE = DS_SIZE. The product can pass 64 bits, so it is not made.
    fn is_fixed(self) -> bool
        ensures { result ≡ is_fixed (view_of self) }
    {
        if self.record_size.minus {
            return false;
        }
        let record_size = self.record_size.magnitude;
        if record_size == 0 {
            return false;
        }
        if self.size.magnitude % record_size != 0 {
            return false;
        }
        self.size.magnitude / record_size == self.count.magnitude
    }

    // DS_SIZE above 0, DSR_SIZE -1, type M, and one of the four names.
    fn is_variable(self) -> bool
        ensures { result ≡ is_variable (view_of self) }
    {
        if self.size.minus {
            return false;
        }
        if self.size.magnitude == 0 {
            return false;
        }
        if !self.record_size.minus {
            return false;
        }
        if self.record_size.magnitude != 1 {
            return false;
        }
        if self.ds_type != b'M' {
            return false;
        }
        self.name_role.is_variable()
    }

    // A set with numbers in range: DS_SIZE 0 needs NUM_DSR 0, above 0 NUM_DSR at least 1 and records that fill it.
    fn set_fits(self) -> bool
        requires { in_range (view_of self) ≡ true }
        ensures { result ≡ set_fits (view_of self) }
    {
        if self.size.magnitude == 0 {
            return self.count.magnitude == 0;
        }
        if self.count.magnitude == 0 {
            return false;
        }
        if self.is_fixed() {
            return true;
        }
        self.is_variable()
    }

    // Rule 10.
    pub fn numbers_fit(self) -> bool
        ensures { result ≡ numbers_fit (view_of self) }
    {
        if self.ds_type == b'R' {
            return self.is_zero();
        }
        if !self.is_data() {
            return true;
        }
        if !self.is_in_range() {
            return false;
        }
        self.set_fits()
    }

    // A set of one byte or more: minus zero is no byte, and R has none.
    fn is_non_empty(self) -> bool
        ensures { result ≡ non_empty (view_of self) }
    {
        self.is_data() & !self.size.minus & (0 < self.size.magnitude)
    }

    // What NUM_DATA_SETS counts, if it counts `counted` before this entry (rule 11): sets of one byte or more.
    pub fn counted_with(self, counted: usize) -> usize
        requires { counted < 128 }
        ensures { result ≡ counted + cond (non_empty (view_of self)) 1 0 }
    {
        if self.is_non_empty() {
            return counted + 1;
        }
        counted
    }

    // What the set is.
    #[tactic(auto, using(crate::proofs::Fits::what_it_is))]
    pub fn role(self) -> Role
        ensures { result ≡ role_of (view_of self) }
    {
        if self.is_variable() {
            return self.name_role;
        }
        if self.ds_type != b'A' {
            return Role::Other;
        }
        if self.name_role.is_states() {
            return Role::States;
        }
        Role::Other
    }
}
