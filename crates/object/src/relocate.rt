// Relocation entries: port of elf/relocate.rs.
ghost use Rattle.std.specs.Prelude.{◌≡◌, ◌+◌, eqb};
ghost use Rattle.words.specs.Choice.{pick};
ghost use Rattle.object.specs.RelocationTypes.{ignored, passed_over, turned_away, marked_refuse, applied_row, may_apply, row_under, supplied_word, not_symbol0, fits_unsigned32, fits_signed32};
ghost use Rattle.object.specs.Entries.{rela_at, relr_at, relr_of};
ghost use Rattle.object.specs.Steps.Actions.{row_by, field_by, searched_by};

// An entry of the RELA or PLT table: r_offset, the two halves of r_info, r_addend.
#[derive(Clone, Copy)]
pub struct Rela {
    pub place: usize,
    pub rtype: u32,
    pub symbol: u32,
    pub addend: u64,
}

// What a relocation type asks for.
#[derive(Clone, Copy)]
pub enum Action {
    Ignored,
    Passed,
    Relative,
    Symbolic(Field),
    Copy,
    Irelative,
    Refused,
}

// What is written by the address of a symbol: the address itself, or S + A (Direct) or S + A - P (Pc), in 64 or 32 bits.
#[derive(Clone, Copy)]
pub enum Field {
    Address,
    Direct64,
    Pc64,
    Pc32,
    Direct32,
    Direct32S,
}

// An entry of the RELR table: the place of a word, or a bit for each of the 63 words after the last.
#[derive(Clone, Copy)]
pub enum Relr {
    Address(usize),
    Bitmap(u64),
}

// Entry `i` of the table at `table`.
pub fn rela_at(image: &[u8], table: usize, i: u32) -> Rela
    ensures { result ≡ rela_at image.now table i }
{
    let k = 24 * (i as usize);
    Rela {
        place: words::bytes::word_off::<u64>(image, table, k) as usize,
        rtype: words::bytes::word_off::<u32>(image, table, k + 8),
        symbol: words::bytes::word_off::<u32>(image, table, k + 12),
        addend: words::bytes::word_off::<u64>(image, table, k + 16),
    }
}

// What a type that is applied asks for.
#[tactic(auto, unfolding(crate::specs::RelocationTypes::applied_row))]
pub fn applied_of(rtype: u32) -> Action
    ensures { row_by result ≡ applied_row rtype }
{
    match rtype {
        1 => Action::Symbolic(Field::Direct64),
        2 => Action::Symbolic(Field::Pc32),
        5 => Action::Copy,
        // not `6 | 7`, which is tested apart from the others, for each entry
        6 => Action::Symbolic(Field::Address),
        7 => Action::Symbolic(Field::Address),
        8 => Action::Relative,
        10 => Action::Symbolic(Field::Direct32),
        11 => Action::Symbolic(Field::Direct32S),
        24 => Action::Symbolic(Field::Pc64),
        _ => Action::Passed,
    }
}

// Whether a type may be applied.
#[tactic(auto, unfolding(crate::specs::RelocationTypes::may_apply, words::specs::Choice::some))]
pub fn may_apply(rtype: u32) -> bool
    ensures { result ≡ may_apply rtype }
{
    matches!(rtype, 1 | 2 | 5..=8 | 10 | 11 | 24)
}

// What a type that is passed asks for.
fn passed_of(rtype: u32) -> Action
    ensures { row_by result ≡ pick (eqb rtype 0) ignored passed_over }
{
    if rtype == 0 {
        return Action::Ignored;
    }
    Action::Passed
}

// What a type that is refused asks for.
fn refused_of(rtype: u32) -> Action
    ensures { row_by result ≡ pick (eqb rtype 37) turned_away marked_refuse }
{
    if rtype == 37 {
        return Action::Irelative;
    }
    Action::Refused
}

// What the type of an entry asks for, by the word of the type. No function but those above lists types.
pub fn action_of(word: u64, rtype: u32) -> Action
    ensures { row_by result ≡ row_under word rtype }
{
    if 63 < rtype {
        return Action::Passed;
    }
    if word == 0x9000_0000 + rtype as u64 {
        return applied_of(rtype);
    }
    if word == 0xa000_0000 + rtype as u64 {
        return passed_of(rtype);
    }
    refused_of(rtype)
}

// The word of a type in the supplied words.
pub fn supplied_word(rtype: u32) -> u64
    ensures { result ≡ supplied_word rtype }
{
    if may_apply(rtype) {
        return 0x9000_0000 + rtype as u64;
    }
    if rtype == 37 {
        return 0xb000_0000 + rtype as u64;
    }
    0xa000_0000 + rtype as u64
}

impl Field {
    // Whether it searches for the name of the symbol with that index.
    pub fn searches(self, index: u32) -> bool
        ensures { result ≡ searched_by self index }
    {
        match self {
            Field::Address => true,
            _ => index != 0,
        }
    }

    // How many bytes it has.
    pub fn width(self) -> usize
        ensures { result ≡ (field_by self).width }
    {
        match self {
            Field::Address | Field::Direct64 | Field::Pc64 => 8,
            Field::Pc32 | Field::Direct32 | Field::Direct32S => 4,
        }
    }

    // What it gets, of S, the addend, the object's base and the place.
    pub fn value(self, s: u64, addend: u64, base: u64, place: u64) -> u64
        ensures { result ≡ (field_by self).value s addend base (base + place) }
    {
        let sum = s.wrapping_add(addend);
        let less = sum.wrapping_sub(base.wrapping_add(place));
        match self {
            Field::Address => s,
            Field::Direct64 | Field::Direct32 | Field::Direct32S => sum,
            Field::Pc64 | Field::Pc32 => less,
        }
    }

    // Whether it holds that number.
    pub fn fits(self, v: u64) -> bool
        ensures { result ≡ (field_by self).fits v }
    {
        match self {
            Field::Address | Field::Direct64 | Field::Pc64 => true,
            Field::Pc32 | Field::Direct32S => fits_signed(v),
            Field::Direct32 => fits_unsigned(v),
        }
    }
}

// Whether a number is the one that four bytes of it are, read as signed.
fn fits_signed(v: u64) -> bool
    ensures { result ≡ fits_signed32 v }
{
    v < 0x8000_0000 || 0xffff_ffff_8000_0000 <= v
}

fn fits_unsigned(v: u64) -> bool
    ensures { result ≡ fits_unsigned32 v }
{
    v < 0x1_0000_0000
}

// Entry `i` of the RELR table at `table`.
pub fn relr_at(image: &[u8], table: usize, i: u32) -> u64
    ensures { result ≡ relr_at image.now table i }
{
    words::bytes::word_off::<u64>(image, table, 8 * (i as usize))
}

// An even entry is an address, an odd one a bitmap.
pub fn relr_of(entry: u64) -> Relr
    ensures { result ≡ relr_of entry }
{
    if entry % 2 == 0 {
        return Relr::Address(entry as usize);
    }
    Relr::Bitmap(entry / 2)
}
