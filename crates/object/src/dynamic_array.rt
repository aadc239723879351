// The dynamic array: port of dynamic_array.rs, and of the walk in dynamic_fields.rs.
ghost use Rattle.std.specs.Prelude.{◌≡◌, ◌<◌, ℕ, List, [], ◌∷◌, ◌++◌};
ghost use Rattle.object.specs.DynamicFields.{needed_offsets};
ghost use Rattle.object.specs.Steps.FirstOf.{FirstOf};
ghost use Rattle.object.specs.Steps.Slots.{slot_of, kept_of, put_of, field_in, ArrayAt};

use words::copy_vec::CopyVec;

// The tags that are read.
pub(crate) const DT_NEEDED: u64 = 1;

pub(crate) const DT_PLTRELSZ: u64 = 2;

pub(crate) const DT_HASH: u64 = 4;

pub(crate) const DT_STRTAB: u64 = 5;

pub(crate) const DT_SYMTAB: u64 = 6;

pub(crate) const DT_RELA: u64 = 7;

pub(crate) const DT_RELASZ: u64 = 8;

pub(crate) const DT_RELAENT: u64 = 9;

pub(crate) const DT_SYMENT: u64 = 11;

pub const DT_INIT: u64 = 12;

pub const DT_FINI: u64 = 13;

pub(crate) const DT_PLTREL: u64 = 20;

pub(crate) const DT_JMPREL: u64 = 23;

pub const DT_INIT_ARRAY: u64 = 25;

pub const DT_FINI_ARRAY: u64 = 26;

pub const DT_INIT_ARRAYSZ: u64 = 27;

pub const DT_FINI_ARRAYSZ: u64 = 28;

pub const DT_PREINIT_ARRAY: u64 = 32;

pub const DT_PREINIT_ARRAYSZ: u64 = 33;

pub(crate) const DT_RELRSZ: u64 = 35;

pub(crate) const DT_RELR: u64 = 36;

pub(crate) const DT_GNU_HASH: u64 = 0x6ffffef5;

// A tag's slot holds what its entries give: the value that counts, where there is one.
pub type Slots = [Option<usize>; 38];

// The needs' offsets that a record keeps.
pub type Needs = CopyVec<usize, 64>;

// The array, read in one pass. `needs` are all needs, or as an error the first 64 of more; `ended` says whether the array ends inside the span.
#[derive(Clone, Copy)]
pub struct DynamicArray {
    pub slots: Slots,
    pub needs: Result<Needs, Needs>,
    pub ended: bool,
}

// The slot of a tag: below 37 the tag itself, then a row for each that is far above; 0 for the tags that have none.
#[tactic(auto, unfolding(crate::specs::Steps::Slots::slot_of))]
fn slot_of(tag: u64) -> usize
    ensures { (result ≡ slot_of tag) × (result < 38) }
{
    match tag {
        0..37 => tag as usize,
        DT_GNU_HASH => 37,
        _ => 0,
    }
}

// What a slot holds after an entry: the last counts, of DT_HASH the first.
#[tactic(auto, unfolding(crate::specs::Steps::Slots::kept_of))]
fn kept(tag: u64, was: Option<usize>, value: usize) -> Option<usize>
    ensures { result ≡ kept_of tag was value }
{
    if tag == DT_HASH {
        return was.or(Some(value));
    }
    Some(value)
}

fn put(slots: &mut Slots, tag: u64, value: usize)
    ensures { slots.new ≡ put_of slots.old tag value }
{
    let k = slot_of(tag);
    slots[k] = kept(tag, slots[k], value);
}

// What the entries of a tag give.
pub fn field_in(slots: &Slots, tag: u64) -> Option<usize>
    ensures { result ≡ field_in slots.now tag }
{
    slots[slot_of(tag)]
}

// One need more.
fn put_need(needs: &mut Result<Needs, Needs>, offset: usize)
    ensures { (xs : List ℕ) → FirstOf 64 xs needs.old → FirstOf 64 (xs ++ offset ∷ []) needs.new }
{
    if let Ok(list) = needs {
        if list.is_full() {
            *needs = Err(*list);
        } else {
            list.push(offset);
        }
    }
}

// The array at `at`: its entries up to the first of tag 0, or to the end of the image.
pub fn read_array(image: &[u8], at: usize) -> DynamicArray
    ensures { ArrayAt image.now at result }
{
    let mut slots = [None; 38];
    let mut needs = Ok(CopyVec::new());
    for k in 0..image.len().saturating_sub(at) / 16 {
        let i = at + 16 * k;
        let tag = words::bytes::word_at::<u64>(image, i);
        if tag == 0 {
            return DynamicArray {
                slots,
                needs,
                ended: true,
            };
        }
        let value = words::bytes::word_at::<u64>(image, i + 8) as usize;
        put(&mut slots, tag, value);
        if tag == DT_NEEDED {
            put_need(&mut needs, value);
        }
    }
    DynamicArray {
        slots,
        needs,
        ended: false,
    }
}

// The needs of the array at `at`; as an error the first 64 where there are more.
pub fn read_needs(image: &[u8], at: usize) -> Result<Needs, Needs>
    ensures { FirstOf 64 (needed_offsets image.now at) result }
{
    read_array(image, at).needs
}
