// How a payload is packed into a word under its record's own generation, and how it is read.
ghost use Rattle.std.specs.Prelude.{◌≡◌, ◌<◌, ◌^◌};
ghost use Rattle.row_words.specs.Packing.{packed_ref, ref_in, packed_link, link_in, packed_key, key_in, kind_in, packed_number, number_in, own_in, IsTarget, IsLink, IsPackedRef, IsPackedLink};

use crate::{Generation, Link, Ref};

// Where the fields of a word start, in bits.
const GENERATION_SHIFT: u32 = 20;

const FLAGS_SHIFT: u32 = 40;

const OWN_SHIFT: u32 = 44;

// The bits of each field, shifted down.
const INDEX_MASK: u64 = 0xf_ffff;

const TARGET_MASK: u64 = 0xff_ffff_ffff;

const FLAGS_MASK: u64 = 0xf;

const PAYLOAD_MASK: u64 = 0xfff_ffff_ffff;

/// A reference as a number of 40 bits, its generation above its index. No reference is 0.
pub fn pack_ref(target: Option<Ref>) -> u64
    ensures number { result ≡ packed_ref target }
    ensures target { ref_in result ≡ target }
    ensures in_range { IsTarget target }
    ensures packed { IsPackedRef result }
{
    match target {
        Some(r) => u64::from(r.generation.get()) << GENERATION_SHIFT | u64::from(r.index),
        None => 0,
    }
}

/// The reference that was packed into this number.
pub fn ref_of(number: u64) -> Option<Ref>
    requires packed { IsPackedRef number }
    ensures target { result ≡ ref_in number }
    ensures in_range { IsTarget result }
    ensures number { packed_ref result ≡ number }
{
    let index = (number & INDEX_MASK) as u32;
    let generation = Generation::new((number >> GENERATION_SHIFT) as u32)?;
    Some(Ref { index, generation })
}

/// The word of a link. `own` is the generation of the record whose word it is, 0 where it was never
/// handed out, and at most 1,048,575.
pub fn pack_link(own: u32, link: Link) -> u64
    requires own { own < 2 ^ 20 }
    ensures word { result ≡ packed_link own link }
    ensures own { own_in result ≡ own }
    ensures link { link_in result ≡ link }
    ensures in_range { IsLink link }
    ensures packed { IsPackedLink result }
{
    u64::from(own) << OWN_SHIFT | u64::from(link.flags) << FLAGS_SHIFT | pack_ref(link.target)
}

/// The link that was packed into this word.
pub fn link_of(word: u64) -> Link
    requires packed { IsPackedLink word }
    ensures link { result ≡ link_in word }
    ensures in_range { IsLink result }
    ensures word { packed_link (own_in word) result ≡ word }
{
    Link {
        flags: (word >> FLAGS_SHIFT & FLAGS_MASK) as u8,
        target: ref_of(word & TARGET_MASK),
    }
}

/// The generation of the record whose word it is, from any packed word.
pub fn own_of(word: u64) -> u32
    ensures own { result ≡ own_in word }
    ensures fits { result < 2 ^ 20 }
{
    (word >> OWN_SHIFT) as u32
}

/// The word of a key below 2^40 of a kind below 16, under `own`, which is at most 1,048,575.
pub fn pack_key(own: u32, kind: u8, key: u64) -> u64
    requires own { own < 2 ^ 20 }
    requires kind { kind < 2 ^ 4 }
    requires key { key < 2 ^ 40 }
    ensures word { result ≡ packed_key own kind key }
    ensures own { own_in result ≡ own }
    ensures kind { kind_in result ≡ kind }
    ensures key { key_in result ≡ key }
{
    u64::from(own) << OWN_SHIFT | u64::from(kind) << FLAGS_SHIFT | key
}

/// The key in a word that `pack_key` made.
pub fn key_of(word: u64) -> u64
    ensures key { result ≡ key_in word }
    ensures fits { result < 2 ^ 40 }
{
    word & TARGET_MASK
}

/// The kind in a word that `pack_key` made.
pub fn kind_of(word: u64) -> u8
    ensures kind { result ≡ kind_in word }
    ensures fits { result < 2 ^ 4 }
{
    (word >> FLAGS_SHIFT & FLAGS_MASK) as u8
}

/// The word of a number below 2^44 under `own`, which is at most 1,048,575.
pub fn pack_number(own: u32, number: u64) -> u64
    requires own { own < 2 ^ 20 }
    requires number { number < 2 ^ 44 }
    ensures word { result ≡ packed_number own number }
    ensures own { own_in result ≡ own }
    ensures number { number_in result ≡ number }
{
    u64::from(own) << OWN_SHIFT | number
}

/// The number in a word that `pack_number` made.
pub fn number_of(word: u64) -> u64
    ensures number { result ≡ number_in word }
    ensures fits { result < 2 ^ 44 }
{
    word & PAYLOAD_MASK
}
