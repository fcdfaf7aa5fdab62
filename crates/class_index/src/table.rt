//! The members of a class by numbers of their names and descriptors.

ghost use Rattle.std.specs.Prelude.{◌≡◌, ◌<◌, ◌^◌, [], find, length, replicate, unwrap_or};
ghost use Rattle.const_pool.specs.References.{named_text};
ghost use Rattle.std.specs.Prelude.{IfOk, OnOk};
ghost use Rattle.class_index.specs.Buckets.{bucket_at, buckets_of, is_at, member_number};
ghost use Rattle.class_index.specs.Buckets.{member_sought, number_of, table_of, text_number};
ghost use Rattle.class_index.specs.Buckets.{with_position};
ghost use Rattle.class_index.specs.Members.{HasFewMembers, wanted_view};

use crate::wanted::{Wanted, is_member};
use const_pool::{ClassFile, Member, Pool};
use jf_bytes::{NoMemory, Seq};
use std::alloc::Global;

/// The positions of fields and of methods in buckets, by the remainders of their numbers.
#[derive(Drop)]
pub struct MemberBuckets {
    pub fields: Seq<Seq<u16>>,
    pub methods: Seq<Seq<u16>>,
}

// ---- numbers

/// The number of a text behind others.
fn text_number(number: u32, units: &[u16]) -> u32
    requires { number < 65521 }
    ensures number { result ≡ text_number number units.now }
    ensures most { result < 65521 }
{
    let mut number = number;
    for unit in units {
        number = (number * 31 + u32::from(*unit)) % 65521;
    }
    number
}

/// The number of a name and a descriptor.
fn number_of(wanted: &Wanted<'_>) -> usize
    ensures { result ≡ number_of (wanted_view wanted.now) }
{
    let name = text_number(0, wanted.name.units());
    text_number(name, wanted.descriptor.units()) as usize
}

fn units_at(pool: &Pool, entry: u16) -> &[u16]
    ensures { result.now ≡ unwrap_or (named_text pool.now entry) [] }
{
    match pool.text(entry) {
        Ok(text) => text.units(),
        Err(_) => &[],
    }
}

/// The number of a member.
fn member_number(pool: &Pool, member: &Member) -> usize
    ensures { result ≡ member_number pool.now member.now }
{
    let name = text_number(0, units_at(pool, member.name));
    text_number(name, units_at(pool, member.descriptor)) as usize
}

// ---- buckets

/// So many empty buckets.
fn empty_buckets(alloc: Global, size: usize) -> Result<Vec<Seq<u16>>, NoMemory>
    ensures { IfOk result (λ buckets. buckets.items ≡ replicate size []) }
{
    let mut buckets = Vec::with_capacity(alloc, size)?;
    for _ in 0..size {
        buckets.push(Seq::new(alloc))?;
    }
    Ok(buckets)
}

/// Puts a position into a bucket.
fn put(buckets: &mut Vec<Seq<u16>>, place: usize, position: u16) -> Result<(), NoMemory>
    requires { place < length buckets.old.items }
    ensures length { length buckets.new.items ≡ length buckets.old.items }
    ensures put { OnOk result (buckets.new.items
        ≡ with_position buckets.old.items place position) }
{
    buckets[place].push(position)?;
    Ok(())
}

/// The members in buckets.
fn buckets_of(alloc: Global, pool: &Pool, members: &[Member]) -> Result<Seq<Seq<u16>>, NoMemory>
    requires { length members.now < 2 ^ 16 }
    ensures { IfOk result (λ buckets. buckets ≡ buckets_of pool.now members.now) }
{
    let size = members.len() + 1;
    let mut buckets = empty_buckets(alloc, size)?;
    for (at, member) in members.iter().enumerate() {
        put(&mut buckets, member_number(pool, member) % size, at as u16)?;
    }
    Ok(Seq::from_vec(buckets))
}

/// The table of a class.
pub fn table_of(alloc: Global, file: &ClassFile) -> Result<MemberBuckets, NoMemory>
    requires { HasFewMembers file.now }
    ensures { IfOk result (λ table. table ≡ table_of file.now) }
{
    Ok(MemberBuckets {
        fields: buckets_of(alloc, &file.pool, file.fields.as_slice())?,
        methods: buckets_of(alloc, &file.pool, file.methods.as_slice())?,
    })
}

// ---- looking up

fn bucket_at(buckets: &[Seq<u16>], place: usize) -> &[u16]
    ensures { result.now ≡ bucket_at buckets.now place }
{
    match buckets.get(place) {
        Some(bucket) => bucket.as_slice(),
        None => &[],
    }
}

/// Whether the member stands at a position.
fn is_at(pool: &Pool, members: &[Member], wanted: &Wanted<'_>, position: u16) -> bool
    ensures { result ≡ is_at pool.now members.now (wanted_view wanted.now) position }
{
    match members.get(position as usize) {
        Some(member) => is_member(pool, wanted, member),
        None => false,
    }
}

/// The first of these positions at which the member stands.
fn first_at(pool: &Pool, members: &[Member], wanted: &Wanted<'_>, positions: &[u16]) -> Option<u16>
    ensures { result
        ≡ find (is_at pool.now members.now (wanted_view wanted.now)) positions.now }
{
    for position in positions {
        if is_at(pool, members, wanted, *position) {
            return Some(*position);
        }
    }
    None
}

/// The position of a member, by its bucket.
pub fn member_sought(
    pool: &Pool,
    members: &[Member],
    buckets: &[Seq<u16>],
    wanted: &Wanted<'_>,
) -> Option<u16>
    requires { 0 < length buckets.now }
    ensures { result ≡ member_sought pool.now members.now buckets.now (wanted_view wanted.now) }
{
    let place = number_of(wanted) % buckets.len();
    first_at(pool, members, wanted, bucket_at(buckets, place))
}
