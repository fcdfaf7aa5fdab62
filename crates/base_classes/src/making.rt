//! Making a class file of a row (JVM Specification 4.1).

ghost use Rattle.std.specs.Prelude.{◌≡◌, ◌<◌, IfOk, IsTrue, map, []};
ghost use Rattle.std.specs.Option.{option_map};
ghost use Rattle.base_classes.specs.Making.{AddsIndices, member_added, members_from, interfaces_from, superclass_added, class_file_of, has_pool};
ghost use Rattle.base_classes.specs.RowViews.{member_view, class_view};
ghost use Rattle.class_making.specs.Making.{GivesEntry, GivesMember, GivesMembers};

use crate::coding::add_attributes;
use crate::entries::{add_class, add_text};
use crate::rows::{ClassRow, MemberRow};
use class_making::MAJOR;
use const_pool::{ClassFile, Const, Member, Pool};
use jf_bytes::{NoMemory, Seq};
use std::alloc::Global;

#[tactic(auto, unfolding(crate::specs::Making::member_added))]
fn add_member(alloc: Global, pool: &mut Vec<Const>, row: &MemberRow) -> Result<Member, NoMemory>
    ensures { GivesMember result pool.new.items
        (member_added pool.old.items (member_view row.now)) }
{
    let name = add_text(alloc, pool, row.name)?;
    let descriptor = add_text(alloc, pool, row.descriptor)?;
    let attributes = add_attributes(alloc, pool, row.code)?;
    Ok(Member {
        access: row.access,
        name,
        descriptor,
        attributes,
    })
}

#[tactic(auto, unfolding(crate::specs::Making::members_from))]
fn add_members(
    alloc: Global,
    pool: &mut Vec<Const>,
    rows: &[MemberRow],
) -> Result<Seq<Member>, NoMemory>
    ensures { GivesMembers result pool.new.items
        (members_from pool.old.items [] (map member_view rows.now)) }
{
    let mut members = Seq::new(alloc);
    for row in rows {
        members.push(add_member(alloc, pool, row)?)?;
    }
    Ok(members)
}

#[tactic(auto, unfolding(crate::specs::Making::interfaces_from))]
fn add_interfaces(
    alloc: Global,
    pool: &mut Vec<Const>,
    names: &[&str],
) -> Result<Seq<u16>, NoMemory>
    ensures { AddsIndices result pool.new.items
        (interfaces_from pool.old.items [] (map (λ name. name.now) names.now)) }
{
    let mut indices = Seq::new(alloc);
    for name in names {
        indices.push(add_class(alloc, pool, name)?)?;
    }
    Ok(indices)
}

/// Adds a superclass, where there is one. The index is 0 where there is none.
#[tactic(auto, unfolding(crate::specs::Making::superclass_added))]
fn add_superclass(alloc: Global, pool: &mut Vec<Const>, name: Option<&str>) -> Result<u16, NoMemory>
    ensures { GivesEntry result pool.new.items
        (superclass_added pool.old.items (option_map (λ s. s.now) name.entry)) }
{
    match name {
        None => Ok(0),
        Some(name) => add_class(alloc, pool, name),
    }
}

/// The class file that declares what the row does, in version 49.0.
#[tactic(auto, unfolding(crate::specs::Making::class_file_of, crate::specs::Making::has_pool))]
pub(crate) fn class_of(alloc: Global, row: &ClassRow) -> Result<ClassFile, NoMemory>
    requires { IsTrue (has_pool (class_view row.now)) }
    ensures { IfOk result (λ class. class ≡ class_file_of (class_view row.now)) }
{
    let mut pool = Vec::new(alloc);
    pool.push(Const::Gap)?;
    let this_class = add_class(alloc, &mut pool, row.name)?;
    let super_class = add_superclass(alloc, &mut pool, row.superclass)?;
    let interfaces = add_interfaces(alloc, &mut pool, row.interfaces)?;
    let fields = add_members(alloc, &mut pool, row.fields)?;
    let methods = add_members(alloc, &mut pool, row.methods)?;
    Ok(ClassFile {
        minor: 0,
        major: MAJOR,
        pool: Pool::new(pool),
        access: row.access,
        this_class,
        super_class,
        interfaces,
        fields,
        methods,
        attributes: Seq::new(alloc),
    })
}
