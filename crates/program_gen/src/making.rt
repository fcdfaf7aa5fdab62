//! Making a class file of a row (JVM Specification 4.1).

ghost use Rattle.std.specs.Prelude.{◌≡◌, ◌<◌, ◌^◌, IfOk, IsTrue, [], length};
ghost use Rattle.const_pool.specs.Pool.{has_gaps};
ghost use Rattle.const_pool.specs.ClassFile.{IsClassFile};
ghost use Rattle.program_gen.specs.Making.{methods_from, class_file_of};
ghost use Rattle.class_making.specs.Making.{GivesMembers};
ghost use Rattle.program_gen.specs.Fits.{FitsClass};

use crate::coding::add_method;
use crate::entries::share_class;
use crate::rows::{ClassRow, MethodRow};
use class_making::MAJOR;
use const_pool::{ClassFile, Const, Member, Pool};
use jf_bytes::{NoMemory, Seq};
use std::alloc::Global;

/// ACC_PUBLIC and ACC_SUPER.
const ACCESS: u16 = 0x0021;

#[tactic(auto, unfolding(crate::specs::Making::methods_from))]
fn add_methods(
    alloc: Global,
    pool: &mut Vec<Const>,
    rows: &[MethodRow],
) -> Result<Seq<Member>, NoMemory>
    ensures { GivesMembers result pool.new.items (methods_from pool.old.items [] rows.now) }
{
    let mut members = Seq::new(alloc);
    for row in rows {
        members.push(add_method(alloc, pool, row)?)?;
    }
    Ok(members)
}

/// The class file of a row whose entries are a pool.
#[tactic(auto, unfolding(crate::specs::Making::class_file_of))]
fn make_class(alloc: Global, row: &ClassRow) -> Result<ClassFile, NoMemory>
    requires gaps { IsTrue (has_gaps (class_file_of row.now).pool) }
    requires count { length (class_file_of row.now).pool < 2 ^ 16 }
    ensures { IfOk result (λ class. class ≡ class_file_of row.now) }
{
    let mut pool = Vec::new(alloc);
    pool.push(Const::Gap)?;
    let this_class = share_class(alloc, &mut pool, row.name)?;
    let super_class = share_class(alloc, &mut pool, row.superclass)?;
    let methods = add_methods(alloc, &mut pool, row.methods.as_slice())?;
    Ok(ClassFile {
        minor: 0,
        major: MAJOR,
        pool: Pool::new(pool),
        access: ACCESS,
        this_class,
        super_class,
        interfaces: Seq::new(alloc),
        fields: Seq::new(alloc),
        methods,
        attributes: Seq::new(alloc),
    })
}

/// The class file of a row that fits.
pub(crate) fn class_of(alloc: Global, row: &ClassRow) -> Result<ClassFile, NoMemory>
    requires { FitsClass row.now }
    ensures class { IfOk result (λ class. class ≡ class_file_of row.now) }
    ensures formed { IfOk result IsClassFile }
{
    make_class(alloc, row)
}
