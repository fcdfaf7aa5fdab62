//! What an image is, and its parts that are made alike for every class.

ghost use Rattle.std.specs.Prelude.{◌≡◌, ◌≤◌, length, map, None, IfOk};
ghost use Rattle.inject_events.specs.Probing.{first_marked};

use crate::copying::{copy_attributes, copy_members};
use crate::methods::is_off;
use code_model::Homes;
use const_pool::{ClassFile, Member, Pool};
use jf_bytes::{NoMemory, Seq};
use jvm_model::Mark;
use std::alloc::Global;

/// A rewritten class, and for each of its methods where the original offsets come to stand: none where the method is
/// the original.
#[derive(Debug, Drop)]
pub struct Image {
    pub class: ClassFile,
    pub homes: Seq<Option<Homes>>,
}

/// The class with this pool and these methods.
pub(crate) fn class_with(
    alloc: Global,
    class: &ClassFile,
    pool: Pool,
    methods: Seq<Member>,
) -> Result<ClassFile, NoMemory>
    ensures { IfOk result (λ new. new ≡ record class.now { pool = pool; methods = methods }) }
{
    Ok(ClassFile {
        minor: class.minor,
        major: class.major,
        pool,
        access: class.access,
        this_class: class.this_class,
        super_class: class.super_class,
        interfaces: Seq::from_slice(alloc, class.interfaces.as_slice())?,
        fields: copy_members(alloc, class.fields.as_slice())?,
        methods,
        attributes: copy_attributes(alloc, class.attributes.as_slice())?,
    })
}

/// No homes, for so many methods.
pub(crate) fn no_homes(alloc: Global, methods: &[Member]) -> Result<Seq<Option<Homes>>, NoMemory>
    ensures { IfOk result (λ homes. homes ≡ map (λ m. None) methods.now) }
{
    let mut homes = Seq::with_capacity(alloc, methods.len())?;
    for _method in methods {
        homes.push(None)?;
    }
    Ok(homes)
}

/// The position of the first marked method: so many are not, in front of it.
pub(crate) fn first_marked(marks: &[Mark]) -> u16
    requires { length marks.now ≤ 65535 }
    ensures { result ≡ first_marked marks.now }
{
    for (method, mark) in marks.iter().enumerate() {
        if !is_off(*mark) {
            return method as u16;
        }
    }
    marks.len() as u16
}
