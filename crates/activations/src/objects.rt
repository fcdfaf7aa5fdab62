//! The classes of objects that are thrown (JVM Specification 2.10). The class of each object is
//! loaded.

ghost use Rattle.std.specs.Prelude.{◌≡◌};
ghost use Rattle.class_linker.specs.Linkers.{IsLoaded};
ghost use Rattle.jvm_model.specs.Basis.SharedState.{class_of, error, throwable};
ghost use Rattle.jvm_model.specs.Classes.Lookup.{is_below};
ghost use Rattle.symbolic_references.specs.Runtimes.{linker_in};

use crate::supertypes::is_below_class;
use member_selection::kind_of_object;
use symbolic_references::Runtime;

/// The position of the class of an object; that of java/lang/Object where there is no object.
pub fn class_of(runtime: &Runtime, object: u32) -> u32
    ensures class { result ≡ class_of runtime.now.world.program runtime.now.shared object }
    ensures loaded { IsLoaded (linker_in runtime.now) result }
{
    let linker = runtime.linker();
    match kind_of_object(linker, runtime.heap(), object) {
        Some(kind) => linker.index().class_of_kind(kind),
        None => linker.index().user_count(),
    }
}

/// Whether an object is a Throwable.
pub fn is_throwable(runtime: &Runtime, object: u32) -> bool
    ensures { let p = runtime.now.world.program in
        result ≡ is_below p (class_of p runtime.now.shared object) throwable }
{
    let class = class_of(runtime, object);
    is_below_class(runtime.linker(), class, runtime.throwable())
}

/// Whether an object is an Error.
pub fn is_error(runtime: &Runtime, object: u32) -> bool
    ensures { let p = runtime.now.world.program in
        result ≡ is_below p (class_of p runtime.now.shared object) error }
{
    let class = class_of(runtime, object);
    is_below_class(runtime.linker(), class, runtime.error())
}
