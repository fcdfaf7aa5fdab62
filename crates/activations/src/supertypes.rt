//! Supertypes of loaded classes (JVM Specification 4.10.1.2).

ghost use Rattle.std.specs.Prelude.{◌≡◌, false};
ghost use Rattle.std.specs.Option.{option_map_or};
ghost use Rattle.class_linker.specs.Linkers.{IsLoaded};
ghost use Rattle.jvm_model.specs.Classes.Lookup.{is_below, is_subtype};

use class_linker::Linker;
use jf_bytes::Text16;

/// Whether a class is another one or stands below it, where there is that one.
pub fn is_below_class(linker: &Linker, class: u32, upper: Option<u32>) -> bool
    requires { IsLoaded linker.now class }
    ensures { result ≡ option_map_or (is_subtype linker.now.program class) upper false }
{
    match upper {
        Some(upper) => linker.is_subtype(class, upper),
        None => false,
    }
}

/// Whether a class is the one with this name, or stands below it. The name is looked up once.
pub fn is_below(linker: &Linker, class: u32, name: &Text16) -> bool
    requires { IsLoaded linker.now class }
    ensures { result ≡ is_below linker.now.program class name.now }
{
    is_below_class(linker, class, linker.index().class_named(name.units()))
}
