//! The classes of a run, as native methods see them.

ghost use Rattle.std.specs.Prelude.{◌≡◌, ◌<◌, true};
ghost use Rattle.class_linker.specs.Linkers.{IsKnown};
ghost use Rattle.jvm_model.specs.Instructions.NativeRules.{is_known, loaded_class};

use base_classes::FIRST_ARRAY;
use class_linker::Linker;
use jf_bytes::Text16;
use native_effects::Kinds;

/// The classes that a linker has loaded, by their kinds.
#[derive(Clone, Copy)]
pub struct LinkedKinds<'a> {
    pub linker: &'a Linker,
}

/// The position of the class of a kind, where it is loaded.
fn loaded_class(linker: &Linker, kind: u32) -> Option<u32>
    ensures { result ≡ loaded_class linker.now.program linker.now.loaded kind }
{
    let class = linker.index().class_of_base(kind)?;
    if linker.is_loaded(class) {
        Some(class)
    } else {
        None
    }
}

/// Whether the class of a kind is loaded, or that of an array's elements, or these are primitive.
fn is_known(linker: &Linker, kind: u32) -> bool
    ensures test { result ≡ is_known linker.now.program linker.now.loaded kind }
    ensures known { result ≡ true → IsKnown linker.now kind }
{
    match linker.index().class_of_base(kind % FIRST_ARRAY) {
        Some(class) => linker.is_loaded(class),
        None => true,
    }
}

impl Kinds for LinkedKinds<'_> {
    ghost use Rattle.jvm_model.specs.Instructions.NativeRules.{kinds_in};

    ghost seen = { λ k. kinds_in k.linker.now.program k.linker.now.loaded };

    fn name(&self, kind: u32) -> Option<&Text16> {
        let class = loaded_class(self.linker, kind)?;
        self.linker.index().name_at(class)
    }

    fn above(&self, kind: u32) -> Option<u32> {
        let class = loaded_class(self.linker, kind)?;
        let above = self.linker.index().super_of(class)?;
        Some(self.linker.index().base_of_class(above))
    }

    fn subtype(&self, lower: u32, upper: u32) -> bool {
        is_known(self.linker, lower)
            && is_known(self.linker, upper)
            && self.linker.subtype(lower, upper)
    }
}
