//! Which method invokespecial invokes (JVM Specification chapter 6, invokespecial).

ghost use Rattle.std.specs.Prelude.{◌≡◌, true};
ghost use Rattle.std.specs.Option.{option_map};
ghost use Rattle.class_linker.specs.DeclaredMethods.{at_place};
ghost use Rattle.class_linker.specs.LoadedClasses.{holds_class};
ghost use Rattle.jvm_model.specs.Classes.SuperCalls.{invoked_special, is_inherited, is_initializer};
ghost use Rattle.jvm_model.specs.Classes.SuperCalls.{nearest_above, method_taken};

use crate::declared_method::DeclaredMethod;
use crate::loaded_classes::LoadedClasses;
use crate::overriding::{is_abstract, signature_of};
use class_index::Index;

/// Whether it is an instance initialization method (2.9).
fn is_initializer(index: &Index, m: DeclaredMethod) -> bool
    ensures { result ≡ is_initializer index.now (at_place m) }
{
    match signature_of(index, m) {
        Some(wanted) => wanted.name.is_bytes(b"<init>"),
        None => false,
    }
}

impl LoadedClasses<'_> {
    /// Whether it is declared in a proper superclass of the caller.
    fn is_inherited(self, caller: u32, m: DeclaredMethod) -> bool
        requires { holds_class self.rows.now caller ≡ true }
        ensures { result ≡ is_inherited self.entry.index.now caller (at_place m) }
    {
        match self.superclass_of(caller) {
            Some(above) => self.is_superclass(above, m.class),
            None => false,
        }
    }

    /// The nearest one from the caller's direct superclass upwards.
    fn nearest_above(self, caller: u32, m: DeclaredMethod) -> Option<DeclaredMethod>
        requires { holds_class self.rows.now caller ≡ true }
        ensures { option_map at_place result
            ≡ nearest_above self.entry.index.now caller (at_place m) }
    {
        let above = self.superclass_of(caller)?;
        self.nearest(above, true, m)
    }

    /// The method that is taken for the resolved one, be it abstract.
    fn method_taken(self, caller: u32, m: DeclaredMethod) -> Option<DeclaredMethod>
        requires { holds_class self.rows.now caller ≡ true }
        ensures { option_map at_place result
            ≡ method_taken self.entry.index.now caller (at_place m) }
    {
        if self.is_inherited(caller, m) && !is_initializer(self.index, m) {
            self.nearest_above(caller, m)
        } else {
            Some(m)
        }
    }

    /// The method that a caller invokes for the resolved one.
    pub fn invoked_special(self, caller: u32, m: DeclaredMethod) -> Option<DeclaredMethod>
        requires { holds_class self.rows.now caller ≡ true }
        ensures { option_map at_place result
            ≡ invoked_special self.entry.index.now caller (at_place m) }
    {
        let found = self.method_taken(caller, m)?;
        if is_abstract(self.index, found) {
            None
        } else {
            Some(found)
        }
    }
}
