//! Resolution of fields and methods (JVM Specification 5.4.3).

ghost use Rattle.std.specs.Prelude.{◌≡◌, true, codes};
ghost use Rattle.std.specs.Option.{option_map, option_to_list};
ghost use Rattle.jvm_model.specs.Classes.Lookup.{field_at, first_in, method_order};
ghost use Rattle.jvm_model.specs.Classes.Lookup.{resolved_field, resolved_method};
ghost use Rattle.jvm_model.specs.Classes.Lookup.{superclasses, superinterfaces, supertypes};
ghost use Rattle.jvm_model.specs.Basis.Programs.{class_named};
ghost use Rattle.class_index.specs.Members.{place_view};
ghost use Rattle.class_linker.specs.Linkers.{class_order, inherited_order};
ghost use Rattle.class_linker.specs.Linkers.{interface_order, method_in, resolved_of};
ghost use Rattle.class_index.specs.Members.{wanted_view};
ghost use Rattle.class_linker.specs.LoadedClasses.{holds_class};

use crate::answers::Resolved;
use crate::loaded_classes::LoadedClasses;
use base_classes::{INCOMPATIBLE_CLASS_CHANGE_ERROR, NO_SUCH_FIELD_ERROR, NO_SUCH_METHOD_ERROR};
use class_index::{Index, Wanted, first_field, first_method, method_at};

/// The name of the class above all others.
static OBJECT: [u16; 16] = [
    106, 97, 118, 97, 47, 108, 97, 110, 103, 47, 79, 98, 106, 101, 99, 116,
];

fn object_name() -> &'static [u16]
    ensures { result.now ≡ codes "java/lang/Object" }
{
    &OBJECT
}

// ---- fields

impl LoadedClasses<'_> {
    /// The field of a class, or the first one above it.
    fn sought_field(self, class: u32, wanted: &Wanted<'_>) -> Option<(u32, u16)>
        requires { holds_class self.rows.now class ≡ true }
        ensures { option_map place_view result
            ≡ first_in (field_at self.entry.index.now (wanted_view wanted.now))
            (supertypes self.entry.index.now class) }
    {
        first_field(self.index, wanted, self.supertypes_of(class))
    }

    /// What a field reference of a class stands for.
    pub fn resolved_field(self, class: u32, wanted: &Wanted<'_>) -> Resolved
        requires { holds_class self.rows.now class ≡ true }
        ensures { result
            ≡ resolved_of (resolved_field self.entry.index.now class (wanted_view wanted.now)) }
    {
        match self.sought_field(class, wanted) {
            Some((declaring, position)) => Resolved::Found(declaring, position),
            None => Resolved::Throws(NO_SUCH_FIELD_ERROR),
        }
    }
}

// ---- methods

/// The method of java/lang/Object.
fn object_method(index: &Index, wanted: &Wanted<'_>) -> Option<(u32, u16)>
    ensures { option_map place_view result
        ≡ method_in index.now (wanted_view wanted.now)
        (option_to_list (class_named index.now (codes "java/lang/Object"))) }
{
    let class = index.class_named(object_name())?;
    let position = method_at(index, wanted, class)?;
    Some((class, position))
}

impl LoadedClasses<'_> {
    /// The method of a class or its superclasses.
    fn superclass_method(self, class: u32, wanted: &Wanted<'_>) -> Option<(u32, u16)>
        requires { holds_class self.rows.now class ≡ true }
        ensures { option_map place_view result
            ≡ method_in self.entry.index.now (wanted_view wanted.now)
            (superclasses self.entry.index.now class) }
    {
        first_method(self.index, wanted, self.superclasses_of(class))
    }

    /// The method of a class's superinterfaces.
    fn superinterface_method(self, class: u32, wanted: &Wanted<'_>) -> Option<(u32, u16)>
        requires { holds_class self.rows.now class ≡ true }
        ensures { option_map place_view result
            ≡ method_in self.entry.index.now (wanted_view wanted.now)
            (superinterfaces self.entry.index.now class) }
    {
        first_method(self.index, wanted, self.superinterfaces_of(class))
    }

    /// The method of an interface's superinterfaces, or of java/lang/Object.
    #[tactic(auto, using(crate::proofs::Walked::first_of_both))]
    fn inherited_method(self, class: u32, wanted: &Wanted<'_>) -> Option<(u32, u16)>
        requires { holds_class self.rows.now class ≡ true }
        ensures { option_map place_view result
            ≡ method_in self.entry.index.now (wanted_view wanted.now)
            (inherited_order self.entry.index.now class) }
    {
        match self.superinterface_method(class, wanted) {
            Some(found) => Some(found),
            None => object_method(self.index, wanted),
        }
    }

    /// The method of an interface, of its superinterfaces, or of java/lang/Object.
    fn sought_above_interface(self, class: u32, wanted: &Wanted<'_>) -> Option<(u32, u16)>
        requires { holds_class self.rows.now class ≡ true }
        ensures { option_map place_view result
            ≡ method_in self.entry.index.now (wanted_view wanted.now)
            (interface_order self.entry.index.now class) }
    {
        match method_at(self.index, wanted, class) {
            Some(position) => Some((class, position)),
            None => self.inherited_method(class, wanted),
        }
    }

    /// The method of a class, of its superclasses, or of its superinterfaces.
    #[tactic(auto, using(crate::proofs::Walked::first_of_both))]
    fn sought_above_class(self, class: u32, wanted: &Wanted<'_>) -> Option<(u32, u16)>
        requires { holds_class self.rows.now class ≡ true }
        ensures { option_map place_view result
            ≡ method_in self.entry.index.now (wanted_view wanted.now)
            (class_order self.entry.index.now class) }
    {
        match self.superclass_method(class, wanted) {
            Some(found) => Some(found),
            None => self.superinterface_method(class, wanted),
        }
    }

    fn sought_method(self, class: u32, wanted: &Wanted<'_>) -> Option<(u32, u16)>
        requires { holds_class self.rows.now class ≡ true }
        ensures { option_map place_view result
            ≡ method_in self.entry.index.now (wanted_view wanted.now)
            (method_order self.entry.index.now class) }
    {
        if self.index.is_interface(class) {
            self.sought_above_interface(class, wanted)
        } else {
            self.sought_above_class(class, wanted)
        }
    }

    /// What a method reference of a class stands for.
    pub fn resolved_method(self, class: u32, interface: bool, wanted: &Wanted<'_>) -> Resolved
        requires { holds_class self.rows.now class ≡ true }
        ensures { result ≡ resolved_of
            (resolved_method self.entry.index.now class interface (wanted_view wanted.now)) }
    {
        if self.index.is_interface(class) != interface {
            return Resolved::Throws(INCOMPATIBLE_CLASS_CHANGE_ERROR);
        }
        match self.sought_method(class, wanted) {
            Some((declaring, position)) => Resolved::Found(declaring, position),
            None => Resolved::Throws(NO_SUCH_METHOD_ERROR),
        }
    }
}
