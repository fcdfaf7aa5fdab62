//! The walks over the supertypes of classes that were loaded.

ghost use Rattle.std.specs.Prelude.{◌≡◌, ℕ, IfSome, flat_map, length, true};
ghost use Rattle.jvm_model.specs.Classes.Layouts.{layout};
ghost use Rattle.jvm_model.specs.Classes.Load.{is_among};
ghost use Rattle.jvm_model.specs.Classes.Lookup.{is_subtype, superclass_of, superclasses};
ghost use Rattle.jvm_model.specs.Classes.Lookup.{superinterfaces, supertypes};
ghost use Rattle.jvm_model.specs.Basis.Programs.{super_of};
ghost use Rattle.class_index.specs.Orders.{IsSearchedAs};
ghost use Rattle.class_linker.specs.Passing.{IsChain};
ghost use Rattle.class_linker.specs.LoadedClasses.{holds_all, holds_class};

use crate::loaded_classes::{
    LoadedClasses, has_supertype, layout_in, superclasses_in, superinterfaces_in, supertypes_in,
};
use const_pool::Kind;

impl<'a> LoadedClasses<'a> {
    /// A class and its superclasses, upwards.
    pub fn superclasses_of(self, class: u32) -> &'a [u32]
        requires { holds_class self.rows.now class ≡ true }
        ensures all { result.now ≡ superclasses self.entry.index.now class }
        ensures rows { holds_all self.entry.rows.now result.now ≡ true }
        ensures chain { IsChain self.entry.index.now result.now }
    {
        superclasses_in(self.rows, class)
    }

    /// A class's direct superclass.
    #[tactic(auto, using(crate::proofs::Chains::super_has))]
    pub fn superclass_of(self, class: u32) -> Option<u32>
        requires { holds_class self.rows.now class ≡ true }
        ensures above { result ≡ super_of self.entry.index.now class }
        ensures has { IfSome result (λ above. holds_class self.entry.rows.now above ≡ true) }
    {
        self.index.super_of(class)
    }

    /// Whether a class is the other one or inherits from it.
    pub fn is_superclass(self, lower: u32, upper: u32) -> bool
        requires { holds_class self.rows.now lower ≡ true }
        ensures { result ≡ is_among upper (superclasses self.entry.index.now lower) }
    {
        self.superclasses_of(lower).contains(&upper)
    }

    /// The superinterfaces of a class, as they are searched.
    pub fn superinterfaces_of(self, class: u32) -> &'a [u32]
        requires { holds_class self.rows.now class ≡ true }
        ensures { IsSearchedAs result.now (superinterfaces self.entry.index.now class) }
    {
        superinterfaces_in(self.rows, class)
    }

    /// All supertypes of a class, as they are searched.
    pub fn supertypes_of(self, class: u32) -> &'a [u32]
        requires { holds_class self.rows.now class ≡ true }
        ensures searched { IsSearchedAs result.now (supertypes self.entry.index.now class) }
        ensures rows { holds_all self.entry.rows.now result.now ≡ true }
    {
        supertypes_in(self.rows, class)
    }

    /// A class and all that it inherits from or implements, each once.
    pub fn each_supertype(self, class: u32) -> &'a [u32]
        requires { holds_class self.rows.now class ≡ true }
        ensures { (upper : ℕ) →
            is_among upper result.now ≡ is_subtype self.entry.index.now class upper }
    {
        supertypes_in(self.rows, class)
    }

    /// The kinds of the slots of a class's objects.
    pub fn layout_of(self, class: u32) -> &'a [Kind]
        requires { holds_class self.rows.now class ≡ true }
        ensures { result.now ≡ layout self.entry.index.now class }
    {
        layout_in(self.rows, class)
    }

    /// How many slots of a class's objects the fields of its superclasses take.
    #[tactic(auto, using(crate::proofs::Inherited::layout_one))]
    fn slots_of_superclass(self, class: u32) -> usize
        requires { holds_class self.rows.now class ≡ true }
        ensures { result ≡ length
            (flat_map (layout self.entry.index.now) (superclass_of self.entry.index.now class)) }
    {
        match self.superclass_of(class) {
            Some(above) => self.layout_of(above).len(),
            None => 0,
        }
    }

    /// The same, of a class that the lower one is or inherits from.
    #[tactic(auto, using(crate::proofs::Inherited::superclass_has))]
    pub fn slots_above(self, lower: u32, class: u32) -> usize
        requires has { holds_class self.rows.now lower ≡ true }
        requires extends { is_among class (superclasses self.index.now lower) ≡ true }
        ensures { result ≡ length
            (flat_map (layout self.entry.index.now) (superclass_of self.entry.index.now class)) }
    {
        // Read so that it is known that they have rows.
        let _ = self.superclasses_of(lower);
        self.slots_of_superclass(class)
    }

    /// Whether a class is the other one, or inherits from it, or implements it.
    pub fn is_subtype(self, lower: u32, upper: u32) -> bool
        requires { holds_class self.rows.now lower ≡ true }
        ensures { result ≡ is_subtype self.entry.index.now lower upper }
    {
        has_supertype(self.rows, lower, upper)
    }
}
