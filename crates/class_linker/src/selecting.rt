//! Which method an object's class has for a resolved one (JVM Specification chapter 6, invokevirtual and
//! invokeinterface).

ghost use Rattle.std.specs.Prelude.{◌≡◌, false, true};
ghost use Rattle.std.specs.Option.{option_map};
ghost use Rattle.jvm_model.specs.Classes.Lookup.{first_in};
ghost use Rattle.jvm_model.specs.Classes.Selection.{candidate, fits, nearest, overrides, same_member};
ghost use Rattle.jvm_model.specs.Classes.Selection.{method_selected};
ghost use Rattle.class_linker.specs.Passing.{IsChain, IsUnpassed};
ghost use Rattle.class_linker.specs.DeclaredMethods.{at_place};
ghost use Rattle.class_linker.specs.LoadedClasses.{holds_all, holds_class};

use crate::declared_method::DeclaredMethod;
use crate::loaded_classes::LoadedClasses;
use crate::overriding::{is_abstract, is_reached, is_static, signature_of};
use class_index::method_at;

fn same_member(a: DeclaredMethod, b: DeclaredMethod) -> bool
    ensures { result ≡ same_member (at_place a) (at_place b) }
{
    a.class == b.class && a.position == b.position
}

impl LoadedClasses<'_> {
    /// Whether the first method overrides the second. That some method passes the second on is asked while it is not
    /// known that none does.
    fn overrides_while(self, own: DeclaredMethod, m: DeclaredMethod, passing: &mut bool) -> bool
        requires has { holds_class self.rows.now own.class ≡ true }
        requires known { passing.old ≡ false
            → IsUnpassed self.index.now (at_place m) own.class }
        ensures test { result ≡ overrides self.entry.index.now (at_place own) (at_place m) }
        ensures known { passing.new ≡ false
            → IsUnpassed self.entry.index.now (at_place m) own.class }
    {
        if !self.stands_below(own, m) {
            return false;
        }
        if is_reached(self.index, own.class, m) {
            return true;
        }
        if *passing {
            *passing = self.is_passed(own, m);
        }
        *passing
    }

    /// Whether a class may have the method for the resolved one.
    fn fits(
        self,
        interface: bool,
        m: DeclaredMethod,
        own: DeclaredMethod,
        passing: &mut bool,
    ) -> bool
        requires has { holds_class self.rows.now own.class ≡ true }
        requires known { passing.old ≡ false
            → IsUnpassed self.index.now (at_place m) own.class }
        ensures test { result
            ≡ fits self.entry.index.now interface (at_place m) (at_place own) }
        ensures known { passing.new ≡ false
            → IsUnpassed self.entry.index.now (at_place m) own.class }
    {
        if is_static(self.index, own) {
            return false;
        }
        if interface || same_member(own, m) {
            return true;
        }
        self.overrides_while(own, m, passing)
    }

    /// What the class has for the resolved method.
    fn candidate(
        self,
        interface: bool,
        m: DeclaredMethod,
        class: u32,
        passing: &mut bool,
    ) -> Option<u16>
        requires has { holds_class self.rows.now class ≡ true }
        requires known { passing.old ≡ false → IsUnpassed self.index.now (at_place m) class }
        ensures found { result ≡ candidate self.entry.index.now interface (at_place m) class }
        ensures known { passing.new ≡ false
            → IsUnpassed self.entry.index.now (at_place m) class }
    {
        let wanted = signature_of(self.index, m)?;
        let position = method_at(self.index, &wanted, class)?;
        if self.fits(interface, m, DeclaredMethod { class, position }, passing) {
            Some(position)
        } else {
            None
        }
    }

    /// The first that one of the classes has. Where nothing passes the method on to a class, nothing does to those
    /// behind it.
    fn first_candidate(
        self,
        interface: bool,
        m: DeclaredMethod,
        classes: &[u32],
    ) -> Option<DeclaredMethod>
        requires have { holds_all self.rows.now classes.now ≡ true }
        requires chain { IsChain self.index.now classes.now }
        ensures { option_map at_place result
            ≡ first_in (candidate self.entry.index.now interface (at_place m)) classes.now }
    {
        let mut passing = true;
        for class in classes {
            if let Some(position) = self.candidate(interface, m, *class, &mut passing) {
                return Some(DeclaredMethod {
                    class: *class,
                    position,
                });
            }
        }
        None
    }

    /// The nearest one from the class upwards.
    pub fn nearest(
        self,
        receiver: u32,
        interface: bool,
        m: DeclaredMethod,
    ) -> Option<DeclaredMethod>
        requires { holds_class self.rows.now receiver ≡ true }
        ensures { option_map at_place result
            ≡ nearest self.entry.index.now receiver interface (at_place m) }
    {
        self.first_candidate(interface, m, self.superclasses_of(receiver))
    }

    /// The method that is invoked for the resolved one.
    pub fn method_selected(
        self,
        receiver: u32,
        interface: bool,
        m: DeclaredMethod,
    ) -> Option<DeclaredMethod>
        requires { holds_class self.rows.now receiver ≡ true }
        ensures { option_map at_place result
            ≡ method_selected self.entry.index.now receiver interface (at_place m) }
    {
        let found = self.nearest(receiver, interface, m)?;
        if is_abstract(self.index, found) {
            None
        } else {
            Some(found)
        }
    }
}
