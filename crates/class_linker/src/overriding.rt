//! Which methods override which (JVM Specification 5.4.5).

ghost use Rattle.std.specs.Prelude.{◌≡◌, ◌↔◌, [], true, unwrap_or, IsTrue};
ghost use Rattle.std.specs.List.{list_any};
ghost use Rattle.std.specs.Option.{option_map};
ghost use Rattle.jvm_model.specs.Classes.Lookup.{method_at, supertypes};
ghost use Rattle.jvm_model.specs.Basis.Programs.{name_at};
ghost use Rattle.jvm_model.specs.Classes.Selection.{Overrides, access_of, is_abstract, is_open, is_private};
ghost use Rattle.jvm_model.specs.Classes.Selection.{is_reached, is_static, overrides, passed_at};
ghost use Rattle.jvm_model.specs.Classes.Selection.{passes_on, same_package, signature_of, stands_below};
ghost use Rattle.class_index.specs.Members.{is_declared_as, wanted_view};
ghost use Rattle.class_linker.specs.DeclaredMethods.{at_place};
ghost use Rattle.class_linker.specs.LoadedClasses.{holds_all, holds_class};

use crate::declared_method::DeclaredMethod;
use crate::loaded_classes::LoadedClasses;
use base_classes::{ABSTRACT, PRIVATE, PROTECTED, PUBLIC, STATIC};
use class_index::{Index, Wanted, in_same_package, method_at};
use jvm_model::has_flag;

// ---- a method

/// Its flags.
fn access_of(index: &Index, m: DeclaredMethod) -> u16
    ensures { result ≡ access_of index.now (at_place m) }
{
    match index.file(m.class) {
        Some(file) => match file.methods.get(m.position as usize) {
            Some(method) => method.access,
            None => 0,
        },
        None => 0,
    }
}

fn is_private(index: &Index, m: DeclaredMethod) -> bool
    ensures { result ≡ is_private index.now (at_place m) }
{
    has_flag(access_of(index, m), PRIVATE)
}

pub fn is_static(index: &Index, m: DeclaredMethod) -> bool
    ensures { result ≡ is_static index.now (at_place m) }
{
    has_flag(access_of(index, m), STATIC)
}

pub fn is_abstract(index: &Index, m: DeclaredMethod) -> bool
    ensures { result ≡ is_abstract index.now (at_place m) }
{
    has_flag(access_of(index, m), ABSTRACT)
}

/// Whether it is public or protected.
fn is_open(index: &Index, m: DeclaredMethod) -> bool
    ensures { result ≡ is_open index.now (at_place m) }
{
    let access = access_of(index, m);
    has_flag(access, PUBLIC) || has_flag(access, PROTECTED)
}

/// Its name and descriptor.
pub fn signature_of(index: &Index, m: DeclaredMethod) -> Option<Wanted<'_>>
    ensures { option_map wanted_view result ≡ signature_of index.now (at_place m) }
{
    let file = index.file(m.class)?;
    let method = file.methods.get(m.position as usize)?;
    let Ok(name) = file.pool.text(method.name) else {
        return None;
    };
    let Ok(descriptor) = file.pool.text(method.descriptor) else {
        return None;
    };
    Some(Wanted { name, descriptor })
}

// ---- packages

fn name_units(index: &Index, class: u32) -> &[u16]
    ensures { result.now ≡ unwrap_or (name_at index.now class) [] }
{
    match index.file(class) {
        Some(file) => match file.pool.class_name(file.this_class) {
            Ok(name) => name.units(),
            Err(_) => &[],
        },
        None => &[],
    }
}

fn same_package(index: &Index, a: u32, b: u32) -> bool
    ensures { result ≡ same_package index.now a b }
{
    in_same_package(name_units(index, a), name_units(index, b))
}

// ---- overriding

/// Whether the class of the first method has, for the second one's name and descriptor, that method.
fn is_declared_as(index: &Index, m1: DeclaredMethod, m2: DeclaredMethod) -> bool
    ensures { result ≡ is_declared_as index.now (at_place m1) (at_place m2) }
{
    match signature_of(index, m2) {
        Some(wanted) => match method_at(index, &wanted, m1.class) {
            Some(at) => at == m1.position,
            None => false,
        },
        None => false,
    }
}

/// Whether the method can be overridden from the class itself.
pub fn is_reached(index: &Index, class: u32, m: DeclaredMethod) -> bool
    ensures { result ≡ is_reached index.now class (at_place m) }
{
    !is_private(index, m) && (is_open(index, m) || same_package(index, class, m.class))
}

impl LoadedClasses<'_> {
    /// Whether the class of the first method is a proper subtype of the second one's, with the same name and
    /// descriptor.
    pub fn stands_below(self, m1: DeclaredMethod, m2: DeclaredMethod) -> bool
        requires { holds_class self.rows.now m1.class ≡ true }
        ensures { result ≡ stands_below self.entry.index.now (at_place m1) (at_place m2) }
    {
        m1.class != m2.class
            && self.is_subtype(m1.class, m2.class)
            && is_declared_as(self.index, m1, m2)
    }

    /// Whether the third method, between the two, makes the first one override the second.
    fn passes_on(self, m1: DeclaredMethod, m2: DeclaredMethod, m3: DeclaredMethod) -> bool
        requires first { holds_class self.rows.now m1.class ≡ true }
        requires third { holds_class self.rows.now m3.class ≡ true }
        ensures { result
            ≡ passes_on self.entry.index.now (at_place m1) (at_place m2) (at_place m3) }
    {
        self.stands_below(m1, m3)
            && self.stands_below(m3, m2)
            && !is_private(self.index, m3)
            && is_open(self.index, m3)
            && is_reached(self.index, m3.class, m2)
    }

    /// Whether such a method is declared in the class.
    fn passed_at(self, m1: DeclaredMethod, m2: DeclaredMethod, class: u32) -> bool
        requires first { holds_class self.rows.now m1.class ≡ true }
        requires has { holds_class self.rows.now class ≡ true }
        ensures { result ≡ passed_at self.entry.index.now (at_place m1) (at_place m2) class }
    {
        match signature_of(self.index, m2) {
            Some(wanted) => match method_at(self.index, &wanted, class) {
                Some(position) => self.passes_on(m1, m2, DeclaredMethod { class, position }),
                None => false,
            },
            None => false,
        }
    }

    /// Whether such a method is declared in one of the classes.
    fn passed_among(self, m1: DeclaredMethod, m2: DeclaredMethod, classes: &[u32]) -> bool
        requires first { holds_class self.rows.now m1.class ≡ true }
        requires have { holds_all self.rows.now classes.now ≡ true }
        ensures { result
            ≡ list_any (passed_at self.entry.index.now (at_place m1) (at_place m2)) classes.now }
    {
        for class in classes {
            if self.passed_at(m1, m2, *class) {
                return true;
            }
        }
        false
    }

    /// Whether such a method is declared above the first one.
    pub fn is_passed(self, m1: DeclaredMethod, m2: DeclaredMethod) -> bool
        requires { holds_class self.rows.now m1.class ≡ true }
        ensures { result ≡ list_any (passed_at self.entry.index.now (at_place m1) (at_place m2))
            (supertypes self.entry.index.now m1.class) }
    {
        self.passed_among(m1, m2, self.supertypes_of(m1.class))
    }

    /// Whether the first method stands below the second, which its class reaches or another method passes on.
    fn passes_test(self, m1: DeclaredMethod, m2: DeclaredMethod) -> bool
        requires { holds_class self.rows.now m1.class ≡ true }
        ensures { result ≡ overrides self.entry.index.now (at_place m1) (at_place m2) }
    {
        self.stands_below(m1, m2)
            && (is_reached(self.index, m1.class, m2) || self.is_passed(m1, m2))
    }

    /// Whether the first method overrides the second.
    pub fn overrides(self, m1: DeclaredMethod, m2: DeclaredMethod) -> bool
        requires { holds_class self.rows.now m1.class ≡ true }
        ensures test { result ≡ overrides self.entry.index.now (at_place m1) (at_place m2) }
        ensures relation { IsTrue result
            ↔ Overrides self.entry.index.now (at_place m1) (at_place m2) }
    {
        self.passes_test(m1, m2)
    }
}
