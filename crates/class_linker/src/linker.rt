//! The linker.

ghost use Rattle.std.specs.Prelude.{◌≡◌, ◌↔◌, ℕ, None, flat_map, length, replicate, true, IfOk, IsTrue};
ghost use Rattle.std.specs.Option.{option_map};
ghost use Rattle.const_pool.specs.References.{name_type_of};
ghost use Rattle.jvm_model.specs.Classes.Kinds.{is_subkind};
ghost use Rattle.jvm_model.specs.Classes.Layouts.{layout};
ghost use Rattle.jvm_model.specs.Classes.Load.{is_among};
ghost use Rattle.jvm_model.specs.Classes.Lookup.{is_subtype, place_in, resolved_field, resolved_method};
ghost use Rattle.jvm_model.specs.Classes.Lookup.{superclass_of, superclasses};
ghost use Rattle.jvm_model.specs.Classes.Selection.{Overrides, is_abstract, is_static, overrides};
ghost use Rattle.jvm_model.specs.Classes.Selection.{method_selected};
ghost use Rattle.class_index.specs.Indices.{IsLinkable};
ghost use Rattle.class_index.specs.Members.{place_view};
ghost use Rattle.class_linker.specs.Linkers.{IsAnswer, IsKnown, IsLoaded, linker_of, load_answer};
ghost use Rattle.class_linker.specs.Linkers.{loaded_by, parts_of, resolved_of};
ghost use Rattle.class_linker.specs.States.{HaveLoadedClasses};
ghost use Rattle.jvm_model.specs.Classes.SuperCalls.{invoked_special};

use crate::answers::{Loaded, Resolved};
use crate::declared_method::DeclaredMethod;
use crate::loaded_classes::{LoadedClass, LoadedClasses};
use crate::loading::LinkerState;
use crate::overriding::{is_abstract, is_static};
use crate::telling::answer;
use class_index::{Index, Order, Wanted};
use const_pool::Kind;
use jf_bytes::{NoMemory, Seq, Text16};
use jvm_model::Program;
use std::alloc::Global;
use std::marker::Model;
use std::rc::Rc;

/// A program's classes, and which of them are loaded, in order. A clause sees these two. Classes are named by their
/// positions, for an array by that of java/lang/Object. No call but `new`, `over` and `load` takes memory.
#[derive(Drop)]
pub struct Linker {
    alloc: Global,
    index: Rc<Index>,
    state: LinkerState,
}

impl Model for Linker {
    ghost use Rattle.class_linker.specs.Linkers.{LinkerView};
    ghost use Rattle.class_linker.specs.States.{IsState};

    ghost Value = { LinkerView };

    ghost view = { λ l. record { program = l.index.value; loaded = l.state.loaded } };

    ghost invariant = { λ l. IsState l.index.value l.state };
}

/// A place for the row of each of so many classes.
fn no_loaded_classes(alloc: Global, count: usize) -> Result<Seq<Option<LoadedClass>>, NoMemory>
    ensures { IfOk result (λ rows. rows ≡ replicate count None) }
{
    let mut rows = Seq::with_capacity(alloc, count)?;
    for _ in 0..count {
        rows.push(None)?;
    }
    Ok(rows)
}

impl Linker {
    /// A linker for the program, with no class loaded.
    pub fn new(alloc: Global, program: Program) -> Result<Linker, NoMemory>
        requires { IsLinkable program }
        ensures { IfOk result (λ l. l ≡ linker_of program) }
    {
        let index = Index::new(alloc, program)?;
        Linker::over(alloc, Rc::new(alloc, index)?)
    }

    /// The same over an index that others keep too.
    pub fn over(alloc: Global, index: Rc<Index>) -> Result<Linker, NoMemory>
        ensures { IfOk result (λ l. l ≡ linker_of index.value) }
    {
        let rows = no_loaded_classes(alloc, index.as_ref().program().classes.len())?;
        Ok(Linker {
            alloc,
            index,
            state: LinkerState {
                rows,
                loaded: Order::new(alloc),
            },
        })
    }

    /// The program, with the built-in classes behind its own.
    pub fn program(&self) -> &Program
        ensures { result.now ≡ self.now.program }
    {
        self.index.as_ref().program()
    }

    /// The program with its tables, by which names are found.
    pub fn index(&self) -> &Index
        ensures { result.now ≡ self.now.program }
    {
        self.index.as_ref()
    }

    /// The loaded classes, in order.
    pub fn loaded(&self) -> &[u32]
        ensures { result.now ≡ self.now.loaded }
    {
        self.state.loaded.as_slice()
    }

    /// Whether a class is loaded. It takes the same time however many are.
    pub fn is_loaded(&self, class: u32) -> bool
        ensures { result ≡ is_among class self.now.loaded }
    {
        self.state.loaded.has(class)
    }

    /// Loads the class of this name with what it needs (5.3), or the class of an array's elements. After `NoMemory`
    /// nothing is loaded that was not.
    pub fn load(&mut self, name: &Text16) -> Loaded
        ensures answer { IsAnswer result (load_answer self.old name.now) }
        ensures loaded { self.new ≡ loaded_by result name.now self.old }
    {
        let before = self.state.loaded.len();
        match answer(
            self.alloc,
            self.index.as_ref(),
            &mut self.state,
            name.units(),
        ) {
            Ok(loaded) => loaded,
            Err(NoMemory) => {
                self.state.loaded.truncate(before);
                Loaded::NoMemory
            }
        }
    }

    /// The program's loaded classes, with their rows.
    fn classes(&self) -> LoadedClasses<'_>
        ensures program { result.index.now ≡ self.now.program }
        ensures loaded { HaveLoadedClasses result.rows.now self.now.loaded }
    {
        LoadedClasses {
            index: self.index.as_ref(),
            rows: self.state.rows.as_slice(),
        }
    }

    /// Whether what has one kind also has another (4.10.1). What the first kind is of has to be loaded.
    pub fn subtype(&self, lower: u32, upper: u32) -> bool
        requires { IsKnown self.now lower }
        ensures { result ≡ is_subkind self.now.program (parts_of lower) (parts_of upper) }
    {
        self.classes().is_subkind(lower, upper)
    }

    /// Whether a class is the other one, or inherits from it.
    pub fn extends(&self, lower: u32, upper: u32) -> bool
        requires { IsLoaded self.now lower }
        ensures { result ≡ is_among upper (superclasses self.now.program lower) }
    {
        self.classes().is_superclass(lower, upper)
    }

    /// Whether a class is the other one, or inherits from it, or implements it.
    pub fn is_subtype(&self, lower: u32, upper: u32) -> bool
        requires { IsLoaded self.now lower }
        ensures { result ≡ is_subtype self.now.program lower upper }
    {
        self.classes().is_subtype(lower, upper)
    }

    /// The class and all that it inherits from or implements, each once.
    pub fn supertypes(&self, class: u32) -> &[u32]
        requires { IsLoaded self.now class }
        ensures { (upper : ℕ) →
            is_among upper result.now ≡ is_subtype self.now.program class upper }
    {
        self.classes().each_supertype(class)
    }

    /// The field that a reference stands for (5.4.3.2).
    pub fn resolve_field(&self, class: u32, name: &Text16, descriptor: &Text16) -> Resolved
        requires { IsLoaded self.now class }
        ensures { result ≡ resolved_of
            (resolved_field self.now.program class (name_type_of name.now descriptor.now)) }
    {
        let wanted = Wanted { name, descriptor };
        self.classes().resolved_field(class, &wanted)
    }

    /// The method that a reference stands for (5.4.3.3), or an interface method's (5.4.3.4).
    pub fn resolve_method(
        &self,
        class: u32,
        interface: bool,
        name: &Text16,
        descriptor: &Text16,
    ) -> Resolved
        requires { IsLoaded self.now class }
        ensures { result ≡ resolved_of
            (resolved_method self.now.program class interface
            (name_type_of name.now descriptor.now)) }
    {
        let wanted = Wanted { name, descriptor };
        self.classes().resolved_method(class, interface, &wanted)
    }

    /// The method that an object of the receiver's class has for a method of a class: by class and position. With
    /// `interface` it is the nearest instance method of the same name and descriptor, as invokeinterface takes it; else
    /// the nearest one that is the method or overrides it, as invokevirtual takes it. None where there is none or it is
    /// abstract. It looks into each superclass of the receiver once, and goes through supertypes once at most.
    pub fn select(
        &self,
        receiver: u32,
        class: u32,
        position: u16,
        interface: bool,
    ) -> Option<(u32, u16)>
        requires { IsLoaded self.now receiver }
        ensures { option_map place_view result
            ≡ method_selected self.now.program receiver interface (place_in class position) }
    {
        let m = DeclaredMethod { class, position };
        let found = self.classes().method_selected(receiver, interface, m)?;
        Some((found.class, found.position))
    }

    /// The method that invokespecial in a method of the caller invokes for a resolved one; methods are named by class
    /// and position. A method that a proper superclass of the caller declares and that is no instance initialization
    /// method is sought again, by its name and descriptor alone, among instance methods from the caller's direct
    /// superclass upwards. Every other one is taken as it is. None where there is none or it is abstract. ACC_SUPER is
    /// taken as set.
    pub fn special(&self, caller: u32, class: u32, position: u16) -> Option<(u32, u16)>
        requires { IsLoaded self.now caller }
        ensures { option_map place_view result
            ≡ invoked_special self.now.program caller (place_in class position) }
    {
        let m = DeclaredMethod { class, position };
        let found = self.classes().invoked_special(caller, m)?;
        Some((found.class, found.position))
    }

    /// Whether the method at a position of a class is static (4.6).
    pub fn is_static(&self, class: u32, position: u16) -> bool
        ensures { result ≡ is_static self.now.program (place_in class position) }
    {
        is_static(self.index.as_ref(), DeclaredMethod { class, position })
    }

    /// Whether the method at a position of a class is abstract (4.6).
    pub fn is_abstract(&self, class: u32, position: u16) -> bool
        ensures { result ≡ is_abstract self.now.program (place_in class position) }
    {
        is_abstract(self.index.as_ref(), DeclaredMethod { class, position })
    }

    /// Whether a method of a loaded class overrides another (5.4.5); methods are named by class and position.
    pub fn overrides(&self, class: u32, position: u16, above: u32, above_position: u16) -> bool
        requires { IsLoaded self.now class }
        ensures test { result ≡ overrides self.now.program (place_in class position)
            (place_in above above_position) }
        ensures relation { IsTrue result ↔ Overrides self.now.program (place_in class position)
            (place_in above above_position) }
    {
        let m1 = DeclaredMethod { class, position };
        let m2 = DeclaredMethod {
            class: above,
            position: above_position,
        };
        self.classes().overrides(m1, m2)
    }

    /// How many slots of its objects the fields of a class's superclasses take, where a loaded class is the class or
    /// inherits from it.
    pub fn slots_above(&self, lower: u32, class: u32) -> usize
        requires loaded { IsLoaded self.now lower }
        requires extends { is_among class (superclasses self.now.program lower) ≡ true }
        ensures { result ≡ length
            (flat_map (layout self.now.program) (superclass_of self.now.program class)) }
    {
        self.classes().slots_above(lower, class)
    }

    /// The kinds of the instance fields of the class's objects, those of its superclass first.
    pub fn layout(&self, class: u32) -> &[Kind]
        requires { IsLoaded self.now class }
        ensures { result.now ≡ layout self.now.program class }
    {
        self.classes().layout_of(class)
    }
}
