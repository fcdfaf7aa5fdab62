//! Loading classes (JVM Specification 5.3).

ghost use Rattle.std.specs.Prelude.{◌≡◌, ◌<◌, ◌++◌, ◌∷◌, [], ℕ, false, true, length, map};
ghost use Rattle.std.specs.Prelude.{IfOk, None, OnOk, take};
ghost use Rattle.jvm_model.specs.Classes.Load.{Loading, NoClass, is_among, is_met, load_named, load_of};
ghost use Rattle.jvm_model.specs.Classes.Load.{needs_of};
ghost use Rattle.jvm_model.specs.Classes.Lookup.{interfaces_of, superclass_of};
ghost use Rattle.class_linker.specs.LoadedClasses.{AreKept, AreLoadedClasses, holds_all, holds_class, loaded_class_made};
ghost use Rattle.class_linker.specs.States.{IfFresh, IsLater, IsState, loading_view};
ghost use Rattle.class_linker.specs.States.{HasNeeds, as_standing, class_loading, fault_view};
ghost use Rattle.class_linker.specs.States.{named_loading, need_view, path_behind};
ghost use Rattle.class_linker.specs.States.{needs_at, needs_in, standing_loading};

use crate::loaded_classes::{LoadedClass, LoadedClasses, holds_class};
use class_index::{Element, Index, Order, is_array_name, meaning_of};
use const_pool::ClassFile;
use jf_bytes::{NoMemory, Seq, Text16};
use std::alloc::Global;

/// What stops loading: a name that is no class of the program, a class that is its own supertype, and a superclass that
/// is an interface or a superinterface that is none.
#[derive(Drop)]
pub enum Fault {
    NoClass(Text16),
    Circular,
    Incompatible,
}

/// A name that has to be loaded before a class, and whether an interface has to have it.
#[derive(Clone, Copy)]
pub struct Need<'a> {
    pub name: &'a [u16],
    pub interface: bool,
}

/// How the class of a name stands: there is nothing more to do, or the class is to be loaded.
#[derive(Drop)]
pub enum Standing {
    Ended(Option<Fault>),
    Fresh(u32),
}

/// A class that is being loaded, with what it needs.
#[derive(Drop)]
pub struct Opened<'a> {
    pub class: u32,
    pub needs: Seq<Need<'a>>,
}

/// The same, where a class that is to be loaded is being loaded now.
#[derive(Drop)]
pub enum Begun<'a> {
    Ended(Option<Fault>),
    Class(Opened<'a>),
}

/// The rows of the classes, and which are loaded, in order. A row may stay when its class could not be loaded after
/// all.
#[derive(Drop)]
pub struct LinkerState {
    pub rows: Seq<Option<LoadedClass>>,
    pub loaded: Order,
}

// ---- what a class needs

/// Whether the name is one of a class of the asked kind.
// Not inlined, so that a level of the recursion of a load takes little of the stack.
#[inline(never)]
fn is_met(index: &Index, need: &Need<'_>) -> bool
    ensures { result ≡ is_met index.now (need_view need.now) }
{
    if is_array_name(need.name) {
        return false;
    }
    match index.class_named(need.name) {
        Some(class) => index.is_interface(class) == need.interface,
        None => false,
    }
}

/// Adds what an entry of a class file's pool names.
fn add_need<'a>(
    needs: &mut Seq<Need<'a>>,
    file: &'a ClassFile,
    entry: u16,
    interface: bool,
) -> Result<(), NoMemory>
    ensures { OnOk result (map need_view needs.new
        ≡ map need_view needs.old ++ needs_at file.now interface entry) }
{
    if let Ok(name) = file.pool.class_name(entry) {
        needs.push(Need {
            name: name.units(),
            interface,
        })?;
    }
    Ok(())
}

/// What a class file needs: its superclass, then its superinterfaces.
fn class_needs(alloc: Global, file: &ClassFile) -> Result<Seq<Need<'_>>, NoMemory>
    ensures { IfOk result (λ needs. map need_view needs ≡ needs_in file.now) }
{
    let mut needs = Seq::new(alloc);
    add_need(&mut needs, file, file.super_class, false)?;
    for entry in file.interfaces.as_slice() {
        add_need(&mut needs, file, *entry, true)?;
    }
    Ok(needs)
}

#[tactic(auto, using(crate::proofs::LoadLemmas::needs_are))]
fn needs_of(alloc: Global, index: &Index, class: u32) -> Result<Seq<Need<'_>>, NoMemory>
    ensures { IfOk result (λ needs. map need_view needs ≡ needs_of index.now class) }
{
    match index.file(class) {
        Some(file) => class_needs(alloc, file),
        None => Ok(Seq::new(alloc)),
    }
}

// ---- a class that is loaded

/// Puts the row of a class in its place.
#[tactic(auto, using(crate::proofs::LoadedClassLemmas::put_loaded_classes, crate::proofs::LoadedClassLemmas::put_kept, crate::proofs::LoadedClassLemmas::put_there))]
fn put_loaded_class(
    index: &Index,
    rows: &mut Seq<Option<LoadedClass>>,
    class: u32,
    row: LoadedClass,
)
    requires rows { AreLoadedClasses index.now rows.old }
    requires within { class < length rows.old }
    requires none { holds_class rows.old class ≡ false }
    requires interfaces { holds_all rows.old (interfaces_of index.now class) ≡ true }
    requires above { holds_all rows.old (superclass_of index.now class) ≡ true }
    requires made { row ≡ loaded_class_made index.now rows.old class }
    ensures rows { AreLoadedClasses index.now rows.new }
    ensures kept { AreKept rows.old rows.new }
    ensures there { holds_class rows.new class ≡ true }
{
    rows.set(class as usize, Some(row));
}

/// Makes the row of a class, where there is none yet.
fn prepare(
    alloc: Global,
    index: &Index,
    rows: &mut Seq<Option<LoadedClass>>,
    class: u32,
) -> Result<(), NoMemory>
    requires rows { AreLoadedClasses index.now rows.old }
    requires within { class < length rows.old }
    requires interfaces { holds_all rows.old (interfaces_of index.now class) ≡ true }
    requires above { holds_all rows.old (superclass_of index.now class) ≡ true }
    ensures rows { AreLoadedClasses index.now rows.new }
    ensures kept { AreKept rows.old rows.new }
    ensures there { OnOk result (holds_class rows.new class ≡ true) }
{
    if !holds_class(rows.as_slice(), class) {
        let classes = LoadedClasses {
            index,
            rows: rows.as_slice(),
        };
        let row = classes.loaded_class_made(alloc, class)?;
        put_loaded_class(index, rows, class, row);
    }
    Ok(())
}

/// Notes a class as loaded.
fn finish(alloc: Global, index: &Index, state: &mut LinkerState, class: u32) -> Result<(), NoMemory>
    requires state { IsState index.now state.old }
    requires within { class < length state.old.rows }
    requires fresh { is_among class state.old.loaded ≡ false }
    requires interfaces { holds_all state.old.rows (interfaces_of index.now class) ≡ true }
    requires above { holds_all state.old.rows (superclass_of index.now class) ≡ true }
    ensures state { IsState index.now state.new }
    ensures later { IsLater state.old state.new }
    ensures loaded { OnOk result (state.new.loaded ≡ state.old.loaded ++ class ∷ []) }
{
    prepare(alloc, index, &mut state.rows, class)?;
    state.loaded.add(class)
}

// ---- loading

/// A name that is no class of the program.
fn no_class(alloc: Global, name: &[u16]) -> Result<Fault, NoMemory>
    ensures { IfOk result (λ fault. fault_view fault ≡ NoClass name.now) }
{
    Ok(Fault::NoClass(Text16::new(Vec::from_slice(alloc, name)?)))
}

/// How the class of this name stands.
fn look_up_class(
    alloc: Global,
    index: &Index,
    loaded: &Order,
    path: &Order,
    name: &[u16],
) -> Result<Standing, NoMemory>
    ensures fresh { IfOk result (IfFresh index.now path.now loaded.now) }
    ensures loading { IfOk result (λ s. (fresh : ℕ → Loading)
        → standing_loading s loaded.now fresh
        ≡ class_loading index.now path.now name.now loaded.now fresh) }
{
    let Some(class) = index.class_named(name) else {
        return Ok(Standing::Ended(Some(no_class(alloc, name)?)));
    };
    if loaded.has(class) {
        Ok(Standing::Ended(None))
    } else if path.has(class) {
        Ok(Standing::Ended(Some(Fault::Circular)))
    } else {
        Ok(Standing::Fresh(class))
    }
}

/// How a name stands: an array's is that of its element.
fn look_up(
    alloc: Global,
    index: &Index,
    loaded: &Order,
    path: &Order,
    name: &[u16],
) -> Result<Standing, NoMemory>
    ensures fresh { IfOk result (IfFresh index.now path.now loaded.now) }
    ensures loading { IfOk result (λ s. (fresh : ℕ → Loading)
        → standing_loading s loaded.now fresh
        ≡ named_loading index.now path.now name.now loaded.now fresh) }
{
    match meaning_of(name).element {
        Element::Primitive(_) => Ok(Standing::Ended(None)),
        Element::Named(class_name) => look_up_class(alloc, index, loaded, path, class_name),
    }
}

/// Puts a class on the path.
fn open<'a>(
    alloc: Global,
    index: &'a Index,
    path: &mut Order,
    class: u32,
) -> Result<Opened<'a>, NoMemory>
    requires { is_among class path.old ≡ false }
    ensures class { IfOk result (λ o. o.class ≡ class) }
    ensures needs { IfOk result (λ o. map need_view o.needs ≡ needs_of index.now class) }
    ensures path { OnOk result (path.new ≡ path.old ++ class ∷ []) }
{
    let needs = needs_of(alloc, index, class)?;
    path.add(class)?;
    Ok(Opened { class, needs })
}

/// Looks at how a name stands, and puts its class on the path where it is to be loaded.
// Not inlined, so that a level of the recursion of a load takes little of the stack.
#[inline(never)]
fn begin<'a>(
    alloc: Global,
    index: &'a Index,
    loaded: &Order,
    path: &mut Order,
    name: &[u16],
) -> Result<Begun<'a>, NoMemory>
    ensures fresh { IfOk result (λ b. IfFresh index.now path.old loaded.now (as_standing b)) }
    ensures loading { IfOk result (λ b. (fresh : ℕ → Loading)
        → standing_loading (as_standing b) loaded.now fresh
        ≡ named_loading index.now path.old name.now loaded.now fresh) }
    ensures needs { IfOk result (HasNeeds index.now) }
    ensures path { IfOk result (λ b. path.new ≡ path_behind path.old b) }
{
    match look_up(alloc, index, loaded, path, name)? {
        Standing::Ended(fault) => Ok(Begun::Ended(fault)),
        Standing::Fresh(class) => Ok(Begun::Class(open(alloc, index, path, class)?)),
    }
}

/// Takes a class off the path and notes it as loaded.
// Not inlined, so that a level of the recursion of a load takes little of the stack.
#[inline(never)]
fn close(
    alloc: Global,
    index: &Index,
    state: &mut LinkerState,
    path: &mut Order,
    before: usize,
    class: u32,
) -> Result<(), NoMemory>
    requires state { IsState index.now state.old }
    requires within { class < length state.old.rows }
    requires fresh { is_among class state.old.loaded ≡ false }
    requires interfaces { holds_all state.old.rows (interfaces_of index.now class) ≡ true }
    requires above { holds_all state.old.rows (superclass_of index.now class) ≡ true }
    ensures state { IsState index.now state.new }
    ensures later { IsLater state.old state.new }
    ensures loaded { OnOk result (state.new.loaded ≡ state.old.loaded ++ class ∷ []) }
    ensures path { path.new ≡ take before path.old }
{
    path.truncate(before);
    finish(alloc, index, state, class)
}

/// Loads what a name stands for, with the classes of the path being loaded. The depth bounds the path.
fn load_named(
    alloc: Global,
    index: &Index,
    state: &mut LinkerState,
    path: &mut Order,
    depth: u32,
    name: &[u16],
) -> Result<Option<Fault>, NoMemory>
    requires { IsState index.now state.old }
    ensures state { IsState index.now state.new }
    ensures later { IsLater state.old state.new }
    ensures path { IfOk result (λ fault. fault ≡ None → path.new ≡ path.old) }
    ensures loading { IfOk result (λ fault. loading_view state.new.loaded fault
        ≡ load_named index.now depth path.old name.now state.old.loaded) }
{
    if depth == 0 {
        return Ok(Some(Fault::Circular));
    }
    let before = path.len();
    let opened = match begin(alloc, index, &state.loaded, path, name)? {
        Begun::Ended(fault) => return Ok(fault),
        Begun::Class(opened) => opened,
    };
    let Opened { class, needs } = opened;
    for need in needs.as_slice() {
        if let Some(fault) = load_named(alloc, index, state, path, depth - 1, need.name)? {
            return Ok(Some(fault));
        }
        if !is_met(index, need) {
            return Ok(Some(Fault::Incompatible));
        }
    }
    close(alloc, index, state, path, before, class)?;
    Ok(None)
}

/// Loads what a name stands for.
pub fn load_all(
    alloc: Global,
    index: &Index,
    state: &mut LinkerState,
    name: &[u16],
) -> Result<Option<Fault>, NoMemory>
    requires { IsState index.now state.old }
    ensures state { IsState index.now state.new }
    ensures later { IsLater state.old state.new }
    ensures loading { IfOk result (λ fault. loading_view state.new.loaded fault
        ≡ load_of index.now state.old.loaded name.now) }
{
    let mut path = Order::new(alloc);
    let depth = index.program().classes.len() as u32 + 1;
    load_named(alloc, index, state, &mut path, depth, name)
}
