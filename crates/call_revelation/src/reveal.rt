//! Which methods of a run are marked.

ghost use Rattle.std.specs.Prelude.{◌≡◌, ◌<◌, ◌^◌, [], false, length, not, replicate, IfOk};
ghost use Rattle.std.specs.List.{AllByRecursion};
ghost use Rattle.jvm_model.specs.declared.event.Mark.TheVariants.{Off};
ghost use Rattle.jvm_model.specs.Classes.Load.{is_among};
ghost use Rattle.jvm_model.specs.Profiling.Points.{is_empty};
ghost use Rattle.jvm_model.specs.Basis.Programs.{methods_numbered};
ghost use Rattle.jvm_model.specs.Profiling.Revealed.{mark_of};
ghost use Rattle.jvm_model.specs.Soundness.Sound.{IsFit};
ghost use Rattle.prepared_code.specs.Prepared.{HasShortCodes};
ghost use Rattle.possible_callees.specs.Tables.{list_at};
ghost use Rattle.call_revelation.specs.Flags.{flag_at};
ghost use Rattle.call_revelation.specs.Reveals.{IsRevelation, mark_kept};
ghost use Rattle.call_revelation.specs.Reveals.{nothing_revealed, now_of, owned_from};

use crate::book::Book;
use crate::named::Named;
use crate::selection::SelectedMethods;
use class_index::Order;
use jf_bytes::{NoMemory, Seq, Stack};
use jvm_model::{Mark, MethodPlace, Program};
use member_selection::MethodNumbers;
use possible_callees::{Lineage, add_item, items_repeated, no_lists};
use std::alloc::Global;

/// What is selected, entered and loaded, with what each event needs of it: the numbers of methods, and the methods of
/// each class; the classes below each; the code that was read, and the classes that its calls name; which methods are
/// entered, by a flag; the targets of what is entered; and the marks that were shown last, with the methods whose mark
/// may be another one now. The class of a method is asked of the program.
#[derive(Drop)]
pub struct Reveal {
    pub numbers: MethodNumbers,
    pub own: Vec<Seq<u32>>,
    pub lineage: Lineage,
    pub book: Book,
    pub named: Named,
    pub selected: SelectedMethods,
    pub entered: Stack<u32>,
    pub flags: Seq<bool>,
    pub targets: Order,
    pub stale: Order,
    pub shown: Seq<Mark>,
}

/// The numbers of methods by their classes.
fn methods_by_class(
    alloc: Global,
    methods: &[MethodPlace],
    classes: usize,
) -> Result<Vec<Seq<u32>>, NoMemory>
    requires { length methods.now < 2 ^ 32 }
    ensures { IfOk result (λ own. own.items
        ≡ owned_from 0 methods.now (replicate classes [])) }
{
    let mut own = no_lists(alloc, classes)?;
    for (number, place) in methods.iter().enumerate() {
        add_item(own.as_mut_slice(), place.class as usize, number as u32)?;
    }
    Ok(own)
}

/// The methods of a class.
pub fn own_of(own: &[Seq<u32>], class: u32) -> &[u32]
    ensures { result.now ≡ list_at own.now class }
{
    match own.get(class as usize) {
        Some(methods) => methods.as_slice(),
        None => &[],
    }
}

impl Reveal {
    /// Nothing is selected, entered or loaded, and no method is shown as marked.
    pub fn new(alloc: Global, program: &Program) -> Result<Reveal, NoMemory>
        requires numbered { program.now.methods ≡ methods_numbered program.now.classes }
        requires few { length program.now.methods < 2 ^ 32 }
        requires short { AllByRecursion HasShortCodes program.now.classes }
        requires fit { IsFit program.now }
        ensures revelation { IfOk result (λ r. IsRevelation program.now r) }
        ensures now { IfOk result (λ r. now_of r ≡ nothing_revealed) }
    {
        let places = program.methods.as_slice();
        let classes = program.classes.len();
        let numbers = MethodNumbers::new(alloc, program)?;
        let own = methods_by_class(alloc, places, classes)?;
        let lineage = Lineage::new(alloc, classes)?;
        let book = Book::new(alloc, places.len(), classes)?;
        let named = Named::new(alloc, classes)?;
        let selected = SelectedMethods::new(alloc, places.len())?;
        let flags = items_repeated(alloc, false, places.len())?;
        let shown = items_repeated(alloc, Mark::Off, places.len())?;
        Ok(Reveal {
            numbers,
            own,
            lineage,
            book,
            named,
            selected,
            entered: Stack::new(alloc),
            flags,
            targets: Order::new(alloc),
            stale: Order::new(alloc),
            shown,
        })
    }

    /// Whether a method is selected.
    pub fn is_selected(&self, method: u32) -> bool
        ensures { result ≡ is_among method self.now.selected }
    {
        self.selected.has(method)
    }

    /// Whether any method is selected.
    pub fn selects(&self) -> bool
        ensures { result ≡ not (is_empty self.now.selected) }
    {
        !self.selected.is_empty()
    }

    /// Whether a method is entered.
    pub fn is_entered(&self, method: u32) -> bool
        ensures { result ≡ flag_at self.now.flags method }
    {
        match self.flags.at(method as usize) {
            Some(flag) => flag,
            None => false,
        }
    }

    /// The mark of a method, by what is kept.
    pub fn mark_kept(&self, program: &Program, method: u32) -> Mark
        ensures { result ≡ mark_kept program.now self.now method }
    {
        let Some(place) = program.methods.at(method as usize) else {
            return Mark::Off;
        };
        if !self.lineage.loaded.has(place.class) {
            return Mark::Off;
        }
        if self.is_selected(method) {
            return Mark::Root;
        }
        if self.targets.has(method) {
            Mark::Plain
        } else {
            Mark::Off
        }
    }

    /// The mark that a method has now.
    pub fn mark(&self, program: &Program, method: u32) -> Mark
        ensures { IsRevelation program.now self.now →
            result ≡ mark_of program.now (now_of self.now) method }
    {
        self.mark_kept(program, method)
    }
}
