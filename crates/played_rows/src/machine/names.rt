//! Methods of a program by their names.

ghost use Rattle.std.specs.Prelude.{◌≡◌, IfOk, position};
ghost use Rattle.const_pool.specs.References.{name_type_of};
ghost use Rattle.jvm_model.specs.Basis.Methods.{is_member};
ghost use Rattle.played_rows.specs.Machine.Names.{IsMethodOf, has_member, is_root, method_called, method_of_root};

use crate::names::{has_name, number_of};
use const_pool::{ClassFile, Member, Pool};
use jf_bytes::NoMemory;
use jvm_model::{MethodPlace, Program};
use plan_text::{PlanError, RootName, plan_of_root};
use std::alloc::Global;

/// Whether a method has the name and the descriptor of a root.
fn is_member(pool: &Pool, method: &Member, root: &RootName) -> bool
    ensures { let wanted = name_type_of root.now.name root.now.descriptor in
        result ≡ is_member pool.now wanted method.now }
{
    pool.is_text(method.name, &root.name) && pool.is_text(method.descriptor, &root.descriptor)
}

/// Whether the method at a position of a class has the name and the descriptor of a root.
fn has_member(root: &RootName, class: &ClassFile, position: u16) -> bool
    ensures { result ≡ has_member root.now class.now position }
{
    match class.methods.get(position as usize) {
        Some(method) => is_member(&class.pool, method, root),
        None => false,
    }
}

/// Whether it is the method that a root names.
fn is_root(program: &Program, root: &RootName, place: &MethodPlace) -> bool
    ensures { result ≡ is_root program.now root.now place.now }
{
    match program.classes.get(place.class as usize) {
        Some(class) => has_name(class, &root.class) && has_member(root, class, place.position),
        None => false,
    }
}

/// Where the first method stands among all that a root names.
fn place_of(program: &Program, root: &RootName) -> Option<usize>
    ensures { result ≡ position (is_root program.now root.now) program.now.methods }
{
    program
        .methods
        .as_slice()
        .iter()
        .position(|place| is_root(program, root, place))
}

/// The number of the method that a root names.
fn method_of(program: &Program, root: &RootName) -> Option<u32>
    ensures { result ≡ method_of_root program.now root.now }
{
    number_of(place_of(program, root))
}

/// The number of the method of the root that a word is, if it is one.
fn method_found(alloc: Global, program: &Program, word: &str) -> Result<Option<u32>, NoMemory>
    ensures { IfOk result (IsMethodOf program.now word.now) }
{
    let plan = match plan_of_root(alloc, word) {
        Ok(plan) => plan,
        Err(PlanError::NoMemory) => return Err(NoMemory),
        Err(_) => return Ok(None),
    };
    match plan.actions.as_slice() {
        [action] => Ok(method_of(program, &action.root)),
        _ => Ok(None),
    }
}

/// The number of the method that a word names: class, dot, name, descriptor.
pub fn method_named(alloc: Global, program: &Program, word: &str) -> Result<Option<u32>, NoMemory>
    ensures of { IfOk result (IsMethodOf program.now word.now) }
    ensures called { IfOk result (λ found. found ≡ method_called program.now word.now) }
{
    method_found(alloc, program, word)
}
