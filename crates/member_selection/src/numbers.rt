//! The numbers of methods (JVM Specification 4.6): those that have Code are numbered over all
//! classes.

ghost use Rattle.std.specs.Prelude.{◌≡◌, ◌+◌, ◌<◌, ◌^◌, is_some, IfOk};
ghost use Rattle.jvm_model.specs.Basis.Methods.{code_of};
ghost use Rattle.jvm_model.specs.Basis.Programs.{methods_numbered};
ghost use Rattle.member_selection.specs.Numbers.{AreNumbers, all_coded, coded_count};
ghost use Rattle.member_selection.specs.Numbers.{number_in, row_from, rows_from};

use const_pool::{ClassFile, Member};
use jf_bytes::{NoMemory, Seq};
use jvm_model::{Program, code_of};
use std::alloc::Global;
use std::marker::Model;

/// The number of each method by the position of its class and its own there, made once, so that a
/// call costs two look-ups. A clause sees a row for each class.
#[derive(Drop)]
pub struct MethodNumbers {
    rows: Seq<Seq<Option<u32>>>,
}

impl Model for MethodNumbers {
    ghost use Rattle.std.specs.Prelude.{List};
    ghost use Rattle.member_selection.specs.Numbers.{Row};

    ghost Value = { List Row };

    ghost view = { λ n. n.rows };
}

/// Whether a method has Code (4.7.3).
fn has_code(method: &Member) -> bool
    ensures { result ≡ is_some (code_of method.now) }
{
    code_of(method).is_some()
}

/// How many methods have Code.
fn coded_count(methods: &[Member]) -> u32
    requires { coded_count methods.now < 2 ^ 32 }
    ensures { result ≡ coded_count methods.now }
{
    let mut count = 0;
    for method in methods {
        if has_code(method) {
            count += 1;
        }
    }
    count
}

/// The numbers of a class's methods, from this one on.
fn row_from(alloc: Global, first: u32, methods: &[Member]) -> Result<Seq<Option<u32>>, NoMemory>
    requires { first + coded_count methods.now < 2 ^ 32 }
    ensures { IfOk result (λ row. row ≡ row_from first methods.now) }
{
    let mut row = Seq::with_capacity(alloc, methods.len())?;
    let mut next = first;
    for method in methods {
        if has_code(method) {
            row.push(Some(next))?;
            next += 1;
        } else {
            row.push(None)?;
        }
    }
    Ok(row)
}

/// The rows of all classes.
fn rows_of(alloc: Global, classes: &[ClassFile]) -> Result<Seq<Seq<Option<u32>>>, NoMemory>
    requires { all_coded classes.now < 2 ^ 32 }
    ensures { IfOk result (λ rows. rows ≡ rows_from 0 classes.now) }
{
    let mut rows = Seq::with_capacity(alloc, classes.len())?;
    let mut next = 0;
    for class in classes {
        let methods = class.methods.as_slice();
        rows.push(row_from(alloc, next, methods)?)?;
        next += coded_count(methods);
    }
    Ok(rows)
}

impl MethodNumbers {
    /// The numbers of a program's methods.
    pub fn new(alloc: Global, program: &Program) -> Result<MethodNumbers, NoMemory>
        requires numbered { program.now.methods ≡ methods_numbered program.now.classes }
        requires few { all_coded program.now.classes < 2 ^ 32 }
        ensures { IfOk result (λ numbers. AreNumbers program.now numbers) }
    {
        let rows = rows_of(alloc, program.classes.as_slice())?;
        Ok(MethodNumbers { rows })
    }

    /// The number of the method at this position of the class; a method without Code has none.
    pub fn number(&self, class: u32, position: u16) -> Option<u32>
        ensures { result ≡ number_in self.now class position }
    {
        let row = self.rows.get(class as usize)?;
        row.at(position as usize)?
    }
}
