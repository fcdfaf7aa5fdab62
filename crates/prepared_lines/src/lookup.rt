//! The static initializers of a program's classes, and its main class (JVM Specification 5.2, 5.5).

ghost use Rattle.std.specs.Prelude.{◌≡◌, ◌<◌, ◌^◌, length};
ghost use Rattle.jvm_model.specs.Running.Run.{main_class};
ghost use Rattle.jvm_model.specs.Basis.Programs.{initializer_of, number_from, same_place};

use crate::members::initializer_in;
use jvm_model::{MethodPlace, Program};

/// Whether this is where the method at a position of a class stands.
fn is_place(class: usize, at: usize, place: &MethodPlace) -> bool
    ensures { result ≡ same_place class at place.now }
{
    place.class as usize == class && place.position as usize == at
}

/// The number of the method at a position of a class.
fn number_of(places: &[MethodPlace], class: usize, at: usize) -> Option<u32>
    requires { length places.now < 2 ^ 32 }
    ensures { result ≡ number_from 0 class at places.now }
{
    for (number, place) in places.iter().enumerate() {
        if is_place(class, at, place) {
            return Some(number as u32);
        }
    }
    None
}

/// The number of the static initializer of the class at a position, where it has one.
pub fn initializer_of(program: &Program, class: u32) -> Option<u32>
    requires { length program.now.methods < 2 ^ 32 }
    ensures { result ≡ initializer_of program.now class }
{
    let found = program.classes.get(class as usize)?;
    let at = initializer_in(found)?;
    number_of(program.methods.as_slice(), class as usize, at)
}

/// The position of the main class: that of the method `main`.
pub fn main_class(program: &Program) -> u32
    ensures { result ≡ main_class program.now }
{
    match program.methods.get(program.main as usize) {
        Some(place) => place.class,
        None => 0,
    }
}
