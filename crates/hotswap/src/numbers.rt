//! The numbers of a class's methods (JVM Specification 4.6): those that have Code are numbered over all classes.

ghost use Rattle.std.specs.Prelude.{◌≡◌, ◌≤◌, length};
ghost use Rattle.jvm_model.specs.Profiling.Swaps.{first_number};

use jvm_model::Program;

/// How many methods with Code the classes in front of a class have: the number of its first one.
pub fn first_number(program: &Program, class: u32) -> u32
    requires { length program.now.methods ≤ 32768 }
    ensures number { result ≡ first_number program.now class }
    ensures few { result ≤ 2147418112 }
{
    let places = program.methods.as_slice();
    places.iter().filter(|place| place.class < class).count() as u32
}
