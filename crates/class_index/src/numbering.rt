//! The numbers of classes and of kinds (JVM Specification 4.4.1): the program's own classes stand first, the built-in
//! ones behind them; a kind has dimensions and a base, and a base that is no primitive type a class.

ghost use Rattle.std.specs.Prelude.{◌≡◌, ◌≤◌, ◌<◌, ◌+◌, ◌^◌, length};
ghost use Rattle.std.specs.Option.{option_copied};
ghost use Rattle.jvm_model.specs.Basis.KindNumbers.{base_of_class, class_of_base, user_count};
ghost use Rattle.jvm_model.specs.Basis.Programs.{name_at};
ghost use Rattle.jvm_model.specs.Basis.SharedState.{class_of_kind};

use crate::index::Index;
use base_classes::{BUILT_IN_CLASSES, FIRST_ARRAY, FIRST_CLASS_KIND, FIRST_USER_KIND};
use jf_bytes::Text16;
use jvm_model::Program;

/// How many classes of a program stand before the built-in ones.
pub fn user_count(program: &Program) -> u32
    requires { length program.now.classes < 2 ^ 24 }
    ensures count { result ≡ user_count program.now }
    ensures most { result < 2 ^ 24 }
{
    program
        .classes
        .len()
        .saturating_sub(BUILT_IN_CLASSES as usize) as u32
}

/// The base of a class in kinds.
pub fn base_of_class(program: &Program, class: u32) -> u32
    requires few { length program.now.classes < 2 ^ 24 }
    requires class { class < 2 ^ 24 }
    ensures base { result ≡ base_of_class program.now class }
    ensures most { result ≤ class + 256 }
{
    let users = user_count(program);
    if class < users {
        FIRST_USER_KIND + class
    } else {
        FIRST_CLASS_KIND + (class - users)
    }
}

/// The position of the class of a base; a primitive element has none.
pub fn class_of_base(program: &Program, base: u32) -> Option<u32>
    requires { length program.now.classes < 2 ^ 24 }
    ensures { result ≡ class_of_base program.now base }
{
    if base < FIRST_CLASS_KIND {
        return None;
    }
    if base < FIRST_USER_KIND {
        Some(user_count(program) + (base - FIRST_CLASS_KIND))
    } else {
        Some(base - FIRST_USER_KIND)
    }
}

/// The position of the class of objects of this kind; arrays are objects of java/lang/Object.
pub fn class_of_kind(program: &Program, kind: u32) -> u32
    requires { length program.now.classes < 2 ^ 24 }
    ensures { result ≡ class_of_kind program.now kind }
{
    if kind >= FIRST_ARRAY {
        return user_count(program);
    }
    match class_of_base(program, kind) {
        Some(class) => class,
        None => 0,
    }
}

/// The same of the program that is indexed, which has at most 4,096 classes of its own.
impl Index {
    /// How many classes of the program stand before the built-in ones.
    pub fn user_count(&self) -> u32
        ensures count { result ≡ user_count self.now }
        ensures most { result ≤ 4096 }
    {
        user_count(self.program())
    }

    /// The base of a class in kinds.
    pub fn base_of_class(&self, class: u32) -> u32
        requires { class ≤ length self.now.classes }
        ensures base { result ≡ base_of_class self.now class }
        ensures most { result < 16777216 }
    {
        base_of_class(self.program(), class)
    }

    /// The position of the class of a base; a primitive element has none.
    pub fn class_of_base(&self, base: u32) -> Option<u32>
        ensures { result ≡ class_of_base self.now base }
    {
        class_of_base(self.program(), base)
    }

    /// The position of the class of objects of this kind; arrays are objects of java/lang/Object.
    pub fn class_of_kind(&self, kind: u32) -> u32
        ensures { result ≡ class_of_kind self.now kind }
    {
        class_of_kind(self.program(), kind)
    }

    /// The name of the class at a position, where there is one.
    pub fn name_at(&self, class: u32) -> Option<&Text16>
        ensures { option_copied result ≡ name_at self.now class }
    {
        let file = self.file(class)?;
        match file.pool.class_name(file.this_class) {
            Ok(name) => Some(name),
            Err(_) => None,
        }
    }
}
