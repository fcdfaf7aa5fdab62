//! The built-in classes: the class files that a program finds beside its own, and the numbers of their native methods.
//! One table has a row for each class and each member, in an order that the numbers of classes go by.
#![tactic(auto)]

ghost use Rattle.std.specs.Prelude.{◌≡◌, ◌++◌, [], IfOk, IsTrue, OnOk, map};
ghost use Rattle.std.specs.List.{list_all, AllByRecursion};
ghost use Rattle.const_pool.specs.ClassFile.{IsClassFile};
ghost use Rattle.base_classes.specs.BuiltInClasses.{built_in_classes, IsBare};
ghost use Rattle.base_classes.specs.BuiltInFiles.{built_in_files};
ghost use Rattle.base_classes.specs.Making.{class_file_of, has_pool};
ghost use Rattle.base_classes.specs.RowViews.{class_view};
ghost use Rattle.base_classes.specs.Shown.{declaration_of};
ghost use Rattle.base_classes.specs.Soundness.{IsSound, in_order};

mod access;
mod coding;
mod entries;
mod making;
mod names;
mod natives;
mod places;
mod rows;
mod tables;

pub use access::{ABSTRACT, FINAL, INTERFACE, NATIVE, PRIVATE, PROTECTED, PUBLIC, STATIC};
use const_pool::ClassFile;
use jf_bytes::NoMemory;
use making::class_of;
pub use names::{built_in_name, is_built_in, position_of};
pub use natives::native_of;
pub use places::{
    ARITHMETIC_EXCEPTION, ARRAY_INDEX_OUT_OF_BOUNDS_EXCEPTION, ARRAY_STORE_EXCEPTION, ARRAYCOPY,
    BOOLEAN, BUILT_IN_CLASSES, CHARACTER, CLASS, CLASS_CAST_EXCEPTION, CLASS_CIRCULARITY_ERROR,
    CLONE_NOT_SUPPORTED_EXCEPTION, CLONEABLE, ENUM, FIRST_ARRAY, FIRST_CLASS_KIND, FIRST_USER_KIND,
    INCOMPATIBLE_CLASS_CHANGE_ERROR, INTEGER, LONG, NATIVE_METHODS, NEGATIVE_ARRAY_SIZE_EXCEPTION,
    NO_CLASS_DEF_FOUND_ERROR, NO_SUCH_FIELD_ERROR, NO_SUCH_METHOD_ERROR, NULL_POINTER_EXCEPTION,
    NUMBER_FORMAT_EXCEPTION, OUT_OF_MEMORY_ERROR, STRING, STRING_INDEX_OUT_OF_BOUNDS_EXCEPTION,
    THROWABLE,
};
use rows::ClassRow;
use std::alloc::Global;
use tables::groups;

/// Adds the class files of these rows.
fn add_classes(
    alloc: Global,
    classes: &mut Vec<ClassFile>,
    rows: &[ClassRow],
) -> Result<(), NoMemory>
    requires { IsTrue (list_all has_pool (map class_view rows.now)) }
    ensures { OnOk result (classes.new.items
        ≡ classes.old.items ++ map class_file_of (map class_view rows.now)) }
{
    for row in rows {
        classes.push(class_of(alloc, row)?)?;
    }
    Ok(())
}

/// The class files of the whole table.
fn make_all(alloc: Global) -> Result<Vec<ClassFile>, NoMemory>
    ensures { IfOk result (λ classes. classes.items ≡ built_in_files) }
{
    let mut classes = Vec::new(alloc);
    for group in groups() {
        add_classes(alloc, &mut classes, group)?;
    }
    Ok(classes)
}

/// The built-in classes in their order, as class files of version 49.0. The order of their pools' entries is this
/// crate's own. What admits a program calls it, and puts them behind the program's classes.
pub fn built_in(alloc: Global) -> Result<Vec<ClassFile>, NoMemory>
    ensures made { IfOk result (λ classes. classes.items ≡ built_in_files) }
    ensures declared { IfOk result (λ classes.
        map declaration_of classes.items ≡ built_in_classes) }
    ensures formed { IfOk result (λ classes. AllByRecursion IsClassFile classes.items) }
    ensures bare { IfOk result (λ classes. AllByRecursion IsBare classes.items) }
    ensures sound { IfOk result (λ classes.
        AllByRecursion IsSound (map declaration_of classes.items)) }
    ensures ordered { IfOk result (λ classes.
        IsTrue (in_order [] (map declaration_of classes.items))) }
{
    make_all(alloc)
}
