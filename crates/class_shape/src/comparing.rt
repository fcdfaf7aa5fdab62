//! Names and members of two classes compared, each by its own class's pool.

ghost use Rattle.std.specs.Prelude.{◌≡◌, ◌<◌, ◌^◌, map, length};
ghost use Rattle.const_pool.specs.References.{named_class, named_text};
ghost use Rattle.class_shape.specs.ClassShapes.{fields_of, heading_of, methods_of, shape_in};
ghost use Rattle.class_shape.specs.Comparing.{first_other, same_counts, same_declared, same_heading};
ghost use Rattle.class_shape.specs.Comparing.{same_member, same_name, same_names};

use const_pool::{ClassFile, Member, Pool};

// ---- names

/// Whether two indices name the same text, or neither names one.
fn same_text(pool: &Pool, index: u16, other: &Pool, other_index: u16) -> bool
    ensures { result ≡ same_name (named_text pool.now index) (named_text other.now other_index) }
{
    match pool.text(index) {
        Ok(text) => match other.text(other_index) {
            Ok(found) => text.same(found),
            Err(_) => false,
        },
        Err(_) => other.text(other_index).is_err(),
    }
}

/// Whether two indices name the same class, or neither names one.
fn same_class(pool: &Pool, index: u16, other: &Pool, other_index: u16) -> bool
    ensures { result ≡ same_name (named_class pool.now index) (named_class other.now other_index) }
{
    match pool.class_name(index) {
        Ok(name) => match other.class_name(other_index) {
            Ok(found) => name.same(found),
            Err(_) => false,
        },
        Err(_) => other.class_name(other_index).is_err(),
    }
}

/// Whether two lists of indices name the same classes in the same order.
fn same_classes(pool: &Pool, indices: &[u16], other: &Pool, other_indices: &[u16]) -> bool
    ensures { result ≡ same_names (map (named_class pool.now) indices.now)
        (map (named_class other.now) other_indices.now) }
{
    if indices.len() != other_indices.len() {
        return false;
    }
    for at in 0..indices.len() {
        if !same_class(pool, indices[at], other, other_indices[at]) {
            return false;
        }
    }
    true
}

// ---- what stands before the members

/// Whether two classes have the same flags, name, superclass and interfaces.
fn same_declared(original: &ClassFile, image: &ClassFile) -> bool
    ensures { result ≡ same_declared (heading_of original.now) (heading_of image.now) }
{
    let these = &original.pool;
    let those = &image.pool;
    original.access == image.access
        && same_class(these, original.this_class, those, image.this_class)
        && same_class(these, original.super_class, those, image.super_class)
        && same_classes(
            these,
            original.interfaces.as_slice(),
            those,
            image.interfaces.as_slice(),
        )
}

/// Whether two classes have as many fields and as many methods.
fn same_counts(original: &ClassFile, image: &ClassFile) -> bool
    ensures { result ≡ same_counts (heading_of original.now) (heading_of image.now) }
{
    original.fields.len() == image.fields.len() && original.methods.len() == image.methods.len()
}

/// Whether what stands before the members is the same in two classes.
pub fn same_heading(original: &ClassFile, image: &ClassFile) -> bool
    ensures { result ≡ same_heading (heading_of original.now) (heading_of image.now) }
{
    same_declared(original, image) && same_counts(original, image)
}

// ---- members

/// Whether two members have the same flags, name and descriptor.
fn same_member(pool: &Pool, member: &Member, other: &Pool, image: &Member) -> bool
    ensures { result ≡ same_member (shape_in pool.now member.now) (shape_in other.now image.now) }
{
    member.access == image.access
        && same_text(pool, member.name, other, image.name)
        && same_text(pool, member.descriptor, other, image.descriptor)
}

/// The position of the first member that is another one in the second list.
fn first_other(pool: &Pool, members: &[Member], other: &Pool, images: &[Member]) -> Option<u16>
    requires { length images.now < 2 ^ 16 }
    ensures { result ≡ first_other 0 (map (shape_in pool.now) members.now)
        (map (shape_in other.now) images.now) }
{
    for (at, image) in images.iter().enumerate() {
        let Some(member) = members.get(at) else {
            return None;
        };
        if !same_member(pool, member, other, image) {
            return Some(at as u16);
        }
    }
    None
}

/// The position of the first field that is another one.
pub fn other_field(original: &ClassFile, image: &ClassFile) -> Option<u16>
    requires { length image.now.fields < 2 ^ 16 }
    ensures { result ≡ first_other 0 (fields_of original.now) (fields_of image.now) }
{
    let fields = original.fields.as_slice();
    first_other(&original.pool, fields, &image.pool, image.fields.as_slice())
}

/// The position of the first method that is another one.
pub fn other_method(original: &ClassFile, image: &ClassFile) -> Option<u16>
    requires { length image.now.methods < 2 ^ 16 }
    ensures { result ≡ first_other 0 (methods_of original.now) (methods_of image.now) }
{
    let methods = original.methods.as_slice();
    first_other(
        &original.pool,
        methods,
        &image.pool,
        image.methods.as_slice(),
    )
}
