//! The image of a class: its marked methods with their probes, and the pool tail that the probes name.

ghost use Rattle.std.specs.Prelude.{◌≡◌, ◌≢◌, ◌≤◌, ◌+◌, ◌<◌, ◌^◌, ℕ, length, Err, IfOk};
ghost use Rattle.const_pool.specs.ClassFile.{IsClassFile, class_bytes};
ghost use Rattle.const_pool.specs.declared.tail.TailError.{TailError as TheTailError};
ghost use Rattle.jvm_model.specs.Rewriting.Images.{IsImage};
ghost use Rattle.inject_events.specs.declared.error.Cause.{Cause as TheCause};
ghost use Rattle.inject_events.specs.Answers.{IsReadableClass, IsImageAnswer, IsProfilable, MarkedHaveCode};
ghost use Rattle.inject_events.specs.Rewriting.{original_of, image_with_methods, image_of_marked, refused_of_marked, image_of, refused_of};
ghost use Rattle.inject_events.specs.Settings.{setting_of};
ghost use Rattle.inject_events.specs.SoundTables.{MovesSoundTables};

use crate::copying::copy_members;
use crate::error::{Cause, InjectError};
use crate::image::{Image, class_with, first_marked, no_homes};
use crate::members::images_from;
use crate::methods::{Methods, all_off};
use crate::settings::Setting;
use const_pool::{ClassFile, TailError, append_tail, copy_pool};
use jf_bytes::NoMemory;
use jvm_model::Mark;
use std::alloc::Global;

/// What the versions of a class's methods have in common.
fn setting_of(alloc: Global, class: &ClassFile) -> Result<Setting, TailError>
    ensures setting { IfOk result (λ setting. setting ≡ setting_of class.now) }
    ensures fits { IfOk result (λ setting. length class.now.pool + 18 ≤ 65535) }
    ensures full { result ≡ Err TheTailError.Full → 65535 < length class.now.pool + 18 }
{
    match append_tail(alloc, &class.pool) {
        Ok(tail) => Ok(Setting {
            framed: class.major == 50,
            tail,
        }),
        Err(error) => Err(error),
    }
}

/// The class itself.
fn original_of(alloc: Global, class: &ClassFile) -> Result<Image, NoMemory>
    ensures { IfOk result (λ image. image ≡ original_of class.now) }
{
    let methods = class.methods.as_slice();
    let pool = copy_pool(alloc, &class.pool)?;
    let members = copy_members(alloc, methods)?;
    Ok(Image {
        class: class_with(alloc, class, pool, members)?,
        homes: no_homes(alloc, methods)?,
    })
}

/// The class with these methods, and with the pool tail.
fn image_with_methods(
    alloc: Global,
    class: &ClassFile,
    setting: Setting,
    methods: Methods,
) -> Result<Image, NoMemory>
    ensures { IfOk result (λ image. image ≡ image_with_methods class.now setting methods) }
{
    let Methods { members, homes } = methods;
    Ok(Image {
        class: class_with(alloc, class, setting.tail.pool, members)?,
        homes,
    })
}

/// The class with its marked methods rewritten.
fn image_of_marked(
    alloc: Global,
    class: &ClassFile,
    first: u32,
    marks: &[Mark],
) -> Result<Image, InjectError>
    requires class { IsReadableClass class.now }
    requires first { first ≤ 2147418112 }
    requires marks { length marks.now ≡ length class.now.methods }
    ensures { IsImageAnswer result (refused_of_marked class.now first marks.now)
        (image_of_marked class.now first marks.now) }
{
    let setting = match setting_of(alloc, class) {
        Ok(setting) => setting,
        Err(TailError::NoMemory) => return Err(InjectError::NoMemory),
        Err(TailError::Full) => {
            return Err(InjectError::NotProfilable(first_marked(marks), Cause::Pool));
        }
    };
    match images_from(alloc, &setting, first, marks, class.methods.as_slice()) {
        Ok(methods) => Ok(image_with_methods(alloc, class, setting, methods)?),
        Err(error) => Err(error),
    }
}

/// The image of a class, or the first method that cannot be rewritten.
fn image_of(
    alloc: Global,
    class: &ClassFile,
    first: u32,
    marks: &[Mark],
) -> Result<Image, InjectError>
    requires class { IsReadableClass class.now }
    requires first { first ≤ 2147418112 }
    requires marks { length marks.now ≡ length class.now.methods }
    ensures { IsImageAnswer result (refused_of class.now first marks.now)
        (image_of class.now first marks.now) }
{
    if all_off(marks) {
        Ok(original_of(alloc, class)?)
    } else {
        image_of_marked(alloc, class, first, marks)
    }
}

/// The image of a class for these marks, one for each method, or the position of the first marked method that cannot be
/// rewritten, with its first cause. `first` is the number of the class's first method that has Code. The image is the
/// class itself where no method is marked; of a marked method it has the version, with its handlers, frames and debug
/// tables moved, and its homes.
pub fn instrument(
    alloc: Global,
    class: &ClassFile,
    first: u32,
    marks: &[Mark],
) -> Result<Image, InjectError>
    requires class { IsReadableClass class.now }
    requires first { first ≤ 2147418112 }
    requires marks { length marks.now ≡ length class.now.methods }
    // What comes, as a function of the class.
    ensures answer { IsImageAnswer result (refused_of class.now first marks.now)
        (image_of class.now first marks.now) }
    // Tables that keep to their grammars are moved.
    ensures moves { MovesSoundTables (setting_of class.now) }
    // It is an image as the machine takes it.
    ensures image { IfOk result (λ image. MarkedHaveCode marks.now class.now.methods
        → IsImage class.now first marks.now image.class image.homes) }
    // Its bytes can be counted by a u4 where those of the class are as many as a class file may have.
    ensures small { IfOk result (λ image. MarkedHaveCode marks.now class.now.methods
        → length (class_bytes class.now) ≤ 4194304
        → length (class_bytes image.class) < 2 ^ 32) }
    // The image of a class file is one.
    ensures formed { IfOk result (λ image. IsClassFile class.now → IsClassFile image.class) }
    // A class each of whose methods with Code could be rewritten is never refused.
    ensures profilable { MarkedHaveCode marks.now class.now.methods → IsProfilable class.now
        → (method : ℕ) (cause : TheCause)
        → result ≢ Err (InjectError.NotProfilable method cause) }
{
    image_of(alloc, class, first, marks)
}
