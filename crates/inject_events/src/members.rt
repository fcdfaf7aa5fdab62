//! The methods of a class in its image.

ghost use Rattle.std.specs.Prelude.{◌≡◌, ◌≤◌, length, IfOk};
ghost use Rattle.jvm_model.specs.Basis.Methods.{code_of};
ghost use Rattle.inject_events.specs.Answers.{HasReadableBody, HaveReadableBodies, IsVersionAnswer, IsImageAnswer};
ghost use Rattle.inject_events.specs.Probing.{image_with};
ghost use Rattle.inject_events.specs.Rewriting.{cause_of_coded, cause_of_method, image_of_coded, image_of_method, images_from, methods_of_images, refused_from};

use crate::error::{InjectError, NoVersion};
use crate::methods::{MethodImage, Methods, next_number, original_image, refusal, with_code};
use crate::rewriting::version_of;
use crate::settings::Setting;
use crate::versions::Version;
use const_pool::Member;
use jf_bytes::{NoMemory, Seq};
use jvm_model::{Mark, code_of};
use std::alloc::Global;

/// A method with this version of its code.
fn image_with(alloc: Global, version: Version, member: &Member) -> Result<MethodImage, NoMemory>
    ensures { IfOk result (λ image. image ≡ image_with version member.now) }
{
    let Version { code, homes } = version;
    Ok(MethodImage {
        member: with_code(alloc, &code, member)?,
        homes: Some(homes),
    })
}

/// A marked method, the same where it has no code.
fn image_of_coded(
    alloc: Global,
    setting: &Setting,
    number: u32,
    mark: Mark,
    member: &Member,
) -> Result<MethodImage, NoVersion>
    requires { HasReadableBody member.now }
    ensures { IsVersionAnswer result
        (cause_of_coded setting.now number mark (code_of member.now))
        (image_of_coded setting.now number mark member.now (code_of member.now)) }
{
    let Some(old) = code_of(member) else {
        return Ok(original_image(alloc, member)?);
    };
    match version_of(alloc, setting, number, mark, old) {
        Ok(version) => Ok(image_with(alloc, version, member)?),
        Err(error) => Err(error),
    }
}

/// The image of a method with this number and this mark, or the first limit that its version would pass.
fn image_of_method(
    alloc: Global,
    setting: &Setting,
    number: u32,
    mark: Mark,
    member: &Member,
) -> Result<MethodImage, NoVersion>
    requires { HasReadableBody member.now }
    ensures { IsVersionAnswer result (cause_of_method setting.now number mark member.now)
        (image_of_method setting.now number mark member.now) }
{
    match mark {
        Mark::Off => Ok(original_image(alloc, member)?),
        Mark::Plain => image_of_coded(alloc, setting, number, Mark::Plain, member),
        Mark::Root => image_of_coded(alloc, setting, number, Mark::Root, member),
    }
}

/// The images of methods, of which those that have code are numbered from `first` on, or the first method that has
/// none.
pub(crate) fn images_from(
    alloc: Global,
    setting: &Setting,
    first: u32,
    marks: &[Mark],
    methods: &[Member],
) -> Result<Methods, InjectError>
    requires bodies { HaveReadableBodies methods.now }
    requires few { length methods.now ≤ 65535 }
    requires first { first ≤ 2147418112 }
    requires marks { length marks.now ≡ length methods.now }
    ensures { IsImageAnswer result (refused_from setting.now first 0 marks.now methods.now)
        (methods_of_images (images_from setting.now first marks.now methods.now)) }
{
    let mut members = Seq::with_capacity(alloc, methods.len())?;
    let mut homes = Seq::with_capacity(alloc, methods.len())?;
    let mut number = first;
    for (position, member) in methods.iter().enumerate() {
        let mark = marks[position];
        let image = match image_of_method(alloc, setting, number, mark, member) {
            Ok(image) => image,
            Err(reason) => return Err(refusal(position as u16, reason)),
        };
        members.push(image.member)?;
        homes.push(image.homes)?;
        number = next_number(number, member);
    }
    Ok(Methods { members, homes })
}
