//! Reading a descriptor unit by unit: what was read so far, and what the next unit makes of it.

ghost use Rattle.std.specs.Prelude.{◌≡◌};
ghost use Rattle.const_pool.specs.Stages.{letter_kind, array_kind, dimensions_step, class_step, name_step, front_step, field_step, first_slots, param_step, params_step, within_param, result_step, within_result, method_step};

use crate::descriptor::Kind;

/// The greatest number of dimensions of an array (JVM Specification 4.3.2).
const MOST_DIMENSIONS: u16 = 255;

/// The greatest number of slots of a method's parameters (JVM Specification 4.3.3).
const MOST_SLOTS: u16 = 255;

/// `(`, before the parameters.
const OPEN: u16 = 40;

/// `)`, behind the parameters.
const CLOSE: u16 = 41;

/// `;`, behind a class's name.
const SEMICOLON: u16 = 59;

/// `D`, a double.
const DOUBLE: u16 = 68;

/// `J`, a long.
const LONG: u16 = 74;

/// `L`, before a class's name.
const CLASS: u16 = 76;

/// `V`, no result.
const VOID: u16 = 86;

/// `[`, a dimension.
const ARRAY: u16 = 91;

/// What was read of a field descriptor.
#[derive(Clone, Copy, Debug)]
pub(crate) enum Front {
    /// So many `[`.
    Dimensions(u16),
    /// `L`, behind any `[`.
    Class,
    /// That and units of the name.
    Name,
}

/// How far a field descriptor was read.
#[derive(Clone, Copy, Debug)]
pub(crate) enum FieldStage {
    Within(Front),
    /// All of it; it stands for this.
    Whole(Kind),
}

/// How far a method descriptor was read. The first number is how many slots further parameters may take.
#[derive(Clone, Copy, Debug)]
pub(crate) enum Stage {
    /// `(` is due.
    Open,
    /// A parameter or `)` is due.
    Params(u16),
    /// Within a parameter, whose slots are taken off already.
    Param(u16, Front),
    /// The result is due.
    Result,
    /// Within the result.
    Returned(Front),
    /// All of it, with this result.
    Whole(Option<Kind>),
}

/// What a unit of a method descriptor does: the stage behind it, and the parameter that it ends.
#[derive(Clone, Copy, Debug)]
pub(crate) struct Step {
    pub(crate) stage: Stage,
    pub(crate) param: Option<Kind>,
}

/// The primitive type of a letter (JVM Specification 4.3.2, table 4.3-A).
fn letter_kind(unit: u16) -> Option<Kind>
    ensures { result ≡ letter_kind unit }
{
    match unit {
        66 => Some(Kind::Byte),
        67 => Some(Kind::Char),
        68 => Some(Kind::Double),
        70 => Some(Kind::Float),
        73 => Some(Kind::Int),
        74 => Some(Kind::Long),
        83 => Some(Kind::Short),
        90 => Some(Kind::Bool),
        _ => None,
    }
}

/// What an array of so many dimensions is, where 0 means no array.
fn array_kind(dimensions: u16, element: Kind) -> Kind
    ensures { result ≡ array_kind dimensions element }
{
    if dimensions == 0 { element } else { Kind::Ref }
}

/// The unit behind so many `[`.
fn dimensions_step(dimensions: u16, unit: u16) -> Option<FieldStage>
    ensures { result ≡ dimensions_step dimensions unit }
{
    if unit == ARRAY {
        if dimensions < MOST_DIMENSIONS {
            return Some(FieldStage::Within(Front::Dimensions(dimensions + 1)));
        }
        return None;
    }
    if unit == CLASS {
        return Some(FieldStage::Within(Front::Class));
    }
    let kind = letter_kind(unit)?;
    Some(FieldStage::Whole(array_kind(dimensions, kind)))
}

/// The unit behind `L`.
fn class_step(unit: u16) -> Option<FieldStage>
    ensures { result ≡ class_step unit }
{
    if unit == SEMICOLON {
        None
    } else {
        Some(FieldStage::Within(Front::Name))
    }
}

/// A unit behind the first of a name.
fn name_step(unit: u16) -> FieldStage
    ensures { result ≡ name_step unit }
{
    if unit == SEMICOLON {
        FieldStage::Whole(Kind::Ref)
    } else {
        FieldStage::Within(Front::Name)
    }
}

/// What the next unit makes of a front; nothing where no field descriptor goes on with it.
fn front_step(front: Front, unit: u16) -> Option<FieldStage>
    ensures { result ≡ front_step front unit }
{
    match front {
        Front::Dimensions(dimensions) => dimensions_step(dimensions, unit),
        Front::Class => class_step(unit),
        Front::Name => Some(name_step(unit)),
    }
}

/// What the next unit makes of a stage of a field descriptor; nothing where none goes on with it.
pub(crate) fn field_step(stage: FieldStage, unit: u16) -> Option<FieldStage>
    ensures { result ≡ field_step stage unit }
{
    match stage {
        FieldStage::Within(front) => front_step(front, unit),
        FieldStage::Whole(_) => None,
    }
}

/// How many slots a parameter takes that begins with this unit.
fn first_slots(unit: u16) -> u16
    ensures { result ≡ first_slots unit }
{
    if unit == LONG || unit == DOUBLE { 2 } else { 1 }
}

/// The step to a stage within a parameter, or behind it.
fn within_param(room: u16, stage: FieldStage) -> Step
    ensures { result ≡ within_param room stage }
{
    match stage {
        FieldStage::Within(front) => Step {
            stage: Stage::Param(room, front),
            param: None,
        },
        FieldStage::Whole(kind) => Step {
            stage: Stage::Params(room),
            param: Some(kind),
        },
    }
}

/// A unit within a parameter.
fn param_step(room: u16, front: Front, unit: u16) -> Option<Step>
    ensures { result ≡ param_step room front unit }
{
    Some(within_param(room, front_step(front, unit)?))
}

/// `)`, or the first unit of a parameter, which needs room for its slots.
fn params_step(room: u16, unit: u16) -> Option<Step>
    ensures { result ≡ params_step room unit }
{
    if unit == CLOSE {
        return Some(Step {
            stage: Stage::Result,
            param: None,
        });
    }
    let slots = first_slots(unit);
    if room < slots {
        return None;
    }
    param_step(room - slots, Front::Dimensions(0), unit)
}

/// The step to a stage within the result, or behind it.
fn within_result(stage: FieldStage) -> Step
    ensures { result ≡ within_result stage }
{
    let stage = match stage {
        FieldStage::Within(front) => Stage::Returned(front),
        FieldStage::Whole(kind) => Stage::Whole(Some(kind)),
    };
    Step { stage, param: None }
}

/// A unit within the result.
fn result_step(front: Front, unit: u16) -> Option<Step>
    ensures { result ≡ result_step front unit }
{
    Some(within_result(front_step(front, unit)?))
}

/// What the next unit does; nothing where no method descriptor goes on with it.
pub(crate) fn method_step(stage: Stage, unit: u16) -> Option<Step>
    ensures { result ≡ method_step stage unit }
{
    match stage {
        Stage::Open if unit == OPEN => Some(Step {
            stage: Stage::Params(MOST_SLOTS),
            param: None,
        }),
        Stage::Open => None,
        Stage::Params(room) => params_step(room, unit),
        Stage::Param(room, front) => param_step(room, front, unit),
        Stage::Result if unit == VOID => Some(Step {
            stage: Stage::Whole(None),
            param: None,
        }),
        Stage::Result => result_step(Front::Dimensions(0), unit),
        Stage::Returned(front) => result_step(front, unit),
        Stage::Whole(_) => None,
    }
}
