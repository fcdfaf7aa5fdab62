//! The objects that are made at most once.

ghost use Rattle.std.specs.Prelude.{◌≡◌, None, IfOk, is_ok};
ghost use Rattle.heap_objects.specs.Changes.{changed_if};
ghost use Rattle.native_effects.specs.Inputs.MadeViews.{object_of_class, class_of_object, object_of_box};

use crate::effects::kept::{BoxObject, ClassObject};
use crate::inputs::numbers::CLASS_KIND;
use heap_objects::{Datum, Heap, HeapError, put_last};
use std::alloc::Global;
use std::marker::Model;

/// The Class object of each kind that has one, and the objects that valueOf gives for small values. A clause sees the
/// two lists.
#[derive(Drop)]
pub struct Made {
    classes: Vec<ClassObject>,
    boxes: Vec<BoxObject>,
}

impl Model for Made {
    ghost use Rattle.native_effects.specs.Inputs.MadeViews.{MadeView};

    ghost Value = { MadeView };

    ghost view = { λ m. record { classes = m.classes.items; boxes = m.boxes.items } };
}

/// The Class object of a kind.
fn object_of_class(kind: u32, classes: &[ClassObject]) -> Option<u32>
    ensures { result ≡ object_of_class kind classes.now }
{
    for class in classes {
        if class.kind == kind {
            return Some(class.object);
        }
    }
    None
}

/// The kind whose Class object this is.
fn class_of_object(object: u32, classes: &[ClassObject]) -> Option<u32>
    ensures { result ≡ class_of_object object classes.now }
{
    for class in classes {
        if class.object == object {
            return Some(class.kind);
        }
    }
    None
}

/// The object that was made of a class for the value with this place.
fn object_of_box(kind: u32, place: u32, boxes: &[BoxObject]) -> Option<u32>
    ensures { result ≡ object_of_box kind place boxes.now }
{
    for made in boxes {
        if made.kind == kind && made.place == place {
            return Some(made.object);
        }
    }
    None
}

impl Made {
    ghost use Rattle.native_effects.specs.Inputs.MadeViews.{nothing_made};
    ghost use Rattle.native_effects.specs.Effects.Making.{IsFullFor, class_number, heap_with_class, made_with_class};
    ghost use Rattle.native_effects.specs.Effects.Making.{box_number, heap_with_box, made_with_box};

    /// Nothing is made yet. It takes no memory.
    pub fn new(alloc: Global) -> Made
        ensures { result ≡ nothing_made }
    {
        Made {
            classes: Vec::new(alloc),
            boxes: Vec::new(alloc),
        }
    }

    /// The kind whose Class object this is.
    pub fn class_of(&self, object: u32) -> Option<u32>
        ensures { result ≡ class_of_object object self.now.classes }
    {
        class_of_object(object, &self.classes)
    }

    /// The one Class object of a kind, which is made where there is none yet. An Err changes nothing.
    pub fn class_object(&mut self, kind: u32, heap: &mut Heap) -> Result<u32, HeapError>
        ensures full { IsFullFor result (object_of_class kind self.old.classes) 1 heap.old }
        ensures number { IfOk result (λ n. n ≡ class_number kind self.old heap.old) }
        ensures heap { heap.new
            ≡ changed_if (is_ok result) (heap_with_class kind self.old) heap.old }
        ensures made { self.new
            ≡ changed_if (is_ok result) (made_with_class kind heap.old) self.old }
    {
        if let Some(object) = object_of_class(kind, &self.classes) {
            return Ok(object);
        }
        self.classes.reserve(1)?;
        let object = heap.instance(CLASS_KIND, &[])?;
        put_last(&mut self.classes, ClassObject { kind, object });
        Ok(object)
    }

    /// The one object of a kind for a value, by the value's place, which is made where there is none yet. An Err
    /// changes nothing.
    pub fn box_object(
        &mut self,
        kind: u32,
        place: u32,
        value: Datum,
        heap: &mut Heap,
    ) -> Result<u32, HeapError>
        ensures full { IsFullFor result (object_of_box kind place self.old.boxes) 2 heap.old }
        ensures number { IfOk result (λ n. n ≡ box_number kind place self.old heap.old) }
        ensures heap { heap.new
            ≡ changed_if (is_ok result) (heap_with_box kind place value self.old) heap.old }
        ensures made { self.new
            ≡ changed_if (is_ok result) (made_with_box kind place heap.old) self.old }
    {
        if let Some(object) = object_of_box(kind, place, &self.boxes) {
            return Ok(object);
        }
        self.boxes.reserve(1)?;
        let object = heap.instance(kind, &[value])?;
        put_last(
            &mut self.boxes,
            BoxObject {
                kind,
                place,
                object,
            },
        );
        Ok(object)
    }
}
