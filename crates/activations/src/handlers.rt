//! Which handler a throw goes to (JVM Specification 2.10, 4.7.3).

ghost use Rattle.std.specs.Prelude.{◌≡◌, true, map};
ghost use Rattle.std.specs.Option.{option_map_or};
ghost use Rattle.jvm_model.specs.Classes.Lookup.{is_below};
ghost use Rattle.jvm_model.specs.Running.Moves.{covers, handler_for};
ghost use Rattle.prepared_code.specs.Versions.{catcher_in, listing_of};
ghost use Rattle.class_linker.specs.Linkers.{IsLoaded};
ghost use Rattle.symbolic_references.specs.Runtimes.{linker_in};

use crate::supertypes::is_below;
use class_linker::Linker;
use prepared_code::{Catching, Originals};
use symbolic_references::Runtime;

/// Whether a handler catches objects of a class.
fn catches(linker: &Linker, handler: &Catching, class: u32) -> bool
    requires { IsLoaded linker.now class }
    ensures { result ≡ option_map_or (is_below linker.now.program class) handler.now.catches true }
{
    match &handler.catches {
        Some(name) => is_below(linker, class, name),
        None => true,
    }
}

/// Whether it covers the place of a frame, too.
fn covers(runtime: &Runtime, handler: &Catching, class: u32, place: u16) -> bool
    requires { IsLoaded (linker_in runtime.now) class }
    ensures { result ≡ covers runtime.now.world class place (catcher_in handler.now) }
{
    handler.start <= place && place < handler.end && catches(runtime.linker(), handler, class)
}

/// Where the first one of them goes on that covers the place.
fn target_among(runtime: &Runtime, handlers: &[Catching], class: u32, place: u16) -> Option<u16>
    requires { IsLoaded (linker_in runtime.now) class }
    ensures { result ≡ handler_for runtime.now.world class place
        (map catcher_in handlers.now) }
{
    for handler in handlers {
        if covers(runtime, handler, class, place) {
            return Some(handler.target);
        }
    }
    None
}

/// Where a frame goes on, at a place of a version, when an object of a class is thrown there; None
/// where no handler catches it.
pub fn handler_for(
    originals: &Originals,
    runtime: &Runtime,
    version: usize,
    class: u32,
    place: u16,
) -> Option<u16>
    requires { IsLoaded (linker_in runtime.now) class }
    ensures { result ≡ handler_for runtime.now.world class place
        ((listing_of originals.now.versions).handlers version) }
{
    match originals.handlers(version) {
        Some(handlers) => target_among(runtime, handlers.as_slice(), class, place),
        None => None,
    }
}
