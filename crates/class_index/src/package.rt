//! Packages of class names (JVM Specification 5.3).

ghost use Rattle.std.specs.Prelude.{◌≡◌, ◌≤◌, length};
ghost use Rattle.jvm_model.specs.Basis.Descriptors.{same_text};
ghost use Rattle.jvm_model.specs.Classes.Selection.{package_end, package_of};

/// The unit between the parts of a name.
const SLASH: u16 = 47;

/// How many units come up to the last slash.
fn package_end(name: &[u16]) -> usize
    ensures end { result ≡ package_end 0 0 name.now }
    ensures within { result ≤ length name.now }
{
    let mut end = 0;
    for (at, unit) in name.iter().enumerate() {
        if *unit == SLASH {
            end = at + 1;
        }
    }
    end
}

/// A name up to its last slash.
fn package_of(name: &[u16]) -> &[u16]
    ensures { result.now ≡ package_of name.now }
{
    &name[..package_end(name)]
}

/// Whether two names are of one package.
pub fn in_same_package(a: &[u16], b: &[u16]) -> bool
    ensures { result ≡ same_text (package_of a.now) (package_of b.now) }
{
    package_of(a) == package_of(b)
}
