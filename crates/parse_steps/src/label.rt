//! Names with their places.
ghost use Rattle.std.specs.Prelude.{◌≡◌};

use anvil_lexer::Name;

/// A name with its place.
#[derive(Drop)]
pub struct Label {
    pub name: Name,
    pub at: u32,
}

impl Label {
    /// The same once more.
    pub fn copy(&self) -> Label
        ensures { result ≡ self.now }
    {
        Label {
            name: self.name.copy(),
            at: self.at,
        }
    }
}
