// What holds of a whole source.

ghost use Rattle.std.specs.Prelude.{◌≡◌};
ghost use Rattle.f77_scene.specs.Statements as statements;
ghost use Rattle.f77_program.specs.Wholes.{given_of};

use crate::constants::Constants;
use crate::names::Names;

/// What holds of a whole source.
#[derive(Drop)]
pub struct Whole {
    /// The settings, the last one first.
    pub settings: Constants,
    /// The names in INTEGER statements.
    pub integers: Names,
}

impl Whole {
    /// The value that a name gets: the last setting's of that name, or the one that is written.
    pub fn value_set(&self, name: &[u8], written: i64) -> i64
        ensures { result ≡ statements.value_set (given_of self.now).settings name.now written }
    {
        if self.settings.contains(name) {
            self.settings.value(name)
        } else {
            written
        }
    }
}
