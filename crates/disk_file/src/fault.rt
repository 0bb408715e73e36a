//! How calls that failed are counted, and why the last of them did.
//! A `FileDisk` and a `FileSource` hold one each; `counted` alone raises the count.

ghost use Rattle.std.specs.Prelude.{◌≡◌, MatchResult, Ok, Err};
ghost use Rattle.store_api.specs.Causes.{HasCause};

use std::io;
use store_api::Failed;

/// The faults of an object so far.
#[derive(Drop)]
pub struct Faults {
    pub count: u64,
    last: Option<io::Error>,
}

impl Faults {
    pub fn none() -> Faults
        ensures { result.count ≡ 0 }
    {
        Faults {
            count: 0,
            last: None,
        }
    }

    /// Why the last call that failed did.
    pub fn last(&self) -> Option<&io::Error> {
        self.last.as_ref()
    }

    /// The same outcome, where an error is a fault that has been counted.
    pub fn counted<T: Drop>(&mut self, outcome: io::Result<T>) -> Result<T, Failed>
        ensures value { MatchResult outcome (λ x. result ≡ Ok x) (λ _. result ≡ Err (record {})) }
        ensures cause { HasCause self.old.count self.new.count result }
    {
        match outcome {
            Ok(value) => Ok(value),
            Err(error) => {
                self.count = self.count.saturating_add(1);
                self.last = Some(error);
                Err(Failed)
            }
        }
    }
}
