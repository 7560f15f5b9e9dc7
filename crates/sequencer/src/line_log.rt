//! A log that takes lines.

ghost use Rattle.std.specs.Prelude.{◌≡◌};
ghost use Rattle.log_text.specs.LineBuffers.{sentence_of};
ghost use Rattle.log_text.specs.Statement.{IsInGrammar};
ghost use Rattle.sequencer.specs.Log.{Accepted, in_version, with_accepted};
ghost use Rattle.sequencer.specs.Pushing.{Pushes};

use crate::log::Log;
use crate::refused::Refused;
use log_text::{LineBuffers, Version};
use model_base::Place;

/// A log that takes the statements of lines, or a state that has such a log.
pub trait LineLog {
    ghost log: { Self → Accepted };

    ghost with_log: { Self → Accepted → Self };

    /// The version of the grammar of the next line.
    fn version(&self) -> Version
        ensures { result ≡ (log self.now).names.version };

    /// Sets the version of the grammar of the next lines.
    fn set_version(&mut self, version: Version)
        ensures { self.new ≡ with_log self.old (in_version version (log self.old)) };

    /// Takes the statement that a line was read as, as `Log::push_read`.
    fn push_read(&mut self, read: &LineBuffers<'_>) -> Result<Place, Refused>
        requires { IsInGrammar (sentence_of read.now) }
        ensures { Pushes (log self.old) (sentence_of read.now) result self.old self.new
            (with_log self.old (with_accepted (log self.old) (sentence_of read.now))) };

    ghost same: { (state : Self) → with_log state (log state) ≡ state };
}

impl LineLog for Log {
    ghost use Rattle.std.specs.Prelude.{refl};

    ghost log = { λ log. log };

    ghost with_log = { λ old log. log };

    ghost same = { λ log. refl };

    fn version(&self) -> Version {
        self.catalog().version()
    }

    fn set_version(&mut self, version: Version) {
        self.set_version(version);
    }

    fn push_read(&mut self, read: &LineBuffers<'_>) -> Result<Place, Refused> {
        self.push_read(read)
    }
}
