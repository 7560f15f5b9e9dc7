//! An engine takes lines as its log does.

use crate::run::Engine;
use log_text::{LineBuffers, Version};
use model_base::Place;
use sequencer::{LineLog, Refused};

impl LineLog for Engine {
    ghost use Rattle.std.specs.Prelude.{refl};

    ghost log = { λ run. run.log };

    ghost with_log = { λ run log. record run { log = log } };

    ghost same = { λ run. refl };

    #[inline(always)]
    fn version(&self) -> Version {
        let log = self.log();
        let _dropped = log.dropped();
        log.catalog().version()
    }

    fn set_version(&mut self, version: Version) {
        self.set_version(version);
    }

    #[inline(always)]
    fn push_read(&mut self, read: &LineBuffers<'_>) -> Result<Place, Refused> {
        self.push_read(read)
    }
}
