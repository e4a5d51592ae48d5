// A journal on the fuse: what its settings and its resets do. The reader says which comes.
#![tactic(auto)]

pub mod tick; // a tick itself

ghost use Rattle.std.specs.Prelude.{◌≡◌};
ghost use Rattle.journal_records.specs.Long.{settings_of};
ghost use Rattle.journal.specs.Events.{begun_of, restarted_of};
ghost use Rattle.journal.specs.Journal.{start_run};

use crate::tick::Run;
use journal_records::long::read_settings;
use lictor_fuse::episode::{new, reset};
use lictor_settings::config;

impl Run {
    // Settings with this body: the fuse begins anew.
    // Which pattern a NaN has is the program's choice.
    #[tactic(auto, unfolding(crate::specs::Events::begun_of))]
    pub fn begin(body: &[u8]) -> Self
        ensures { result ≡ begun_of (settings_of body.now) }
    {
        Run {
            config: config(read_settings(body)),
            rt: new(),
        }
    }

    // A reset.
    // Which pattern a NaN has is the program's choice.
    #[tactic(auto, unfolding(crate::specs::Events::restarted_of))]
    pub fn restart(self) -> Self
        ensures { result ≡ restarted_of self }
    {
        Run {
            rt: reset(self.rt),
            ..self
        }
    }

    // The fuse before the first byte.
    // Which pattern a NaN has is the program's choice.
    #[tactic(auto, unfolding(crate::specs::Journal::start_run))]
    pub fn start() -> Self
        ensures { result ≡ start_run }
    {
        Run::begin(b"")
    }
}
