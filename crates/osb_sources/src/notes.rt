ghost use Rattle.std.specs.Prelude.{◌≡◌, [], IfOk};
ghost use Rattle.osb_sources.specs.Notes.{notes_of, with_reply, lack_by};

use crate::SourceAnswer;
use crate::replies::Reply;
use osb_base::{Digest, NoMemory};

/// Which kinds of replies came so far, of those that say why an item is not had.
#[derive(Clone, Copy, Debug)]
pub struct Notes {
    pub failed: bool,
    pub too_large: bool,
    pub wrong: bool,
}

impl Notes {
    pub fn new() -> Self
        ensures none { result ≡ notes_of [] }
    {
        Notes {
            failed: false,
            too_large: false,
            wrong: false,
        }
    }

    pub fn with(self, reply: &Reply) -> Self
        ensures noted { result ≡ with_reply self reply.now }
    {
        match reply {
            Reply::Failed => Notes {
                failed: true,
                ..self
            },
            Reply::TooLarge => Notes {
                too_large: true,
                ..self
            },
            Reply::Wrong => Notes {
                wrong: true,
                ..self
            },
            _ => self,
        }
    }

    /// Why the item is not had.
    pub fn lack(self, digest: &Digest) -> Result<SourceAnswer, NoMemory>
        ensures lack { IfOk result (λ answer. answer ≡ lack_by self digest.now) }
    {
        let digest = digest.clone()?;
        Ok(if self.failed {
            SourceAnswer::Fault(digest)
        } else if self.too_large {
            SourceAnswer::ItemTooLarge(digest)
        } else if self.wrong {
            SourceAnswer::Wrong(digest)
        } else {
            SourceAnswer::Missing(digest)
        })
    }
}
