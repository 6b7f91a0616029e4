//! What an agent would keep after a reply.

ghost use Rattle.std.specs.Prelude.{◌≡◌, ◌&&◌, Some, IfOk, not, unwrap_or, bytes_eq, if◌then◌else◌, true, None};
ghost use Rattle.agent_rules.specs.Half.{target};
ghost use Rattle.agent_rules.specs.Keeping.{new_uid, taught, teaches_nothing, told_hash, fits_room};
ghost use Rattle.agent_rules.specs.Reports.{where_true};

use crate::agent::Agent;
use crate::learning::{new_uid, teaches_nothing};
use agent_rules::Saved;
use message_values::ServerToAgent;
use plain_values::{Blob, NoMemory, Plain, Uid};
use std::mem::replace;

impl Agent {
    // What a reply teaches, where it gave an identifier or answered the details of the components: all that is kept, with that. Where it teaches nothing,
    // nothing is copied.
    pub(super) fn lesson(
        &self,
        reply: &ServerToAgent,
        answered: bool,
    ) -> Result<Option<Saved>, NoMemory>
        ensures lesson { IfOk result (λ lesson. lesson ≡ where_true (not (teaches_nothing self.now.half.saved (taught self.now.half reply.now answered))) (taught self.now.half reply.now answered)) }
        ensures spared { teaches_nothing self.now.half.saved (taught self.now.half reply.now answered) ≡ true → result ≡ Ok None }
    {
        let uid = self.uid_after(reply);
        let uid_given = self.saved.uid_given || new_uid(reply).is_some();
        let hash = self.hash_after(answered);
        if teaches_nothing(&self.saved, uid, uid_given, hash) {
            return Ok(None);
        }
        let components_hash = Blob::from_slice(self.alloc, hash)?;
        let mut taught = self.saved.copy(self.alloc)?;
        taught.uid = uid;
        taught.uid_given = uid_given;
        taught.components_hash = components_hash;
        Ok(Some(taught))
    }

    // The identifier that is in use once the reply was taken.
    fn uid_after(&self, reply: &ServerToAgent) -> Uid
        ensures uid { result ≡ unwrap_or (new_uid reply.now) self.now.half.saved.uid }
    {
        match new_uid(reply) {
            Some(uid) => uid,
            None => self.saved.uid,
        }
    }

    // Whether the identifier stays in use once the reply was taken.
    pub(super) fn keeps_uid(&self, reply: &ServerToAgent) -> bool
        ensures same { result ≡ bytes_eq self.now.half.saved.uid (taught self.now.half reply.now true).uid }
    {
        let uid = self.uid_after(reply);
        self.saved.uid.as_slice() == uid.as_slice()
    }

    // The hash of components that is in use once a reply was taken: the one that the last report told, where that had their details and was answered.
    fn hash_after(&self, answered: bool) -> &[u8]
        ensures hash { result.now ≡ (if answered && self.now.half.detailed then told_hash self.now.half else self.now.half.saved.components_hash) }
    {
        if answered && self.detailed {
            self.told_hash()
        } else {
            self.saved.components_hash.as_slice()
        }
    }

    fn told_hash(&self) -> &[u8]
        ensures hash { result.now ≡ told_hash self.now.half }
    {
        match &self.last {
            Some(state) => match &state.components {
                Some(hash) => hash.as_slice(),
                None => b"",
            },
            None => b"",
        }
    }

    // What is in use with this lesson.
    pub(super) fn in_use<'a>(&'a self, lesson: &'a Option<Saved>) -> &'a Saved
        ensures in_use { result.now ≡ unwrap_or lesson.now self.now.half.saved }
    {
        match lesson {
            Some(taught) => taught,
            None => &self.saved,
        }
    }

    // Whether the trial has its proof, and there is room for what is in use with its settings.
    pub(super) fn wins(&self, lesson: &mut Option<Saved>, proved: bool) -> Result<bool, NoMemory>
        ensures wins { IfOk result (λ wins. wins ≡ (proved && fits_room self.now.half.room (Some (record (unwrap_or lesson.old self.now.half.saved) { settings = target self.now.half })))) }
        ensures same { lesson.new ≡ lesson.old }
    {
        if !proved {
            return Ok(false);
        }
        match lesson {
            Some(taught) => self.tried_fits(taught),
            None => {
                let mut saved = self.saved.copy(self.alloc)?;
                self.tried_fits(&mut saved)
            }
        }
    }

    // There is room for this with the settings under trial: it is measured with them in place of its own, and then is as before.
    fn tried_fits(&self, saved: &mut Saved) -> Result<bool, NoMemory>
        ensures fits { IfOk result (λ fits. fits ≡ fits_room self.now.half.room (Some (record (saved.old) { settings = target self.now.half }))) }
        ensures same { saved.new ≡ saved.old }
    {
        let tried = self.target().copy(self.alloc)?;
        let own = replace(&mut saved.settings, tried);
        let fits = self.store.has_room(saved);
        saved.settings = own;
        Ok(fits)
    }
}
