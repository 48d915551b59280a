// A session lent to be changed: the by-value step, and what it leaves put back where the session stands.
ghost use Rattle.std.specs.Prelude.{◌≡◌};
ghost use Rattle.joining.specs.Joining.{take_frame};

use crate::{Answer, Session, Taken};

impl Session {
    // Takes a frame of this session's sender, as `frame` does, and advances the session where it stands.
    pub fn advance(&mut self, id: u32, data: &[u8]) -> Answer
        ensures { (result ≡ (take_frame self.old id «data».now).answer)
            × (self.new ≡ (take_frame self.old id «data».now).session) }
    {
        let taken = (*self).frame(id, data);
        *self = taken.session;
        taken.answer
    }

    // Lends the session to `advance` and hands it back with the answer, for code that holds its sessions by value.
    pub fn lend(self, id: u32, data: &[u8]) -> Taken
        ensures { result ≡ take_frame self id «data».now }
    {
        let mut session = self;
        let answer = session.advance(id, data);
        Taken { answer, session }
    }
}
