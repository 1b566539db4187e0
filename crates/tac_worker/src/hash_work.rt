//! A password that is worked out before the packet is served that has it.

ghost use Rattle.std.specs.Prelude.{◌≡◌, IfOk};

use std::alloc::{AllocError, Global};
use tac_conn::{Hash, HashRoom, Typed};

/// A password that was typed, and the hash under whose rounds and salt it is to be worked out.
#[derive(Drop)]
pub struct HashWork {
    password: Typed,
    room: HashRoom,
}

impl HashWork {
    /// That of this password, of which it has a copy. The error means that memory ran out.
    pub(crate) fn new(alloc: Global, password: &Typed, hash: &Hash) -> Result<HashWork, AllocError>
        ensures { IfOk result
            (λ work. (work.password ≡ password.now) × (work.room ≡ hash.now)) }
    {
        let room = HashRoom::new(alloc, hash)?;
        let password = password.copy(alloc)?;
        Ok(HashWork { password, room })
    }

    /// Works it out: the same password, which knows what it makes. Linear in the rounds.
    pub fn done(self) -> Typed
        ensures { result ≡ self.password }
    {
        let HashWork { mut password, room } = self;
        password.work_out(room);
        password
    }
}
