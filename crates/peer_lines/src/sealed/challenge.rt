//! Challenges, as they are given.
ghost use Rattle.std.specs.Prelude.{◌≡◌, IfOk};

use crate::sealed::fault::SealFault;
use crate::sealed::proving::{CHALLENGE_BYTES, Greeting};
use std::random::RandomSource;

/// Who gives challenges, another one each time, which nobody can foresee.
pub trait Challenges {
    ghost use Rattle.std.specs.Prelude.{List, ℕ, IfOk};

    // These bytes were given.
    ghost IsGiven: { Self → List ℕ → Type 0 };

    /// The next one.
    fn next(&self) -> Result<[u8; CHALLENGE_BYTES], SealFault>
        ensures { IfOk result (λ bytes. IsGiven self.now bytes) };
}

impl<R: RandomSource> Challenges for R {
    ghost use Rattle.std.specs.Prelude.{⊤};

    // Of the system's random bytes nothing is known.
    ghost IsGiven = { λ _ _. ⊤ };

    fn next(&self) -> Result<[u8; CHALLENGE_BYTES], SealFault> {
        let mut challenge = [0u8; CHALLENGE_BYTES];
        if self.fill_bytes(&mut challenge).is_err() {
            return Err(SealFault::ReadFailed);
        }
        Ok(challenge)
    }
}

impl Greeting {
    /// What an end of that site says first on a link, with the next challenge, as it is given.
    pub fn next<C: Challenges>(challenges: &C, site: u8) -> Result<Greeting, SealFault>
        ensures site { IfOk result (λ greeting. greeting.site ≡ site) }
        ensures given { IfOk result (λ greeting. C.IsGiven challenges.now greeting.challenge) }
    {
        let challenge = challenges.next()?;
        Ok(Greeting { site, challenge })
    }
}
