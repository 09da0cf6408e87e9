//! A link is opened: both ends prove that they have the secret, where there is one.
use crate::ends::{Ends, Input};
use crate::heads::Expected;
use crate::line::{Line, Outward, Timely};
use crate::link::Link;
use crate::sealed::{
    Course, Greeting, Key, SealFault, SealedReader, SealedWriter, Side, prove_dialling,
    prove_listening,
};
use crate::teller::Output;
use std::alloc::Global;
use std::random::RandomSource;
use std::sync::{Arc, Wait};
use std::time::Clock;

/// How links of a site are opened.
#[derive(Clone, Copy)]
pub struct Opening {
    pub alloc: Global,
    /// What letters are judged by.
    pub expected: Expected,
    /// The secret that all sites have, if they have one.
    pub secret: Option<Key>,
}

impl Opening {
    /// The two directions of a line under a secret, of which this end is that one.
    fn sealed<'r, R: Clock + RandomSource>(
        &self,
        rt: &'r R,
        line: &Arc<Line>,
        secret: &Key,
        side: Side,
    ) -> Result<Ends<'r, R>, SealFault> {
        let mut reader = Timely {
            clock: rt,
            line: Arc::try_clone(line)?,
        };
        let mut writer = Outward {
            line: Arc::try_clone(line)?,
        };
        let own = Greeting::next(rt, self.expected.number)?;
        let both = match side {
            Side::Dialler => prove_dialling(&mut reader, &mut writer, secret, own)?,
            Side::Listener => prove_listening(&mut reader, &mut writer, secret, own)?,
        };
        let key = both.key(secret);
        let input = SealedReader::start(self.alloc, reader, Course::start(key, side.other()));
        let output = SealedWriter::start(self.alloc, writer, Course::start(key, side));
        Ok(Ends {
            input: Input::Sealed(input),
            output: Output::Sealed(output),
            proved: Some(both.site_beside(side)),
        })
    }

    /// The two directions of a line as they are.
    fn plain<'r, R: Clock>(&self, rt: &'r R, line: &Arc<Line>) -> Result<Ends<'r, R>, SealFault> {
        let input = Timely {
            clock: rt,
            line: Arc::try_clone(line)?,
        };
        let output = Outward {
            line: Arc::try_clone(line)?,
        };
        Ok(Ends {
            input: Input::Plain(input),
            output: Output::Plain(output),
            proved: None,
        })
    }

    /// A link over a line, of which this end is that one.
    pub fn link<'r, R: Clock + RandomSource + Wait>(
        &self,
        rt: &'r R,
        line: &Arc<Line>,
        side: Side,
    ) -> Result<Link<'r, R>, SealFault> {
        let ends = match &self.secret {
            Some(secret) => self.sealed(rt, line, secret, side)?,
            None => self.plain(rt, line)?,
        };
        let line = Arc::try_clone(line)?;
        Ok(Link::of(self.alloc, rt, ends, line, self.expected)?)
    }
}
