//! What was seen of a server every few seconds of the last ten minutes.
use std::alloc::{AllocError, Global};
use std::fmt::Write as _;
use std::sync::{Mutex, Wait};

/// How many seconds lie between two samples at least.
const SAMPLE_SECONDS: u64 = 5;

/// How many samples are kept.
const SAMPLES: usize = 120;

/// What was seen at a moment.
#[derive(Clone, Copy)]
pub struct Sample {
    /// For how many seconds the server had run.
    pub at: u64,
    /// How many live sessions there were of gateways, and of application functions.
    pub sessions: u64,
    pub calls: u64,
    /// How many requests had come and gone since the start.
    pub messages: u64,
}

/// The samples, of which the newest takes the place of the oldest.
#[derive(Drop)]
struct Ring {
    samples: Vec<Sample>,
    /// Where the next one comes.
    next: usize,
}

/// What was seen in the last minutes.
#[derive(Drop)]
pub struct History {
    ring: Mutex<Ring>,
}

impl Ring {
    /// When the newest sample was taken.
    fn last(&self) -> Option<u64> {
        let newest = match self.next.checked_sub(1) {
            Some(place) => self.samples.get(place)?,
            None => self.samples.last()?,
        };
        Some(newest.at)
    }

    /// Puts one in the place of the oldest.
    fn put(&mut self, sample: Sample) {
        match self.samples.get_mut(self.next) {
            Some(oldest) => *oldest = sample,
            None => {
                if self.samples.push(sample).is_err() {
                    return;
                }
            }
        }
        self.next = self.next.wrapping_add(1) % SAMPLES;
    }
}

impl History {
    /// Nothing was seen.
    pub fn start(alloc: Global) -> Result<History, AllocError> {
        let samples = Vec::with_capacity(alloc, SAMPLES)?;
        Ok(History {
            ring: Mutex::new(Ring { samples, next: 0 }),
        })
    }

    /// Whether it is time for the next sample.
    pub fn is_due(&self, rt: &impl Wait, at: u64) -> bool {
        match self.ring.lock(rt).last() {
            Some(last) => at >= last.saturating_add(SAMPLE_SECONDS),
            None => true,
        }
    }

    /// Keeps a sample.
    pub fn put(&self, rt: &impl Wait, sample: Sample) {
        self.ring.lock(rt).put(sample);
    }

    /// The samples as JSON, the oldest first: each as its second, the sessions of gateways, those of application functions, and the requests.
    pub fn shown(&self, rt: &impl Wait, alloc: Global) -> Result<String, AllocError> {
        let ring = self.ring.lock(rt);
        let mut text = String::new(alloc);
        text.push_str("{\"samples\":[")?;
        let older = ring.samples.iter().skip(ring.next);
        let newer = ring.samples.iter().take(ring.next);
        for (number, sample) in older.chain(newer).enumerate() {
            if number > 0 {
                text.push(',')?;
            }
            let (at, messages) = (sample.at, sample.messages);
            let (sessions, calls) = (sample.sessions, sample.calls);
            write!(text, "[{at},{sessions},{calls},{messages}]")?;
        }
        text.push_str("]}")?;
        Ok(text)
    }
}
