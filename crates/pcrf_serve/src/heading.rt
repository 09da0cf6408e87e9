//! A letter opened: what stands on it, and the event that takes in what it brings.
ghost use Rattle.std.specs.Prelude.{◌≡◌, true, IfSome, IfNone};
ghost use Rattle.pcrf_model.specs.Cursors.{is_acknowledgement};
ghost use Rattle.site_lock.specs.Values.{event_value};

use peer_exchange::{Body, Letter, Range, Snapshot};
use site_lock::Event;

/// What stands on a letter beside the operations or the state that it brings.
#[derive(Clone, Copy)]
pub(crate) struct Heading {
    edition: u32,
    site: u8,
    epoch: u16,
    /// The position of the first operation, or the length of the log that goes with the state.
    at: u64,
}

impl Heading {
    ghost use Rattle.pcrf_serve.specs.Headings.{IsOpened, letter_with};

    /// Opens a letter. An acknowledgement brings nothing.
    pub(crate) fn open(letter: Letter) -> Option<(Heading, Event)>
        ensures opened { IfSome result (λ opened. IsOpened opened.0 (event_value opened.1)) }
        ensures same { IfSome result (λ opened. letter_with opened.0 (event_value opened.1)
            ≡ letter) }
        ensures none { IfNone result (is_acknowledgement letter.body ≡ true) }
    {
        letter.note_kept();
        let (edition, site, epoch) = (letter.edition(), letter.site(), letter.epoch());
        let (at, event) = match letter.into_body() {
            Body::Range(Range { from, operations }) => (from, Event::Ops(operations)),
            Body::Snapshot(Snapshot { state, log_length }) => (log_length, Event::Whole(state)),
            Body::Acknowledgement(_) => return None,
        };
        let heading = Heading {
            edition,
            site,
            epoch,
            at,
        };
        Some((heading, event))
    }

    /// Closes a letter again.
    pub(crate) fn close(self, event: Event) -> Letter
        requires { IsOpened self (event_value event) }
        ensures { result ≡ letter_with self (event_value event) }
    {
        let body = match event {
            Event::Ops(operations) => Body::Range(Range {
                from: self.at,
                operations,
            }),
            Event::Whole(state) => Body::Snapshot(Snapshot {
                state,
                log_length: self.at,
            }),
            Event::Serve(_)
            | Event::Push(_)
            | Event::Abort(_)
            | Event::Retell(_)
            | Event::AskOwn(_)
            | Event::AskWhole => { unreachable!() }
        };
        let Some(letter) = Letter::of(self.edition, self.site, self.epoch, body) else {
            unreachable!()
        };
        letter
    }
}
