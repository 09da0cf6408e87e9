//! The figures that there are (docs/STATUS.md).
use site_status::{Family, Kind};

pub const UPTIME: Family<'static> = Family {
    name: "pcrf_uptime_seconds",
    help: "Seconds since the process started.",
    kind: Kind::Gauge,
};

pub const SERVING: Family<'static> = Family {
    name: "pcrf_serving",
    help: "1 once the site serves, 0 while it waits for a peer site to tell it all.",
    kind: Kind::Gauge,
};

pub const SITE: Family<'static> = Family {
    name: "pcrf_site_info",
    help: "1, with the number of the site and the edition of its tables.",
    kind: Kind::Gauge,
};

pub const EPOCH: Family<'static> = Family {
    name: "pcrf_epoch",
    help: "The epoch that the site is in.",
    kind: Kind::Gauge,
};

pub const EPOCHS_BEGUN: Family<'static> = Family {
    name: "pcrf_epochs_begun_total",
    help: "Epochs that the site began in place.",
    kind: Kind::Counter,
};

pub const OPERATIONS: Family<'static> = Family {
    name: "pcrf_operations_made",
    help: "Operations that the site made itself in its epoch, as of a second ago at most.",
    kind: Kind::Gauge,
};

pub const SEATS: Family<'static> = Family {
    name: "pcrf_connection_seats",
    help: "Connections of gateways and application functions that may be served at once.",
    kind: Kind::Gauge,
};

pub const CONNECTIONS: Family<'static> = Family {
    name: "pcrf_connections",
    help: "Connections that are served.",
    kind: Kind::Gauge,
};

pub const SEATED: Family<'static> = Family {
    name: "pcrf_connections_total",
    help: "Connections that got a seat.",
    kind: Kind::Counter,
};

pub const LOST: Family<'static> = Family {
    name: "pcrf_connections_lost_total",
    help: "Connections that were lost, or that the site closed for a cause.",
    kind: Kind::Counter,
};

pub const CROWDED: Family<'static> = Family {
    name: "pcrf_connections_refused_total",
    help: "Connections that were closed since all seats were taken.",
    kind: Kind::Counter,
};

pub const STRANGERS: Family<'static> = Family {
    name: "pcrf_capabilities_refused_total",
    help: "Capabilities exchanges that were refused.",
    kind: Kind::Counter,
};

pub const HOST_CONNECTIONS: Family<'static> = Family {
    name: "pcrf_host_connections",
    help: "Connections of a host that exchanged capabilities since the start.",
    kind: Kind::Gauge,
};

pub const HOST_WAITING: Family<'static> = Family {
    name: "pcrf_host_waiting",
    help: "1 where a re-authorisation request may wait for a host, as of a second ago at most.",
    kind: Kind::Gauge,
};

pub const PUSH_REFUSALS: Family<'static> = Family {
    name: "pcrf_push_refusals_total",
    help: "Re-authorisation requests that were answered by a code that is none of success, 0 where there was none.",
    kind: Kind::Counter,
};

pub const PUSH_UNWRITTEN: Family<'static> = Family {
    name: "pcrf_pushes_unwritten_total",
    help: "Re-authorisation requests that could not be written.",
    kind: Kind::Counter,
};

pub const RESIDENT: Family<'static> = Family {
    name: "process_resident_memory_bytes",
    help: "Bytes of the machine's memory that the process has.",
    kind: Kind::Gauge,
};

pub const CALLS: Family<'static> = Family {
    name: "pcrf_site_call_seconds",
    help: "How long calls took that serve, push, abort or take a letter, from the lock asked for to the reply: one in seven is timed.",
    kind: Kind::Histogram,
};

pub const MESSAGES: Family<'static> = Family {
    name: "pcrf_messages_total",
    help: "Requests that were answered, by the code of the answer, 0 where it had none.",
    kind: Kind::Counter,
};

pub const REQUESTS_TAKEN: Family<'static> = Family {
    name: "pcrf_requests_taken_total",
    help: "Requests that came.",
    kind: Kind::Counter,
};

pub const REQUESTS_SENT: Family<'static> = Family {
    name: "pcrf_requests_sent_total",
    help: "Requests that the site sent: re-authorisation requests, abort session requests and watchdogs.",
    kind: Kind::Counter,
};

pub const ANSWERS_TAKEN: Family<'static> = Family {
    name: "pcrf_answers_taken_total",
    help: "Answers that came.",
    kind: Kind::Counter,
};

pub const PEER_LINK: Family<'static> = Family {
    name: "pcrf_peer_link",
    help: "1 while letters go to a peer site.",
    kind: Kind::Gauge,
};

pub const PEER_LETTERS: Family<'static> = Family {
    name: "pcrf_peer_letters_total",
    help: "Letters that a peer site acknowledged.",
    kind: Kind::Counter,
};

pub const PEER_LACKING: Family<'static> = Family {
    name: "pcrf_peer_operations_lacking",
    help: "Operations that the site made itself in its epoch and that a peer site did not acknowledge yet.",
    kind: Kind::Gauge,
};

pub const SENDER_LINK: Family<'static> = Family {
    name: "pcrf_sender_link",
    help: "1 while letters of a site come in.",
    kind: Kind::Gauge,
};

pub const SENDER_LETTERS: Family<'static> = Family {
    name: "pcrf_sender_letters_total",
    help: "Letters that were taken of a site.",
    kind: Kind::Counter,
};

pub const ASKS: Family<'static> = Family {
    name: "pcrf_status_requests_total",
    help: "Requests of this kind that were answered, by code.",
    kind: Kind::Counter,
};

pub const SESSIONS: Family<'static> = Family {
    name: "pcrf_sessions",
    help: "Sessions of gateways and of application functions that the site knows, as they were counted last.",
    kind: Kind::Gauge,
};

pub const CALLS_BOUND: Family<'static> = Family {
    name: "pcrf_calls_bound",
    help: "Live sessions of application functions that a gateway's session carries, as they were counted last.",
    kind: Kind::Gauge,
};

pub const COUNT_AGE: Family<'static> = Family {
    name: "pcrf_sessions_count_age_seconds",
    help: "Seconds since sessions were begun to be counted last.",
    kind: Kind::Gauge,
};

pub const UNCOUNTED: Family<'static> = Family {
    name: "pcrf_sessions_unnoted_total",
    help: "Times that a session was served or told of and could not be noted, so that it may be missing where they are counted.",
    kind: Kind::Counter,
};

pub const ENDED_KEPT: Family<'static> = Family {
    name: "pcrf_sessions_ended_kept",
    help: "Sessions that ended at this site and are yet to be forgotten.",
    kind: Kind::Gauge,
};

pub const ENDED_AGE: Family<'static> = Family {
    name: "pcrf_sessions_ended_age_seconds",
    help: "Seconds since the oldest of them ended.",
    kind: Kind::Gauge,
};

pub const FORGOTTEN: Family<'static> = Family {
    name: "pcrf_sessions_forgotten_total",
    help: "Sessions that ended and that the site forgot.",
    kind: Kind::Counter,
};

pub const UNNOTED_ENDS: Family<'static> = Family {
    name: "pcrf_sessions_ended_unnoted_total",
    help: "Sessions that ended and could not be noted, so that they are kept for good.",
    kind: Kind::Counter,
};

pub const OPERATIONS_TAKEN: Family<'static> = Family {
    name: "pcrf_operations_taken_total",
    help: "Operations of letters that were taken, by the site that made them.",
    kind: Kind::Counter,
};

pub const WHOLES_TAKEN: Family<'static> = Family {
    name: "pcrf_whole_states_taken_total",
    help: "Whole states of other sites that were taken.",
    kind: Kind::Counter,
};

pub const PEER_TOLD: Family<'static> = Family {
    name: "pcrf_peer_operations_told",
    help: "Operations that the site made itself in its epoch and that a peer site acknowledged.",
    kind: Kind::Gauge,
};

pub const LETTERS_SENT: Family<'static> = Family {
    name: "pcrf_letters_sent_total",
    help: "Letters that were begun to be sent, by kind.",
    kind: Kind::Counter,
};

pub const LETTERS_TAKEN: Family<'static> = Family {
    name: "pcrf_letters_taken_total",
    help: "Letters that began to come, by kind.",
    kind: Kind::Counter,
};

pub const LETTER_BYTES_SENT: Family<'static> = Family {
    name: "pcrf_letter_bytes_sent_total",
    help: "Bytes of the letters that were begun to be sent, by kind.",
    kind: Kind::Counter,
};

pub const LETTER_BYTES_TAKEN: Family<'static> = Family {
    name: "pcrf_letter_bytes_taken_total",
    help: "Bytes of the letters that began to come, by kind.",
    kind: Kind::Counter,
};
