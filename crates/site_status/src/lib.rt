//! What a running site can be asked over HTTP: its figures as Prometheus reads them, the heads of requests, the pages that there are, and the
//! bytes of responses; what threads count side by side; and the page on which a browser shows a site that runs.
#![tactic(auto)]

mod codes;
mod counts;
mod exposition;
mod head;
mod histogram;
mod names;
mod pages;
mod parts;
mod response;
mod times;

pub use codes::{CODE_LIMIT, CodeCounts};
pub use counts::{Counter, Gauge};
pub use exposition::{Exposition, Family, Kind, Label, Number};
pub use head::{FIELD_LIMIT, HEAD_LIMIT, Head, read_head};
pub use names::{NAME_LIMIT, name_of};
pub use pages::{Page, page_of, query_of};
pub use parts::{CSS, HTML, SCRIPT};
pub use response::{Media, Status, put_response};
pub use times::{BOUNDS, Times, TimesSnapshot, bucket_of};
