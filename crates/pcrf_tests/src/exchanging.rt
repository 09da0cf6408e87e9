//! Tests of exchanges of letters (`pcrf_serve`), of calls that wait for a site to grow, and of letters' frames: peers whose letters
//! and answers are written down, or are not as they should be. Two sites exchange letters over loopback in `examples/serve`.

mod dialing;
mod frames;
mod growth;
mod letters;
mod listening;
mod peers;
pub mod wire;
