//! Tests of servers over readers and writers in memory: connections are served side by side, each ends by itself, a full history
//! is told, and a gateway reads the re-authorisation request that an application function's request led to.

mod connections;
mod frames;
mod gates;
mod notes;
mod outcomes;
mod servers;
