//! The program `pcrf`.
#![tactic(auto)]

mod files;
mod kept_files;
mod operator_tables;
mod resident;
mod run;
mod seeding;
mod server;
mod socket_server;
mod stamped;
mod staying;
mod told;
mod words;

use std::net::{TcpListener, TcpStream};
use std::process::ExitCode;

fn main(rt: HostRuntime) -> ExitCode {
    // The check of lent values asks for the types of a runtime's sockets where the runtime is handed on.
    let _sockets: (Option<TcpListener>, Option<TcpStream>) = (None, None);
    let status = match run::words(&rt) {
        Ok(words) => run::run_logged(&rt, words.as_slice(), rt.stdin(), rt.stdout(), rt.stderr()),
        Err(error) => run::no_words(rt.stderr(), &error),
    };
    ExitCode::from(status)
}
