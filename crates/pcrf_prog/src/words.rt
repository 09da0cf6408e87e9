//! What the words of the command line ask for.
use clap::{Arg, ArgAction, ArgMatches, Command, Error, value_parser};
use dia_base::MessageForm;
use pcrf_serve::SEAT_LIMIT;
use pcrf_values::limits::SITE_LIMIT;
use std::alloc::{AllocError, Global};

/// The number of the first site that there isn't.
const SITES: i64 = SITE_LIMIT as i64;

/// One more connection than a server has seats.
const CONNECTIONS: i64 = SEAT_LIMIT as i64 + 1;

/// The fewest seconds after which a watchdog may be sent (RFC 3539, 3.4.1), and one more than the most.
const WATCHDOGS: (i64, i64) = (6, 3601);

/// After how many seconds it is, where nobody says.
const WATCHDOG: u16 = 30;

/// One more second than a server may wait before it serves.
const WAITS: i64 = 3601;

/// How many it waits, where nobody says.
const WAIT: u16 = 10;

/// Behind how many seconds without a link to a peer sessions are taken over, where nobody says.
const OVER: u16 = 5;

/// Behind how many seconds a session is told again whose gateway refused a push, where nobody says.
const AGAIN: u16 = 60;

/// How many operations of its own a site makes in an epoch at most before it begins the next, where nobody says.
const LOG: u64 = 1_000_000;

/// How many seconds a session that ended is kept at least, where nobody says: as long as an End-to-End Identifier is not used again
/// (RFC 6733, 3), so that no request of the session is on its way any more.
const KEEP_ENDED: u32 = 240;

/// One second more than it may be.
const KEEPS: i64 = 86_401;

/// The forms that may be asked for by name.
const FORMS: &[&str] = &["standard"];

/// What a run is asked to do.
#[derive(Drop)]
pub enum Asked<'a> {
    /// To run the script of standard input with the tables that the program holds.
    Held,
    /// To run it with the tables of a file.
    World(WorldWords<'a>),
    /// To serve.
    Serve(ServeWords<'a>),
}

/// The words of a world.
#[derive(Clone, Copy)]
pub struct WorldWords<'a> {
    /// The form in which its sites answer.
    pub form: MessageForm,
    /// The file of its operator tables.
    pub tables: &'a str,
}

/// The words of a server that stays.
#[derive(Clone, Copy)]
pub struct StayWords<'a> {
    /// After how many seconds without a byte a peer is asked whether it is there.
    pub watchdog: u16,
    /// How many seconds it waits at most before it serves, until a peer site told it all.
    pub wait: u16,
    /// For how many seconds a peer site may have no link before the sessions of its gateways are taken over.
    pub over: u16,
    /// Behind how many seconds a session is told again whose gateway refused a push.
    pub again: u16,
    /// How many operations of its own it makes in an epoch at most before it begins the next.
    pub log: u64,
    /// How many seconds a session that ended is kept at least.
    pub keep_ended: u32,
    /// The file that says how often the site has started, in place of its epoch.
    pub epoch_file: Option<&'a str>,
    /// The file of the secret that all sites have.
    pub secret: Option<&'a str>,
    /// Where it can be asked over HTTP.
    pub status: Option<&'a str>,
}

/// The words of a server, whose numbers are in their ranges.
#[derive(Drop)]
pub struct ServeWords<'a> {
    /// Those of one that stays, if it is to.
    pub stay: Option<StayWords<'a>>,
    /// The site's number.
    pub site: u8,
    /// The epoch that it begins.
    pub epoch: u16,
    /// How many connections it accepts.
    pub connections: u8,
    /// How many letters each exchange has.
    pub turns: u32,
    /// Its names.
    pub names: Names<'a>,
    /// The form in which it writes messages.
    pub form: MessageForm,
    /// Where it listens for connections.
    pub listen: &'a str,
    /// Where it listens for peers.
    pub exchange: &'a str,
    /// The file of its operator tables.
    pub tables: &'a str,
    /// Where its peers listen.
    pub peers: Vec<&'a str>,
}

/// The names of a Diameter node.
#[derive(Clone, Copy)]
pub struct Names<'a> {
    /// Its host.
    pub host: &'a str,
    /// Its realm.
    pub realm: &'a str,
    /// Its IPv4 address.
    pub address: &'a str,
}

/// An option that may be there.
fn choice<'a>(alloc: Global, name: &'a str, value: &'a str, help: &'a str) -> Arg<'a> {
    Arg::new(alloc, name)
        .long(name)
        .value_name(value)
        .help(help)
}

/// An option that has to be there.
fn option<'a>(alloc: Global, name: &'a str, value: &'a str, help: &'a str) -> Arg<'a> {
    choice(alloc, name, value, help).required(true)
}

/// The file of operator tables.
fn tables<'a>(alloc: Global) -> Arg<'a> {
    Arg::new(alloc, "TABLES").required(true).help(
        "The file with the operator tables, in TOML; examples/ has some",
    )
}

/// The form in which messages are written.
fn forms<'a>(alloc: Global) -> Arg<'a> {
    choice(
        alloc,
        "forms",
        "FORM",
        "Writes messages as the strictest readers of the standards want them; without it in a form of its own",
    )
    .value_parser(FORMS)
}

/// Adds the options that are numbers.
fn with_numbers<'a>(alloc: Global, serve: Command<'a>) -> Result<Command<'a>, AllocError> {
    let site = option(alloc, "site", "N", "The site's number, 0 to 15").value_parser(value_parser!(
        u8
    ).range(..SITES));
    let serve = serve.arg(site)?;
    let epoch = choice(
        alloc,
        "epoch",
        "E",
        "How often the site has started, from 1",
    )
    .required_unless_present("epoch-file")?;
    let serve = serve.arg(epoch.value_parser(value_parser!(u16).range(1..)))?;
    let connections = option(
        alloc,
        "connections",
        "K",
        "How many connections are accepted, 1 to 64; with two seats a peer 64 in all at most",
    )
    .value_parser(value_parser!(u8).range(1..CONNECTIONS));
    let serve = serve.arg(connections)?;
    let turns = choice(
        alloc,
        "turns",
        "T",
        "How many letters each exchange with a peer has; with --stay there is no end, and it is passed over",
    )
    .required_unless_present("stay")?;
    serve.arg(turns.value_parser(value_parser!(u32)))
}

/// Adds the options of a server that stays.
fn with_stay<'a>(alloc: Global, serve: Command<'a>) -> Result<Command<'a>, AllocError> {
    let stay = Arg::new(alloc, "stay")
        .long("stay")
        .action(ArgAction::SetTrue)
        .help("Serves until a signal ends it: connections, K at once, come and go");
    let serve = serve.arg(stay)?;
    let watchdog = choice(
        alloc,
        "watchdog",
        "SECONDS",
        "After how many seconds without a byte a peer is asked whether it is there, 6 to 3600, with --stay; 30 by default",
    )
    .requires_arg("stay")?;
    let watchdog = watchdog.value_parser(value_parser!(u16).range(WATCHDOGS.0..WATCHDOGS.1));
    let serve = serve.arg(watchdog)?;
    let wait = choice(
        alloc,
        "wait",
        "SECONDS",
        "How many seconds a site with peers waits at most before it serves, until one told it all, 0 to 3600, with --stay; 10 by default",
    )
    .requires_arg("stay")?;
    let serve = serve.arg(wait.value_parser(value_parser!(u16).range(..WAITS)))?;
    let serve = with_over(alloc, serve)?;
    let serve = with_again(alloc, serve)?;
    let serve = with_log(alloc, serve)?;
    let serve = with_keep_ended(alloc, serve)?;
    with_files(alloc, serve)
}

/// Adds the option of a server that stays which says when it takes over what another site left.
fn with_over<'a>(alloc: Global, serve: Command<'a>) -> Result<Command<'a>, AllocError> {
    let over = choice(
        alloc,
        "over",
        "SECONDS",
        "Behind how many seconds without a link to a peer the sessions are taken over whose gateways went over from it, 0 to 3600, with --stay; 5 by default",
    )
    .requires_arg("stay")?;
    serve.arg(over.value_parser(value_parser!(u16).range(..WAITS)))
}

/// Adds the option of a server that stays which says when it tells a session again of which something was refused.
fn with_again<'a>(alloc: Global, serve: Command<'a>) -> Result<Command<'a>, AllocError> {
    let again = choice(
        alloc,
        "again",
        "SECONDS",
        "Behind how many seconds a session is told all its rules again whose gateway refused some, 1 to 3600, with --stay; 60 by default",
    )
    .requires_arg("stay")?;
    serve.arg(again.value_parser(value_parser!(u16).range(1..WAITS)))
}

/// Adds the option of a server that stays which says how long its log may be.
fn with_log<'a>(alloc: Global, serve: Command<'a>) -> Result<Command<'a>, AllocError> {
    let log = choice(
        alloc,
        "log",
        "ENTRIES",
        "Behind how many operations of its own a site begins its next epoch in place, from 1, with --stay; 1000000 by default",
    )
    .requires_arg("stay")?;
    serve.arg(log.value_parser(value_parser!(u64).range(1..)))
}

/// Adds the option of a server that stays which says how long it keeps sessions that ended.
fn with_keep_ended<'a>(alloc: Global, serve: Command<'a>) -> Result<Command<'a>, AllocError> {
    let keep = choice(
        alloc,
        "keep-ended",
        "SECONDS",
        "How many seconds a site without peers keeps a session that ended before it forgets it, 0 to 86400, with --stay; 240 by default",
    )
    .requires_arg("stay")?;
    serve.arg(keep.value_parser(value_parser!(u32).range(..KEEPS)))
}

/// Adds the options of a server that stays which are files, and the address at which it can be asked.
fn with_files<'a>(alloc: Global, serve: Command<'a>) -> Result<Command<'a>, AllocError> {
    let epoch = choice(
        alloc,
        "epoch-file",
        "PATH",
        "The file that says how often the site has started, in place of --epoch, with --stay; it then says one more",
    )
    .requires_arg("stay")?
    .conflicts_with("epoch")?;
    let serve = serve.arg(epoch)?;
    let secret = choice(
        alloc,
        "secret",
        "FILE",
        "The file with the secret that all sites have, 32 bytes or more in hexadecimal digits, with --stay",
    )
    .requires_arg("stay")?;
    let serve = serve.arg(secret)?;
    let status = choice(
        alloc,
        "status",
        "ADDRESS:PORT",
        "Where its figures and its health can be asked over HTTP, with --stay; nowhere by default",
    )
    .requires_arg("stay")?;
    serve.arg(status)
}

/// Adds the options that are names and addresses.
fn with_names<'a>(alloc: Global, serve: Command<'a>) -> Result<Command<'a>, AllocError> {
    let serve = serve.arg(option(alloc, "host", "H", "The site's Origin-Host"))?;
    let serve = serve.arg(option(alloc, "realm", "R", "The site's Origin-Realm"))?;
    let address = "The site's Host-IP-Address, of IPv4";
    let serve = serve.arg(option(alloc, "address", "A", address))?;
    let listen = "Where gateways and application functions connect: ADDRESS:PORT";
    let serve = serve.arg(option(alloc, "listen", "L", listen))?;
    let exchange = "Where peers connect: ADDRESS:PORT";
    serve.arg(option(alloc, "exchange", "X", exchange))
}

/// The command that serves.
fn serve_command<'a>(alloc: Global) -> Result<Command<'a>, AllocError> {
    let serve = Command::new(alloc, "serve").about(
        "Serves gateways and application functions, and exchanges letters with peers, until every \
         connection has ended",
    );
    let serve = with_numbers(alloc, serve)?;
    let serve = with_names(alloc, serve)?;
    let serve = serve.arg(forms(alloc))?;
    let serve = with_stay(alloc, serve)?;
    let serve = serve.arg(tables(alloc))?;
    let peers = Arg::new(alloc, "PEER")
        .action(ArgAction::Append)
        .num_args(0..)
        .help("Where each peer listens for letters: ADDRESS:PORT");
    serve.arg(peers)
}

/// The program's command line.
fn command<'a>(alloc: Global) -> Result<Command<'a>, AllocError> {
    let world = Command::new(alloc, "world")
        .about("Runs the script of standard input on several sites with these operator tables")
        .arg(forms(alloc))?
        .arg(tables(alloc))?;
    let pcrf = Command::new(alloc, "pcrf")
        .about(
            "A policy and charging rules function of several active sites. Without any word it \
             runs a script as `pcrf world` does, with tables of its own: one access point, `ims`",
        )
        .subcommand_required(true)
        .subcommand(world)?;
    pcrf.subcommand(serve_command(alloc)?)
}

/// The text of an argument that has to be there.
fn text<'a>(matches: &ArgMatches<'a>, name: &str) -> &'a str {
    matches.get_str(name).unwrap_or_default()
}

/// The form that is asked for. `clap` reads no other name than those that there are.
fn form_of(matches: &ArgMatches<'_>) -> MessageForm {
    match matches.get_str("forms") {
        Some(_) => MessageForm::Standard,
        None => MessageForm::Own,
    }
}

/// The texts of the peers.
fn peers_of<'a>(alloc: Global, matches: &ArgMatches<'a>) -> Result<Vec<&'a str>, AllocError> {
    match matches.get_strs("PEER") {
        Some(peers) => Vec::from_slice(alloc, peers),
        None => Ok(Vec::new(alloc)),
    }
}

/// The words of a server that stays, if it is to.
fn stay_words<'a>(matches: &ArgMatches<'a>) -> Option<StayWords<'a>> {
    if !matches.get_flag("stay") {
        return None;
    }
    Some(StayWords {
        watchdog: matches.get_one::<u16>("watchdog").unwrap_or(WATCHDOG),
        wait: matches.get_one::<u16>("wait").unwrap_or(WAIT),
        over: matches.get_one::<u16>("over").unwrap_or(OVER),
        again: matches.get_one::<u16>("again").unwrap_or(AGAIN),
        log: matches.get_one::<u64>("log").unwrap_or(LOG),
        keep_ended: matches.get_one::<u32>("keep-ended").unwrap_or(KEEP_ENDED),
        epoch_file: matches.get_str("epoch-file"),
        secret: matches.get_str("secret"),
        status: matches.get_str("status"),
    })
}

/// The words of a server.
fn serve_words<'a>(alloc: Global, matches: &ArgMatches<'a>) -> Result<ServeWords<'a>, AllocError> {
    Ok(ServeWords {
        stay: stay_words(matches),
        site: matches.get_one::<u8>("site").unwrap_or_default(),
        epoch: matches.get_one::<u16>("epoch").unwrap_or_default(),
        connections: matches.get_one::<u8>("connections").unwrap_or_default(),
        turns: matches.get_one::<u32>("turns").unwrap_or_default(),
        names: Names {
            host: text(matches, "host"),
            realm: text(matches, "realm"),
            address: text(matches, "address"),
        },
        form: form_of(matches),
        listen: text(matches, "listen"),
        exchange: text(matches, "exchange"),
        tables: text(matches, "TABLES"),
        peers: peers_of(alloc, matches)?,
    })
}

/// Reads the words, the program's name first, and answers what they ask for. `clap` demands each option, and reads the numbers.
pub fn read_words<'a>(alloc: Global, words: &'a [String]) -> Result<Asked<'a>, Error> {
    if words.len() <= 1 {
        return Ok(Asked::Held);
    }
    let matches = command(alloc)?.try_get_matches_from(words)?;
    if let Some(serve) = matches.subcommand_matches("serve") {
        return Ok(Asked::Serve(serve_words(alloc, serve)?));
    }
    let Some(world) = matches.subcommand_matches("world") else {
        return Ok(Asked::Held);
    };
    Ok(Asked::World(WorldWords {
        form: form_of(world),
        tables: text(world, "TABLES"),
    }))
}
