//! The texts of faults of messages, of sites, of worlds of sites, of books that don't settle, and of letters.
use dia_codec::{FrameFault, MsgFault, WriteFault};
use pcrf_world::WorldFault;
use peer_exchange::{FrameFault as LetterFrameFault, LetterFault};
use site_book::SettleFault;
use site_machine::StepFault;
use std::alloc::AllocGlobal;
use std::fmt::Display;
use std::process::Abort;

/// A fault is told so.
fn tells<F: Display>(rt: &(impl AllocGlobal + Abort), fault: &F, text: &str) {
    let told = format!(in rt.alloc(); "{fault}").expect(rt, "memory");
    assert_eq!(rt; told.as_str(), text);
}

#[test]
fn faults_of_messages_are_told(rt: HostRuntime) {
    tells(
        &rt,
        &MsgFault::NotWhole,
        "the bytes are not one whole message",
    );
    tells(&rt, &MsgFault::BadVersion, "the version is not 1");
    tells(&rt, &MsgFault::BadFlags, "a request has the error flag");
    let length = "an AVP length is below its header's or past the end";
    tells(&rt, &MsgFault::BadAvpLength, length);
    tells(&rt, &MsgFault::NoMemory, "no memory");
    tells(
        &rt,
        &WriteFault::TooLong,
        "the message is longer than 65532 bytes",
    );
    tells(&rt, &WriteFault::NoMemory, "no memory");
    tells(
        &rt,
        &FrameFault::ShortLength,
        "the message length is below 20",
    );
    tells(
        &rt,
        &FrameFault::OddLength,
        "the message length is not a multiple of 4",
    );
    tells(
        &rt,
        &FrameFault::TooLong,
        "the message length is above 65532",
    );
    tells(&rt, &FrameFault::NoMemory, "no memory");
}

#[test]
fn faults_of_sites_are_told(rt: HostRuntime) {
    tells(&rt, &StepFault::HistoryFull, "the history is full");
    tells(&rt, &StepFault::ClockFull, "the clock is at its end");
    tells(&rt, &StepFault::NoMemory, "no memory");
    tells(
        &rt,
        &WorldFault::NoSuchSite,
        "there is no site of that number",
    );
    tells(
        &rt,
        &WorldFault::NoSuchLetter,
        "there is no letter of that number",
    );
    tells(&rt, &WorldFault::EpochFull, "the site is in its last epoch");
    tells(
        &rt,
        &WorldFault::ClockFull,
        "the site's clock is at its end",
    );
    let taken = "no memory, with 3 operations of the letter taken";
    tells(&rt, &WorldFault::NoMemory { taken: 3 }, taken);
    tells(&rt, &SettleFault::MissingSeat, "a seat is missing");
    tells(
        &rt,
        &SettleFault::WrongPlace,
        "a receipt is at a wrong place",
    );
    tells(
        &rt,
        &SettleFault::WrongContent,
        "a receipt has a wrong content",
    );
}

#[test]
fn faults_of_letters_are_told(rt: HostRuntime) {
    let longer = "the letter is longer than 1073741824 bytes";
    tells(&rt, &LetterFrameFault::TooLong, longer);
    tells(&rt, &LetterFrameFault::NoMemory, "no memory");
    tells(
        &rt,
        &LetterFault::BadVersion,
        "the letter's version is not 1, 2 or 3",
    );
    let edition = "the letter is of another edition of the operator tables";
    tells(&rt, &LetterFault::BadEdition, edition);
    tells(&rt, &LetterFault::BadShape, "the bytes are no letter");
    tells(&rt, &LetterFault::TooLong, longer);
    tells(&rt, &LetterFault::NoMemory, "no memory");
}
