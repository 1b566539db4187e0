//! What the tests share: lines that are typed at a console, and what a connection asks.

use basics::Bytes;
use std::alloc::{AllocError, Global};
use std::test::Fail;
use tac_conn::{Ask, Proof, Service, Typed};
use tac_console::{
    Action, Batch, read_console, write_batch_answer, write_edit_answer, write_notice,
    write_query_answer,
};
use tac_desk::Desk;
use tac_tally::{AcctKind, Record};

/// What a console prints of a line, at any desk.
pub(crate) fn console<D: Desk>(
    alloc: Global,
    desk: &mut D,
    batch: &mut Batch,
    line: &[u8],
    out: &mut Vec<u8>,
) -> Result<(), AllocError> {
    let asked = read_console(alloc, line)?;
    match batch.take(alloc, asked)? {
        Action::Edit(edit) => match desk.edit(&edit) {
            Ok(changes) => write_edit_answer(alloc, out, &Ok(changes.get())),
            Err(fault) => write_edit_answer(alloc, out, &Err(fault)),
        },
        Action::Commit(edits) => match desk.edit_all(edits.as_slice()) {
            Ok(changes) => write_batch_answer(alloc, out, &Ok(changes.get())),
            Err(fault) => write_batch_answer(alloc, out, &Err(fault)),
        },
        Action::Query(query) => match desk.query(&query) {
            Ok(report) => write_query_answer(alloc, out, &query, &Ok(report.get())),
            Err(fault) => write_query_answer(alloc, out, &query, &Err(fault)),
        },
        Action::Tell(notice) => write_notice(alloc, out, notice),
    }
}

// The first word of a text, and what follows the space.
fn word(text: &str) -> (&str, &str) {
    text.split_once(' ').unwrap_or((text, ""))
}

fn kind(word: &str) -> AcctKind {
    match word {
        "start" => AcctKind::Begin,
        "stop" => AcctKind::Stop,
        "watchdog" => AcctKind::Watch,
        _ => AcctKind::Update,
    }
}

// Bytes; the empty text means none.
fn some(alloc: Global, text: &str) -> Result<Option<Bytes>, AllocError> {
    if text.is_empty() {
        return Ok(None);
    }
    let bytes = Bytes::from_slice(alloc, text.as_bytes())?;
    Ok(Some(bytes))
}

// `KIND TASK SECONDS LINE` of this user, perhaps without the last word.
fn account(alloc: Global, user: Bytes, words: &str) -> Result<Ask, Fail> {
    let (verb, rest) = word(words);
    let (task, rest) = word(rest);
    let (seconds, line) = word(rest);
    Ok(Ask::Account(Record {
        user,
        kind: kind(verb),
        task: Bytes::from_slice(alloc, task.as_bytes())?,
        elapsed: seconds.parse::<u32>()?,
        line: some(alloc, line)?,
    }))
}

// A password for this service.
fn proves(alloc: Global, user: Bytes, service: Service, text: &str) -> Result<Ask, AllocError> {
    Ok(Ask::Authenticate {
        user,
        service,
        proof: Proof::Plain(Typed::new(Bytes::from_slice(alloc, text.as_bytes())?)),
    })
}

/// `login NAME PASSWORD`, `enable NAME PASSWORD`, `run NAME LINE`, `serve NAME SERVICE PROTOCOL`,
/// perhaps without the last word, or `record NAME KIND TASK SECONDS LINE`, perhaps without it too.
pub(crate) fn ask(alloc: Global, words: &str) -> Result<Ask, Fail> {
    let (verb, rest) = word(words);
    let (name, text) = word(rest);
    let user = Bytes::from_slice(alloc, name.as_bytes())?;
    match verb {
        "login" => Ok(proves(alloc, user, Service::LOGIN, text)?),
        "enable" => Ok(proves(alloc, user, Service::ENABLE, text)?),
        "record" => account(alloc, user, text),
        "serve" => {
            let (service, protocol) = word(text);
            Ok(Ask::Serve {
                user,
                service: Bytes::from_slice(alloc, service.as_bytes())?,
                protocol: some(alloc, protocol)?,
            })
        }
        _ => Ok(Ask::Authorise {
            user,
            line: Bytes::from_slice(alloc, text.as_bytes())?,
        }),
    }
}
