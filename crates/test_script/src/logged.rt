//! What a run of a row's script writes, flushes and asks of the shelf, in this order.
use crate::left::Flushing;
use crate::log::{LoggedShelf, LoggedWriter};
use crate::observer::{MemoryObserver, SeenEvent};
use crate::pieces::Pieces;
use crate::row::editor_of;
use s2calc::{AnswerBuffer, AtTheEnd, NoNotes, Promptly, Unobserved, run, run_with};
use std::alloc::{AllocError, Global};
use std::cell::RefCell;
use test_table::{add_line, script_of};

/// Adds the log of a run whose script is read at once and whose answers are buffered.
pub fn add_log(
    alloc: Global,
    lines: &[&str],
    flushing: Flushing,
    found: &mut Vec<u8>,
) -> Result<(), AllocError> {
    let log = RefCell::new(Vec::new(alloc));
    log_run(alloc, lines, flushing, &log)?;
    match log.try_borrow() {
        Ok(bytes) => found.extend_from_slice(bytes.as_slice())?,
        Err(_) => return Err(AllocError),
    }
    found.push(b'\n')?;
    Ok(())
}

/// Adds what an observer sees of a run over reads of this many bytes: for each read how many bytes it gave, and where
/// each line begins and ends.
pub fn add_seen(
    alloc: Global,
    lines: &[&str],
    size: usize,
    found: &mut Vec<u8>,
) -> Result<(), AllocError> {
    let script = script_of(alloc, lines)?;
    let log = RefCell::new(Vec::new(alloc));
    let mut observer = MemoryObserver::new(alloc);
    let _ = run_with::<_, _, AtTheEnd, _, _>(
        alloc,
        &mut editor_of(alloc, lines)?,
        &mut Pieces::of(alloc, &script, size, 0),
        &mut LoggedWriter { log: &log },
        &mut shelf_with(alloc, &log),
        &mut NoNotes,
        &mut observer,
        false,
    );
    let Some(moments) = observer.moments() else {
        return Err(AllocError);
    };
    for moment in moments {
        add_event(alloc, &moment.event, found)?;
    }
    Ok(())
}

/// Adds a line of what was seen.
fn add_event(alloc: Global, event: &SeenEvent, found: &mut Vec<u8>) -> Result<(), AllocError> {
    match event {
        SeenEvent::Came(bytes) => add_line(found, &format!(in alloc; "read {}", bytes.len())?),
        SeenEvent::ReadFailed => add_line(found, "no read"),
        SeenEvent::LineBegins => add_line(found, "begin"),
        SeenEvent::LineEnds => add_line(found, "end"),
    }
}

/// A shelf without files that logs its calls.
fn shelf_with(alloc: Global, log: &RefCell<Vec<u8>>) -> LoggedShelf<'_> {
    LoggedShelf {
        alloc,
        log,
        failures: 0,
    }
}

/// Runs the script over a writer and a shelf that log their calls.
fn log_run(
    alloc: Global,
    lines: &[&str],
    flushing: Flushing,
    log: &RefCell<Vec<u8>>,
) -> Result<(), AllocError> {
    let script = script_of(alloc, lines)?;
    let mut editor = editor_of(alloc, lines)?;
    let mut reader = script.as_slice();
    let Ok(mut writer) = AnswerBuffer::new(alloc, LoggedWriter { log }) else {
        return Err(AllocError);
    };
    let mut shelf = shelf_with(alloc, log);
    let _ = match flushing {
        Flushing::Promptly => run_with::<_, _, Promptly, _, _>(
            alloc,
            &mut editor,
            &mut reader,
            &mut writer,
            &mut shelf,
            &mut NoNotes,
            &mut Unobserved::<&[u8]>::new(),
            false,
        ),
        Flushing::AtTheEnd => run(alloc, &mut editor, &mut reader, &mut writer, &mut shelf),
    };
    Ok(())
}
