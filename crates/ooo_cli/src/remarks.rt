use ooo_front::Refused;
use ooo_messages::{
    Breach, TextRefusal, code_reason, explain, explain_ending, explain_stop, segments_reason,
    stop_reason, words_reason,
};
use ooo_sim::{Failure, MOST_BYTES, Outcome, Refusal, Verdict};
use ooo_words::WordsError;
use std::alloc::{AllocError, Global};

// The commands that read a model.
const READING: [&str; 4] = ["plain", "run", "check", "tables"];

/// What a call has read, and what it has written last.
#[derive(Clone, Copy)]
pub struct Seen<'a> {
    /// The text, or nothing where there was no memory to keep it.
    pub source: &'a [u8],
    /// The last bytes that were written.
    pub last: &'a [u8],
}

impl<'a> Seen<'a> {
    // The last line that was written, without its end.
    fn last_line(&self) -> Option<&'a str> {
        let lines = self.last.strip_suffix(b"\n")?;
        let line = lines.rsplit(|byte| *byte == b'\n').next()?;
        str::from_utf8(line).ok()
    }
}

/// Says that a model is read from the terminal, where the words may ask for that.
pub fn remark_terminal(rt: &impl Eprint, words: &[String]) {
    if words
        .first()
        .is_some_and(|word| READING.contains(&word.as_str()))
    {
        say(
            rt,
            "reading a model from standard input, up to its end (Ctrl-D)",
        );
    }
}

/// Says in words why there is no report, or not all of it: by how the call ended, and by what was read and written.
pub fn remark(rt: &impl Eprint, alloc: Global, outcome: &Outcome, seen: &Seen<'_>) {
    match outcome {
        Outcome::Replied(Verdict::Done) => {}
        Outcome::Replied(Verdict::Faulted | Verdict::LimitReached) => {
            remark_ending(rt, alloc, seen);
        }
        Outcome::Replied(Verdict::Refused(why)) => remark_refusal(rt, alloc, why, seen),
        Outcome::Failed(Failure::Source) => say(rt, "standard input can't be read"),
        Outcome::Failed(Failure::Sink) => say(rt, "standard output can't be written"),
        Outcome::Failed(Failure::OutOfMemory) => say(rt, "out of memory"),
    }
}

/// Says that the words could not be had, since one of them is no UTF-8.
pub fn remark_no_utf8(rt: &impl Eprint) {
    say(rt, "the words are refused: one of them is no UTF-8");
    say_use(rt);
}

/// Says that there was no memory for the words.
pub fn remark_no_memory(rt: &impl Eprint) {
    say(rt, "out of memory");
}

fn remark_refusal(rt: &impl Eprint, alloc: Global, why: &Refusal, seen: &Seen<'_>) {
    match why {
        Refusal::Words(error) => {
            remark_words(rt, error);
            say_use(rt);
        }
        Refusal::TooLong => {
            let _ = eprintln!(rt; "peljouk: the text has more than {MOST_BYTES} bytes");
        }
        Refusal::Text(why) => remark_text(rt, alloc, why, seen),
        Refusal::StopMissing => {
            if !is_said(rt, explain_stop(alloc, seen.source)) {
                say_refused(rt, stop_reason());
            }
            say_use(rt);
        }
    }
}

// Says what is wrong with the words.
fn remark_words(rt: &impl Eprint, error: &WordsError) {
    let WordsError::Refused(breach, word) = error else {
        return;
    };
    let reason = words_reason(*breach);
    let word = word
        .as_ref()
        .and_then(|word| str::from_utf8(word.as_bytes()).ok());
    match word {
        Some(word) => {
            let _ = eprintln!(rt; "peljouk: the words are refused: {reason}: {word}");
        }
        None => say_refused(rt, reason),
    }
}

fn say_refused(rt: &impl Eprint, reason: &str) {
    let _ = eprintln!(rt; "peljouk: the words are refused: {reason}");
}

// Says why a text is refused: at its place, or by its code or segments, which have none.
fn remark_text(rt: &impl Eprint, alloc: Global, why: &Refused, seen: &Seen<'_>) {
    let refusal = match why {
        Refused::Lexer(breach, at) => TextRefusal::new(Breach::Lexer(*breach), *at),
        Refused::Parser(breach, at) => TextRefusal::new(Breach::Parser(*breach), *at),
        Refused::Types(breach, at) => TextRefusal::new(Breach::Types(*breach), *at),
        Refused::Elaborate(why) => TextRefusal {
            breach: Breach::Elaborate(why.what),
            at: why.at,
            names: why.names.as_slice(),
        },
        Refused::CodeTooLarge => return say_text(rt, code_reason()),
        Refused::TooManySegments => return say_text(rt, segments_reason()),
        Refused::OutOfMemory => return say(rt, "out of memory"),
    };
    match explain(alloc, seen.source, &refusal) {
        Ok(text) => {
            let _ = eprint!(rt; "{text}");
        }
        Err(AllocError) => say_text(
            rt,
            "the text is refused, as the line on standard output says",
        ),
    }
}

fn say_text(rt: &impl Eprint, reason: &str) {
    let _ = eprintln!(rt; "<stdin>: error: {reason}");
}

// Says what ended a run before its time.
fn remark_ending(rt: &impl Eprint, alloc: Global, seen: &Seen<'_>) {
    let message = match seen.last_line() {
        Some(line) => explain_ending(alloc, seen.source, line),
        None => Ok(None),
    };
    if !is_said(rt, message) {
        say(
            rt,
            "the run ended by a fault or a limit, which the report's last line names",
        );
    }
}

// Says a message, and whether there is one.
fn is_said(rt: &impl Eprint, message: Result<Option<String>, AllocError>) -> bool {
    match message {
        Ok(Some(text)) => {
            let _ = eprint!(rt; "{text}");
            true
        }
        _ => false,
    }
}

fn say(rt: &impl Eprint, text: &str) {
    let _ = eprintln!(rt; "peljouk: {text}");
}

// A line for each command.
fn say_use(rt: &impl Eprint) {
    let _ = eprintln!(rt;
        "usage: peljouk plain [--stop TIME] [--deltas N] [--statements N] <model.cpp"
    );
    let _ = eprintln!(rt;
        "       peljouk run [--stop TIME] [--workers N] [--deltas N] [--statements N] <model.cpp"
    );
    let _ = eprintln!(rt; "       peljouk check <model.cpp");
    let _ = eprintln!(rt; "       peljouk tables <model.cpp");
    let _ = eprintln!(rt; "       peljouk bench [--stages N] [--items N] [--seed N] [--workers N]");
}
