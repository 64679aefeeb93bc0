ghost use Rattle.std.specs.Prelude.{◌≡◌, ◌≢◌, ◌++◌, decimal, IfOk, OnOk};
ghost use Rattle.ooo_front.specs.declared.answer.Refused.TheVariants as front;
ghost use Rattle.ooo_sim.specs.Lines.{elaborate_line, layer_head, layer_line, names_text, refusal_line, text_line};
ghost use Rattle.ooo_sim.specs.declared.outcome.Refusal.TheVariants as refusal;

use crate::outcome::Refusal;
use itoa::Buffer;
use ooo_front::Refused;
use ooo_lexer::Position;
use ooo_value::Name;
use ooo_words::{WordsError, refusal};
use std::alloc::{AllocError, Global};

/// The line of a refusal. Want of memory has none.
pub(crate) fn refusal_line(alloc: Global, why: &Refusal) -> Result<Vec<u8>, AllocError>
    ensures line { IfOk result (λ line. line.items ≡ refusal_line why.now) }
    ensures refused { OnOk result (why.now ≢ refusal.Text front.OutOfMemory) }
{
    match why {
        Refusal::Words(WordsError::OutOfMemory) => Err(AllocError),
        Refusal::Words(error) => refusal(alloc, error),
        Refusal::TooLong => Vec::from_slice(alloc, b"refused source TooLong\n"),
        Refusal::Text(why) => text_line(alloc, why),
        Refusal::StopMissing => Vec::from_slice(alloc, b"refused words StopMissing\n"),
    }
}

// The line of a text that is refused. Want of memory has none.
fn text_line(alloc: Global, why: &Refused) -> Result<Vec<u8>, AllocError>
    ensures line { IfOk result (λ line. line.items ≡ text_line why.now) }
    ensures refused { OnOk result (why.now ≢ front.OutOfMemory) }
{
    match why {
        Refused::Lexer(breach, at) => layer_line(alloc, "lexer", breach.name(), *at),
        Refused::Parser(breach, at) => layer_line(alloc, "parser", breach.name(), *at),
        Refused::Types(breach, at) => layer_line(alloc, "types", breach.name(), *at),
        Refused::Elaborate(why) => elaborate_line(alloc, why),
        Refused::CodeTooLarge => Vec::from_slice(alloc, b"refused lower CodeTooLarge\n"),
        Refused::TooManySegments => {
            Vec::from_slice(alloc, b"refused segments TooManySegments\n")
        }
        Refused::OutOfMemory => Err(AllocError),
    }
}

// The line of a layer.
fn layer_line(alloc: Global, layer: &str, name: &str, at: Position) -> Result<Vec<u8>, AllocError>
    ensures { IfOk result (λ line. line.items ≡ layer_line layer.now name.now at) }
{
    let mut line = layer_head(alloc, layer, name, at)?;
    keeping!(line; line.extend_from_slice(b"\n"));
    Ok(line)
}

// The line of a layer without its end: the names of the layer and of what is wrong, and where that is.
fn layer_head(alloc: Global, layer: &str, name: &str, at: Position) -> Result<Vec<u8>, AllocError>
    ensures { IfOk result (λ line. line.items ≡ layer_head layer.now name.now at) }
{
    let mut line = Vec::new(alloc);
    keeping!(line; add_part(&mut line, b"refused ", layer.as_bytes()));
    keeping!(line; add_part(&mut line, b" ", name.as_bytes()));
    keeping!(line; add_number(&mut line, b" ", at.line as u128));
    keeping!(line; add_number(&mut line, b":", at.column as u128));
    Ok(line)
}

/// Adds a text and a number behind it.
pub(crate) fn add_number(line: &mut Vec<u8>, lead: &[u8], number: u128) -> Result<(), AllocError>
    ensures { OnOk result (line.new.items ≡ line.old.items ++ lead.now ++ decimal number) }
{
    add_part(line, lead, Buffer::new().format(number).as_bytes())
}

// Adds a text and a part behind it.
fn add_part(line: &mut Vec<u8>, lead: &[u8], part: &[u8]) -> Result<(), AllocError>
    ensures { OnOk result (line.new.items ≡ line.old.items ++ lead.now ++ part.now) }
{
    line.extend_from_slice(lead)?;
    line.extend_from_slice(part)
}

// Adds names, each behind a space.
fn add_names(names: &[Name], line: &mut Vec<u8>) -> Result<(), AllocError>
    ensures { OnOk result (line.new.items ≡ line.old.items ++ names_text names.now) }
{
    'parts: for e in names {
        line.push(b' ')?;
        line.extend_from_slice(e.as_bytes())?;
    }
    Ok(())
}

// The line of elaboration, which names what it is about.
fn elaborate_line(alloc: Global, refusal: &ooo_walk::Refusal) -> Result<Vec<u8>, AllocError>
    ensures { IfOk result (λ line. line.items ≡ elaborate_line refusal.now) }
{
    let mut line = layer_head(alloc, "elaborate", refusal.what.name(), refusal.at)?;
    keeping!(line; add_names(refusal.names.as_slice(), &mut line));
    keeping!(line; line.extend_from_slice(b"\n"));
    Ok(line)
}
